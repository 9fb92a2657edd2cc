//! The viewer's own text.

/// How the viewer is called.
pub(crate) const USAGE: &str = concat!(
    "usage: shasta_view code IN [--verify FILE | --no-batch]\n",
    "       shasta_view cost IN [RECORD] [--verify FILE | --no-batch]\n",
    "       shasta_view trace IN RECORD [--verify FILE] [--from S] [--to S]",
    " [--block 0xA] [--node I]\n",
    "       shasta_view blocks IN RECORD [--verify FILE]\n",
    "       shasta_view page IN RECORD OUT [--verify FILE] [--from S] [--to S]\n",
    "       shasta_view time IN [--nodes N] [--budget B] [--layout FILE]",
    " [--verify FILE | --no-batch] [--latency L] [--line P] [--handling H]\n",
    "       shasta_view speedup IN OUT [--nodes N] [--budget B] [--layout FILE]",
    " [--verify FILE | --no-batch] [--latency L] [--line P] [--handling H]\n",
    "       shasta_view gdb IN RECORD [--verify FILE] [--memory M]\n",
    "       shasta_view --help\n",
);
