//! The program's own text.

/// How the program is called.
pub const USAGE: &str = concat!(
    "usage: shasta rewrite IN OUT [--no-batch]\n",
    "       shasta list IN\n",
    "       shasta one IN [--nodes N] [--order K] [--budget B] [--layout FILE]\n",
    "       shasta sim IN [--nodes N] [--order K] [--budget B] [--layout FILE]",
    " [--code FILE | --verify FILE] [--no-batch] [--brief] [--loss L] [--per-node M]\n",
    "       shasta run IN [--nodes N] [--record FILE] [--budget B] [--layout FILE]",
    " [--code FILE | --verify FILE] [--no-batch] [--brief]\n",
    "       shasta replay IN RECORD [--verify FILE] [--brief]\n",
    "       shasta gen NUMBER OUT\n",
    "       shasta asm TEXT OUT\n",
);
