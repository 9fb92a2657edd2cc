//! What stands on every page.

ghost use Rattle.std.specs.Prelude.{◌≡◌, ◌++◌, OnOk};
ghost use Rattle.speedup_page.specs.Frame as model;

use std::alloc::AllocError;

/// A text that stands on every page.
#[derive(Clone, Copy)]
pub(crate) enum Fixed {
    /// What stands before the title.
    Top,
    /// Colours and sizes.
    Style,
    /// Where the chart begins.
    Chart,
    /// Where the bars begin.
    Bars,
    /// What the parts of the bars mean.
    Legend,
    /// The head of the table.
    Table,
    /// How the page is read.
    Notes,
    /// Where the page ends.
    End,
}

/// The bytes of such a text.
pub(crate) fn bytes_of(part: Fixed) -> &'static [u8]
    ensures { result.now ≡ model.fixed_text part }
{
    match part {
        Fixed::Top => TOP.as_bytes(),
        Fixed::Style => STYLE.as_bytes(),
        Fixed::Chart => CHART.as_bytes(),
        Fixed::Bars => BARS.as_bytes(),
        Fixed::Legend => LEGEND.as_bytes(),
        Fixed::Table => TABLE.as_bytes(),
        Fixed::Notes => NOTES.as_bytes(),
        Fixed::End => END.as_bytes(),
    }
}

/// Appends such a text.
pub(crate) fn push_fixed(out: &mut Vec<u8>, part: Fixed) -> Result<(), AllocError>
    ensures { OnOk result (out.new.items ≡ out.old.items ++ model.fixed_text part) }
{
    out.extend_from_slice(bytes_of(part))
}

/// What stands before the title.
const TOP: &str = concat!(
    "<!DOCTYPE html>\n<html lang='en'>\n<head>\n<meta charset='utf-8'>\n",
    "<meta name='viewport' content='width=device-width'>\n<title>",
);

/// Colours and sizes.
const STYLE: &str = concat!(
    "body{margin:12px;font:14px/1.4 system-ui,sans-serif;color:#111;background:#fff}\n",
    "main{max-width:776px}h1{font-size:20px;margin:0 0 4px}h2{font-size:16px;margin:16px 0 4px}\n",
    "p{margin:4px 0}code{font-size:13px}svg{display:block;font-size:12px;overflow:visible}\n",
    "text{dominant-baseline:central}.node{text-anchor:middle}.scale{text-anchor:end;fill:#333}\n",
    ".grid{stroke:#ccc;fill:none}.ideal{stroke:#555;stroke-dasharray:6 4;fill:none}\n",
    ".line{stroke:#12507a;stroke-width:2.2;fill:none}.mark{fill:#12507a}\n",
    ".value{font-weight:600;stroke:#fff;stroke-width:3;paint-order:stroke}\n",
    "rect{stroke:#111;stroke-width:.8}.steps{fill:#123}.checks{fill:#78909c}\n",
    ".reads{fill:url(#reads)}.writes{fill:url(#writes)}.handles{fill:#bbb}.idles{fill:#fff}\n",
    "table{border-collapse:collapse;font-size:13px}caption{text-align:left;font-weight:600}\n",
    "th,td{border-bottom:1px solid #ccc;padding:2px 0 2px 12px;text-align:right;\n",
    "vertical-align:top}small{display:block;color:#444}\n",
    "dl{display:flex;flex-wrap:wrap;gap:4px 6px;align-items:center;margin:6px 0 0 88px}\n",
    "dt svg{width:28px;height:18px}dd{margin:0 12px 0 0;font-size:13px}\n",
    "@media print{*{print-color-adjust:exact}}\n",
);

/// Where the chart begins.
const CHART: &str = concat!(
    "<h2>Speed-up over the original on one processor</h2>\n",
    "<svg role='img' aria-label='Speed-up by the number of nodes' width='776' height='376'>\n",
    "<defs><pattern id='reads' width='6' height='6' patternUnits='userSpaceOnUse'>\n",
    "<path d='M0 0H6V6H0z' fill='#cfe3f3'/><path d='M-1 7L7-1' stroke='#12507a'/></pattern>\n",
    "<pattern id='writes' width='6' height='6' patternUnits='userSpaceOnUse'>\n",
    "<path d='M0 0H6V6H0z' fill='#f7d9b0'/><circle cx='3' cy='3' r='1.5' fill='#7a3d00'/>\n",
    "</pattern></defs>\n<text class='node' x='376' y='368'>nodes</text>\n",
);

/// Where the bars begin.
const BARS: &str = concat!(
    "<h2>Where the time of all nodes goes</h2>\n",
    "<svg role='img' aria-label='Shares of the time of all nodes' width='776' height='",
);

/// What the parts of the bars mean.
const LEGEND: &str = concat!(
    "<dl>\n<dt><svg><rect class='steps' width='28' height='18'/></svg></dt>",
    "<dd>words of the original</dd>\n",
    "<dt><svg><rect class='checks' width='28' height='18'/></svg></dt>",
    "<dd>words that checks add</dd>\n",
    "<dt><svg><rect class='reads' width='28' height='18'/></svg></dt><dd>waits to read</dd>\n",
    "<dt><svg><rect class='writes' width='28' height='18'/></svg></dt><dd>waits to write</dd>\n",
    "<dt><svg><rect class='handles' width='28' height='18'/></svg></dt><dd>handling</dd>\n",
    "<dt><svg><rect class='idles' width='28' height='18'/></svg></dt><dd>idle</dd>\n</dl>\n",
);

/// The head of the table.
const TABLE: &str = concat!(
    "<h2>The numbers</h2>\n<table>\n<thead><tr><th>Nodes</th><th>Time</th><th>Speed-up</th>",
    "<th>Words</th><th>Of the original</th><th>Waits to read</th><th>Waits to write</th>",
    "<th>Handling</th><th>Idle</th></tr></thead>\n<tbody>\n",
);

/// How the page is read.
const NOTES: &str = concat!(
    "<p>The unit of time is what a node takes for one word of rewritten code. The speed-up is how\n",
    "many steps of the original, as one processor makes them on one memory, there are for each\n",
    "unit of the time of a run, rounded down. On the dashed line so many nodes are so many times\n",
    "as fast. What all nodes of a run spend is their number times the time of the run; its shares\n",
    "are rounded down. Each step of the original is committed by one word; checks add the\n",
    "others. The share of the words of the original is of all words. Where a row says stopped,\n",
    "the budget stopped a processor; where it says ebreak, illegal, misaligned, access or fetch, a\n",
    "processor ended by that trap. All times are those of a model: each word takes 1, and no way\n",
    "between two nodes is ever full.</p>\n",
);

/// Where the page ends.
const END: &str = concat!("</main>\n</body>", "\n</html>\n",);
