//! What stands on every page.

ghost use Rattle.std.specs.Prelude.{◌≡◌, ◌++◌, OnOk};
ghost use Rattle.page_view.specs.Frame as model;

use std::alloc::AllocError;

/// A text that stands on every page.
#[derive(Clone, Copy)]
pub(crate) enum Fixed {
    /// What stands before the title.
    Top,
    /// The head of the table of blocks.
    Table,
    /// Where the diagram begins.
    Opening,
    /// The command line of a page from a stamp on.
    Command,
    /// Where the page ends.
    End,
    /// Colours and sizes.
    Style,
    /// The drawings of marks.
    Marks,
    /// What the drawings mean.
    Legend,
    /// How the page is read.
    Notes,
    /// What stands above the columns of the diagram.
    Columns,
    /// The head of an arrow, and the ground of the rows.
    Drawings,
}

/// The bytes of such a text.
fn bytes_of(part: Fixed) -> &'static [u8]
    ensures { result.now ≡ model.fixed_text part }
{
    match part {
        Fixed::Top => TOP.as_bytes(),
        Fixed::Table => TABLE.as_bytes(),
        Fixed::Opening => OPENING.as_bytes(),
        Fixed::Command => COMMAND.as_bytes(),
        Fixed::End => END.as_bytes(),
        Fixed::Style => STYLE.as_bytes(),
        Fixed::Marks => MARKS.as_bytes(),
        Fixed::Legend => LEGEND.as_bytes(),
        Fixed::Notes => NOTES.as_bytes(),
        Fixed::Columns => COLUMNS.as_bytes(),
        Fixed::Drawings => DRAWINGS.as_bytes(),
    }
}

/// Appends such a text.
pub(crate) fn push_fixed(out: &mut Vec<u8>, part: Fixed) -> Result<(), AllocError>
    ensures { OnOk result (out.new.items ≡ out.old.items ++ model.fixed_text part) }
{
    out.extend_from_slice(bytes_of(part))
}

/// What stands before the title.
const TOP: &str = concat!(
    "<!DOCTYPE html>\n<html lang='en'>\n<head>\n<meta charset='utf-8'>\n",
    "<meta name='viewport' content='width=device-width'>\n<title>",
);

/// The head of the table of blocks.
const TABLE: &str = concat!(
    "<table>\n<caption>Blocks of these events</caption>\n<thead><tr><th>Block</th>",
    "<th>Addresses</th><th>Home</th><th>Misses</th><th>Messages</th></tr></thead>\n<tbody>\n",
);

/// Where the diagram begins.
const OPENING: &str = concat!(
    "<svg role='group' aria-label='Events' aria-describedby='legend' ",
    "width='776' height='",
);

/// The command line of a page from a stamp on.
const COMMAND: &str = concat!("shasta_view page IN RECORD OUT ", "--from ",);

/// Where the page ends.
const END: &str = concat!("</div>\n</main>\n", "</body>\n</html>\n",);

/// Colours and sizes.
const STYLE: &str = concat!(
    "body{margin:12px;font:14px/1.4 system-ui,sans-serif;color:#111;background:#fff}\n",
    "h1{font-size:20px;margin:0 0 4px}p{margin:4px 0}code{font-size:13px}\n",
    "svg{display:block;font-size:11.5px;overflow:visible}text{dominant-baseline:central}\n",
    ".heads{position:sticky;top:0;background:#fff;border-bottom:1px solid #999}\n",
    ".heads text{font-weight:600}.node{text-anchor:middle}.stamp{text-anchor:end;fill:#555}\n",
    ".line{stroke:#888;fill:none}.wait{stroke:#fbe3a6;stroke-width:14;fill:none}\n",
    ".message{stroke:var(--c);fill:none;stroke-width:1.4;outline:none}\n",
    ".message text{fill:var(--c);stroke:#fff;stroke-width:3.5;paint-order:stroke;\n",
    "font-weight:600;transform:translate(20px,0)}\n",
    ".way{marker-end:url(#head)}.broad{stroke:transparent;stroke-width:12}\n",
    ".asks{--c:#1849b0}.passes{--c:#a8300f}.answers{--c:#0b6b2e}.ends{--c:#595959}\n",
    ".ends .way{stroke-dasharray:4 3}tspan{font-weight:700}.miss text{fill:#a00000}\n",
    "svg:has(.message:hover) .message:not(:hover),\n",
    "svg:has(.message:focus) .message:not(:focus){opacity:.12}\n",
    ".message:hover .way,.message:focus .way{stroke-width:2.8}\n",
    "table{border-collapse:collapse;font-size:13px;margin:12px 0}\n",
    "caption{text-align:left;font-weight:600}\n",
    "th,td{border-bottom:1px solid #ccc;padding:2px 0 2px 10px;text-align:right}\n",
    "td:nth-child(2),th:nth-child(2){text-align:left;font-family:ui-monospace,monospace}\n",
    "dl{display:grid;grid-template-columns:36px 1fr 36px 1fr;gap:0 8px;\n",
    "align-items:center;margin:8px 0;font-size:13px}dt svg{width:36px;height:24px}dd{margin:0}\n",
    "@media(min-width:1180px){main{display:grid;grid-template-columns:776px 1fr;gap:28px}\n",
    "aside{order:1;position:sticky;top:0;align-self:start}dl{grid-template-columns:36px 1fr}}\n",
    "@media print{.heads,aside{position:static}*{print-color-adjust:exact}}\n",
);

/// The drawings of marks.
const MARKS: &str = concat!(
    "<svg width='0' height='0' aria-hidden='true' style='position:absolute'><defs>\n",
    "<g id='e'><path d='M-7-7H7V7H-7z' fill='#8fd19e' stroke='#111'/>\n",
    "<text class='node'>E</text></g>\n",
    "<g id='s'><path d='M-7-7H7V7H-7z' fill='#a9c8f5' stroke='#111'/>\n",
    "<text class='node'>S</text></g>\n",
    "<g id='i'><path d='M-7-7H7V7H-7z' fill='#fff' stroke='#111'/>\n",
    "<text class='node'>I</text></g>\n",
    "<g id='p'><path d='M-7-7H7V7H-7z' fill='#f4c255' stroke='#111'/>\n",
    "<text class='node'>P</text></g>\n",
    "<g id='miss'><circle r='12' fill='none' stroke='#c00000' stroke-width='2.5'/></g>\n",
    "<g id='miss-e'><use href='#e'/><use href='#miss'/></g>\n",
    "<g id='miss-s'><use href='#s'/><use href='#miss'/></g>\n",
    "<g id='miss-i'><use href='#i'/><use href='#miss'/></g>\n",
    "<g id='miss-p'><use href='#p'/><use href='#miss'/></g>\n",
    "<circle id='reads' r='4' fill='#fff' stroke='#111' stroke-width='1.5'/>\n",
    "<circle id='writes' r='4.5' fill='#111'/>\n",
    "<path id='acts' d='M-5 0H5' stroke='#111' stroke-width='2'/></defs></svg>\n",
);

/// What the drawings mean.
const LEGEND: &str = concat!(
    "<dl id='legend'>\n",
    "<dt><svg><use href='#e' x='18' y='12'/></svg></dt>\n",
    "<dd>exclusive: the node may read and write the block</dd>\n",
    "<dt><svg><use href='#s' x='18' y='12'/></svg></dt>\n",
    "<dd>shared: it may read</dd>\n",
    "<dt><svg><use href='#i' x='18' y='12'/></svg></dt>\n",
    "<dd>invalid: it may do neither</dd>\n",
    "<dt><svg><use href='#p' x='18' y='12'/></svg></dt>\n",
    "<dd>pending: it has asked for the block</dd>\n",
    "<dt><svg><use href='#miss' x='18' y='12'/></svg></dt>\n",
    "<dd>a miss, around the state before it</dd>\n",
    "<dt><svg><path class='wait' d='M18 0V24'/></svg></dt>\n",
    "<dd>the node waits</dd>\n",
    "<dt><svg><use href='#reads' x='18' y='12'/></svg></dt>\n",
    "<dd>it reads</dd>\n",
    "<dt><svg><use href='#writes' x='18' y='12'/></svg></dt>\n",
    "<dd>it writes</dd>\n",
    "<dt><svg><g class='message asks'><path class='way' d='M2 12H40'/></g></svg></dt>\n",
    "<dd>Read, Write: it asks the home</dd>\n",
    "<dt><svg><g class='message passes'><path class='way' d='M2 12H40'/></g></svg></dt>\n",
    "<dd>FwdRead, FwdWrite, Inval: the home passes it on</dd>\n",
    "<dt><svg><g class='message answers'><path class='way' d='M2 12H40'/></g></svg></dt>\n",
    "<dd>Data, Grant, Ack: an answer</dd>\n",
    "<dt><svg><g class='message ends'><path class='way' d='M2 12H40'/></g></svg></dt>\n",
    "<dd>Done, Bye: an end</dd>\n",
    "</dl>\n",
);

/// How the page is read.
const NOTES: &str = concat!(
    "<p>A box has the state, behind an event, of the block that the event is about. An arrow\n",
    "from the upper edge was sent before these events; one to the lower edge is not taken\n",
    "among them. Point at a message, or go to it by the Tab key, and the others fade; point\n",
    "at a row to read all of its event.</p>\n",
);

/// What stands above the columns of the diagram.
const COLUMNS: &str = concat!(
    "<div class='heads'><svg width='776' height='40' aria-hidden='true'>\n",
    "<text class='stamp' x='44' y='30'>stamp</text>\n",
    "<text class='node' x='216' y='12'>nodes</text>\n",
    "<text x='440' y='30'>node, and what it did</text>\n",
);

/// The head of an arrow, and the ground of the rows.
const DRAWINGS: &str = concat!(
    "<defs><marker id='head' viewBox='0 0 8 8' refX='14' refY='4' orient='auto'\n",
    "markerWidth='8' markerHeight='8' markerUnits='userSpaceOnUse'>",
    "<path d='M0 0L8 4L0 8z' fill='context-stroke' stroke='none'/></marker>\n",
    "<pattern id='rows' width='776' height='36' patternUnits='userSpaceOnUse'>",
    "<path d='M0 18H776' stroke='#f3f4f6' stroke-width='18'/></pattern></defs>\n",
    "<rect width='776' height='100%' fill='url(#rows)'/>\n",
);
