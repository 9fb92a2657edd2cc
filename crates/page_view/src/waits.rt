//! Where nodes wait.

ghost use Rattle.std.specs.Prelude.{◌≡◌, ◌++◌, OnOk};
ghost use Rattle.page_events.specs.run_trace.Given.{traced_of};
ghost use Rattle.page_view.specs.Waits as model;

use block_layout::Layout;
use page_events::run_trace::{Traced, is_miss};
use page_events::{
    Shown, Sought, Spot, down_from, down_to, goes_on, line_of, own_row, push_count, push_spot,
    row_of,
};
use std::alloc::AllocError;

/// A wait of a node: from the row where it misses, if the page has it, to that where it goes on.
#[derive(Clone, Copy)]
pub(crate) struct DrawnWait {
    pub node: u8,
    pub from: Option<u16>,
    pub to: Option<u16>,
}

/// The wait that begins by an event, or ends by it and began before the page.
fn wait_of(shown: &Shown, event: &Traced) -> Option<DrawnWait>
    ensures { result ≡ model.wait_of shown.now.events (traced_of event.now) }
{
    let node = event.node;
    let row = own_row(shown, event);
    let stamp = event.stamp;
    if is_miss(&event.what) {
        let to = row_of(shown, Sought::GoesOn { node, after: stamp });
        return Some(DrawnWait {
            node,
            from: row,
            to,
        });
    }
    let sought = Sought::Misses {
        node,
        before: stamp,
    };
    if goes_on(&event.what) && row_of(shown, sought).is_none() {
        return Some(DrawnWait {
            node,
            from: None,
            to: row,
        });
    }
    None
}

/// Where the drawing of a wait begins.
fn start_of(layout: &Layout, wait: DrawnWait) -> Spot
    ensures { result ≡ model.start_of layout.now.nodes wait }
{
    Spot {
        x: line_of(layout, wait.node),
        y: down_from(wait.from),
    }
}

/// Appends the drawing of a wait: a bar on the node's line.
fn push_wait(
    out: &mut Vec<u8>,
    layout: &Layout,
    shown: &Shown,
    wait: DrawnWait,
) -> Result<(), AllocError>
    ensures { OnOk result (out.new.items
        ≡ out.old.items ++ model.wait_text layout.now.nodes shown.now.events wait) }
{
    out.extend_from_slice(b"<path class='wait' d='M")?;
    push_spot(out, start_of(layout, wait))?;
    out.extend_from_slice(b"V")?;
    push_count(out, down_to(shown, wait.to))?;
    out.extend_from_slice(b"'/>\n")
}

/// Appends the drawing of an event's wait, if it has one.
fn push_wait_of(
    out: &mut Vec<u8>,
    layout: &Layout,
    shown: &Shown,
    event: &Traced,
) -> Result<(), AllocError>
    ensures { OnOk result (out.new.items ≡ out.old.items
        ++ model.wait_text_of layout.now.nodes shown.now.events (traced_of event.now)) }
{
    match wait_of(shown, event) {
        Some(wait) => push_wait(out, layout, shown, wait),
        None => Ok(()),
    }
}

/// Appends the drawings of the waits.
pub(crate) fn push_waits(
    out: &mut Vec<u8>,
    layout: &Layout,
    shown: &Shown,
) -> Result<(), AllocError>
    ensures { OnOk result (out.new.items
        ≡ out.old.items ++ model.waits_text layout.now.nodes shown.now.events) }
{
    for event in shown.events() {
        push_wait_of(out, layout, shown, event)?;
    }
    Ok(())
}
