//! The messages, as arrows from where they are sent to where they are taken.

ghost use Rattle.std.specs.Prelude.{◌≡◌, ◌++◌, OnOk};
ghost use Rattle.page_events.specs.run_trace.Given.{traced_of, take_of};
ghost use Rattle.page_view.specs.Arrows as model;

use block_layout::Layout;
use dsm_messages::{Header, MessageKind, Sent};
use page_events::event_text::{message_name, push_decimal, push_header};
use page_events::run_trace::{TakeTraced, Traced, What};
use page_events::{
    Shown, Sought, Spot, down_from, down_to, line_of, own_row, push_at, push_count, push_escaped,
    push_node, push_spot, row_of,
};
use std::alloc::{AllocError, Global};

/// A message: between which nodes, and in which rows it is sent and taken, where the page has
/// these.
#[derive(Clone, Copy)]
pub(crate) struct Arrow {
    pub header: Header,
    pub from: u8,
    pub to: u8,
    pub sent: Option<u16>,
    pub taken: Option<u16>,
}

/// The arrow of a message that an event took.
fn arrow_taken(shown: &Shown, event: &Traced, take: &TakeTraced) -> Arrow
    ensures { result
        ≡ model.arrow_taken shown.now.events (traced_of event.now) (take_of take.now) }
{
    let sought = Sought::Event {
        node: take.from,
        stamp: take.sent,
    };
    Arrow {
        header: take.message,
        from: take.from,
        to: event.node,
        sent: row_of(shown, sought),
        taken: own_row(shown, event),
    }
}

/// The arrow of a message that an event sent and that isn't taken on the page.
fn arrow_under_way(shown: &Shown, event: &Traced, sent: &Sent) -> Option<Arrow>
    ensures { result ≡ model.arrow_under_way shown.now.events (traced_of event.now) sent.now }
{
    let block = sent.header.block?;
    let sought = Sought::Takes {
        node: sent.to,
        from: event.node,
        sent: event.stamp,
        block,
    };
    if row_of(shown, sought).is_some() {
        return None;
    }
    Some(Arrow {
        header: sent.header,
        from: event.node,
        to: sent.to,
        sent: own_row(shown, event),
        taken: None,
    })
}

/// What a message is for, by which it has its colour.
fn purpose_of(kind: MessageKind) -> &'static [u8]
    ensures { result.now ≡ model.purpose_of kind }
{
    match kind {
        MessageKind::Read | MessageKind::Write => b"asks",
        MessageKind::FwdRead | MessageKind::FwdWrite | MessageKind::Inval => b"passes",
        MessageKind::Data | MessageKind::Grant | MessageKind::Ack => b"answers",
        MessageKind::Done | MessageKind::Bye => b"ends",
    }
}

/// Appends a message, and between which nodes it goes.
fn push_between(out: &mut Vec<u8>, arrow: &Arrow) -> Result<(), AllocError>
    ensures { OnOk result (out.new.items ≡ out.old.items ++ model.between_text arrow.now) }
{
    push_header(out, &arrow.header)?;
    out.extend_from_slice(b" from node ")?;
    push_node(out, arrow.from)?;
    out.extend_from_slice(b" to node ")?;
    push_node(out, arrow.to)
}

/// Appends a message, and between which nodes it goes, as it is read out.
fn push_title(alloc: Global, out: &mut Vec<u8>, arrow: &Arrow) -> Result<(), AllocError>
    ensures { OnOk result (out.new.items ≡ out.old.items ++ model.title_text arrow.now) }
{
    let mut title = Vec::new(alloc);
    push_between(&mut title, arrow)?;
    out.extend_from_slice(b"<title>")?;
    push_escaped(out, &title)?;
    out.extend_from_slice(b"</title>")
}

/// Appends a place beside a node's line, 34 pixels to the right.
fn push_beside(out: &mut Vec<u8>, x: u32, y: u32) -> Result<(), AllocError>
    ensures { OnOk result (out.new.items ≡ out.old.items ++ model.beside_text x y) }
{
    push_decimal(out, u64::from(x) + 34)?;
    out.extend_from_slice(b" ")?;
    push_count(out, y)?;
    out.extend_from_slice(b" ")
}

/// Appends a bend beside a node's line, between two rows.
fn push_bow(out: &mut Vec<u8>, from: Spot, to: Spot) -> Result<(), AllocError>
    ensures { OnOk result (out.new.items ≡ out.old.items ++ model.bow_text from to) }
{
    out.extend_from_slice(b"C")?;
    push_beside(out, from.x, from.y)?;
    push_beside(out, from.x, to.y)
}

/// Appends how a path goes on to a place: straight, or beside the line of a node to that node.
fn push_bend(out: &mut Vec<u8>, from: Spot, to: Spot) -> Result<(), AllocError>
    ensures { OnOk result (out.new.items ≡ out.old.items ++ model.bend_text from to) }
{
    if from.x == to.x {
        return push_bow(out, from, to);
    }
    out.extend_from_slice(b"L")
}

/// Appends the way from a place to another.
fn push_way(out: &mut Vec<u8>, from: Spot, to: Spot) -> Result<(), AllocError>
    ensures { OnOk result (out.new.items ≡ out.old.items ++ model.way_text from to) }
{
    push_spot(out, from)?;
    push_bend(out, from, to)?;
    push_spot(out, to)
}

/// Appends the path of an arrow, of this class.
fn push_path(out: &mut Vec<u8>, class: &[u8], from: Spot, to: Spot) -> Result<(), AllocError>
    ensures { OnOk result
        (out.new.items ≡ out.old.items ++ model.path_text class.now from to) }
{
    out.extend_from_slice(b"<path class='")?;
    out.extend_from_slice(class)?;
    out.extend_from_slice(b"' d='M")?;
    push_way(out, from, to)?;
    out.extend_from_slice(b"'/>")
}

/// Appends the name of a message, at the head of its arrow.
fn push_name(out: &mut Vec<u8>, kind: MessageKind, to: Spot) -> Result<(), AllocError>
    ensures { OnOk result (out.new.items ≡ out.old.items ++ model.name_text kind to) }
{
    out.extend_from_slice(b"<text")?;
    push_at(out, to)?;
    out.extend_from_slice(b">")?;
    push_escaped(out, message_name(kind))?;
    out.extend_from_slice(b"</text>")
}

/// Appends an arrow between two places: a broad path to point at, the path itself and the name.
fn push_drawing(
    out: &mut Vec<u8>,
    kind: MessageKind,
    from: Spot,
    to: Spot,
) -> Result<(), AllocError>
    ensures { OnOk result (out.new.items ≡ out.old.items ++ model.drawing_text kind from to) }
{
    push_path(out, b"broad", from, to)?;
    push_path(out, b"way", from, to)?;
    push_name(out, kind, to)
}

/// Where an arrow begins.
fn start_of(layout: &Layout, arrow: &Arrow) -> Spot
    ensures { result ≡ model.start_of layout.now.nodes arrow.now }
{
    Spot {
        x: line_of(layout, arrow.from),
        y: down_from(arrow.sent),
    }
}

/// Where an arrow ends.
fn end_of(layout: &Layout, shown: &Shown, arrow: &Arrow) -> Spot
    ensures { result ≡ model.end_of layout.now.nodes shown.now.events arrow.now }
{
    Spot {
        x: line_of(layout, arrow.to),
        y: down_to(shown, arrow.taken),
    }
}

/// Appends the drawing of an arrow in its place.
fn push_placed(
    out: &mut Vec<u8>,
    layout: &Layout,
    shown: &Shown,
    arrow: &Arrow,
) -> Result<(), AllocError>
    ensures { OnOk result (out.new.items ≡ out.old.items
        ++ model.placed_text layout.now.nodes shown.now.events arrow.now) }
{
    let from = start_of(layout, arrow);
    let to = end_of(layout, shown, arrow);
    push_drawing(out, arrow.header.kind, from, to)
}

/// Appends where the drawing of a message begins.
fn push_group(out: &mut Vec<u8>, kind: MessageKind) -> Result<(), AllocError>
    ensures { OnOk result (out.new.items ≡ out.old.items ++ model.group_text kind) }
{
    out.extend_from_slice(b"<g class='message ")?;
    out.extend_from_slice(purpose_of(kind))?;
    out.extend_from_slice(b"' tabindex='0'>")
}

/// Appends the arrow of a message.
fn push_arrow(
    alloc: Global,
    out: &mut Vec<u8>,
    layout: &Layout,
    shown: &Shown,
    arrow: &Arrow,
) -> Result<(), AllocError>
    ensures { OnOk result (out.new.items ≡ out.old.items
        ++ model.arrow_text layout.now.nodes shown.now.events arrow.now) }
{
    push_group(out, arrow.header.kind)?;
    push_title(alloc, out, arrow)?;
    push_placed(out, layout, shown, arrow)?;
    out.extend_from_slice(b"</g>\n")
}

/// Appends the arrow of a message that an event sent, if it isn't taken on the page.
fn push_under_way(
    alloc: Global,
    out: &mut Vec<u8>,
    layout: &Layout,
    shown: &Shown,
    event: &Traced,
    sent: &Sent,
) -> Result<(), AllocError>
    ensures { OnOk result (out.new.items ≡ out.old.items ++ model.under_way_text
        layout.now.nodes shown.now.events (traced_of event.now) sent.now) }
{
    match arrow_under_way(shown, event, sent) {
        Some(arrow) => push_arrow(alloc, out, layout, shown, &arrow),
        None => Ok(()),
    }
}

/// Appends the arrows of those of these messages that aren't taken on the page.
fn push_sends(
    alloc: Global,
    out: &mut Vec<u8>,
    layout: &Layout,
    shown: &Shown,
    event: &Traced,
    sends: &[Sent],
) -> Result<(), AllocError>
    ensures { OnOk result (out.new.items ≡ out.old.items ++ model.sends_text
        layout.now.nodes shown.now.events (traced_of event.now) sends.now) }
{
    for sent in sends {
        push_under_way(alloc, out, layout, shown, event, sent)?;
    }
    Ok(())
}

/// Appends the arrows of the message that a take took, and of those that it sent and that aren't
/// taken on the page.
fn push_taken(
    alloc: Global,
    out: &mut Vec<u8>,
    layout: &Layout,
    shown: &Shown,
    event: &Traced,
    take: &TakeTraced,
) -> Result<(), AllocError>
    ensures { OnOk result (out.new.items ≡ out.old.items ++ model.taken_text layout.now.nodes
        shown.now.events (traced_of event.now) (take_of take.now)) }
{
    let arrow = arrow_taken(shown, event, take);
    push_arrow(alloc, out, layout, shown, &arrow)?;
    push_sends(alloc, out, layout, shown, event, take.sends.as_slice())
}

/// Appends the arrows of the message that an event took, and of those that it sent and that aren't
/// taken on the page.
fn push_arrows_of(
    alloc: Global,
    out: &mut Vec<u8>,
    layout: &Layout,
    shown: &Shown,
    event: &Traced,
) -> Result<(), AllocError>
    ensures { OnOk result (out.new.items ≡ out.old.items
        ++ model.arrows_of layout.now.nodes shown.now.events (traced_of event.now)) }
{
    match &event.what {
        What::Word(word) => { push_sends(alloc, out, layout, shown, event, word.sends.as_slice()) }
        What::Take(take) => push_taken(alloc, out, layout, shown, event, take),
    }
}

/// Appends the arrows of all messages of the page.
pub(crate) fn push_arrows(
    alloc: Global,
    out: &mut Vec<u8>,
    layout: &Layout,
    shown: &Shown,
) -> Result<(), AllocError>
    ensures { OnOk result (out.new.items
        ≡ out.old.items ++ model.arrows_text layout.now.nodes shown.now.events) }
{
    for event in shown.events() {
        push_arrows_of(alloc, out, layout, shown, event)?;
    }
    Ok(())
}
