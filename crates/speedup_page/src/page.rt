//! The page.

ghost use Rattle.std.specs.Prelude.{◌≡◌, ◌++◌, All, OnOk};
ghost use Rattle.speedup_page.specs.Page as model;
ghost use Rattle.speedup_page.specs.Rows.{IsFit};

use crate::bars::push_bars;
use crate::chart::push_chart;
use crate::frame::{Fixed, push_fixed};
use crate::row::{Base, Row, trap_name};
use crate::table::push_table;
use crate::text::push_numbered;
use run_limits::{Budget, NodeCount};
use std::alloc::AllocError;

/// What the runs of a page were asked for.
#[derive(Clone, Copy, PartialEq, Eq)]
pub struct Parameters {
    /// The most nodes.
    pub nodes: NodeCount,
    /// How many words of each processor are run at most.
    pub budget: Budget,
    /// How long a message to another node is on its way, in the time of one word.
    pub latency: u32,
    /// How much longer for each line of bytes that it carries.
    pub line: u32,
    /// What taking a message costs the node that takes it.
    pub handling: u32,
    /// Whether a file has the layout of the blocks.
    pub layout: bool,
    /// Whether a verified file has the code.
    pub verified: bool,
    /// Whether no run of accesses shares a check.
    pub no_batch: bool,
}

/// What a page shows.
#[derive(Clone, Copy)]
pub struct SpeedupPage<'a> {
    pub parameters: Parameters,
    /// How many steps the original makes on one processor.
    pub base: Base,
    /// A run each.
    pub rows: &'a [Row],
}

/// Appends the page.
pub fn push_page(out: &mut Vec<u8>, page: &SpeedupPage<'_>) -> Result<(), AllocError>
    requires { All IsFit page.now.rows.now }
    ensures { OnOk result (out.new.items ≡ out.old.items
        ++ model.page_text page.now.parameters page.now.base page.now.rows.now) }
{
    push_start(out, page.parameters.nodes)?;
    push_given(out, &page.parameters, page.base)?;
    push_body(out, page.parameters.nodes, page.base.steps(), page.rows)
}

/// Appends the name of the page.
fn push_name(out: &mut Vec<u8>, nodes: NodeCount) -> Result<(), AllocError>
    ensures { OnOk result (out.new.items ≡ out.old.items ++ model.name_text nodes) }
{
    push_numbered(out, b"Speed-up on up to ", u128::from(nodes.number()))?;
    out.extend_from_slice(b" nodes")
}

/// Appends what stands before the body, and the heading.
fn push_start(out: &mut Vec<u8>, nodes: NodeCount) -> Result<(), AllocError>
    ensures { OnOk result (out.new.items ≡ out.old.items ++ model.start_text nodes) }
{
    push_fixed(out, Fixed::Top)?;
    push_name(out, nodes)?;
    out.extend_from_slice(b"</title>\n<style>\n")?;
    push_fixed(out, Fixed::Style)?;
    out.extend_from_slice(b"</style>\n</head>\n<body>\n<main>\n<h1>")?;
    push_name(out, nodes)?;
    out.extend_from_slice(b"</h1>\n")
}

/// Appends a text, if it is to be there.
fn push_if(out: &mut Vec<u8>, there: bool, text: &[u8]) -> Result<(), AllocError>
    ensures { OnOk result (out.new.items ≡ out.old.items ++ model.text_if there text.now) }
{
    if there {
        out.extend_from_slice(text)?;
    }
    Ok(())
}

/// Appends the first words of the command, with its limits.
fn push_limits(out: &mut Vec<u8>, p: &Parameters) -> Result<(), AllocError>
    ensures { OnOk result (out.new.items ≡ out.old.items ++ model.limits_text p.now) }
{
    let nodes = u128::from(p.nodes.number());
    push_numbered(out, b"shasta_view speedup IN OUT --nodes ", nodes)?;
    push_numbered(out, b" --budget ", u128::from(p.budget.number()))
}

/// Appends the words of the command for what messages cost.
fn push_costs(out: &mut Vec<u8>, p: &Parameters) -> Result<(), AllocError>
    ensures { OnOk result (out.new.items ≡ out.old.items ++ model.costs_text p.now) }
{
    push_numbered(out, b" --latency ", u128::from(p.latency))?;
    push_numbered(out, b" --line ", u128::from(p.line))?;
    push_numbered(out, b" --handling ", u128::from(p.handling))
}

/// Appends the words of the command for the files and the batches.
fn push_files(out: &mut Vec<u8>, p: &Parameters) -> Result<(), AllocError>
    ensures { OnOk result (out.new.items ≡ out.old.items ++ model.files_text p.now) }
{
    push_if(out, p.layout, b" --layout FILE")?;
    push_if(out, p.verified, b" --verify FILE")?;
    push_if(out, p.no_batch, b" --no-batch")
}

/// Appends the command that made the page.
fn push_command(out: &mut Vec<u8>, p: &Parameters) -> Result<(), AllocError>
    ensures { OnOk result (out.new.items ≡ out.old.items ++ model.command_text p.now) }
{
    out.extend_from_slice(b"<p><code>")?;
    push_limits(out, p)?;
    push_costs(out, p)?;
    push_files(out, p)?;
    out.extend_from_slice(b"</code></p>\n")
}

/// Appends what messages cost, in words.
fn push_messages(out: &mut Vec<u8>, p: &Parameters) -> Result<(), AllocError>
    ensures { OnOk result (out.new.items ≡ out.old.items ++ model.messages_text p.now) }
{
    let line = b" words, and for each line of bytes that it carries for ";
    push_numbered(
        out,
        b"<p>A message is on its way for ",
        u128::from(p.latency),
    )?;
    push_numbered(out, line, u128::from(p.line))?;
    push_numbered(out, b" more; taking it costs ", u128::from(p.handling))?;
    out.extend_from_slice(b".</p>\n")
}

/// Appends how many steps the original makes on one processor.
fn push_base(out: &mut Vec<u8>, base: Base) -> Result<(), AllocError>
    ensures { OnOk result (out.new.items ≡ out.old.items ++ model.base_text base) }
{
    match base {
        Base::Stopped => out.extend_from_slice(
            b"<p>The original doesn't end on one processor within the budget.</p>\n",
        ),
        Base::Trapped(trap) => {
            out.extend_from_slice(b"<p>On one processor the original ends by a trap: ")?;
            out.extend_from_slice(trap_name(trap))?;
            out.extend_from_slice(b".</p>\n")
        }
        Base::Steps(steps) => {
            let text = b"<p>On one processor and one memory the original makes ";
            push_numbered(out, text, u128::from(steps))?;
            out.extend_from_slice(b" steps.</p>\n")
        }
    }
}

/// Appends what the runs were asked for, and the steps of the original.
fn push_given(out: &mut Vec<u8>, p: &Parameters, base: Base) -> Result<(), AllocError>
    ensures { OnOk result (out.new.items ≡ out.old.items ++ model.given_text p.now base) }
{
    push_command(out, p)?;
    push_messages(out, p)?;
    push_base(out, base)
}

/// Appends the chart, the bars and the table.
fn push_body(
    out: &mut Vec<u8>,
    nodes: NodeCount,
    base: Option<u64>,
    rows: &[Row],
) -> Result<(), AllocError>
    requires { All IsFit rows.now }
    ensures { OnOk result (out.new.items ≡ out.old.items ++ model.body_text nodes base rows.now) }
{
    push_chart(out, nodes, base, rows)?;
    push_bars(out, rows)?;
    push_table(out, base, rows)?;
    push_fixed(out, Fixed::Notes)?;
    push_fixed(out, Fixed::End)
}
