//! The lines of blocks.

ghost use Rattle.std.specs.Prelude.{◌≡◌, ◌++◌, ◌<◌, OnOk};
ghost use Rattle.std.specs.Fmt.{decimal};
ghost use Rattle.block_layout.specs.Layout.{blocks};
ghost use Rattle.block_view.specs.Kept.{counts_at};
ghost use Rattle.block_view.specs.Text as model;

use crate::costs::BlockCosts;
use crate::names::push_function;
use crate::order::{Ranked, in_order};
use crate::sums::Sums;
use block_layout::{Block, Layout, layout_law};
use elf_symbols::Symbols;
use event_text::node_machine::NodeCounts;
use itoa::Buffer;
use rv32_text::push_word;
use std::alloc::{AllocError, Global};
use std::collections::BTreeMap;

/// How many characters a number takes at least.
const WIDTH: usize = 10;

impl<'a> Sums<'a> {
    ghost use Rattle.std.specs.Prelude.{◌≡◌, ◌++◌, ◌<◌, List, OnOk, All, length};
    ghost use Rattle.block_layout.specs.Layout.{blocks};
    ghost use Rattle.event_text.specs.run_trace.Traced.{Traced as OfEvent};
    ghost use Rattle.block_view.specs.Kept.{AreSumsOf, layout_in, kept_in, sites_in};
    ghost use Rattle.block_view.specs.Text.{IsAscending, IsBlocksText, block_text, block_lines};

    /// Appends the lines of the blocks that cost something, those that cost most first. Code is
    /// named by these symbols. Fails also where a cost has no room.
    pub fn push_lines(
        &self,
        alloc: Global,
        symbols: &Symbols,
        out: &mut Vec<u8>,
    ) -> Result<(), AllocError>
        requires kept { (seen : List OfEvent) × AreSumsOf self.now seen }
        ensures { (seen : List OfEvent) → AreSumsOf self.now seen → OnOk result
            (IsBlocksText (layout_in self.now) symbols.now seen out.old.items out.new.items) }
    {
        let layout = self.layout;
        let ranked = in_order(alloc, &self.costs, layout.blocks(), layout.nodes())?;
        push_head(out)?;
        self.push_blocks(&ranked, symbols, out)?;
        Ok(())
    }

    /// Appends the lines of blocks.
    fn push_blocks(
        &self,
        ranked: &[Ranked],
        symbols: &Symbols,
        out: &mut Vec<u8>,
    ) -> Result<(), AllocError>
        requires count { length self.now.costs.blocks.items ≡ blocks (layout_in self.now) }
        requires writers { length self.now.sharing.blocks.items ≡ blocks (layout_in self.now) }
        requires below { All (λ r. r.block < blocks (layout_in self.now)) ranked.now }
        ensures text { OnOk result (out.new.items ≡ out.old.items
            ++ block_lines (layout_in self.now) symbols.now (kept_in self.now) ranked.now) }
        ensures ascending { OnOk result
            (All (λ r. IsAscending (sites_in self.now.costs.blocks.items r.block)) ranked.now) }
    {
        for block in ranked {
            self.push_block(block, symbols, out)?;
        }
        Ok(())
    }

    /// Appends the lines of a block.
    fn push_block(
        &self,
        block: &Ranked,
        symbols: &Symbols,
        out: &mut Vec<u8>,
    ) -> Result<(), AllocError>
        requires count { length self.now.costs.blocks.items ≡ blocks (layout_in self.now) }
        requires writers { length self.now.sharing.blocks.items ≡ blocks (layout_in self.now) }
        requires below { block.now.block < blocks (layout_in self.now) }
        ensures text { OnOk result (out.new.items ≡ out.old.items
            ++ block_text (layout_in self.now) symbols.now (kept_in self.now block.now.block)
            block.now) }
        ensures ascending { OnOk result
            (IsAscending (sites_in self.now.costs.blocks.items block.now.block)) }
    {
        push_block_line(self.layout, block, out)?;
        push_sharing(self.sharing.is_falsely_shared(block.block), out)?;
        let kept = self.costs.of_block(block.block);
        push_nodes(kept, self.layout.nodes(), out)?;
        push_sites(&kept.misses, symbols, out)?;
        Ok(())
    }
}

/// Appends the line that says what stands in the column.
#[tactic(auto, unfolding(crate::specs::Text::head))]
fn push_head(out: &mut Vec<u8>) -> Result<(), AllocError>
    ensures { OnOk result (out.new.items ≡ out.old.items ++ model.head) }
{
    out.extend_from_slice(
        b"messages  about a block, of a node about it, of code that asks for it; most first\n",
    )?;
    Ok(())
}

/// Appends the line of a block.
fn push_block_line(layout: &Layout, block: &Ranked, out: &mut Vec<u8>) -> Result<(), AllocError>
    requires { block.now.block < blocks layout.now }
    ensures { OnOk result
        (out.new.items ≡ out.old.items ++ model.block_line layout.now block.now) }
{
    push_column(out, block.cost)?;
    push_range(layout, block.block, out)?;
    out.extend_from_slice(b" home ")?;
    push_number(out, u64::from(layout.home(block.block)))?;
    out.extend_from_slice(b"\n")?;
    Ok(())
}

/// Appends the first and the last address of a block.
fn push_range(layout: &Layout, block: Block, out: &mut Vec<u8>) -> Result<(), AllocError>
    requires { block < blocks layout.now }
    ensures { OnOk result (out.new.items ≡ out.old.items ++ model.range_text layout.now block) }
{
    layout_law();
    let _valid = layout.blocks();
    let first = 64 * layout.first_line(block);
    push_word(out, first)?;
    out.extend_from_slice(b"-")?;
    push_word(out, first + (64 * layout.lines(block) - 1))?;
    Ok(())
}

/// Appends the line that says that a block is falsely shared, if it is.
#[tactic(auto, unfolding(crate::specs::Text::sharing_words))]
fn push_sharing(shared: bool, out: &mut Vec<u8>) -> Result<(), AllocError>
    ensures { OnOk result (out.new.items ≡ out.old.items ++ model.sharing_line shared) }
{
    if shared {
        out.extend_from_slice(
            b"            false sharing: nodes write here, each at words of its own\n",
        )?;
    }
    Ok(())
}

/// Appends the lines of the nodes that have sent messages about a block.
fn push_nodes(kept: &BlockCosts, nodes: u8, out: &mut Vec<u8>) -> Result<(), AllocError>
    ensures { OnOk result (out.new.items ≡ out.old.items
        ++ model.node_lines (counts_at kept.now.nodes.items) nodes) }
{
    for node in 0..nodes {
        push_node(node, &kept.of_node(node), out)?;
    }
    Ok(())
}

/// Appends the line of a node, if it has sent messages about a block.
fn push_node(node: u8, counts: &NodeCounts, out: &mut Vec<u8>) -> Result<(), AllocError>
    ensures { OnOk result (out.new.items ≡ out.old.items ++ model.node_line node counts.now) }
{
    if counts.messages > 0 {
        push_column(out, counts.messages)?;
        out.extend_from_slice(b"  node ")?;
        push_number(out, u64::from(node))?;
        push_counts(counts, out)?;
    }
    Ok(())
}

/// Appends what a node counts of a block.
fn push_counts(counts: &NodeCounts, out: &mut Vec<u8>) -> Result<(), AllocError>
    ensures { OnOk result (out.new.items ≡ out.old.items ++ model.counts_text counts.now) }
{
    push_count(out, b" read ", counts.read)?;
    push_count(out, b" exclusive ", counts.exclusive)?;
    push_count(out, b" upgrade ", counts.upgrade)?;
    push_count(out, b" invalidations ", counts.invalidations)?;
    out.extend_from_slice(b"\n")?;
    Ok(())
}

/// Appends a number after a name.
fn push_count(out: &mut Vec<u8>, name: &[u8], count: u64) -> Result<(), AllocError>
    ensures { OnOk result (out.new.items ≡ out.old.items ++ (name.now ++ decimal count)) }
{
    out.extend_from_slice(name)?;
    push_number(out, count)?;
    Ok(())
}

/// Appends the lines of the addresses whose code has asked for a block.
fn push_sites(
    misses: &BTreeMap<u32, u64>,
    symbols: &Symbols,
    out: &mut Vec<u8>,
) -> Result<(), AllocError>
    ensures text { OnOk result
        (out.new.items ≡ out.old.items ++ model.site_lines symbols.now misses.now.entries) }
    ensures ascending { OnOk result (model.IsAscending misses.now.entries) }
{
    for (address, times) in misses.iter() {
        push_site(*address, *times, symbols, out)?;
    }
    Ok(())
}

/// Appends the line of an address whose code has asked so often.
fn push_site(
    address: u32,
    times: u64,
    symbols: &Symbols,
    out: &mut Vec<u8>,
) -> Result<(), AllocError>
    ensures { OnOk result
        (out.new.items ≡ out.old.items ++ model.site_line symbols.now address times) }
{
    push_column(out, times)?;
    out.extend_from_slice(b"  code ")?;
    push_word(out, address)?;
    push_function(out, symbols, address)?;
    out.extend_from_slice(b"\n")?;
    Ok(())
}

/// Appends a number at the left of its column.
fn push_column(out: &mut Vec<u8>, n: u64) -> Result<(), AllocError>
    ensures { OnOk result (out.new.items ≡ out.old.items ++ model.columned n) }
{
    let start = out.len();
    push_number(out, n)?;
    let used = out.len() - start;
    if used < WIDTH {
        out.resize(start + WIDTH, b' ')?;
    }
    Ok(())
}

/// Appends a number.
fn push_number(out: &mut Vec<u8>, n: u64) -> Result<(), AllocError>
    ensures { OnOk result (out.new.items ≡ out.old.items ++ decimal n) }
{
    let mut buffer = Buffer::new();
    out.extend_from_slice(buffer.format(n).as_bytes())?;
    Ok(())
}
