//! What the processors of a core run.

use block_layout::Layout;
use exec_map::Program;
use lane_model::jump_map::Image;
use run_limits::Budget;

/// What the processors of n nodes run, and how many of them each node has.
#[derive(Clone, Copy)]
pub struct SmpWork<'a> {
    /// The program that was rewritten.
    pub program: &'a Program<'a>,
    /// Its rewritten code.
    pub image: &'a Image,
    /// The layout, whose number of nodes is n.
    pub layout: &'a Layout,
    /// How many words each processor executes at most.
    pub budget: Budget,
    /// How many processors each node has.
    pub lanes: u8,
}
