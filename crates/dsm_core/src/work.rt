//! What the nodes of a core run.

use block_layout::Layout;
use node_machine::exec_map::Program;
use node_machine::jump_map::Image;
use run_limits::Budget;

/// What n nodes run: the rewritten code of a program over a layout.
#[derive(Clone, Copy)]
pub struct Work<'a> {
    /// The program that was rewritten.
    pub program: &'a Program<'a>,
    /// Its rewritten code.
    pub image: &'a Image,
    /// The layout, whose number of nodes is n.
    pub layout: &'a Layout,
    /// How many words each node executes at most.
    pub budget: Budget,
}
