#![tactic(auto)]
//! A page of the speed-up of a program on several nodes: a chart, bars of where time goes, and a
//! table, as HTML.

mod bars;
mod chart;
mod frame;
mod page;
mod row;
mod table;
mod text;

pub use page::{Parameters, SpeedupPage, push_page};
pub use row::{Base, Ended, Row, Shares, Trap};
