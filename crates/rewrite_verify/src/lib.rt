#![tactic(auto)]
//! Verifies the file of a rewritten program that something else made, by any admissible plan.
//!
//! It hands on [`rewriter`], whose files it judges, and what it judges them by: [`check_plan`] and
//! [`jump_map`].

mod code;
mod entries;
mod law;
mod plan;
mod refused;
mod sections;
mod serving;
mod verifying;

pub use law::verify_law;
pub use refused::VerifyRefused;
pub use rewriter;
pub use rewriter::{check_plan, jump_map};
pub use verifying::verify;
