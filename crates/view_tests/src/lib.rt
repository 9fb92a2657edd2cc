#![tactic(auto)]
//! The viewer on small programs, byte by byte.

#[cfg(test)]
mod blocks;
#[cfg(test)]
mod calls;
#[cfg(test)]
mod code;
#[cfg(test)]
mod cost;
#[cfg(test)]
mod gdb;
#[cfg(test)]
mod lines;
#[cfg(test)]
mod page;
#[cfg(test)]
mod speedup;
#[cfg(test)]
mod time;
#[cfg(test)]
mod trace;
