#![tactic(auto)]
//! The commands on small programs, byte by byte; on files that are refused, on files and sinks that
//! fail, and on records; and the adapters of the real system.

#[cfg(test)]
mod adapters;
#[cfg(test)]
mod assembly;
#[cfg(test)]
mod atomics;
#[cfg(test)]
mod batches;
#[cfg(test)]
mod calls;
#[cfg(test)]
mod cases;
#[cfg(test)]
mod code;
#[cfg(test)]
mod failing;
#[cfg(test)]
mod far;
#[cfg(test)]
mod faults;
#[cfg(test)]
mod instructions;
#[cfg(test)]
mod lanes;
#[cfg(test)]
mod layouts;
#[cfg(test)]
mod limits;
#[cfg(test)]
mod lines;
#[cfg(test)]
mod losses;
#[cfg(test)]
mod multiply;
#[cfg(test)]
mod nodes;
#[cfg(test)]
mod places;
#[cfg(test)]
mod programs;
#[cfg(test)]
mod refusals;
#[cfg(test)]
mod replays;
#[cfg(test)]
mod threads;
#[cfg(test)]
mod verified;
#[cfg(test)]
mod verified_replays;
#[cfg(test)]
mod waits;
#[cfg(test)]
mod watch;
