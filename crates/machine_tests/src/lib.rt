#![tactic(auto)]
//! What the layers below the commands give: the protocol's messages; and, for small programs,
//! rewritten words, orders, steps.

#[cfg(test)]
mod cores;
#[cfg(test)]
mod images;
#[cfg(test)]
mod lanes;
#[cfg(test)]
mod lossy;
#[cfg(test)]
mod machines;
#[cfg(test)]
mod plans;
#[cfg(test)]
mod protocol;
#[cfg(test)]
mod rewritten_files;
#[cfg(test)]
mod verified_files;
