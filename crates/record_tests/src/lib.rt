#![tactic(auto)]
//! Records of runs, and their texts; and what links give: between threads, and lossy ones.

#[cfg(test)]
mod links;
#[cfg(test)]
mod lossy;
#[cfg(test)]
mod reading;
#[cfg(test)]
mod writing;
