#![tactic(auto)]
//! Files that are written and read, files of other tools' layouts, texts of layouts, and assembly
//! texts.

#[cfg(test)]
mod assembling;
#[cfg(test)]
mod files;
#[cfg(test)]
mod layouts;
#[cfg(test)]
mod programs;
#[cfg(test)]
mod reading;
#[cfg(test)]
mod writing;
