#![tactic(auto)]
//! Instructions beside what other tools say of them: words, texts and arithmetic.

#[cfg(test)]
mod arithmetic;
#[cfg(test)]
mod texts;
