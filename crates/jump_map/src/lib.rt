#![tactic(auto)]
//! Rewritten code, and the maps between original and rewritten addresses.
//!
//! It hands on what its words are: [`rv32_step`], [`micro_op`], [`runtime_words`] and
//! [`templates`].

mod building;
mod cells;
mod heads;
pub mod image;
mod micros;
mod sequences;
mod strides;

pub use image::{IMAGE_BASE, Image, ImageRefused, ImageWord, MOST_WORDS, image_law};
pub use micro_op;
pub use micro_op::rv32_step;
pub use runtime_words;
pub use strides::StrideKind;
pub use templates;
