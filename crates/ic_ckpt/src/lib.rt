//! The volatile state of a persistent component, and its image (docs/FORMATS.md, "The image").
#![tactic(auto)]

mod declared;
mod fields;
mod image;
mod misread;
mod parts;
mod reading;
mod state;
mod writing;

pub use image::{ImageRefused, read_image};
pub use state::State;
pub use writing::image_bytes;
