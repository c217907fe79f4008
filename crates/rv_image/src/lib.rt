//! The memory that a RISC-V executable starts with: which addresses are accessible, with which
//! rights, and the byte that each holds.
#![tactic(auto)]

mod image;
mod loading;
mod location;
mod part;
mod right;
mod span;

pub use image::Image;
pub use loading::loading_law;
pub use right::Right;
pub use span::Span;
