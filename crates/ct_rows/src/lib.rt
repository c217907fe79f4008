//! A `Vec` and a `String` that contracts see as what they hold, so that structs of them are compared by contents.
#![tactic(auto)]

mod row;
mod text;

pub use row::Row;
pub use text::Text;
