//! The instructions of RV32I and M: from words, to words and as text.
#![tactic(auto)]

mod decoding;
mod encoding;
mod fields;
mod instr;
mod names;
mod table;
mod text;

pub use decoding::decode;
pub use encoding::encode;
pub use instr::Instr;
pub use names::register as register_name;
pub use table::table_agrees;
pub use text::text_of;

#[cfg(test)]
mod tests;
