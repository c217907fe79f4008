//! Where a routine begins.
use ct_rows::Text;

/// Where a routine begins: an address, or the name of a symbol.
#[derive(Debug, Drop, PartialEq, Eq, Hash)]
pub enum Entry {
    Number(u32),
    Name(Text),
}
