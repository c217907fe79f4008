//! A range of addresses with the same rights.
ghost use Rattle.std.specs.Prelude.{◌≡◌};
ghost use Rattle.rv_image.specs.Image.{span_right};

use crate::right::Right;

/// A range of accessible addresses with the same rights.
#[derive(Clone, Copy, Debug, PartialEq, Eq)]
pub struct Span {
    /// The first address.
    pub address: u32,
    /// The number of bytes.
    pub length: u32,
    /// The bytes may be loaded from.
    pub read: bool,
    /// The bytes may be stored to.
    pub write: bool,
    /// The bytes may be executed.
    pub exec: bool,
}

impl Span {
    /// Whether its bytes have a right.
    pub fn allows(&self, right: Right) -> bool
        ensures { result ≡ span_right right self.now }
    {
        match right {
            Right::Read => self.read,
            Right::Write => self.write,
            Right::Execute => self.exec,
        }
    }
}
