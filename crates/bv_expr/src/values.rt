//! Values for the input bytes.

ghost use Rattle.std.specs.Prelude.{◌≡◌, slice_index};

use ct_rows::Row;

/// A byte for each input, by the input's number.
#[derive(Debug, Drop, PartialEq, Eq, Hash)]
pub struct Values(pub Row<u8>);

impl Values {
    /// The byte of an input, or 0 where there is none for it.
    pub fn byte(&self, variable: usize) -> u8
        ensures { result ≡ slice_index self.now.0 variable }
    {
        self.0.get(variable).copied().unwrap_or(0)
    }
}
