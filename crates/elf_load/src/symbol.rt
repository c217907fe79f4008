//! A name for an address.
ghost use Rattle.std.specs.Prelude.{◌≡◌};
ghost use Rattle.elf_load.specs.Symbols.{is_global_named, is_local_named};

use ct_rows::Text;

/// A name for an address (System V ABI, "Symbol Table").
#[derive(Debug, Drop)]
pub struct Symbol {
    pub name: Text,
    /// The address that the name stands for.
    pub value: u32,
    /// The binding is STB_GLOBAL or STB_WEAK, and not STB_LOCAL.
    pub global: bool,
}

impl Symbol {
    pub(crate) fn is_global_named(&self, name: &str) -> bool
        ensures { result ≡ is_global_named name.now self.now }
    {
        self.global && self.name.as_str() == name
    }

    pub(crate) fn is_local_named(&self, name: &str) -> bool
        ensures { result ≡ is_local_named name.now self.now }
    {
        !self.global && self.name.as_str() == name
    }
}
