//! Who may know an input.
ghost use Rattle.std.specs.Prelude.{◌≡◌};
ghost use Rattle.ct_document.specs.Values.{kind_value, named_kind};

use crate::values::FromValue;
use elf_load::Elf;
use toml::Value;

/// Who may know an input.
#[derive(Clone, Copy, Debug, Drop, PartialEq, Eq)]
pub enum Kind {
    Public,
    Secret,
}

impl Kind {
    ghost use Rattle.ct_document.specs.Values.{is_secret};

    /// The kind of a name.
    pub fn named(name: &str) -> Option<Kind>
        ensures { result ≡ named_kind name.now }
    {
        match name {
            "public" => Some(Kind::Public),
            "secret" => Some(Kind::Secret),
            _ => None,
        }
    }

    pub fn is_secret(self) -> bool
        ensures { result ≡ is_secret self }
    {
        match self {
            Kind::Public => false,
            Kind::Secret => true,
        }
    }
}

impl FromValue for Kind {
    ghost meaning = { λ elf value. kind_value value };

    #[tactic(auto, unfolding(crate::specs::Values::kind_value))]
    fn from_value(_elf: &Elf, value: &Value) -> Option<Kind> {
        match value.as_str() {
            Some(name) => Kind::named(name),
            None => None,
        }
    }
}
