//! A `String` that contracts see as the list of its bytes.
ghost use Rattle.std.specs.Prelude.{◌≡◌, IfOk};
ghost use Rattle.std.specs.String.{string_bytes};
ghost use Rattle.std.specs.Str.{bytes_eq};
ghost use Rattle.std.specs.Cmp;
ghost use Rattle.std.specs.Cmp.Lexicographic.{nat_list_eq_equiv};
ghost use Rattle.std.specs.Cmp.Rules.{hashing};
ghost use Rattle.std.specs.Hash as fed;
ghost use Rattle.std.proofs.Common.{rules};

use std::alloc::{AllocError, Global};
use std::hash::{Hash, Hasher};
use std::marker::Model;

/// A `String` that contracts see as the list of its bytes: two texts are `≡` exactly where their bytes are.
#[derive(Debug, Drop)]
pub struct Text {
    string: String,
}

impl Model for Text {
    ghost use Rattle.std.specs.Prelude.{List, ℕ};
    ghost use Rattle.std.specs.String.{string_bytes};

    ghost Value = { List ℕ };

    ghost view = { λ text. string_bytes text.string };
}

impl Text {
    pub fn from_string(string: String) -> Text
        ensures { result ≡ string_bytes string }
    {
        Text { string }
    }

    pub fn into_string(self) -> String
        ensures { string_bytes result ≡ self }
    {
        let Text { string } = self;
        string
    }

    pub fn as_str(&self) -> &str
        ensures { result.now ≡ self.now }
    {
        self.string.as_str()
    }

    pub fn copy(&self, alloc: Global) -> Result<Text, AllocError>
        ensures { IfOk result (λ text. text ≡ self.now) }
    {
        let string = String::from_str(alloc, self.string.as_str())?;
        Ok(Text { string })
    }
}

impl PartialEq for Text {
    ghost eq = { bytes_eq };

    ghost laws = { Cmp.partial_equiv_from_equiv nat_list_eq_equiv };

    fn eq(&self, other: &Self) -> bool {
        self.as_str() == other.as_str()
    }
}

impl Eq for Text {
    ghost laws = { nat_list_eq_equiv };
}

impl Hash for Text {
    ghost hash_input = { λ text. fed.str text };

    ghost respects_eq = { Prim.search (hashing, rules) };

    fn hash<H: Hasher>(&self, state: &mut H) {
        self.as_str().hash(state);
    }
}

#[cfg(test)]
mod tests {
    use crate::{Row, Text};
    use std::test::Fail;

    #[test]
    fn gives_back_what_it_holds(rt: HostRuntime) -> Result<(), Fail> {
        let text = Text::from_string(String::from_str(rt.alloc(), "entry")?);
        let copied = text.copy(rt.alloc())?;
        assert!(rt; copied == text);
        assert_eq!(rt; copied.into_string().as_str(), "entry");
        let row = Row::from_vec(vec![in rt.alloc(); 3u32, 1, 2]?);
        let copied = row.copy(rt.alloc())?;
        assert!(rt; copied == row);
        assert_eq!(rt; copied.into_vec().as_slice(), [3, 1, 2].as_slice());
        Ok(())
    }
}
