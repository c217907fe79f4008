//! A loaded executable, and the addresses of its names.
ghost use Rattle.std.specs.Prelude.{◌≡◌, find};
ghost use Rattle.std.specs.Option.{option_copied};
ghost use Rattle.elf_load.specs.Symbols.{symbol_value, is_global_named, is_local_named};

use crate::segment::Segment;
use crate::symbol::Symbol;
use ct_rows::Row;

/// What a static executable loads: its segments in the order of the file, and where it starts.
#[derive(Debug, Drop)]
pub struct Elf {
    pub segments: Row<Segment>,
    /// The address of the first instruction, `e_entry`.
    pub entry: u32,
    /// The kept symbols, in the order of the symbol table.
    pub symbols: Row<Symbol>,
}

impl Elf {
    /// The address of a name: that of the first global or weak symbol, else of the first local one.
    #[tactic(auto, unfolding(crate::specs::Symbols::symbol_value))]
    pub fn symbol(&self, name: &str) -> Option<u32>
        ensures { result ≡ symbol_value self.now name.now }
    {
        let symbols = self.symbols.as_slice();
        match first_global(symbols, name) {
            Some(symbol) => Some(symbol.value),
            None => match first_local(symbols, name) {
                Some(symbol) => Some(symbol.value),
                None => None,
            },
        }
    }
}

fn first_global<'a>(symbols: &'a [Symbol], name: &str) -> Option<&'a Symbol>
    ensures { option_copied result ≡ find (is_global_named name.now) symbols.now }
{
    symbols.iter().find(|symbol| symbol.is_global_named(name))
}

fn first_local<'a>(symbols: &'a [Symbol], name: &str) -> Option<&'a Symbol>
    ensures { option_copied result ≡ find (is_local_named name.now) symbols.now }
{
    symbols.iter().find(|symbol| symbol.is_local_named(name))
}
