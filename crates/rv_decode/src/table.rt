//! The law that the table of instructions and the function on words agree.
ghost use Rattle.std.specs.Prelude.{◌≡◌, ◌↔◌, ◌<◌, ◌^◌, ℕ, IfSome, Some};
ghost use Rattle.rv_decode.specs.declared.instr.Instr.{Instr};
ghost use Rattle.rv_decode.specs.Instructions.{instruction_of, InRange};
ghost use Rattle.rv_decode.specs.Table.{StandsFor};

/// `decode` gives an instruction exactly where the manual's table has the word's row, and no word
/// has two rows.
pub fn table_agrees()
    ensures row { (word : ℕ) (instr : Instr) → (instruction_of word ≡ Some instr) ↔ StandsFor word instr }
    ensures one_row { (word : ℕ) (i j : Instr) → StandsFor word i → StandsFor word j → i ≡ j }
    ensures in_range { (word : ℕ) → word < 2 ^ 32 → IfSome (instruction_of word) InRange }
{}
