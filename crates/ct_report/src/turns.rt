//! Which way a control path went.
ghost use Rattle.std.specs.Prelude.{◌≡◌, ◌++◌};
ghost use Rattle.std.specs.Result.{OnOk};
ghost use Rattle.std.specs.String.{string_bytes};
ghost use Rattle.ct_report.specs.Places.{pc_after, turn_text, turns};
ghost use Rattle.ct_report.specs.Kind.{instruction_at};

use crate::site::instruction;
use ct_texts::push_word;
use rv_decode::Instr;
use rv_image::Image;
use std::alloc::AllocError;

/// The address after a control path that begins at an entry.
pub fn address_after(entry: u32, path: &[u32]) -> u32
    ensures { result ≡ pc_after entry path.now }
{
    let mut pc = entry;
    for next in path {
        pc = *next;
    }
    pc
}

// Appends which way an instruction went.
fn push_turn(text: &mut String, instr: Option<Instr>, pc: u32, next: u32) -> Result<(), AllocError>
    ensures { OnOk result (string_bytes text.new ≡ string_bytes text.old ++ turn_text instr pc next) }
{
    match instr {
        Some(Instr::Branch { .. }) => {
            text.push(if next == pc.wrapping_add(4) { '0' } else { '1' })
        }
        Some(Instr::Jalr { .. }) => {
            text.push('(')?;
            push_word(text, next)?;
            text.push(')')
        }
        _ => Ok(()),
    }
}

/// Appends which way a control path went that begins at an entry.
pub fn push_turns(
    text: &mut String,
    image: &Image,
    entry: u32,
    path: &[u32],
) -> Result<(), AllocError>
    ensures { OnOk result (string_bytes text.new ≡ string_bytes text.old ++ turns image.now entry path.now) }
{
    let mut pc = entry;
    for next in path {
        push_turn(text, instruction(image, pc), pc, *next)?;
        pc = *next;
    }
    Ok(())
}
