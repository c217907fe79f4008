//! The instruction at a pc.

ghost use Rattle.std.specs.Prelude.{MatchResult};
ghost use Rattle.rel_step.specs.PathNodes.{IsInstruction, EndsAt};

use ct_pairs::Job;
use rv_decode::{Instr, decode};
use rv_machine::End;

/// The instruction that each run at a pc performs, or how it ends there without showing anything.
pub(crate) fn instruction_at(job: &Job, pc: u32) -> Result<Instr, End>
    ensures { MatchResult result (IsInstruction job.now pc) (EndsAt job.now pc) }
{
    if job.stops.as_slice().contains(&pc) {
        return Err(End::Stop);
    }
    match job.image.fetch(pc) {
        None => Err(End::BadFetch),
        Some(word) => match decode(word) {
            None => Err(End::Illegal),
            Some(instr) => match instr {
                Instr::Call => Err(End::Call),
                Instr::Break => Err(End::Call),
                _ => Ok(instr),
            },
        },
    }
}
