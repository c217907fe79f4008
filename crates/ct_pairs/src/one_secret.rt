//! The job of one secret byte.
ghost use Rattle.std.specs.Prelude.{◌≤◌, IfOk, length};
ghost use Rattle.elf_load.specs.Numbers.{most_memory};
ghost use Rattle.ct_pairs.specs.Limits.{IsBound};
ghost use Rattle.ct_pairs.specs.ByteJob.{IsByteJob};

use crate::input_byte::InputByte;
use crate::job::Job;
use crate::limits::{USUAL_BUDGET, USUAL_TARGETS};
use crate::place::Place;
use ct_rows::Row;
use rv_image::Image;
use std::alloc::{AllocError, Global};

/// The job of one secret byte, the least byte of a0, with all other registers 0.
pub fn byte_job(alloc: Global, image: Image, entry: u32, bound: u32) -> Result<Job, AllocError>
    requires bound { IsBound bound }
    requires size { length image ≤ most_memory }
    ensures { IfOk result (λ job. IsByteJob job image entry bound) }
{
    let stops: Vec<u32> = vec![in alloc; 0]?;
    let registers: Vec<u32> = vec![in alloc; 0; 32]?;
    let secret = InputByte {
        place: Place::Register { reg: 10, byte: 0 },
        secret: true,
    };
    let inputs = vec![in alloc; secret]?;
    Ok(Job {
        image,
        entry,
        stops: Row::from_vec(stops),
        registers: Row::from_vec(registers),
        inputs: Row::from_vec(inputs),
        bound,
        budget: USUAL_BUDGET,
        targets: USUAL_TARGETS,
    })
}
