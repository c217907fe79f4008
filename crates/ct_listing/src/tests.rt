//! Traces and lists of small programs.
ghost use Rattle.std.specs.Prelude.{◌≤◌, List, IfOk, length};
ghost use Rattle.ct_pairs.specs.ByteJob.{IsByteJob};
ghost use Rattle.rv_image.specs.Cell.{Cell};

use crate::{list_text, trace_text};
use ct_pairs::{Job, byte_job};
use ct_rows::Row;
use elf_load::{Elf, Segment};
use rv_image::Image;
use std::alloc::{AllocError, Global};
use std::test::Fail;

/// The job of one secret byte in a0 over code at 0x00010054.
fn job(alloc: Global, code: &[u8], bound: u32) -> Result<Job, AllocError>
    requires short { length code.now ≤ 64 }
    requires least { 1 ≤ bound }
    requires most { bound ≤ 100 }
    ensures { IfOk result (λ job. (image : List Cell) × IsByteJob job image 0x10054 bound) }
{
    let text = Segment {
        address: 0x0001_0054,
        bytes: Row::from_vec(Vec::from_slice(alloc, code)?),
        read: true,
        write: false,
        exec: true,
    };
    let elf = Elf {
        segments: Row::from_vec(vec![in alloc; text]?),
        entry: 0x0001_0054,
        symbols: Row::from_vec(Vec::new(alloc)),
    };
    let image = Image::build(alloc, &elf, &[])?;
    let _size = image.size();
    byte_job(alloc, image, 0x0001_0054, bound)
}

#[test]
fn traces_and_lists_small_programs(rt: HostRuntime) -> Result<(), Fail> {
    // The code, the bound, the trace and the list.
    let rows = [
        // beq a0, zero, +8, and two returns
        (
            b"\x63\x04\x05\x00\x67\x80\x00\x00\x67\x80\x00\x00".as_slice(),
            5,
            "step 1 pc 0x00010054 touch - next 0x0001005c\n\
             step 2 pc 0x0001005c touch - next 0x00000000\nend stop\n",
            "0x00010054 00050463 beq a0, zero, 0x0001005c\n\
             0x00010058 00008067 jalr zero, 0(ra)\n0x0001005c 00008067 jalr zero, 0(ra)\n",
        ),
        // A return, cut off by the bound.
        (
            b"\x67\x80\x00\x00".as_slice(),
            1,
            "step 1 pc 0x00010054 touch - next 0x00000000\nend bound\n",
            "0x00010054 00008067 jalr zero, 0(ra)\n",
        ),
        // A jump to an odd target, which loses its bit 0.
        (
            b"\xb7\x00\x01\x00\xe7\x80\x10\x06\x73\x00\x10\x00\x73\x00\x00\x00".as_slice(),
            5,
            "step 1 pc 0x00010054 touch - next 0x00010058\n\
             step 2 pc 0x00010058 touch - next 0x00010060\nend call\n",
            "0x00010054 000100b7 lui ra, 0x00010\n0x00010058 061080e7 jalr ra, 97(ra)\n\
             0x0001005c 00100073 ebreak\n0x00010060 00000073 ecall\n",
        ),
        // A load that is refused.
        (
            b"\x03\x45\x05\x00\x67\x80\x00\x00".as_slice(),
            5,
            "step 1 pc 0x00010054 touch load 0x00000000 next -\nend fault\n",
            "0x00010054 00054503 lbu a0, 0(a0)\n0x00010058 00008067 jalr zero, 0(ra)\n",
        ),
        // A step onto half a word.
        (
            b"\x13\x00\x00\x00\x67\x80".as_slice(),
            5,
            "step 1 pc 0x00010054 touch - next 0x00010058\nend fetch\n",
            "0x00010054 00000013 addi zero, zero, 0\n",
        ),
        // A word that is no instruction.
        (
            b"\xff\xff\xff\xff".as_slice(),
            5,
            "end illegal\n",
            "0x00010054 ffffffff -\n",
        ),
    ];
    for (code, bound, trace, list) in rows {
        assert!(rt; code.len() <= 64);
        assert!(rt; bound >= 1);
        assert!(rt; bound <= 100);
        let job = job(rt.alloc(), code, bound)?;
        assert_eq!(rt; trace_text(rt.alloc(), &job)?.as_str(), trace);
        assert_eq!(rt; list_text(rt.alloc(), &job.image)?.as_str(), list);
    }
    Ok(())
}
