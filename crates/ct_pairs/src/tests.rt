//! Checks of small routines, and what they find.
ghost use Rattle.std.specs.Prelude.{◌≤◌, ◌^◌, List, IfOk, length};
ghost use Rattle.ct_pairs.specs.ByteJob.{IsByteJob};
ghost use Rattle.rv_image.specs.Cell.{Cell};

use crate::{Job, byte_check, byte_job, first_split, starts};
use ct_rows::Row;
use elf_load::{Elf, Segment};
use rv_image::Image;
use std::alloc::{AllocError, Global};
use std::test::Fail;

fn image_of(alloc: Global, code: &[u8]) -> Result<Image, AllocError>
    requires { length code.now ≤ 64 }
    ensures { IfOk result (λ image. length image ≤ 2 ^ 24) }
{
    let mut segments = Vec::new(alloc);
    segments.push(Segment {
        address: 0x10054,
        bytes: Row::from_vec(Vec::from_slice(alloc, code)?),
        read: true,
        write: false,
        exec: true,
    })?;
    let elf = Elf {
        segments: Row::from_vec(segments),
        entry: 0x10054,
        symbols: Row::from_vec(Vec::new(alloc)),
    };
    let image = Image::build(alloc, &elf, &[])?;
    let _size = image.size();
    Ok(image)
}

fn job_of(alloc: Global, code: &[u8], bound: u32) -> Result<Job, AllocError>
    requires code { length code.now ≤ 64 }
    requires least { 1 ≤ bound }
    requires most { bound ≤ 100 }
    ensures { IfOk result (λ job. (image : List Cell) × IsByteJob job image 0x10054 bound) }
{
    byte_job(alloc, image_of(alloc, code)?, 0x10054, bound)
}

#[test]
fn checks_small_programs(rt: HostRuntime) -> Result<(), Fail> {
    // The code, the bound, the paths, and the site with its step.
    let rows = [
        // jalr zero, 0(ra)
        (b"\x67\x80\x00\x00".as_slice(), 10, 1, None),
        // beq a0, zero, +8
        (
            b"\x63\x04\x05\x00\x67\x80\x00\x00\x67\x80\x00\x00".as_slice(),
            10,
            2,
            Some((0x10054, 1)),
        ),
        (
            b"\x63\x04\x05\x00\x67\x80\x00\x00\x67\x80\x00\x00".as_slice(),
            1,
            2,
            Some((0x10054, 1)),
        ),
        // lbu a0, 0(a0)
        (
            b"\x03\x45\x05\x00\x67\x80\x00\x00".as_slice(),
            10,
            1,
            Some((0x10054, 1)),
        ),
        // beq a0, zero, +4
        (b"\x63\x02\x05\x00\x67\x80\x00\x00".as_slice(), 10, 1, None),
        // A loop that tests one bit of a0 at each turn.
        (
            b"\x93\x02\x20\x00\x13\x73\x15\x00\x13\x55\x15\x00\x63\x04\x03\x00\x93\x83\x13\x00\x93\x82\xf2\xff\xe3\x96\x02\xfe\x67\x80\x00\x00".as_slice(),
            20,
            4,
            Some((0x10060, 4)),
        ),
    ];
    for (code, bound, paths, site) in rows {
        assert!(rt; code.len() <= 64);
        assert!(rt; bound >= 1);
        assert!(rt; bound <= 100);
        let job = job_of(rt.alloc(), code, bound)?;
        let table = byte_check(rt.alloc(), &job)?;
        assert_eq!(rt; table.paths, paths);
        let found = table.sites.get(0).map(|found| (found.site, found.step));
        assert_eq!(rt; found, site);
        if let Some(found) = table.sites.get(0) {
            assert_eq!(rt; table.sites.len(), 1);
            assert_eq!(rt; found.pair.shared.len(), 0);
            assert_eq!(rt; found.pair.left.len(), 1);
            assert_eq!(rt; found.pair.right.len(), 1);
            assert_eq!(rt; found.pair.left.as_slice(), [0].as_slice());
            assert_eq!(rt; found.pair.right.as_slice(), [1].as_slice());
            let (mut left, mut right) = starts(rt.alloc(), &job, &found.pair)?;
            let split = first_split(&job, &mut left, &mut right);
            assert_eq!(rt; split.map(|split| (split.left.pc, split.step)), site);
        }
    }
    Ok(())
}
