//! Texts that are read and refused, and pairs that are replayed.
ghost use Rattle.std.specs.Prelude.{◌≤◌, ◌^◌, IfOk, length};

use super::*;
use ct_pairs::{Job, Split, byte_job};
use ct_rows::Row;
use elf_load::{Elf, Segment};
use rv_image::Image;
use rv_machine::{Record, Touch};
use std::alloc::{AllocError, Global};
use std::test::Fail;

// beq a0, zero, +8; and twice jalr zero, 0(ra)
const BRANCH: [u8; 12] = [
    0x63, 0x04, 0x05, 0x00, 0x67, 0x80, 0x00, 0x00, 0x67, 0x80, 0x00, 0x00,
];

fn image_of(alloc: Global) -> Result<Image, AllocError>
    ensures { IfOk result (λ image. length image ≤ 2 ^ 24) }
{
    let mut segments = Vec::new(alloc);
    segments.push(Segment {
        address: 0x10054,
        bytes: Row::from_vec(Vec::from_slice(alloc, BRANCH.as_slice())?),
        read: true,
        write: false,
        exec: true,
    })?;
    let elf = Elf {
        segments: Row::from_vec(segments),
        entry: 0x10054,
        symbols: Row::from_vec(Vec::new(alloc)),
    };
    let image = Image::build(alloc, &elf, &[])?;
    let _size = image.size();
    Ok(image)
}

// One secret byte, in a0, which the branch compares with 0.
fn branch_job(alloc: Global) -> Result<Job, AllocError> {
    byte_job(alloc, image_of(alloc)?, 0x10054, 10)
}

// The text of a pair, and how its runs compare.
const PAIRS: [(&str, Replayed); 3] = [
    (
        "pair 1\nshared -\nleft 00\nright 01\n",
        Replayed::Differ(Split {
            step: 1,
            left: Record {
                pc: 0x10054,
                touch: Touch::Nothing,
                next: Some(0x1005c),
            },
            right: Record {
                pc: 0x10054,
                touch: Touch::Nothing,
                next: Some(0x10058),
            },
        }),
    ),
    (
        "pair 1\nshared -\nleft 01\nright 02\n",
        Replayed::Agree { steps: 2 },
    ),
    (
        "pair 1\nshared -\nleft ff\nright ff\n",
        Replayed::Agree { steps: 2 },
    ),
];

#[test]
fn pairs_are_read_written_and_replayed(rt: HostRuntime) -> Result<(), Fail> {
    let job = branch_job(rt.alloc())?;
    for (text, replayed) in PAIRS {
        let pair = read_pair(rt.alloc(), text.as_bytes(), &job)?;
        assert_eq!(rt; replay(rt.alloc(), &job, &pair)?, replayed);
        let written = pair_text(rt.alloc(), &pair)?;
        assert_eq!(rt; written.as_str(), text);
    }
    Ok(())
}

// A text, and its first bad line.
const REFUSED: [(&str, u32); 14] = [
    ("", 1),
    ("pair 1", 1),
    ("pair 2\nshared -\nleft 00\nright 01\n", 1),
    ("pair 1 \nshared -\nleft 00\nright 01\n", 1),
    ("pair 1\n", 2),
    ("pair 1\nshared 00\nleft 00\nright 01\n", 2),
    ("pair 1\nshared \nleft 00\nright 01\n", 2),
    ("pair 1\nshared -\nleft -\nright 01\n", 3),
    ("pair 1\nshared -\nleft 0A\nright 01\n", 3),
    ("pair 1\nshared -\nleft 0000\nright 01\n", 3),
    ("pair 1\nshared -\nleft 00\n", 4),
    ("pair 1\nshared -\nleft 00\nright 01", 4),
    ("pair 1\nshared -\nleft 00\nright 01\n\n", 5),
    ("pair 1\nshared -\nleft 00\nright 01\nx", 5),
];

#[test]
fn texts_are_refused_by_their_first_bad_line(rt: HostRuntime) -> Result<(), Fail> {
    let job = branch_job(rt.alloc())?;
    for (text, line) in REFUSED {
        assert_eq!(rt;
            read_pair(rt.alloc(), text.as_bytes(), &job).err(),
            Some(PairRefusal::Line(line)),
            "{text:?}"
        );
    }
    Ok(())
}
