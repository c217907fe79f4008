//! Steps and runs of small programs.
ghost use Rattle.std.specs.Prelude.{◌+◌, ◌^◌, ◌≤◌, length};

use super::*;
use ct_rows::Row;
use elf_load::{Elf, Segment};
use rv_image::Span;
use std::test::Fail;

/// What a program does from its first word: its first records, its ending, and a register then.
#[derive(Drop)]
struct Case<'a> {
    start: u32,
    code: &'a [u32],
    zeros: u32,
    seen: [Option<Record>; 3],
    end: End,
    register: u32,
    value: u32,
}

fn goes(pc: u32, touch: Touch, next: u32) -> Option<Record> {
    Some(Record {
        pc,
        touch,
        next: Some(next),
    })
}

fn faults(pc: u32, touch: Touch) -> Option<Record> {
    Some(Record {
        pc,
        touch,
        next: None,
    })
}

/// Code that may be read and executed, and sixteen zeros that may be read and written.
fn image_of(alloc: Global, start: u32, code: &[u32], zeros: u32) -> Result<Image, AllocError>
    requires few { length code.now ≤ 8 }
    requires low { start ≤ 0x20000 }
    requires apart { 0x30000 ≤ zeros }
    requires within { zeros + 16 ≤ 2 ^ 32 }
{
    let mut bytes = Vec::new(alloc);
    for word in code {
        bytes.extend_from_slice(&word.to_le_bytes())?;
    }
    let mut segments = Vec::new(alloc);
    segments.push(Segment {
        address: start,
        bytes: Row::from_vec(bytes),
        read: true,
        write: false,
        exec: true,
    })?;
    let elf = Elf {
        segments: Row::from_vec(segments),
        entry: start,
        symbols: Row::from_vec(Vec::new(alloc)),
    };
    let zeros_span = Span {
        address: zeros,
        length: 16,
        read: true,
        write: true,
        exec: false,
    };
    Image::build(alloc, &elf, &[zeros_span])
}

#[test]
fn steps_as_the_manual_says(rt: HostRuntime) -> Result<(), Fail> {
    let cases = [
        // lui ra, 0x10; jalr ra, 97(ra); ebreak; ecall
        Case {
            start: 0x10054,
            code: &[0x0001_00b7, 0x0610_80e7, 0x0010_0073, 0x0000_0073],
            zeros: 0x30000,
            seen: [
                goes(0x10054, Touch::Nothing, 0x10058),
                goes(0x10058, Touch::Nothing, 0x10060),
                None,
            ],
            end: End::Call,
            register: 1,
            value: 0x1005c,
        },
        // lui a0, 0x20; lw a1, 1(a0); jalr zero, 0(zero); then bytes 11 22 33 44 55 66 77 88
        Case {
            start: 0x1fff4,
            code: &[
                0x0002_0537,
                0x0015_2583,
                0x0000_0067,
                0x4433_2211,
                0x8877_6655,
            ],
            zeros: 0x30000,
            seen: [
                goes(0x1fff4, Touch::Nothing, 0x1fff8),
                goes(0x1fff8, Touch::Load(0x20001), 0x1fffc),
                goes(0x1fffc, Touch::Nothing, 0),
            ],
            end: End::Stop,
            register: 11,
            value: 0x5544_3322,
        },
        // lui a0, 0x20; lb a1, 7(a0); ecall; then the same bytes
        Case {
            start: 0x1fff4,
            code: &[
                0x0002_0537,
                0x0075_0583,
                0x0000_0073,
                0x4433_2211,
                0x8877_6655,
            ],
            zeros: 0x30000,
            seen: [
                goes(0x1fff4, Touch::Nothing, 0x1fff8),
                goes(0x1fff8, Touch::Load(0x20007), 0x1fffc),
                None,
            ],
            end: End::Call,
            register: 11,
            value: 0xffff_ff88,
        },
        // addi a0, zero, -2; lw a1, 0(a0): a word over the end of memory
        Case {
            start: 0x10054,
            code: &[0xffe0_0513, 0x0005_2583],
            zeros: 0xffff_fff0,
            seen: [
                goes(0x10054, Touch::Nothing, 0x10058),
                faults(0x10058, Touch::Load(0xffff_fffe)),
                None,
            ],
            end: End::Fault,
            register: 11,
            value: 0,
        },
        // lui a0, 0x10; sw a0, 84(a0): a store to code
        Case {
            start: 0x10054,
            code: &[0x0001_0537, 0x04a5_2a23],
            zeros: 0x30000,
            seen: [
                goes(0x10054, Touch::Nothing, 0x10058),
                faults(0x10058, Touch::Store(0x10054)),
                None,
            ],
            end: End::Fault,
            register: 10,
            value: 0x10000,
        },
        // lui a0, 0x30; sw a0, 1(a0); lhu a1, 2(a0)
        Case {
            start: 0x10054,
            code: &[0x0003_0537, 0x00a5_20a3, 0x0025_5583, 0x0000_0073],
            zeros: 0x30000,
            seen: [
                goes(0x10054, Touch::Nothing, 0x10058),
                goes(0x10058, Touch::Store(0x30001), 0x1005c),
                goes(0x1005c, Touch::Load(0x30002), 0x10060),
            ],
            end: End::Call,
            register: 11,
            value: 0x0300,
        },
        // jalr zero, 2(zero): a jump that isn't to a multiple of four
        Case {
            start: 0x10054,
            code: &[0x0020_0067],
            zeros: 0x30000,
            seen: [goes(0x10054, Touch::Nothing, 2), None, None],
            end: End::BadFetch,
            register: 0,
            value: 0,
        },
        // fence; addi zero, zero, 5; and then no instruction
        Case {
            start: 0x10054,
            code: &[0x0ff0_000f, 0x0050_0013, 0],
            zeros: 0x30000,
            seen: [
                goes(0x10054, Touch::Nothing, 0x10058),
                goes(0x10058, Touch::Nothing, 0x1005c),
                None,
            ],
            end: End::Illegal,
            register: 0,
            value: 0,
        },
    ];
    for case in &cases {
        assert!(rt; case.code.len() <= 8);
        assert!(rt; case.start <= 0x20000);
        assert!(rt; case.zeros >= 0x30000);
        assert!(rt; case.zeros <= 0xffff_fff0);
        assert!(rt; case.register < 32);
        let image = image_of(rt.alloc(), case.start, case.code, case.zeros)?;
        let mut machine = Machine::new(rt.alloc(), &image, case.start)?;
        let first = machine.step(&image, &[0]).seen;
        let second = machine.step(&image, &[0]).seen;
        let third = machine.step(&image, &[0]).seen;
        assert_eq!(rt; [first, second, third], case.seen);
        assert_eq!(rt; machine.step(&image, &[0]).seen, None);
        assert_eq!(rt; machine.ending(), Some(case.end));
        assert_eq!(rt; machine.register(case.register), case.value);
    }
    Ok(())
}

#[test]
fn runs_again_from_a_start(rt: HostRuntime) -> Result<(), Fail> {
    // lbu a1, 0(a0); jalr zero, 0(a1)
    let image = image_of(rt.alloc(), 0x10054, &[0x0005_4583, 0x0005_8067], 0x30000)?;
    let mut start = Machine::new(rt.alloc(), &image, 0x10054)?;
    start.set_register(10, 0x30000);
    if let Some(index) = image.index_of(0x30000) {
        start.set_byte(index, 8);
    }
    let mut machine = Machine::new(rt.alloc(), &image, 0)?;
    machine.reset_from(&start);
    assert_eq!(rt;
        machine.run(&image, &[8], 0),
        Ran {
            steps: 0,
            end: None
        }
    );
    assert_eq!(rt;
        machine.run(&image, &[8], 1),
        Ran {
            steps: 1,
            end: None
        }
    );
    assert_eq!(rt; machine.pc(), 0x10058);
    assert_eq!(rt;
        machine.run(&image, &[8], 9),
        Ran {
            steps: 1,
            end: Some(End::Stop)
        }
    );
    assert_eq!(rt; machine.pc(), 8);
    machine.reset_from(&start);
    assert_eq!(rt;
        machine.run(&image, &[8], 2),
        Ran {
            steps: 2,
            end: None
        }
    );
    Ok(())
}
