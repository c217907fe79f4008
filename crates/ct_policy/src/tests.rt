//! Policies, and what is answered of each.
ghost use Rattle.std.specs.Prelude.{IfOk};
ghost use Rattle.elf_load.specs.Layout.{FitsMemory, segment_extents};

use crate::{Options, PolicyRefusal, byte_job, read};
use ct_pairs::{Entry, InputByte, Job, Place};
use ct_rows::{Row, Text};
use elf_load::{Elf, Symbol, load};
use std::alloc::{AllocError, Global};
use std::test::Fail;

const OPTIONS: Options = Options {
    bound: None,
    budget: 20_000,
    targets: 16,
};

// An ELF file: a return at 0x10054, to read and execute, and 16 zeros at 0x30000, to read and write.
const FILE: &[u8] =
    b"\x7fELF\x01\x01\x01\0\0\0\0\0\0\0\0\0\x02\0\xf3\0\x01\0\0\0\x54\0\x01\0\x34\0\0\0\0\0\0\0\0\0\0\0\x34\0\x20\0\x02\0\0\0\0\0\0\0\
\x01\0\0\0\x74\0\0\0\x54\0\x01\0\x54\0\x01\0\x04\0\0\0\x04\0\0\0\x05\0\0\0\x04\0\0\0\
\x01\0\0\0\x74\0\0\0\0\0\x03\0\0\0\x03\0\0\0\0\0\x10\0\0\0\x06\0\0\0\x04\0\0\0\
\x67\x80\0\0";

// What the file loads, with the symbols `routine` and `work`.
fn sample_elf(alloc: Global) -> Result<Elf, Fail>
    ensures { IfOk result (λ elf. FitsMemory (segment_extents elf)) }
{
    let mut symbols = Vec::new(alloc);
    for (name, value) in [("routine", 0x10054), ("work", 0x30000)] {
        symbols.push(Symbol {
            name: Text::from_string(String::from_str(alloc, name)?),
            value,
            global: true,
        })?;
    }
    let file = load(alloc, FILE)?;
    Ok(Elf {
        segments: file.segments,
        entry: file.entry,
        symbols: Row::from_vec(symbols),
    })
}

// The job of the lines of a policy after `format = 1`.
fn read_lines(alloc: Global, elf: &Elf, lines: &str) -> Result<Job, PolicyRefusal>
    requires { FitsMemory (segment_extents elf.now) }
{
    let text = format!(in alloc; "format = 1\n{lines}\n")?;
    read(alloc, text.as_str().as_bytes(), elf, &OPTIONS)
}

const P1: PolicyRefusal = PolicyRefusal::Toml;

const P2: PolicyRefusal = PolicyRefusal::Field;

const P3: PolicyRefusal = PolicyRefusal::NoSymbol;

const P4: PolicyRefusal = PolicyRefusal::Number;

const P5: PolicyRefusal = PolicyRefusal::Register;

const P8: PolicyRefusal = PolicyRefusal::Inputs;

const P9: PolicyRefusal = PolicyRefusal::Memories;

const P10: PolicyRefusal = PolicyRefusal::Entry;

fn named(alloc: Global, name: &str) -> Result<Entry, AllocError> {
    let name = String::from_str(alloc, name)?;
    Ok(Entry::Name(Text::from_string(name)))
}

fn outside(index: u32) -> PolicyRefusal {
    PolicyRefusal::Region(index)
}

fn overlap(first: u32, second: u32) -> PolicyRefusal {
    PolicyRefusal::RegionOverlap(first, second)
}

#[test]
fn refuses_by_the_first_rule(rt: HostRuntime) -> Result<(), Fail> {
    let elf = sample_elf(rt.alloc())?;
    for (lines, refusal) in [
        ("bound = ", P1),
        ("bound = 1\nbound = 2", P1),
        ("bound = 9223372036854775808", P1),
        ("size = 1", P2),
        ("bound = '1'", P2),
        ("bound = 1.0", P2),
        ("entry = true", P2),
        ("stop = 0", P2),
        ("stop = [0, false]", P2),
        ("registers = []", P2),
        ("registers = {a0 = [0]}", P2),
        ("memory = {at = 0, length = 1}", P2),
        ("memory = [{at = 0}]", P2),
        ("memory = [{length = 1}]", P2),
        ("memory = [{at = 0, length = 1, kind = 'public'}]", P2),
        ("input = [1]", P2),
        ("input = [{kind = 'secret'}]", P2),
        ("input = [{register = 'a0'}]", P2),
        ("input = [{register = 'a0', kind = 'Secret'}]", P2),
        ("input = [{register = 10, kind = 'secret'}]", P2),
        ("input = [{register = 'a0', at = 0, kind = 'secret'}]", P2),
        (
            "input = [{register = 'a0', length = 1, kind = 'secret'}]",
            P2,
        ),
        ("input = [{at = 'work', kind = 'secret'}]", P2),
        (
            "input = [{at = 'work', bytes = 1, length = 1, kind = 'secret'}]",
            P2,
        ),
        ("entry = 'nobody'\nbound = 0\nsize = 1", P2),
        ("entry = 'nobody'", P3),
        ("entry = ''", P3),
        ("stop = ['routine', 'nobody']\nbound = 0", P3),
        ("registers = {x99 = 'nobody'}", P3),
        ("memory = [{at = 'nobody', length = 0}]", P3),
        ("input = [{at = 'nobody', length = 1, kind = 'public'}]", P3),
        ("entry = -1", P4),
        ("entry = 4294967296", P4),
        ("bound = 0", P4),
        ("bound = 100001", P4),
        (
            "stop = [0,0,0,0,0,0,0,0,0,0,0,0,0,0,0,0,0,0,0,0,0,0,0,0,0,0,0,0,0,0,0,0,0,0,0,0,0,0,0,0,0,0,0,0,0,0,0,0,0,0,0,0,0,0,0,0,0,0,0,0,0,0,0,0,0]",
            P4,
        ),
        ("registers = {x99 = -1}", P4),
        ("memory = [{at = 0, length = 0}]", P4),
        ("memory = [{at = 0, length = 16777217}]", P4),
        (
            "input = [{register = 'x0', bytes = 5, kind = 'secret'}]",
            P4,
        ),
        (
            "input = [{register = 'a0', bytes = 0, kind = 'secret'}]",
            P4,
        ),
        (
            "input = [{at = 0, offset = -1, length = 1, kind = 'secret'}]",
            P4,
        ),
        ("registers = {x32 = 0}", P5),
        ("registers = {A0 = 0}", P5),
        ("registers = {x00 = 0}", P5),
        ("registers = {zero = 0}", P5),
        ("registers = {fp = 0, s0 = 1}", P5),
        (
            "registers = {x10 = 0}\ninput = [{register = 'a0', kind = 'public'}]",
            P5,
        ),
        (
            "registers = {x0 = 0}\ninput = [{at = 0, length = 1, kind = 'public'}]",
            P5,
        ),
        (
            "input = [{at = 0x10053, length = 1, kind = 'secret'}]",
            outside(0),
        ),
        (
            "input = [{at = 'work', length = 17, kind = 'secret'}]",
            outside(0),
        ),
        (
            "memory = [{at = 0xfffffff0, length = 17}]\ninput = [{at = 0xffffffff, length = 2, kind = 'secret'}]",
            outside(0),
        ),
        (
            "input = [{register = 'a0', kind = 'secret'}, {at = 'work', offset = 0xffffffff, length = 1, kind = 'secret'}]",
            outside(1),
        ),
        (
            "input = [{at = 'work', length = 1, kind = 'secret'}, {at = 'work', length = 1, kind = 'secret'}, {at = 0, length = 1, kind = 'secret'}]",
            outside(2),
        ),
        (
            "input = [{at = 'work', length = 9, kind = 'secret'}, {register = 'a0', kind = 'secret'}, {at = 'work', offset = 8, length = 8, kind = 'public'}]",
            overlap(0, 2),
        ),
        (
            "memory = [{at = 0x40000, length = 8192}]\ninput = [{at = 0x40000, length = 4097, kind = 'secret'}]",
            P8,
        ),
        ("memory = [{at = 0xffffffff, length = 2}]\nentry = 2", P9),
        ("memory = [{at = 0x3000f, length = 1}]", P9),
        ("memory = [{at = 0, length = 2}, {at = 1, length = 2}]", P9),
        ("memory = [{at = 0x100000, length = 16777200}]", P9),
        ("entry = 0x10056", P10),
        ("entry = 'work'", P10),
        ("[registers]\na0 = 'nobody'", P3),
        (
            "[[memory]]\nat = 0x20000\nlength = 64\n[[input]]\nat = 0x20000\nlength = 64\nkind = 'secret'\n[[input]]\nat = 0x20000\nlength = 1\nkind = 'public'",
            overlap(0, 1),
        ),
    ] {
        let result = read_lines(rt.alloc(), &elf, lines);
        assert_eq!(rt; result.err(), Some(refusal), "at {lines}");
    }
    for (text, refusal) in [
        (b"\xff".as_slice(), P1),
        (b"".as_slice(), P2),
        (b"format = '1'".as_slice(), P2),
        (b"format = 2".as_slice(), P4),
        (b"format = 2\nentry = 'nobody'".as_slice(), P3),
    ] {
        let result = read(rt.alloc(), text, &elf, &OPTIONS);
        assert_eq!(rt; result.err(), Some(refusal));
    }
    Ok(())
}

// The 32-byte comparison with a stack frame.
const COMPARISON: &str = "bound = 2000
[registers]
sp = 0x80001000
a0 = 0x20000
a1 = 0x20020
[[memory]]
at = 0x20000
length = 64
[[memory]]
at = 0x80000000
length = 4096
[[input]]
at = 0x20000
length = 64
kind = \"secret\"";

fn public_count(job: &Job) -> usize {
    let inputs = job.inputs.as_slice();
    inputs.iter().filter(|input| !input.secret).count()
}

#[test]
fn stands_for_a_job(rt: HostRuntime) -> Result<(), Fail> {
    let alloc = rt.alloc();
    let elf = sample_elf(alloc)?;
    // The lines; bound; entry; stops; public bytes and all bytes of input; accessible bytes.
    for (lines, bound, entry, stops, public, all, size) in [
        ("", 1000, 0x10054, 1, 0, 0, 20),
        (
            "entry = 0x10054\nbound = 1\nstop = []",
            1,
            0x10054,
            0,
            0,
            0,
            20,
        ),
        (
            "entry = 'routine'\nstop = [0, 'work', -0]",
            1000,
            0x10054,
            3,
            0,
            0,
            20,
        ),
        (
            "[[input]]\nregister = 'a0'\nbytes = 1\nkind = 'secret'",
            1000,
            0x10054,
            1,
            0,
            1,
            20,
        ),
        (
            "[[input]]\nregister = 'x31'\nkind = 'public'",
            1000,
            0x10054,
            1,
            4,
            4,
            20,
        ),
        (
            "memory = [{at = 0x20000, length = 512}]\ninput = [{register = 'a0', bytes = 1, kind = 'public'}, {register = 'a1', bytes = 1, kind = 'secret'}]",
            1000,
            0x10054,
            1,
            1,
            2,
            532,
        ),
        (
            "memory = [{at = 0x30010, length = 8}, {at = 0xfffffff0, length = 16}]\ninput = [{at = 'work', length = 24, kind = 'public'}, {at = 0xffffffff, length = 1, kind = 'secret'}]",
            1000,
            0x10054,
            1,
            24,
            25,
            44,
        ),
        (COMPARISON, 2000, 0x10054, 1, 0, 64, 4180),
    ] {
        let job = read_lines(alloc, &elf, lines)?;
        assert_eq!(rt; job.bound, bound, "at {lines}");
        assert_eq!(rt; job.entry, entry);
        assert_eq!(rt; job.stops.len(), stops);
        assert_eq!(rt; public_count(&job), public, "at {lines}");
        assert_eq!(rt; job.inputs.len(), all);
        assert_eq!(rt; job.image.size(), size, "at {lines}");
        assert_eq!(rt; job.registers.len(), 32);
        assert_eq!(rt; (job.budget, job.targets), (20_000, 16));
    }
    let job = read_lines(alloc, &elf, COMPARISON)?;
    let registers = job.registers.as_slice();
    assert_eq!(rt;
        (registers[2], registers[10], registers[11]),
        (0x8000_1000, 0x20000, 0x20020)
    );
    let last = InputByte {
        place: Place::Memory { address: 0x2003f },
        secret: true,
    };
    assert_eq!(rt; job.inputs.get(63), Some(&last));
    let shorter = Options {
        bound: Some(7),
        ..OPTIONS
    };
    let job = read(alloc, b"format = 1\nbound = 5", &elf, &shorter)?;
    assert_eq!(rt; job.bound, 7);
    let result = read(alloc, b"format = 1\nbound = 0", &elf, &shorter);
    assert_eq!(rt; result.err(), Some(P4));
    Ok(())
}

#[test]
fn starts_at_an_entry(rt: HostRuntime) -> Result<(), Fail> {
    let alloc = rt.alloc();
    let elf = sample_elf(alloc)?;
    for (entry, refusal) in [
        (Entry::Number(0x10054), "none"),
        (named(alloc, "routine")?, "none"),
        (named(alloc, "nobody")?, "P3"),
        (named(alloc, "work")?, "P10"),
        (Entry::Number(0x10058), "P10"),
    ] {
        let found = match byte_job(alloc, &elf, &entry, 10) {
            Ok(job) => {
                assert_eq!(rt; (job.entry, job.bound, job.inputs.len()), (0x10054, 10, 1));
                String::from_str(alloc, "none")?
            }
            Err(refusal) => format!(in alloc; "{refusal}")?,
        };
        assert_eq!(rt; found.as_str(), refusal);
    }
    for (refusal, text) in [
        (P1, "P1"),
        (outside(63), "P6 63"),
        (overlap(0, 1), "P7 0 1"),
    ] {
        assert_eq!(rt; format!(in alloc; "{refusal}")?.as_str(), text);
    }
    Ok(())
}
