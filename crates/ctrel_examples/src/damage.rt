//! Executables, policies and pairs that are damaged, and what is said of each.

ghost use Rattle.std.specs.Prelude.{◌≡◌, [], IfOk};

use crate::{bytes_of, show_end, without_passes, words_of};
use ct_main::{Finished, ctrel};
use ct_outside::{MemoryShelf, MemorySink, OpenGate};
use std::alloc::{AllocError, Global};
use std::io;
use std::sync::Wait;
use std::thread::Threads;

/// Which bytes of `return.elf` are changed, from the first to the last of them, and to what.
const CHANGES: [(usize, usize, u8); 9] = [
    (16, 16, 3),
    (18, 18, 0),
    (44, 44, 0),
    (28, 31, 0xff),
    (52, 52, 3),
    (60, 63, 0xff),
    (72, 72, 3),
    (75, 75, 1),
    (76, 76, 4),
];

/// A policy of one secret byte in a0.
const ONE_SECRET: &[u8] =
    b"format = 1\n[[input]]\nregister = \"a0\"\nbytes = 1\nkind = \"secret\"\n";

/// Policies by what is wrong with them. The last one has nothing wrong.
const POLICIES: [(&str, &[u8]); 7] = [
    ("it is empty", b""),
    ("its format is a text", b"format = \"1\"\n"),
    ("its format is 3", b"format = 3\n"),
    ("it has a byte ff", b"\xff"),
    (
        "an input is in the register zero",
        b"format = 1\n[[input]]\nregister = \"zero\"\nbytes = 1\nkind = \"secret\"\n",
    ),
    (
        "it has 65 stops",
        b"format = 1\nstop = [0,0,0,0,0,0,0,0,0,0,0,0,0,0,0,0,0,0,0,0,0,0,0,0,0,0,0,0,0,0,0,0,0,0,0,0,0,0,0,0,0,0,0,0,0,0,0,0,0,0,0,0,0,0,0,0,0,0,0,0,0,0,0,0,0]\n",
    ),
    (
        "it has 64 stops",
        b"format = 1\nstop = [0,0,0,0,0,0,0,0,0,0,0,0,0,0,0,0,0,0,0,0,0,0,0,0,0,0,0,0,0,0,0,0,0,0,0,0,0,0,0,0,0,0,0,0,0,0,0,0,0,0,0,0,0,0,0,0,0,0,0,0,0,0,0,0]\n",
    ),
];

/// Texts of a pair, by what is wrong with them. The last one has nothing wrong.
const PAIRS: [(&str, &str); 7] = [
    ("it is empty", ""),
    ("it has 1 line", "pair 1\n"),
    ("it has 2 lines", "pair 1\nshared -\n"),
    ("it has 3 lines", "pair 1\nshared -\nleft 00\n"),
    ("it has 5 lines", "pair 1\nshared -\nleft 00\nright 01\n\n"),
    ("left has one digit", "pair 1\nshared -\nleft 0\nright 01\n"),
    ("it is whole", "pair 1\nshared -\nleft 00\nright 01\n"),
];

/// A shelf of an executable, a policy and a pair.
fn shelf(alloc: Global, binary: &[u8], policy: &[u8], pair: &str) -> Result<MemoryShelf, AllocError>
    ensures { IfOk result (λ shelf. shelf.asked ≡ []) }
{
    let mut files = Vec::new(alloc);
    for (name, bytes) in [
        ("binary", binary),
        ("policy", policy),
        ("pair", pair.as_bytes()),
    ] {
        files.push((
            String::from_str(alloc, name)?,
            Vec::from_slice(alloc, bytes)?,
        ))?;
    }
    MemoryShelf::new(alloc, files, Vec::new(alloc), 40)
}

/// Runs a command over an executable, a policy and a pair.
fn run<R: Threads + Wait + Sync>(
    threads: &R,
    alloc: Global,
    command: &str,
    binary: &[u8],
    policy: &[u8],
    pair: &str,
) -> Result<Finished, AllocError> {
    let words = words_of(alloc, command)?;
    let mut shelf = shelf(alloc, binary, policy, pair)?;
    let mut out = MemorySink::new(alloc, Vec::new(alloc), 100, 1000)?;
    let kits = without_passes(alloc)?;
    Ok(ctrel(
        threads,
        alloc,
        words.as_slice(),
        &mut shelf,
        &mut out,
        kits,
        &OpenGate,
    ))
}

/// Reads each front of an executable, and shows what is said where it changes.
fn cut<R: Threads + Wait + Sync>(rt: &HostRuntime, threads: &R, file: &[u8]) -> io::Result<()> {
    println!(rt; "$ ctrel list binary # the first bytes of return.elf alone")?;
    let mut last = None;
    for count in 0..=file.len() {
        let finished = run(threads, rt.alloc(), "list binary", &file[..count], b"", "")?;
        if last != Some(finished.refusal) {
            println!(rt; "from {count} bytes on:")?;
            show_end(rt, &finished)?;
        }
        last = Some(finished.refusal);
    }
    Ok(())
}

/// The bytes of a file, of which those from the first to the last are set to a value.
fn changed(
    alloc: Global,
    file: &[u8],
    first: usize,
    last: usize,
    value: u8,
) -> Result<Vec<u8>, AllocError> {
    let mut bytes = Vec::new(alloc);
    for (at, byte) in file.iter().enumerate() {
        let inside = first <= at && at <= last;
        bytes.push(if inside { value } else { *byte })?;
    }
    Ok(bytes)
}

/// Checks an executable with bytes changed.
fn change<R: Threads + Wait + Sync>(rt: &HostRuntime, threads: &R, file: &[u8]) -> io::Result<()> {
    for (first, last, value) in &CHANGES {
        println!(rt;
            "$ ctrel byte binary 0x10054 10 # bytes {first} to {last} of return.elf are {value}"
        )?;
        let file = changed(rt.alloc(), file, *first, *last, *value)?;
        let finished = run(
            threads,
            rt.alloc(),
            "byte binary 0x10054 10",
            &file,
            b"",
            "",
        )?;
        show_end(rt, &finished)?;
    }
    Ok(())
}

/// Checks and replays an executable with damaged policies and pairs.
fn misstate<R: Threads + Wait + Sync>(
    rt: &HostRuntime,
    threads: &R,
    file: &[u8],
) -> io::Result<()> {
    for (wrong, policy) in &POLICIES {
        println!(rt; "$ ctrel check secret_branch.elf policy # {wrong}")?;
        let finished = run(threads, rt.alloc(), "check binary policy", file, policy, "")?;
        show_end(rt, &finished)?;
    }
    for (wrong, pair) in &PAIRS {
        println!(rt; "$ ctrel replay secret_branch.elf policy pair # {wrong}")?;
        let finished = run(
            threads,
            rt.alloc(),
            "replay binary policy pair",
            file,
            ONE_SECRET,
            pair,
        )?;
        show_end(rt, &finished)?;
    }
    Ok(())
}

/// Runs all of these.
pub fn run_all<R: Threads + Wait + Sync>(rt: &HostRuntime, threads: &R) -> io::Result<()> {
    let file = bytes_of(rt, "return.elf")?;
    cut(rt, threads, &file)?;
    change(rt, threads, &file)?;
    let file = bytes_of(rt, "secret_branch.elf")?;
    misstate(rt, threads, &file)
}
