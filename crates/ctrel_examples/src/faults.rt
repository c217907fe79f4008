//! Commands over files in memory whose calls fail, and over an output in memory that fails.

ghost use Rattle.std.specs.Prelude.{◌≡◌, [], IfOk};

use crate::{bytes_of, show_end, without_passes, words_of};
use ct_main::{Finished, ctrel};
use ct_outside::{MemoryShelf, MemorySink, OpenGate, RealSink, write_all};
use std::alloc::{AllocError, Global};
use std::io;
use std::sync::Wait;
use std::thread::Threads;

/// A call that doesn't fail.
const NEVER: u64 = 999;

/// A policy of one secret byte in a0, in 63 bytes.
const ONE_SECRET: &str = "format = 1\n[[input]]\nregister = \"a0\"\nbytes = 1\nkind = \"secret\"\n";

/// A shelf of a few of the files, which gives 40 bytes at a time; its call of this number fails.
fn shelf(rt: &HostRuntime, failing: u64) -> Result<MemoryShelf, AllocError>
    ensures { IfOk result (λ shelf. shelf.asked ≡ []) }
{
    let alloc = rt.alloc();
    let mut files = Vec::new(alloc);
    files.push((
        String::from_str(alloc, "policy")?,
        Vec::from_slice(alloc, ONE_SECRET.as_bytes())?,
    ))?;
    for name in ["return.elf", "secret_branch.elf", "one_secret.toml"] {
        files.push((String::from_str(alloc, name)?, bytes_of(rt, name)?))?;
    }
    MemoryShelf::new(alloc, files, vec![in alloc; failing]?, 40)
}

/// Runs a command over such a shelf and over an output that takes 10 bytes at a time, whose calls
/// of these numbers fail.
fn run<R: Threads + Wait + Sync>(
    rt: &HostRuntime,
    threads: &R,
    command: &str,
    shelf_call: u64,
    sink_call: u64,
) -> Result<(Finished, MemorySink), AllocError> {
    let alloc = rt.alloc();
    let words = words_of(alloc, command)?;
    let mut shelf = shelf(rt, shelf_call)?;
    let mut out = MemorySink::new(alloc, vec![in alloc; sink_call]?, 10, 1000)?;
    let kits = without_passes(alloc)?;
    let finished = ctrel(
        threads,
        alloc,
        words.as_slice(),
        &mut shelf,
        &mut out,
        kits,
        &OpenGate,
    );
    Ok((finished, out))
}

/// Runs a command of which a call fails, and shows what was written and how it ended.
fn show<R: Threads + Wait + Sync>(
    rt: &HostRuntime,
    threads: &R,
    command: &str,
    shelf_call: u64,
    sink_call: u64,
) -> io::Result<()> {
    let ran = run(rt, threads, command, shelf_call, sink_call)?;
    let (finished, out) = ran;
    let _ = write_all(&mut RealSink::new(rt), out.written());
    println!(rt)?;
    show_end(rt, &finished)
}

/// Runs a command once with each call of the shelf failing, up to and with one more than it makes.
fn fail_each_read<R: Threads + Wait + Sync>(rt: &HostRuntime, threads: &R) -> io::Result<()> {
    const COMMAND: &str = "check secret_branch.elf policy";
    println!(rt; "$ ctrel {COMMAND} # each call of the shelf fails")?;
    for call in 0..10 {
        let ran = run(rt, threads, COMMAND, call, NEVER)?;
        let (finished, out) = ran;
        let count = out.written().len();
        println!(rt;
            "call {call}: status {}, {count} bytes written",
            finished.status
        )?;
    }
    Ok(())
}

/// Runs a command once with each call of the output failing, up to and with one more than it makes.
fn fail_each_write<R: Threads + Wait + Sync>(rt: &HostRuntime, threads: &R) -> io::Result<()> {
    const COMMAND: &str = "byte return.elf 0x10054 10";
    println!(rt; "$ ctrel {COMMAND} # each call of the output fails")?;
    let whole = run(rt, threads, COMMAND, NEVER, NEVER)?;
    for call in 0..9 {
        let ran = run(rt, threads, COMMAND, NEVER, call)?;
        let (finished, out) = ran;
        let count = out.written().len();
        let front = whole.1.written().starts_with(out.written());
        println!(rt;
            "call {call}: status {}, {count} bytes written, a front: {front}",
            finished.status
        )?;
    }
    Ok(())
}

/// Runs commands of which a call of the shelf fails, or one of the output.
pub fn run_all<R: Threads + Wait + Sync>(rt: &HostRuntime, threads: &R) -> io::Result<()> {
    for (command, call) in [
        ("byte return.elf 0x10054 10", 2),
        ("check return.elf one_secret.toml", 6),
    ] {
        println!(rt; "$ ctrel {command} # call {call} of the shelf fails")?;
        show(rt, threads, command, call, NEVER)?;
    }
    println!(rt; "$ ctrel byte return.elf 0x10054 10 # call 1 of the output fails")?;
    show(rt, threads, "byte return.elf 0x10054 10", NEVER, 1)?;
    fail_each_read(rt, threads)?;
    fail_each_write(rt, threads)
}
