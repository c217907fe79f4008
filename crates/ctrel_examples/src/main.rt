//! Runs the program on examples, one command after another, and shows what it writes, what it says on standard error, and its status.
#![tactic(auto)]

mod commands;
mod damage;
mod faults;
mod passes;
mod sharing;

ghost use Rattle.std.specs.Prelude.{◌≤◌, length, All, IfOk};
ghost use Rattle.ct_lines.specs.declared.command.TheConstants.{MOST_WORKERS};
ghost use Rattle.rel_step.specs.declared.simplifying.TheConstants.{MOST_PASSES};

use bv_passes::Kit;
use ct_lines::MOST_WORKERS;
use ct_main::{Finished, ctrel, tell};
use ct_outside::{OpenGate, RealShelf, RealSink, read_all};
use std::alloc::{AllocError, Global};
use std::io;
use std::process::ExitCode;
use std::sync::Wait;
use std::thread::Threads;

/// The words of a command.
fn words_of(alloc: Global, command: &str) -> Result<Vec<String>, AllocError> {
    let mut words = Vec::new(alloc);
    for word in command.split_whitespace() {
        words.push(String::from_str(alloc, word)?)?;
    }
    Ok(words)
}

/// The bytes of a file, none where it can't be read.
fn bytes_of(rt: &HostRuntime, name: &str) -> Result<Vec<u8>, AllocError> {
    let alloc = rt.alloc();
    let mut shelf = RealShelf::new(alloc, rt)?;
    let bytes = read_all(alloc, &mut shelf, String::from_str(alloc, name)?);
    Ok(bytes.unwrap_or(Vec::new(alloc)))
}

/// A kit without passes for each worker that there may be.
fn without_passes(alloc: Global) -> Result<Vec<Kit>, AllocError>
    ensures enough { IfOk result (λ kits. MOST_WORKERS ≤ length kits.items) }
    ensures few { IfOk result (λ kits. All (λ kit. length kit.items ≤ MOST_PASSES) kits.items) }
{
    let mut kits = Vec::new(alloc);
    for _ in 0..MOST_WORKERS {
        kits.push(Vec::new(alloc))?;
    }
    Ok(kits)
}

/// Shows what a call says on standard error, here on the output, and its status.
fn show_end(rt: &HostRuntime, finished: &Finished) -> io::Result<()> {
    tell(rt.alloc(), finished, &mut RealSink::new(rt));
    println!(rt; "status {}", finished.status)
}

/// Runs a command over the real files and the real output.
fn run_with<R: Threads + Wait + Sync>(
    rt: &HostRuntime,
    threads: &R,
    command: &str,
    kits: Vec<Kit>,
) -> io::Result<()>
    requires enough { MOST_WORKERS ≤ length kits.items }
    requires few { All (λ kit. length kit.items ≤ MOST_PASSES) kits.items }
{
    let words = words_of(rt.alloc(), command)?;
    let mut shelf = RealShelf::new(rt.alloc(), rt)?;
    let finished = ctrel(
        threads,
        rt.alloc(),
        words.as_slice(),
        &mut shelf,
        &mut RealSink::new(rt),
        kits,
        &OpenGate,
    );
    show_end(rt, &finished)
}

/// Runs a command over the real files and the real output, without passes.
fn run<R: Threads + Wait + Sync>(rt: &HostRuntime, threads: &R, command: &str) -> io::Result<()> {
    println!(rt; "$ ctrel {command}")?;
    let kits = without_passes(rt.alloc())?;
    run_with(rt, threads, command, kits)
}

/// Runs all commands.
fn run_all<R: Threads + Wait + Sync>(rt: &HostRuntime, threads: &R) -> io::Result<()> {
    for command in commands::WRITTEN {
        run(rt, threads, command)?;
    }
    for command in commands::REFUSED {
        run(rt, threads, command)?;
    }
    damage::run_all(rt, threads)?;
    faults::run_all(rt, threads)?;
    sharing::run_all(rt, threads)?;
    passes::run_all(rt, threads)
}

fn main(rt: HostRuntime) -> ExitCode {
    match run_all(&rt, &rt) {
        Ok(()) => ExitCode::from(0),
        Err(_) => ExitCode::from(1),
    }
}
