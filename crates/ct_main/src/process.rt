//! The program as a process: over the real files, the real output and standard error.

ghost use Rattle.std.specs.Prelude.{◌≡◌, ◌≤◌, length, All, IfOk};
ghost use Rattle.std.specs.Process.{exit_status};
ghost use Rattle.ct_lines.specs.declared.command.TheConstants.{MOST_WORKERS};
ghost use Rattle.rel_step.specs.declared.simplifying.TheConstants.{MOST_PASSES};
ghost use Rattle.ct_main.specs.Status.{HasStatus};

use crate::errors::tell;
use crate::finished::Finished;
use crate::program::ctrel;
use crate::refusal::Refusal;
use bv_passes::{Algebra, Kit, KnownBits, MergeBytes, Shifts, Sums};
use ct_lines::MOST_WORKERS;
use ct_outside::{Gate, RealShelf, RealSink};
use std::alloc::AllocError;
use std::env;
use std::io::ErrorKind;
use std::process::ExitCode;
use std::sync::Wait;
use std::thread::Threads;

/// The words after the program's name. A word that isn't UTF-8 is no word of a command.
pub fn words_of(rt: &HostRuntime) -> Result<Vec<String>, Refusal> {
    let all = match env::args(rt) {
        Ok(all) => all,
        Err(error) if error.kind() == ErrorKind::OutOfMemory => return Err(Refusal::Memory),
        Err(_) => return Err(Refusal::Words),
    };
    Ok(all.skip(1).collect(rt.alloc())?)
}

/// Runs the program on the words that the process was given, over the real files and the real
/// output, with these kits, the threads of this handle and this gate.
pub fn run_with<R: Threads + Wait + Sync, G: Gate>(
    rt: &HostRuntime,
    threads: &R,
    kits: Vec<Kit>,
    gate: &G,
) -> Finished
    requires enough { MOST_WORKERS ≤ length kits.items }
    requires few { All (λ kit. length kit.items ≤ MOST_PASSES) kits.items }
    ensures { HasStatus result.outcome result.refusal result.status }
{
    let words = match words_of(rt) {
        Ok(words) => words,
        Err(refusal) => return Finished::refused(refusal),
    };
    let mut shelf = match RealShelf::new(rt.alloc(), rt) {
        Ok(shelf) => shelf,
        Err(error) => return Finished::refused(Refusal::from(error)),
    };
    let mut out = RealSink::new(rt);
    ctrel(
        threads,
        rt.alloc(),
        words.as_slice(),
        &mut shelf,
        &mut out,
        kits,
        gate,
    )
}

/// Makes a kit of all passes for each worker that there may be, and runs the program with them.
fn run_with_passes<R: Threads + Wait + Sync, G: Gate>(
    rt: &HostRuntime,
    threads: &R,
    gate: &G,
) -> Result<Finished, AllocError>
    ensures { IfOk result (λ finished. HasStatus finished.outcome finished.refusal finished.status) }
{
    let alloc = rt.alloc();
    let mut kits = Vec::new(alloc);
    for _ in 0..MOST_WORKERS {
        let mut kit: Kit = Vec::new(alloc);
        kit.push(Box::new(alloc, KnownBits::new(alloc)?)?)?;
        kit.push(Box::new(alloc, Algebra::new(alloc)?)?)?;
        kit.push(Box::new(alloc, MergeBytes::new(alloc)?)?)?;
        kit.push(Box::new(alloc, Shifts::new(alloc)?)?)?;
        kit.push(Box::new(alloc, Sums::new(alloc)?)?)?;
        kits.push(kit)?;
    }
    Ok(run_with(rt, threads, kits, gate))
}

/// Runs the program on the words that the process was given, over the real files and the real
/// output, with kits of all passes, the threads of this handle and this gate.
pub fn run<R: Threads + Wait + Sync, G: Gate>(rt: &HostRuntime, threads: &R, gate: &G) -> Finished
    ensures { HasStatus result.outcome result.refusal result.status }
{
    match run_with_passes(rt, threads, gate) {
        Ok(finished) => finished,
        Err(error) => Finished::refused(Refusal::from(error)),
    }
}

/// Says on standard error why no whole text was written, if none was, and gives the status to end with.
pub fn finish(rt: &HostRuntime, finished: &Finished) -> ExitCode
    ensures { exit_status result ≡ finished.now.status }
{
    tell(rt.alloc(), finished, &mut RealSink::new(rt.stderr()));
    ExitCode::from(finished.status)
}
