//! The phases of a command: its files are read one after another, each is held against its rules, and what remains is a task.

ghost use Rattle.std.specs.Prelude.{◌≡◌, ◌≤◌, ◌∷◌, [], length, IfOk};
ghost use Rattle.elf_load.specs.Layout.{FitsMemory, segment_extents};
ghost use Rattle.ct_pairs.specs.Limits.{IsBound};
ghost use Rattle.ct_lines.specs.Commands.{AreWithinLimits};
ghost use Rattle.ct_lines.specs.declared.command.Command.TheVariants.{Replay};
ghost use Rattle.ct_policy.specs.ByteJob.{IsByteJobAt};
ghost use Rattle.ct_policy.specs.Job.{IsJobOfBytes};
ghost use Rattle.ct_policy.specs.Limits.{AreOptions};
ghost use Rattle.ct_main.specs.Outside.{read_of};
ghost use Rattle.ct_main.specs.Phases.{executable_rules, routine_rules, policy_rules, pair_rules, program_of, policy_bytes};
ghost use Rattle.ct_main.specs.Tasks.{Gives, GivesFirst, HasOneSecret, CanDo, IsTaskOf, Prepares};

use crate::files::{load_file, read_file};
use crate::generated::Generated;
use crate::program::ASKED_BEFORE;
use crate::refusal::Refusal;
use crate::task::Task;
use ct_lines::Command;
use ct_outside::Shelf;
use ct_pairs::{Entry, Job, USUAL_BUDGET, USUAL_TARGETS};
use ct_policy::{Options, byte_job, read};
use ct_rows::Text;
use elf_load::Elf;
use pair_replay::{bad_line_law, read_pair};
use std::alloc::Global;

/// The job of a routine of one secret byte.
fn routine_job<F: Shelf>(
    alloc: Global,
    shelf: &mut F,
    binary: &Text,
    entry: &Entry,
    bound: u32,
) -> Result<Job, Refusal>
    requires room { length (F.asked shelf.old) ≤ ASKED_BEFORE }
    requires bound { IsBound bound }
    ensures job { Gives
        (read_of F.files F.asked F.given F.faults shelf.old shelf.new)
        ((binary.now, routine_rules entry.now) ∷ [])
        (λ contents job. IsByteJobAt (program_of contents) entry.now bound job) result }
    ensures one_secret { IfOk result HasOneSecret }
{
    let elf = load_file(alloc, read_file(alloc, shelf, binary)?)?;
    Ok(byte_job(alloc, &elf, entry, bound)?)
}

/// The job of a policy.
fn policy_job<F: Shelf>(
    alloc: Global,
    shelf: &mut F,
    binary: &Text,
    policy: &Text,
    options: &Options,
) -> Result<Job, Refusal>
    requires room { length (F.asked shelf.old) ≤ ASKED_BEFORE }
    requires options { AreOptions options.now }
    ensures job { GivesFirst
        (read_of F.files F.asked F.given F.faults shelf.old shelf.new)
        ((binary.now, executable_rules) ∷ (policy.now, policy_rules) ∷ [])
        (λ contents job. IsJobOfBytes (program_of contents) options.now (policy_bytes contents) job) result }
    ensures counts { F.faults shelf.old ≤ F.faults shelf.new }
    ensures same_files { F.files shelf.new ≡ F.files shelf.old }
{
    let elf = load_file(alloc, read_file(alloc, shelf, binary)?)?;
    let bytes = read_file(alloc, shelf, policy)?;
    Ok(read(alloc, bytes.as_slice(), &elf, options)?)
}

/// The job of a policy and a pair of its starts.
fn replay_task<F: Shelf>(
    alloc: Global,
    shelf: &mut F,
    binary: &Text,
    policy: &Text,
    pair: &Text,
) -> Result<Task, Refusal>
    requires { length (F.asked shelf.old) ≤ ASKED_BEFORE }
    ensures task { Gives
        (read_of F.files F.asked F.given F.faults shelf.old shelf.new)
        ((binary.now, executable_rules) ∷ (policy.now, policy_rules) ∷ (pair.now, pair_rules) ∷ [])
        (λ contents task. IsTaskOf (Replay binary.now policy.now pair.now) contents task) result }
    ensures can { IfOk result CanDo }
{
    let options = Options {
        bound: None,
        budget: USUAL_BUDGET,
        targets: USUAL_TARGETS,
    };
    let job = policy_job(alloc, shelf, binary, policy, &options)?;
    let bytes = read_file(alloc, shelf, pair)?;
    bad_line_law(bytes.as_slice(), &job);
    let start = read_pair(alloc, bytes.as_slice(), &job)?;
    Ok(Task::Replay(job, start))
}

/// The executable of a file.
fn executable<F: Shelf>(alloc: Global, shelf: &mut F, binary: &Text) -> Result<Elf, Refusal>
    requires room { length (F.asked shelf.old) ≤ ASKED_BEFORE }
    ensures elf { Gives
        (read_of F.files F.asked F.given F.faults shelf.old shelf.new)
        ((binary.now, executable_rules) ∷ [])
        (λ contents elf. elf ≡ program_of contents) result }
    ensures fits { IfOk result (λ elf. FitsMemory (segment_extents elf)) }
{
    Ok(load_file(alloc, read_file(alloc, shelf, binary)?)?)
}

/// Reads the files of a command and holds each against its rules; gives what remains to be done. Generated code is made
/// and read here, and the shelf isn't asked for it.
pub fn prepare<F: Shelf>(alloc: Global, shelf: &mut F, command: &Command) -> Result<Task, Refusal>
    requires room { length (F.asked shelf.old) ≤ ASKED_BEFORE }
    requires limits { AreWithinLimits command.now }
    ensures prepared { Prepares
        (read_of F.files F.asked F.given F.faults shelf.old shelf.new) command.now result }
    ensures can { IfOk result CanDo }
{
    match command {
        Command::Byte {
            binary,
            entry,
            bound,
        } => Ok(Task::Byte(routine_job(alloc, shelf, binary, entry, *bound)?)),
        Command::Check {
            binary,
            policy,
            bound,
            workers,
            budget,
            targets,
        } => {
            let options = Options {
                bound: *bound,
                budget: *budget,
                targets: *targets,
            };
            let job = policy_job(alloc, shelf, binary, policy, &options);
            Ok(Task::Check(job?, *workers))
        }
        Command::Replay {
            binary,
            policy,
            pair,
        } => replay_task(alloc, shelf, binary, policy, pair),
        Command::Trace {
            binary,
            entry,
            bound,
        } => Ok(Task::Trace(routine_job(alloc, shelf, binary, entry, *bound)?)),
        Command::List { binary } => Ok(Task::List(executable(alloc, shelf, binary)?)),
        Command::Gen { number, size } => Ok(Task::Gen(Generated::of(alloc, *number, *size)?)),
    }
}
