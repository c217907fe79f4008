//! The call that the program makes.

ghost use Rattle.std.specs.Prelude.{◌≤◌, length, map, All, IfOk};
ghost use Rattle.std.specs.String.{string_bytes};
ghost use Rattle.ct_lines.specs.Commands.{command_of};
ghost use Rattle.ct_lines.specs.declared.command.TheConstants.{MOST_WORKERS};
ghost use Rattle.rel_step.specs.declared.simplifying.TheConstants.{MOST_PASSES};
ghost use Rattle.ct_main.specs.Outside.{read_of, wrote_of};
ghost use Rattle.ct_main.specs.Status.{HasStatus};
ghost use Rattle.ct_main.specs.Answer.{IsAnswer};
ghost use Rattle.ct_main.specs.Tasks.{CanDo, Finds, IsDelivered};

use crate::finished::Finished;
use crate::made::Made;
use crate::output::write_made;
use crate::preparation::prepare;
use crate::refusal::Refusal;
use crate::task::Task;
use bv_passes::Kit;
use ct_lines::read_words;
use ct_outside::{Gate, Shelf, Sink};
use std::alloc::Global;
use std::sync::Wait;
use std::thread::Threads;

/// How many names the shelf may have been asked for before a call, so that it has room for those of the call.
pub const ASKED_BEFORE: usize = 12;

/// Reads the words and the files that they name; gives what remains to be done.
fn find_task<F: Shelf>(alloc: Global, words: &[String], shelf: &mut F) -> Result<Task, Refusal>
    requires { length (F.asked shelf.old) ≤ ASKED_BEFORE }
    ensures found { Finds
        (command_of (map string_bytes words.now))
        (read_of F.files F.asked F.given F.faults shelf.old shelf.new) result }
    ensures can { IfOk result CanDo }
{
    let command = read_words(alloc, words)?;
    prepare(alloc, shelf, &command)
}

/// Does a task and writes its whole text.
fn deliver<R: Threads + Wait + Sync, S: Sink, G: Gate>(
    rt: &R,
    alloc: Global,
    task: Task,
    kits: Vec<Kit>,
    gate: &G,
    out: &mut S,
) -> Finished
    requires can { CanDo task }
    requires enough { MOST_WORKERS ≤ length kits.items }
    requires few { All (λ kit. length kit.items ≤ MOST_PASSES) kits.items }
    ensures { IsDelivered task
        (wrote_of S.written S.sure S.faults out.old out.new) result.status result.outcome result.refusal }
{
    let Made {
        status,
        outcome,
        text,
    } = Made::by_task(rt, alloc, task, kits, gate);
    let refusal = write_made(text, out).err();
    Finished::ended(status, outcome, refusal)
}

/// Runs the program on the words after its name.
///
/// It reads the files that the words name, does what they ask, makes the whole text and then
/// writes it; what it answers is the status to end with, the outcome of a check, and the refusal to
/// print. A check has a kit of passes for each of its workers, which pass the gate whenever they
/// begin a path; a check alone may wait, its workers for each other. Generated code is checked by one
/// worker with the first kit. Its time and its memory are those of `byte_check`, `check_job`,
/// `check_alone`, `replay`, `trace_text` or `list_text`, beside the files, the image and the text.
pub fn ctrel<R: Threads + Wait + Sync, F: Shelf, S: Sink, G: Gate>(
    rt: &R,
    alloc: Global,
    words: &[String],
    shelf: &mut F,
    out: &mut S,
    kits: Vec<Kit>,
    gate: &G,
) -> Finished
    requires asked { length (F.asked shelf.old) ≤ ASKED_BEFORE }
    requires enough { MOST_WORKERS ≤ length kits.items }
    requires few { All (λ kit. length kit.items ≤ MOST_PASSES) kits.items }
    ensures answer { IsAnswer
        (command_of (map string_bytes words.now))
        (read_of F.files F.asked F.given F.faults shelf.old shelf.new)
        (wrote_of S.written S.sure S.faults out.old out.new)
        result.status result.outcome result.refusal }
    ensures status { HasStatus result.outcome result.refusal result.status }
{
    match find_task(alloc, words, shelf) {
        Ok(task) => deliver(rt, alloc, task, kits, gate, out),
        Err(refusal) => Finished::refused(refusal),
    }
}
