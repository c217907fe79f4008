//! The call that the program makes.

ghost use Rattle.std.specs.Prelude.{◌≡◌, ◌≤◌, length, map, IfOk};
ghost use Rattle.std.specs.String.{string_bytes};
ghost use Rattle.ct_main.specs.Outside.{read_of, wrote_of};
ghost use Rattle.ct_main.specs.Status.{ended_status};
ghost use Rattle.ct_main.specs.Tasks.{Finds};
ghost use Rattle.ct_trace.specs.Words.{command_of};
ghost use Rattle.ct_trace.specs.Answer.{IsAnswer};
ghost use Rattle.ct_trace.specs.Showing.{CanShow, IsDelivered};

use crate::finished::Finished;
use crate::reading::read_words;
use crate::showing::show_task;
use ct_main::{ASKED_BEFORE, Refusal, Task, prepare, write_made};
use ct_outside::{Shelf, Sink};
use std::alloc::Global;

/// Reads the words and the files that they name; gives what is to be shown.
fn find_task<F: Shelf>(alloc: Global, words: &[String], shelf: &mut F) -> Result<Task, Refusal>
    requires { length (F.asked shelf.old) ≤ ASKED_BEFORE }
    ensures found { Finds
        (command_of (map string_bytes words.now))
        (read_of F.files F.asked F.given F.faults shelf.old shelf.new) result }
    ensures can { IfOk result CanShow }
{
    let command = read_words(alloc, words)?;
    prepare(alloc, shelf, &command)
}

/// Makes the trace of a task and writes it; gives why it isn't whole, if it isn't.
fn deliver<S: Sink>(alloc: Global, task: Task, out: &mut S) -> Option<Refusal>
    requires { CanShow task }
    ensures { IsDelivered task (wrote_of S.written S.sure S.faults out.old out.new) result }
{
    write_made(show_task(alloc, task), out).err()
}

/// Runs the program on the words after its name: an executable, a policy and perhaps a pair.
///
/// It reads the files that the words name, runs the policy's job once, up to the policy's bound, and
/// writes the whole trace: that of the pair's shared and left values, or without a pair that of zeros.
/// What it answers is the status to end with and the refusal to print. Its time and its memory are
/// those of `start_trace_text`, beside the files, the image and the text.
pub fn ctrace<F: Shelf, S: Sink>(
    alloc: Global,
    words: &[String],
    shelf: &mut F,
    out: &mut S,
) -> Finished
    requires asked { length (F.asked shelf.old) ≤ ASKED_BEFORE }
    ensures answer { IsAnswer
        (command_of (map string_bytes words.now))
        (read_of F.files F.asked F.given F.faults shelf.old shelf.new)
        (wrote_of S.written S.sure S.faults out.old out.new)
        result.refusal }
    ensures status { result.status ≡ ended_status 0 result.refusal }
{
    match find_task(alloc, words, shelf) {
        Ok(task) => Finished::by(deliver(alloc, task, out)),
        Err(refusal) => Finished::by(Some(refusal)),
    }
}
