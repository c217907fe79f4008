//! The trace of a run.
ghost use Rattle.std.specs.Prelude.{◌≡◌, ◌++◌, [], ◌∷◌, length, IfOk, codes, decimal};
ghost use Rattle.std.specs.Option.{option_to_list};
ghost use Rattle.std.specs.Result.{OnOk};
ghost use Rattle.std.specs.String.{string_bytes};
ghost use Rattle.rv_image.specs.Image.{size_of};
ghost use Rattle.rv_machine.specs.Trail.{trail, state_after};
ghost use Rattle.ct_pairs.specs.Inputs.{public_count, secret_count};
ghost use Rattle.ct_pairs.specs.Start.{bounded_trail};
ghost use Rattle.ct_listing.specs.Trace.{record_line, record_lines, ending_name, ending_line, start_trace, trace_of};

use ct_pairs::{Job, start_machine};
use ct_rows::Text;
use ct_texts::{push_address, push_record};
use rv_machine::{End, Machine, Record};
use std::alloc::{AllocError, Global};
use std::fmt::Write;

/// Appends the line of a step.
#[tactic(auto, unfolding(crate::specs::Trace::record_line))]
fn push_record_line(text: &mut String, step: u32, seen: Record) -> Result<(), AllocError>
    ensures { OnOk result (string_bytes text.new ≡ string_bytes text.old ++ record_line step seen) }
{
    write!(text, "step {step} pc ")?;
    push_address(text, seen.pc)?;
    text.push(' ')?;
    push_record(text, seen)?;
    text.push('\n')
}

/// Appends the line of a step that shows something.
#[tactic(auto, unfolding(crate::specs::Trace::record_lines))]
fn push_seen(text: &mut String, step: u32, seen: Option<Record>) -> Result<(), AllocError>
    ensures { OnOk result (string_bytes text.new ≡ string_bytes text.old ++ record_lines step (option_to_list seen)) }
{
    match seen {
        Some(seen) => push_record_line(text, step, seen),
        None => Ok(()),
    }
}

/// Runs a machine of the job up to the bound, and appends the line of each step.
fn push_record_lines(text: &mut String, job: &Job, machine: &mut Machine) -> Result<(), AllocError>
    requires { length machine.old.bytes ≡ size_of job.now.image }
    ensures lines { OnOk result (string_bytes text.new ≡ string_bytes text.old ++ record_lines 1 (bounded_trail job.now machine.old)) }
    ensures after { OnOk result (machine.new ≡ state_after job.now.image job.now.stops machine.old job.now.bound) }
{
    for at in 0..job.bound {
        let stepped = machine.step(&job.image, job.stops.as_slice());
        push_seen(text, at + 1, stepped.seen)?;
        if stepped.end.is_some() {
            return Ok(());
        }
    }
    Ok(())
}

/// The word of an ending.
fn name_of(ending: Option<End>) -> &'static str
    ensures { result.now ≡ ending_name ending }
{
    match ending {
        Some(End::Stop) => "stop",
        Some(End::BadFetch) => "fetch",
        Some(End::Illegal) => "illegal",
        Some(End::Call) => "call",
        Some(End::Fault) => "fault",
        None => "bound",
    }
}

/// Appends the line that says how a run ended.
#[tactic(auto, unfolding(crate::specs::Trace::ending_line))]
fn push_ending_line(text: &mut String, ending: Option<End>) -> Result<(), AllocError>
    ensures { OnOk result (string_bytes text.new ≡ string_bytes text.old ++ ending_line ending) }
{
    writeln!(text, "end {}", name_of(ending))
}

/// The trace of the run of a job from the start with these values for its public and for its secret
/// bytes: a line for each step, up to the bound of the job, and then how the run ended.
///
/// The time grows with the steps and with the accessible bytes, which the machine copies; the memory
/// with these bytes and with the text, of at most 65 bytes a step.
#[tactic(auto, unfolding(crate::specs::Trace::start_trace, crate::specs::Trace::trace_from))]
pub fn start_trace_text(
    alloc: Global,
    job: &Job,
    shared: &[u8],
    secret: &[u8],
) -> Result<Text, AllocError>
    requires shared { length shared.now ≡ public_count job.now.inputs }
    requires secret { length secret.now ≡ secret_count job.now.inputs }
    ensures { IfOk result (λ text. text ≡ start_trace job.now shared.now secret.now) }
{
    let mut machine = start_machine(alloc, job, shared, secret)?;
    let mut text = String::new(alloc);
    push_record_lines(&mut text, job, &mut machine)?;
    push_ending_line(&mut text, machine.ending())?;
    Ok(Text::from_string(text))
}

/// The trace of the run of a job in which its one input byte, a secret one, is 0: a line for each
/// step, up to the bound of the job, and then how the run ended.
///
/// Its time and its memory are those of `start_trace_text`.
#[tactic(auto, unfolding(crate::specs::Trace::trace_of, crate::specs::Trace::start_trace))]
pub fn trace_text(alloc: Global, job: &Job) -> Result<Text, AllocError>
    requires public { public_count job.now.inputs ≡ 0 }
    requires secret { secret_count job.now.inputs ≡ 1 }
    ensures { IfOk result (λ text. text ≡ trace_of job.now) }
{
    start_trace_text(alloc, job, &[], &[0])
}
