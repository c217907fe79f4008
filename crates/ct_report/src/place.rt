//! The line of a question that was left open.
ghost use Rattle.std.specs.Prelude.{◌≡◌, ◌++◌, codes, decimal, IfOk};
ghost use Rattle.std.specs.List.{flat_map};
ghost use Rattle.std.specs.Result.{OnOk};
ghost use Rattle.std.specs.String.{string_bytes};
ghost use Rattle.rv_decode.specs.Text.{address_text};
ghost use Rattle.ct_report.specs.Places.{addresses_text, ascending, nexts_of, or_dash, turns, cause_name, cause_text, place_line};

use crate::ascending::in_order;
use crate::turns::{address_after, push_turns};
use ct_entries::{Cause, Listed, Seen};
use ct_pairs::Job;
use ct_texts::push_address;
use rv_image::Image;
use std::alloc::{AllocError, Global};
use std::fmt::Write;

// Appends addresses with a space between, or `-` where there is none.
fn push_addresses(text: &mut String, addresses: &[u32]) -> Result<(), AllocError>
    ensures { OnOk result (string_bytes text.new ≡ string_bytes text.old ++ addresses_text addresses.now) }
{
    let Some((first, more)) = addresses.split_first() else {
        return text.push_str("-");
    };
    push_address(text, *first)?;
    for address in more {
        push_next_address(text, *address)?;
    }
    Ok(())
}

fn push_next_address(text: &mut String, address: u32) -> Result<(), AllocError>
    ensures { OnOk result (string_bytes text.new ≡ string_bytes text.old ++ (codes " " ++ address_text address)) }
{
    text.push(' ')?;
    push_address(text, address)
}

// The nexts of what was seen.
fn seen_nexts(alloc: Global, seen: &[Seen]) -> Result<Vec<u32>, AllocError>
    ensures { IfOk result (λ nexts. nexts.items ≡ nexts_of seen.now) }
{
    let mut nexts = Vec::new(alloc);
    for one in seen {
        nexts.push(one.next)?;
    }
    Ok(nexts)
}

fn name_of(cause: &Cause) -> &'static str
    ensures { result.now ≡ cause_name cause.now }
{
    match cause {
        Cause::SpentLeak { .. } => "leak",
        Cause::SpentNext { .. } => "next",
        Cause::Over { .. } => "over",
    }
}

// Appends how far a search went.
fn push_lines(text: &mut String, lines: usize) -> Result<(), AllocError>
    ensures { OnOk result (string_bytes text.new ≡ string_bytes text.old ++ codes " lines " ++ decimal lines) }
{
    write!(text, " lines {lines}")
}

// Appends a word and addresses in ascending order.
fn push_ascending(
    alloc: Global,
    text: &mut String,
    word: &str,
    addresses: &[u32],
) -> Result<(), AllocError>
    ensures { OnOk result (string_bytes text.new ≡ string_bytes text.old ++ word.now ++ addresses_text (ascending addresses.now)) }
{
    let sorted = in_order(alloc, addresses)?;
    text.push_str(word)?;
    push_addresses(text, sorted.as_slice())
}

// Appends how far a search went, and what it met.
fn push_cause(alloc: Global, text: &mut String, cause: &Cause) -> Result<(), AllocError>
    ensures { OnOk result (string_bytes text.new ≡ string_bytes text.old ++ cause_text cause.now) }
{
    match cause {
        Cause::SpentLeak { log, .. } => push_lines(text, log.len()),
        Cause::SpentNext { explored, log, .. } => {
            push_lines(text, log.len())?;
            push_ascending(alloc, text, " explored ", explored.as_slice())
        }
        Cause::Over { seen } => {
            let nexts = seen_nexts(alloc, seen.as_slice())?;
            push_ascending(alloc, text, " seen ", nexts.as_slice())
        }
    }
}

// Which way a control path went, as a text, or `-`.
fn turns_text(alloc: Global, image: &Image, entry: u32, path: &[u32]) -> Result<String, AllocError>
    ensures { IfOk result (λ text. string_bytes text ≡ or_dash (turns image.now entry path.now)) }
{
    let mut text = String::new(alloc);
    push_turns(&mut text, image, entry, path)?;
    if text.is_empty() {
        text.push('-')?;
    }
    Ok(text)
}

// Appends the line of a place.
#[tactic(auto, unfolding(crate::specs::Places::place_line))]
fn push_place(alloc: Global, text: &mut String, job: &Job, place: &Listed) -> Result<(), AllocError>
    ensures { OnOk result (string_bytes text.new ≡ string_bytes text.old ++ place_line job.now place.now) }
{
    let path = place.path.as_slice();
    let turns = turns_text(alloc, &job.image, job.entry, path)?;
    write!(text, "place {} ", name_of(&place.cause))?;
    push_address(text, address_after(job.entry, path))?;
    write!(text, " after {}", path.len())?;
    push_cause(alloc, text, &place.cause)?;
    writeln!(text, " turns {turns}")
}

/// Appends the line of each place.
pub fn push_places(
    alloc: Global,
    text: &mut String,
    job: &Job,
    places: &[Listed],
) -> Result<(), AllocError>
    ensures { OnOk result (string_bytes text.new ≡ string_bytes text.old ++ flat_map (place_line job.now) places.now) }
{
    for place in places {
        push_place(alloc, text, job, place)?;
    }
    Ok(())
}
