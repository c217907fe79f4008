//! The words of an image.
ghost use Rattle.std.specs.Prelude.{◌≡◌, ◌++◌, ◌+◌, ◌≤◌, ◌^◌, IfOk};
ghost use Rattle.std.specs.List.{flat_map};
ghost use Rattle.std.specs.Result.{OnOk};
ghost use Rattle.std.specs.String.{string_bytes};
ghost use Rattle.ct_listing.specs.List.{word_text, word_line, fetched_line, span_lines, list_of};

use ct_rows::Text;
use ct_texts::{push_address, push_word};
use rv_decode::{decode, text_of};
use rv_image::{Image, Span};
use std::alloc::{AllocError, Global};
use std::fmt::Write;

/// The text of the instruction that a word at `pc` stands for.
fn text_at(alloc: Global, pc: u32, word: u32) -> Result<String, AllocError>
    ensures { IfOk result (λ text. string_bytes text ≡ word_text pc word) }
{
    match decode(word) {
        Some(instr) => text_of(alloc, instr, pc),
        None => String::from_str(alloc, "-"),
    }
}

/// Appends the line of the word at `pc`.
#[tactic(auto, unfolding(crate::specs::List::word_line))]
fn push_word_line(alloc: Global, text: &mut String, pc: u32, word: u32) -> Result<(), AllocError>
    ensures { OnOk result (string_bytes text.new ≡ string_bytes text.old ++ word_line pc word) }
{
    push_address(text, pc)?;
    text.push(' ')?;
    push_word(text, word)?;
    writeln!(text, " {}", text_at(alloc, pc, word)?)
}

/// Appends the line of the word at `pc`, if one can be fetched there.
#[tactic(auto, unfolding(crate::specs::List::fetched_line))]
fn push_fetched_line(
    alloc: Global,
    text: &mut String,
    image: &Image,
    pc: u32,
) -> Result<(), AllocError>
    ensures { OnOk result (string_bytes text.new ≡ string_bytes text.old ++ fetched_line image.now pc) }
{
    match image.fetch(pc) {
        Some(word) => push_word_line(alloc, text, pc, word),
        None => Ok(()),
    }
}

/// Appends the lines of the words in a span.
#[tactic(auto, unfolding(crate::specs::List::span_lines))]
fn push_span_lines(
    alloc: Global,
    text: &mut String,
    image: &Image,
    span: &Span,
) -> Result<(), AllocError>
    requires { span.now.address + span.now.length ≤ 2 ^ 32 }
    ensures { OnOk result (string_bytes text.new ≡ string_bytes text.old ++ span_lines image.now span.now) }
{
    for offset in 0..span.length {
        push_fetched_line(alloc, text, image, span.address + offset)?;
    }
    Ok(())
}

/// The words of an image that may be executed, a line each, in ascending address: the address, the
/// word in hexadecimal, and its instruction, or `-` where it stands for none.
///
/// The time grows with the accessible bytes, times the logarithm of the number of spans; the memory
/// with the text, of at most 48 bytes a word.
pub fn list_text(alloc: Global, image: &Image) -> Result<Text, AllocError>
    ensures { IfOk result (λ text. text ≡ list_of image.now) }
{
    // What it ensures of an image keeps each span within memory.
    let _size = image.size();
    let mut text = String::new(alloc);
    for span in image.ranges() {
        push_span_lines(alloc, &mut text, image, span)?;
    }
    Ok(Text::from_string(text))
}
