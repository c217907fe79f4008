//! The line that sums up a check of generated code.
ghost use Rattle.std.specs.Prelude.{◌≡◌, ◌++◌, IfOk};
ghost use Rattle.std.specs.Result.{OnOk};
ghost use Rattle.std.specs.String.{string_bytes};
ghost use Rattle.ct_gen.specs.Summary.{counted, summary_of};

use ct_report::Outcome;
use ct_rows::Text;
use std::alloc::{AllocError, Global};
use std::fmt::Write;

// Appends how many there are of what is named.
fn push_count(text: &mut String, count: u128, name: &str) -> Result<(), AllocError>
    ensures { OnOk result (string_bytes text.new ≡ string_bytes text.old ++ counted count name.now) }
{
    write!(text, "{count} {name}, ")
}

/// The line for a number and a size, whose code has so many words, and for what a check of it found.
#[tactic(auto, unfolding(crate::specs::Summary::summary_of))]
pub fn summary_text(
    alloc: Global,
    number: u32,
    size: u32,
    words: u32,
    outcome: &Outcome,
) -> Result<Text, AllocError>
    ensures { IfOk result (λ text. text ≡ summary_of number size words outcome.now) }
{
    let mut text = format!(in alloc; "gen {number} {size}: ")?;
    push_count(&mut text, u128::from(words), "words")?;
    push_count(&mut text, outcome.sites.len() as u128, "sites")?;
    push_count(&mut text, outcome.listed.len() as u128, "places")?;
    push_count(&mut text, outcome.doubts, "doubts")?;
    push_count(&mut text, outcome.paths, "paths")?;
    writeln!(text, "{}", outcome.verdict().name())?;
    Ok(Text::from_string(text))
}
