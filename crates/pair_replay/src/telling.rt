//! How two runs compare, as a text of lines.
ghost use Rattle.std.specs.Prelude.{◌≡◌, ◌++◌, IfOk};
ghost use Rattle.std.specs.Result.{OnOk};
ghost use Rattle.std.specs.String.{string_bytes};
ghost use Rattle.ct_rows.specs.Lines.{line};
ghost use Rattle.pair_replay.specs.ReplayText.{agree_line, place_text, run_line, replay_text};
ghost use Rattle.pair_replay.specs.declared.replayed.Replayed.TheVariants.{Differ};

use crate::replayed::Replayed;
use ct_pairs::Split;
use ct_rows::Text;
use ct_texts::{push_address, push_record};
use rv_machine::Record;
use std::alloc::{AllocError, Global};
use std::fmt::Write;

/// Appends the line of runs that show the same.
#[tactic(auto, unfolding(crate::specs::ReplayText::agree_line))]
fn push_agree_line(text: &mut String, steps: u32) -> Result<(), AllocError>
    ensures { OnOk result (string_bytes text.new ≡ string_bytes text.old ++ agree_line steps) }
{
    writeln!(text, "agree steps {steps}")
}

/// Appends at which step and site runs first differ.
#[tactic(auto, unfolding(crate::specs::ReplayText::place_text))]
fn push_place(text: &mut String, step: u32, site: u32) -> Result<(), AllocError>
    ensures { OnOk result (string_bytes text.new ≡ string_bytes text.old ++ place_text step site) }
{
    write!(text, "differ step {step} site ")?;
    push_address(text, site)
}

/// Appends the line of the step and the site at which runs first differ.
fn push_differ_line(text: &mut String, step: u32, site: u32) -> Result<(), AllocError>
    ensures { OnOk result (string_bytes text.new ≡ string_bytes text.old ++ line (place_text step site)) }
{
    push_place(text, step, site)?;
    text.push('\n')
}

/// Appends the line of what a run shows, after the run's name.
#[tactic(auto, unfolding(crate::specs::ReplayText::run_line))]
fn push_run_line(text: &mut String, name: &str, seen: Record) -> Result<(), AllocError>
    ensures { OnOk result (string_bytes text.new ≡ string_bytes text.old ++ run_line name.now seen) }
{
    text.push_str(name)?;
    text.push(' ')?;
    push_record(text, seen)?;
    text.push('\n')
}

/// Appends the lines of runs that differ.
fn push_split(text: &mut String, split: &Split) -> Result<(), AllocError>
    ensures { OnOk result (string_bytes text.new ≡ string_bytes text.old ++ replay_text (Differ split.now)) }
{
    push_differ_line(text, split.step, split.left.pc)?;
    push_run_line(text, "left", split.left)?;
    push_run_line(text, "right", split.right)
}

/// How two runs compare: in how many steps they show the same, or at which step and site they first
/// differ, and what each shows there.
pub fn replay_text(alloc: Global, replayed: &Replayed) -> Result<Text, AllocError>
    ensures { IfOk result (λ text. text ≡ replay_text replayed.now) }
{
    let mut text = String::new(alloc);
    match replayed {
        Replayed::Agree { steps } => push_agree_line(&mut text, *steps)?,
        Replayed::Differ(split) => push_split(&mut text, split)?,
    }
    Ok(Text::from_string(text))
}
