//! Texts of pairs.
ghost use Rattle.std.specs.Prelude.{◌≡◌, ◌++◌, IfOk};
ghost use Rattle.std.specs.Result.{OnOk};
ghost use Rattle.std.specs.String.{string_bytes};
ghost use Rattle.pair_replay.specs.PairText.{values_line, pair_text};

use ct_pairs::Pair;
use ct_texts::push_bytes;
use std::alloc::{AllocError, Global};

/// The text of a pair: the line `pair 1`, and the shared, the left and the right values, a line each.
#[tactic(auto, unfolding(crate::specs::PairText::pair_text))]
pub fn pair_text(alloc: Global, pair: &Pair) -> Result<String, AllocError>
    ensures { IfOk result (λ text. string_bytes text ≡ pair_text pair.now) }
{
    let mut text = String::from_str(alloc, "pair 1\n")?;
    push_values_line(&mut text, "shared", pair.shared.as_slice())?;
    push_values_line(&mut text, "left", pair.left.as_slice())?;
    push_values_line(&mut text, "right", pair.right.as_slice())?;
    Ok(text)
}

/// Appends a line: a name, a space, and values.
#[tactic(auto, unfolding(crate::specs::PairText::values_line))]
pub(crate) fn push_values_line(
    text: &mut String,
    name: &str,
    values: &[u8],
) -> Result<(), AllocError>
    ensures { OnOk result (string_bytes text.new ≡ string_bytes text.old ++ values_line name.now values.now) }
{
    text.push_str(name)?;
    text.push(' ')?;
    push_bytes(text, values)?;
    text.push('\n')
}
