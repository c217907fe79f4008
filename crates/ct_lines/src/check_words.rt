//! The words of `check`: two names, and options anywhere among them.

ghost use Rattle.std.specs.Prelude.{◌≡◌, ◌↔◌, Bool, false, None, Some, map, slice_get, IfSome, IfOk};
ghost use Rattle.std.specs.Option.{option_copied};
ghost use Rattle.std.specs.String.{string_bytes};
ghost use Rattle.ct_lines.specs.CheckWords.{is_option, names_among, two_names, setting_of, check_of};
ghost use Rattle.ct_lines.specs.Commands.{AreWithinLimits};
ghost use Rattle.ct_lines.specs.Words.{IsWithin};

use crate::command::{Command, MOST_WORKERS, USUAL_WORKERS};
use crate::word::{kept, read_name, read_number};
use crate::words_refusal::WordsRefusal;
use ct_pairs::{MOST_BOUND, MOST_BUDGET, MOST_TARGETS, USUAL_BUDGET, USUAL_TARGETS};
use ct_rows::Text;
use std::alloc::Global;

/// Whether the word is an option.
fn is_option(word: &str) -> bool
    ensures { result ≡ is_option word.now }
{
    matches!(word, "--bound" | "--workers" | "--budget" | "--targets")
}

/// The word behind `nth` others, among those that are no option and follow none.
fn name_among(words: &[String], nth: usize) -> Option<&str>
    ensures { option_copied result ≡ slice_get (names_among false (map string_bytes words.now)) nth }
{
    let mut others = nth;
    let mut follows = false;
    let mut left = words;
    while let [word, rest @ ..] = left {
        let option = is_option(word.as_str());
        if !follows && !option {
            if others == 0 {
                return Some(word.as_str());
            }
            others -= 1;
        }
        follows = option;
        left = rest;
    }
    None
}

/// The names of the binary and of the policy.
#[tactic(auto, using(crate::proofs::CheckLemmas::two_names_at))]
fn read_names(alloc: Global, words: &[String]) -> Result<(Text, Text), WordsRefusal>
    ensures accepted { IfOk result (λ names. two_names (names_among false (map string_bytes words.now)) ≡ Some names) }
    ensures refused { (result ≡ Err WordsRefusal.Refused) ↔ (two_names (names_among false (map string_bytes words.now)) ≡ None) }
{
    let first = name_among(words, 0).ok_or(WordsRefusal::Refused)?;
    let second = name_among(words, 1).ok_or(WordsRefusal::Refused)?;
    if name_among(words, 2).is_some() {
        return Err(WordsRefusal::Refused);
    }
    let first = read_name(first).ok_or(WordsRefusal::Refused)?;
    let second = read_name(second).ok_or(WordsRefusal::Refused)?;
    Ok((kept(alloc, first)?, kept(alloc, second)?))
}

/// What the words say of an option: nothing, or a number from `low` to `high`.
fn read_setting(words: &[String], option: &str, low: u32, high: u32) -> Option<Option<u32>>
    ensures value { result ≡ setting_of option.now low high (map string_bytes words.now) }
    ensures within { IfSome result (λ setting. IfSome setting (IsWithin low high)) }
{
    let mut setting = None;
    let mut left = words;
    while let [word, rest @ ..] = left {
        if word.as_str() == option {
            if setting.is_some() {
                return None;
            }
            let number = rest.first()?;
            setting = Some(read_number(number.as_str(), low, high)?);
        }
        left = rest;
    }
    Some(setting)
}

/// Reads the words after `check`.
pub fn read_check(alloc: Global, words: &[String]) -> Result<Command, WordsRefusal>
    ensures accepted { IfOk result (λ command. check_of (map string_bytes words.now) ≡ Some command) }
    ensures refused { (result ≡ Err WordsRefusal.Refused) ↔ (check_of (map string_bytes words.now) ≡ None) }
    ensures limits { IfOk result AreWithinLimits }
{
    let bound = read_setting(words, "--bound", 1, MOST_BOUND).ok_or(WordsRefusal::Refused)?;
    let workers = read_setting(words, "--workers", 1, MOST_WORKERS).ok_or(WordsRefusal::Refused)?;
    let budget = read_setting(words, "--budget", 0, MOST_BUDGET as u32).ok_or(
        WordsRefusal::Refused,
    )?;
    let targets = read_setting(words, "--targets", 1, MOST_TARGETS).ok_or(WordsRefusal::Refused)?;
    let (binary, policy) = read_names(alloc, words)?;
    Ok(Command::Check {
        binary,
        policy,
        bound,
        workers: workers.unwrap_or(USUAL_WORKERS),
        budget: budget.map_or(USUAL_BUDGET, u64::from),
        targets: targets.unwrap_or(USUAL_TARGETS),
    })
}
