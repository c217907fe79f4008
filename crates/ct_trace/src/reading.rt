//! The words of the program.

ghost use Rattle.std.specs.Prelude.{◌≡◌, ◌↔◌, None, Some, map, IfOk};
ghost use Rattle.std.specs.Option.{option_copied};
ghost use Rattle.std.specs.String.{string_bytes};
ghost use Rattle.ct_lines.specs.Commands.{replay_from, AreWithinLimits};
ghost use Rattle.ct_lines.specs.Words.{name_of};
ghost use Rattle.ct_trace.specs.Words.{check_from, command_of, IsShown};

use ct_lines::{Command, USUAL_WORKERS, WordsRefusal};
use ct_pairs::{USUAL_BUDGET, USUAL_TARGETS};
use ct_rows::Text;
use std::alloc::{AllocError, Global};

/// The name of a name word.
fn read_name(word: &str) -> Option<&str>
    ensures { option_copied result ≡ name_of word.now }
{
    if word.is_empty() || word.as_bytes().starts_with(b"-") {
        None
    } else {
        Some(word)
    }
}

/// The name in memory of its own.
fn kept(alloc: Global, name: &str) -> Result<Text, AllocError>
    ensures { IfOk result (λ text. text ≡ name.now) }
{
    Ok(Text::from_string(String::from_str(alloc, name)?))
}

/// The check of two files.
fn read_check(alloc: Global, binary: &str, policy: &str) -> Result<Command, WordsRefusal>
    ensures accepted { IfOk result (λ command. check_from (name_of binary.now) (name_of policy.now) ≡ Some command) }
    ensures refused { (result ≡ Err WordsRefusal.Refused) ↔ (check_from (name_of binary.now) (name_of policy.now) ≡ None) }
    ensures limits { IfOk result AreWithinLimits }
    ensures shown { IfOk result IsShown }
{
    let binary = read_name(binary).ok_or(WordsRefusal::Refused)?;
    let policy = read_name(policy).ok_or(WordsRefusal::Refused)?;
    Ok(Command::Check {
        binary: kept(alloc, binary)?,
        policy: kept(alloc, policy)?,
        bound: None,
        workers: USUAL_WORKERS,
        budget: USUAL_BUDGET,
        targets: USUAL_TARGETS,
    })
}

/// The replay of three files.
fn read_replay(
    alloc: Global,
    binary: &str,
    policy: &str,
    pair: &str,
) -> Result<Command, WordsRefusal>
    ensures accepted { IfOk result (λ command. replay_from (name_of binary.now) (name_of policy.now) (name_of pair.now) ≡ Some command) }
    ensures refused { (result ≡ Err WordsRefusal.Refused) ↔ (replay_from (name_of binary.now) (name_of policy.now) (name_of pair.now) ≡ None) }
    ensures limits { IfOk result AreWithinLimits }
    ensures shown { IfOk result IsShown }
{
    let binary = read_name(binary).ok_or(WordsRefusal::Refused)?;
    let policy = read_name(policy).ok_or(WordsRefusal::Refused)?;
    let pair = read_name(pair).ok_or(WordsRefusal::Refused)?;
    Ok(Command::Replay {
        binary: kept(alloc, binary)?,
        policy: kept(alloc, policy)?,
        pair: kept(alloc, pair)?,
    })
}

/// Reads the words after the program's name, `BINARY POLICY` or `BINARY POLICY PAIR`, as the command
/// of `ctrel` that reads the same files: a check, or a replay.
pub(crate) fn read_words(alloc: Global, words: &[String]) -> Result<Command, WordsRefusal>
    ensures accepted { IfOk result (λ command. command_of (map string_bytes words.now) ≡ Some command) }
    ensures refused { (result ≡ Err WordsRefusal.Refused) ↔ (command_of (map string_bytes words.now) ≡ None) }
    ensures limits { IfOk result AreWithinLimits }
    ensures shown { IfOk result IsShown }
{
    match words {
        [binary, policy] => read_check(alloc, binary.as_str(), policy.as_str()),
        [binary, policy, pair] => {
            read_replay(alloc, binary.as_str(), policy.as_str(), pair.as_str())
        }
        _ => Err(WordsRefusal::Refused),
    }
}
