//! The words of the command line.

ghost use Rattle.std.specs.Prelude.{◌≡◌, ◌↔◌, None, Some, map, IfOk};
ghost use Rattle.std.specs.Option.{ok_or};
ghost use Rattle.std.specs.String.{string_bytes};
ghost use Rattle.ct_pairs.specs.Limits.{IsBound};
ghost use Rattle.ct_lines.specs.Commands.{run_of, byte_of, trace_of, replay_of, list_of, gen_of, command_of, AreWithinLimits};

use crate::check_words::read_check;
use crate::command::{Command, MOST_BLOCKS};
use crate::run::Run;
use crate::word::{kept, read_entry, read_name, read_number};
use crate::words_refusal::WordsRefusal;
use ct_pairs::MOST_BOUND;
use std::alloc::Global;

/// Reads the words after the program's name: `byte BINARY ENTRY BOUND`, `check BINARY POLICY` with
/// options, `replay BINARY POLICY PAIR`, `trace BINARY ENTRY BOUND`, `list BINARY` or `gen NUMBER SIZE`.
///
/// BINARY, POLICY and PAIR are names of files. ENTRY is an address in decimal digits or in hexadecimal
/// ones after `0x`, or the name of a symbol. BOUND is a number of steps from 1 to 100,000, NUMBER any
/// below 2^32, and SIZE a number of blocks from 1 to 20,000. The options are `--bound`, `--workers` (1 to 16),
/// `--budget` (0 to 1,000,000) and `--targets` (1 to 256), each at most once, anywhere after `check`, as a
/// word of its own followed by its number. Every other list of words is refused.
pub fn read_words(alloc: Global, words: &[String]) -> Result<Command, WordsRefusal>
    ensures accepted { IfOk result (λ command. command_of (map string_bytes words.now) ≡ Some command) }
    ensures refused { (result ≡ Err WordsRefusal.Refused) ↔ (command_of (map string_bytes words.now) ≡ None) }
    ensures limits { IfOk result AreWithinLimits }
{
    let Some((command, rest)) = words.split_first() else {
        return Err(WordsRefusal::Refused);
    };
    match command.as_str() {
        "byte" => read_byte(alloc, rest),
        "check" => read_check(alloc, rest),
        "replay" => read_replay(alloc, rest),
        "trace" => read_trace(alloc, rest),
        "list" => read_list(alloc, rest),
        "gen" => read_gen(rest),
        _ => Err(WordsRefusal::Refused),
    }
}

/// Reads the words after `byte`.
fn read_byte(alloc: Global, words: &[String]) -> Result<Command, WordsRefusal>
    ensures accepted { IfOk result (λ command. byte_of (map string_bytes words.now) ≡ Some command) }
    ensures refused { (result ≡ Err WordsRefusal.Refused) ↔ (byte_of (map string_bytes words.now) ≡ None) }
    ensures limits { IfOk result AreWithinLimits }
{
    let run = read_run(alloc, words)?;
    Ok(Command::Byte {
        binary: run.binary,
        entry: run.entry,
        bound: run.bound,
    })
}

/// Reads the words after `trace`.
fn read_trace(alloc: Global, words: &[String]) -> Result<Command, WordsRefusal>
    ensures accepted { IfOk result (λ command. trace_of (map string_bytes words.now) ≡ Some command) }
    ensures refused { (result ≡ Err WordsRefusal.Refused) ↔ (trace_of (map string_bytes words.now) ≡ None) }
    ensures limits { IfOk result AreWithinLimits }
{
    let run = read_run(alloc, words)?;
    Ok(Command::Trace {
        binary: run.binary,
        entry: run.entry,
        bound: run.bound,
    })
}

/// Reads the words after `byte` or `trace`.
fn read_run(alloc: Global, words: &[String]) -> Result<Run, WordsRefusal>
    ensures accepted { IfOk result (λ run. run_of (map string_bytes words.now) ≡ Some run) }
    ensures refused { (result ≡ Err WordsRefusal.Refused) ↔ (run_of (map string_bytes words.now) ≡ None) }
    ensures bound { IfOk result (λ run. IsBound run.bound) }
{
    let [binary, entry, bound] = words else {
        return Err(WordsRefusal::Refused);
    };
    let name = read_name(binary.as_str()).ok_or(WordsRefusal::Refused)?;
    let bound = read_number(bound.as_str(), 1, MOST_BOUND).ok_or(WordsRefusal::Refused)?;
    let entry = read_entry(alloc, entry.as_str())?;
    let binary = kept(alloc, name)?;
    Ok(Run {
        binary,
        entry,
        bound,
    })
}

/// Reads the words after `replay`.
fn read_replay(alloc: Global, words: &[String]) -> Result<Command, WordsRefusal>
    ensures accepted { IfOk result (λ command. replay_of (map string_bytes words.now) ≡ Some command) }
    ensures refused { (result ≡ Err WordsRefusal.Refused) ↔ (replay_of (map string_bytes words.now) ≡ None) }
    ensures limits { IfOk result AreWithinLimits }
{
    let [binary, policy, pair] = words else {
        return Err(WordsRefusal::Refused);
    };
    let binary = read_name(binary.as_str()).ok_or(WordsRefusal::Refused)?;
    let policy = read_name(policy.as_str()).ok_or(WordsRefusal::Refused)?;
    let pair = read_name(pair.as_str()).ok_or(WordsRefusal::Refused)?;
    Ok(Command::Replay {
        binary: kept(alloc, binary)?,
        policy: kept(alloc, policy)?,
        pair: kept(alloc, pair)?,
    })
}

/// Reads the words after `list`.
fn read_list(alloc: Global, words: &[String]) -> Result<Command, WordsRefusal>
    ensures accepted { IfOk result (λ command. list_of (map string_bytes words.now) ≡ Some command) }
    ensures refused { (result ≡ Err WordsRefusal.Refused) ↔ (list_of (map string_bytes words.now) ≡ None) }
    ensures limits { IfOk result AreWithinLimits }
{
    let [binary] = words else {
        return Err(WordsRefusal::Refused);
    };
    let name = read_name(binary.as_str()).ok_or(WordsRefusal::Refused)?;
    Ok(Command::List {
        binary: kept(alloc, name)?,
    })
}

/// Reads the words after `gen`.
fn read_gen(words: &[String]) -> Result<Command, WordsRefusal>
    ensures value { result ≡ ok_or (gen_of (map string_bytes words.now)) WordsRefusal.Refused }
    ensures limits { IfOk result AreWithinLimits }
{
    let [number, size] = words else {
        return Err(WordsRefusal::Refused);
    };
    let number = read_number(number.as_str(), 0, u32::MAX).ok_or(WordsRefusal::Refused)?;
    let size = read_number(size.as_str(), 1, MOST_BLOCKS).ok_or(WordsRefusal::Refused)?;
    Ok(Command::Gen { number, size })
}

#[cfg(test)]
mod tests {
    use super::*;
    use ct_pairs::Entry;
    use std::alloc::AllocError;
    use std::test::Fail;

    fn command_of(alloc: Global, line: &str) -> Result<Result<Command, WordsRefusal>, AllocError> {
        let mut words = Vec::new(alloc);
        for word in line.split_whitespace() {
            words.push(String::from_str(alloc, word)?)?;
        }
        Ok(read_words(alloc, &words))
    }

    #[test]
    fn reads_and_refuses(rt: HostRuntime) -> Result<(), Fail> {
        for (line, address, bound) in [
            ("byte f 0x10054 10", 65_620, 10),
            ("byte f 65620 0000000010", 65_620, 10),
            ("byte f 0xAbCd 100000", 43_981, 100_000),
            ("byte f 0xffffffff 1", 4_294_967_295, 1),
            ("byte f 4294967295 1", 4_294_967_295, 1),
        ] {
            let binary = kept(rt.alloc(), "f")?;
            let entry = Entry::Number(address);
            let command = Command::Byte {
                binary,
                entry,
                bound,
            };
            assert_eq!(rt; command_of(rt.alloc(), line)?, Ok(command), "at {line}");
        }
        let command = Command::Byte {
            binary: kept(rt.alloc(), "a")?,
            entry: Entry::Name(kept(rt.alloc(), "main")?),
            bound: 10,
        };
        assert_eq!(rt; command_of(rt.alloc(), "byte a main 10")?, Ok(command));
        let command = Command::Trace {
            binary: kept(rt.alloc(), "f")?,
            entry: Entry::Number(65_620),
            bound: 5,
        };
        assert_eq!(rt; command_of(rt.alloc(), "trace f 0x10054 5")?, Ok(command));
        for (line, bound, workers, budget, targets) in [
            ("check a p", None, 1, 20_000, 16),
            ("check --bound 5 a --targets 2 p", Some(5), 1, 20_000, 2),
            ("check a p --budget 0 --workers 16", None, 16, 0, 16),
            (
                "check a --targets 256 --bound 100000 p --budget 1000000",
                Some(100_000),
                1,
                1_000_000,
                256,
            ),
        ] {
            let command = Command::Check {
                binary: kept(rt.alloc(), "a")?,
                policy: kept(rt.alloc(), "p")?,
                bound,
                workers,
                budget,
                targets,
            };
            assert_eq!(rt; command_of(rt.alloc(), line)?, Ok(command), "at {line}");
        }
        let command = Command::Replay {
            binary: kept(rt.alloc(), "a")?,
            policy: kept(rt.alloc(), "p")?,
            pair: kept(rt.alloc(), "q")?,
        };
        assert_eq!(rt; command_of(rt.alloc(), "replay a p q")?, Ok(command));
        let command = Command::List {
            binary: kept(rt.alloc(), "f")?,
        };
        assert_eq!(rt; command_of(rt.alloc(), "list f")?, Ok(command));
        let command = Command::Gen {
            number: 4_294_967_295,
            size: 20_000,
        };
        assert_eq!(rt;
            command_of(rt.alloc(), "gen 4294967295 20000")?,
            Ok(command)
        );
        for line in [
            "",
            "help",
            "byte",
            "byte a 0x10054",
            "byte a 0x10054 10 11",
            "byte -a 0x10054 10",
            "byte a 0x100000000 10",
            "byte a 4294967296 10",
            "byte a 0x 10",
            "byte a 0X10054 10",
            "byte a 7main 10",
            "byte a -main 10",
            "byte a 0x10054 0",
            "byte a 0x10054 100001",
            "byte a 0x10054 00000000010",
            "byte a 0x10054 +10",
            "trace a 0x10054",
            "trace a 7main 10",
            "check",
            "check a",
            "check a p q",
            "check a p --bound 5 --bound 6",
            "check a p --bound=5",
            "check a p --bound",
            "check a p --bound 0",
            "check a p --workers 17",
            "check a p --budget 1000001",
            "check a p --targets 257",
            "check a p --help",
            "check a -- p",
            "check a --bound p",
            "replay a p",
            "replay a p q r",
            "replay a p -q",
            "list",
            "list a b",
            "list -a",
            "gen 1",
            "gen 1 0",
            "gen 1 20001",
            "gen 4294967296 1",
        ] {
            assert_eq!(rt;
                command_of(rt.alloc(), line)?,
                Err(WordsRefusal::Refused),
                "at {line}"
            );
        }
        Ok(())
    }
}
