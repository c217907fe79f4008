//! What no clause says: the lines on standard error, and that a call succeeds.

ghost use Rattle.std.specs.Prelude.{◌≡◌, [], IfOk};

use super::*;
use crate::decode_memory::{BINARY, POLICY};
use crate::usage::USAGE;
use ct_outside::{MemoryShelf, MemorySink};
use std::alloc::{AllocError, Global};
use std::test::Fail;

// An executable of beq a0, zero, +8 and twice jalr zero, 0(ra), its only header's size 84.
const BRANCH: &[u8] = b"\x7fELF\x01\x01\x01\0\0\0\0\0\0\0\0\0\x02\0\xf3\0\x01\0\0\0\
    \x54\0\x01\0\x34\0\0\0\0\0\0\0\0\0\0\0\x34\0\x20\0\x01\0\0\0\0\0\0\0\
    \x01\0\0\0\x54\0\0\0\x54\0\x01\0\x54\0\x01\0\x0c\0\0\0\x0c\0\0\0\x05\0\0\0\x04\0\0\0\
    \x63\x04\x05\0\x67\x80\0\0\x67\x80\0\0";

const ONE_SECRET: &str = "format = 1\n[[input]]\nregister = \"a0\"\nbytes = 1\nkind = \"secret\"\n";

const ONE_STEP: &str =
    "format = 1\nbound = 1\n[[input]]\nregister = \"a0\"\nbytes = 1\nkind = \"secret\"\n";

// A shelf of executables, policies and pairs.
fn shelf(alloc: Global) -> Result<MemoryShelf, AllocError>
    ensures { IfOk result (λ shelf. shelf.asked ≡ []) }
{
    let mut files = Vec::new(alloc);
    for (name, bytes) in [
        ("branch.elf", BRANCH),
        ("secret.toml", ONE_SECRET.as_bytes()),
        ("step.toml", ONE_STEP.as_bytes()),
        ("decode.elf", BINARY),
        ("decode.toml", POLICY.as_bytes()),
        ("one.pair", b"pair 1\nshared -\nleft 01\nright 00\n"),
        ("upper.pair", b"pair 1\nshared -\nleft 41\nright 00\n"),
        ("short.pair", b"pair 1\nshared -\nleft 00\n"),
    ] {
        files.push((
            String::from_str(alloc, name)?,
            Vec::from_slice(alloc, bytes)?,
        ))?;
    }
    MemoryShelf::new(alloc, files, Vec::new(alloc), 100)
}

// A sink with room for every text, which takes 100 bytes at a time.
fn sink(alloc: Global) -> Result<MemorySink, AllocError> {
    MemorySink::new(alloc, Vec::new(alloc), 100, 10_000)
}

fn words_of(alloc: Global, line: &str) -> Result<Vec<String>, AllocError> {
    let mut words = Vec::new(alloc);
    for word in line.split_whitespace() {
        words.push(String::from_str(alloc, word)?)?;
    }
    Ok(words)
}

#[test]
fn runs_are_shown_or_refused(rt: HostRuntime) -> Result<(), Fail> {
    let alloc = rt.alloc();
    // The words, the status, how many bytes are written, with which they begin and end, and what is told.
    for (line, status, length, first, last, told) in [
        // The branch is taken where a0 is 0.
        (
            "branch.elf secret.toml",
            0,
            99,
            "step 1 pc 0x00010054 touch - next 0x0001005c\n",
            "step 2 pc 0x0001005c touch - next 0x00000000\nend stop\n",
            "",
        ),
        // It isn't taken in the left run.
        (
            "branch.elf secret.toml one.pair",
            0,
            99,
            "step 1 pc 0x00010054 touch - next 0x00010058\n",
            "step 2 pc 0x00010058 touch - next 0x00000000\nend stop\n",
            "",
        ),
        // The policy's bound cuts the run off.
        (
            "branch.elf step.toml",
            0,
            55,
            "step 1 pc 0x00010054 touch - next 0x0001005c\n",
            "end bound\n",
            "",
        ),
        // The worked example shows the same for each digit.
        (
            "decode.elf decode.toml",
            0,
            4694,
            "step 1 pc 0x00010018 touch - next 0x0001001c\nstep 2 pc 0x0001001c touch store 0x800000fc next 0x00010020\n",
            "step 97 pc 0x00010120 touch - next 0x00000000\nend stop\n",
            "",
        ),
        (
            "decode.elf decode.toml upper.pair",
            0,
            4694,
            "step 1 pc 0x00010018 touch - next 0x0001001c\nstep 2 pc 0x0001001c touch store 0x800000fc next 0x00010020\n",
            "step 97 pc 0x00010120 touch - next 0x00000000\nend stop\n",
            "",
        ),
        (
            "branch.elf secret.toml short.pair",
            68,
            0,
            "",
            "",
            "ctrace: pair line 4\n",
        ),
        // Each file is read only after the one before it has passed.
        (
            "branch.elf missing.toml short.pair",
            74,
            0,
            "",
            "",
            "ctrace: read\n",
        ),
        (
            "branch.elf one.pair short.pair",
            66,
            0,
            "",
            "",
            "ctrace: policy P1\n",
        ),
        (
            "secret.toml missing.toml",
            65,
            0,
            "",
            "",
            "ctrace: elf E2\n",
        ),
        ("", 64, 0, "", "", "ctrace: words\n"),
        ("branch.elf", 64, 0, "", "", "ctrace: words\n"),
        ("branch.elf -secret.toml", 64, 0, "", "", "ctrace: words\n"),
        (
            "branch.elf secret.toml -one.pair",
            64,
            0,
            "",
            "",
            "ctrace: words\n",
        ),
        (
            "branch.elf secret.toml one.pair one.pair",
            64,
            0,
            "",
            "",
            "ctrace: words\n",
        ),
    ] {
        let words = words_of(alloc, line)?;
        let mut shelf = shelf(alloc)?;
        let mut out = sink(alloc)?;
        let finished = ctrace(alloc, words.as_slice(), &mut shelf, &mut out);
        assert_eq!(rt; finished.status, status, "{line}");
        assert_eq!(rt; out.written().len(), length, "{line}");
        assert!(rt; out.written().starts_with(first.as_bytes()), "{line}");
        assert!(rt; out.written().ends_with(last.as_bytes()), "{line}");
        let mut errors = sink(alloc)?;
        tell(&finished, &mut errors);
        match errors.written().strip_prefix(told.as_bytes()) {
            Some(rest) if status == 64 => assert_eq!(rt; rest, USAGE.as_bytes(), "{line}"),
            Some(rest) => assert!(rt; rest.is_empty(), "{line}"),
            None => assert!(rt; false, "{line}"),
        }
    }
    Ok(())
}
