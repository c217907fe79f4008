//! What no clause says: the lines on standard error, and that a call succeeds.

ghost use Rattle.std.specs.Prelude.{◌≡◌, ◌≤◌, [], length, All, IfOk};
ghost use Rattle.ct_lines.specs.declared.command.TheConstants.{MOST_WORKERS};
ghost use Rattle.rel_step.specs.declared.simplifying.TheConstants.{MOST_PASSES};

use super::*;
use bv_passes::Kit;
use ct_lines::{MOST_WORKERS, usage_text};
use ct_outside::{MemoryShelf, MemorySink, OpenGate};
use ct_policy::PolicyRefusal;
use elf_load::ElfRefusal;
use std::alloc::{AllocError, Global};
use std::test::Fail;

// A sink with room for every line and the usage, which takes 40 bytes at a time; its call of this number fails.
fn errors(alloc: Global, failing: u64) -> Result<MemorySink, AllocError> {
    MemorySink::new(alloc, vec![in alloc; failing]?, 40, 10_000)
}

const NEVER: u64 = 999;

#[test]
fn each_refusal_has_its_line(rt: HostRuntime) -> Result<(), Fail> {
    let alloc = rt.alloc();
    for (refusal, line) in [
        (Refusal::Elf(ElfRefusal::Short), "ctrel: elf E1\n"),
        (Refusal::Elf(ElfRefusal::Magic), "ctrel: elf E2\n"),
        (Refusal::Elf(ElfRefusal::Class), "ctrel: elf E3\n"),
        (Refusal::Elf(ElfRefusal::Order), "ctrel: elf E4\n"),
        (Refusal::Elf(ElfRefusal::Version), "ctrel: elf E5\n"),
        (Refusal::Elf(ElfRefusal::Kind), "ctrel: elf E6\n"),
        (Refusal::Elf(ElfRefusal::Machine), "ctrel: elf E7\n"),
        (Refusal::Elf(ElfRefusal::Compressed), "ctrel: elf E8\n"),
        (Refusal::Elf(ElfRefusal::Table), "ctrel: elf E9\n"),
        (Refusal::Elf(ElfRefusal::Dynamic), "ctrel: elf E10\n"),
        (Refusal::Elf(ElfRefusal::Segment(7)), "ctrel: elf E11 7\n"),
        (
            Refusal::Elf(ElfRefusal::Overlap(3, 15)),
            "ctrel: elf E12 3 15\n",
        ),
        (Refusal::Elf(ElfRefusal::Large), "ctrel: elf E13\n"),
        (Refusal::Policy(PolicyRefusal::Toml), "ctrel: policy P1\n"),
        (Refusal::Policy(PolicyRefusal::Field), "ctrel: policy P2\n"),
        (
            Refusal::Policy(PolicyRefusal::NoSymbol),
            "ctrel: policy P3\n",
        ),
        (Refusal::Policy(PolicyRefusal::Number), "ctrel: policy P4\n"),
        (
            Refusal::Policy(PolicyRefusal::Register),
            "ctrel: policy P5\n",
        ),
        (
            Refusal::Policy(PolicyRefusal::Region(63)),
            "ctrel: policy P6 63\n",
        ),
        (
            Refusal::Policy(PolicyRefusal::RegionOverlap(0, 1)),
            "ctrel: policy P7 0 1\n",
        ),
        (Refusal::Policy(PolicyRefusal::Inputs), "ctrel: policy P8\n"),
        (
            Refusal::Policy(PolicyRefusal::Memories),
            "ctrel: policy P9\n",
        ),
        (Refusal::Policy(PolicyRefusal::Entry), "ctrel: policy P10\n"),
        (Refusal::Long, "ctrel: long\n"),
        (Refusal::PairText(4), "ctrel: pair line 4\n"),
        (Refusal::Memory, "ctrel: memory\n"),
        (Refusal::ReadFault, "ctrel: read\n"),
        (Refusal::WriteFault, "ctrel: write\n"),
    ] {
        let mut errors = errors(alloc, NEVER)?;
        tell(alloc, &Finished::refused(refusal), &mut errors);
        assert_eq!(rt; errors.written(), line.as_bytes(), "{line}");
    }
    Ok(())
}

#[test]
fn refused_words_are_followed_by_the_usage(rt: HostRuntime) -> Result<(), Fail> {
    let alloc = rt.alloc();
    let mut lines = String::from_str(alloc, "ctrel: words\n")?;
    lines.push_str(usage_text(alloc)?.as_str())?;
    let mut whole = errors(alloc, NEVER)?;
    tell(alloc, &Finished::refused(Refusal::Words), &mut whole);
    assert_eq!(rt; whole.written(), lines.as_bytes());
    let mut cut = errors(alloc, 0)?;
    tell(alloc, &Finished::refused(Refusal::Words), &mut cut);
    assert_eq!(rt; cut.written().len(), 0, "the first call fails");
    Ok(())
}

#[test]
fn without_a_refusal_nothing_is_told(rt: HostRuntime) -> Result<(), Fail> {
    let mut errors = errors(rt.alloc(), NEVER)?;
    tell(rt.alloc(), &Finished::ended(0, None, None), &mut errors);
    assert_eq!(rt; errors.written().len(), 0);
    Ok(())
}

// An executable of beq a0, zero, +8 and twice jalr zero, 0(ra), its only header's size 84.
const BRANCH: &[u8] = b"\x7fELF\x01\x01\x01\0\0\0\0\0\0\0\0\0\x02\0\xf3\0\x01\0\0\0\
    \x54\0\x01\0\x34\0\0\0\0\0\0\0\0\0\0\0\x34\0\x20\0\x01\0\0\0\0\0\0\0\
    \x01\0\0\0\x54\0\0\0\x54\0\x01\0\x54\0\x01\0\x0c\0\0\0\x0c\0\0\0\x05\0\0\0\x04\0\0\0\
    \x63\x04\x05\0\x67\x80\0\0\x67\x80\0\0";

const ONE_SECRET: &str = "format = 1\n[[input]]\nregister = \"a0\"\nbytes = 1\nkind = \"secret\"\n";

// A shelf of that executable, of a policy of one secret byte in a0, and of a pair's text.
fn shelf(alloc: Global, pair: &str) -> Result<MemoryShelf, AllocError>
    ensures { IfOk result (λ shelf. shelf.asked ≡ []) }
{
    let mut files = Vec::new(alloc);
    for (name, bytes) in [
        ("binary", BRANCH),
        ("policy", ONE_SECRET.as_bytes()),
        ("pair", pair.as_bytes()),
    ] {
        files.push((
            String::from_str(alloc, name)?,
            Vec::from_slice(alloc, bytes)?,
        ))?;
    }
    MemoryShelf::new(alloc, files, vec![in alloc; NEVER]?, 40)
}

/// A kit without passes for each worker that there may be.
fn without_passes(alloc: Global) -> Result<Vec<Kit>, AllocError>
    ensures enough { IfOk result (λ kits. MOST_WORKERS ≤ length kits.items) }
    ensures few { IfOk result (λ kits. All (λ kit. length kit.items ≤ MOST_PASSES) kits.items) }
{
    let mut kits = Vec::new(alloc);
    for _ in 0..MOST_WORKERS {
        kits.push(Vec::new(alloc))?;
    }
    Ok(kits)
}

#[test]
fn pairs_are_replayed_or_refused(rt: HostRuntime) -> Result<(), Fail> {
    let alloc = rt.alloc();
    let words = vec![in alloc;
        String::from_str(alloc, "replay")?,
        String::from_str(alloc, "binary")?,
        String::from_str(alloc, "policy")?,
        String::from_str(alloc, "pair")?,
    ]?;
    // A pair's text, the status, what is written, and what is told.
    for (pair, status, text, line) in [
        (
            "pair 1\nshared -\nleft 00\nright 01\n",
            1,
            "differ step 1 site 0x00010054\nleft touch - next 0x0001005c\nright touch - next 0x00010058\n",
            "",
        ),
        (
            "pair 1\nshared -\nleft 01\nright 02\n",
            0,
            "agree steps 2\n",
            "",
        ),
        (
            "pair 1\nshared -\nleft 00\n",
            68,
            "",
            "ctrel: pair line 4\n",
        ),
    ] {
        let mut shelf = shelf(alloc, pair)?;
        let mut out = errors(alloc, NEVER)?;
        let kits = without_passes(alloc)?;
        let finished = ctrel(
            &rt,
            alloc,
            words.as_slice(),
            &mut shelf,
            &mut out,
            kits,
            &OpenGate,
        );
        assert_eq!(rt; finished.status, status, "{pair:?}");
        assert_eq!(rt; out.written(), text.as_bytes(), "{pair:?}");
        let mut told = errors(alloc, NEVER)?;
        tell(alloc, &finished, &mut told);
        assert_eq!(rt; told.written(), line.as_bytes(), "{pair:?}");
    }
    Ok(())
}

#[test]
fn generated_code_is_checked(rt: HostRuntime) -> Result<(), Fail> {
    let alloc = rt.alloc();
    // A number and a size, the status, and what is written.
    for (number, size, status, text) in [
        (
            "1",
            "1",
            0,
            "gen 1 1: 4 words, 0 sites, 0 places, 0 doubts, 1 paths, secure\n",
        ),
        (
            "0",
            "3",
            1,
            "gen 0 3: 11 words, 1 sites, 0 places, 0 doubts, 1 paths, insecure\n",
        ),
    ] {
        let words = vec![in alloc;
            String::from_str(alloc, "gen")?,
            String::from_str(alloc, number)?,
            String::from_str(alloc, size)?,
        ]?;
        let mut shelf = shelf(alloc, "")?;
        let mut out = errors(alloc, NEVER)?;
        let kits = without_passes(alloc)?;
        let finished = ctrel(
            &rt,
            alloc,
            words.as_slice(),
            &mut shelf,
            &mut out,
            kits,
            &OpenGate,
        );
        assert_eq!(rt; finished.status, status, "{text:?}");
        assert!(rt; finished.outcome.is_some(), "{text:?}");
        assert!(rt; finished.refusal.is_none(), "{text:?}");
        assert_eq!(rt; out.written(), text.as_bytes(), "{text:?}");
    }
    Ok(())
}
