//! What no clause says: that calls succeed, and what the real files and the real output do.

ghost use Rattle.std.specs.Prelude.{◌≡◌, [], IfOk};

use super::*;
use std::alloc::{AllocError, Global};
use std::fs;
use std::test::Fail;
use std::thread::join;

// The bytes from 0 to 99.
fn rows(alloc: Global) -> Result<Vec<u8>, AllocError> {
    (0..100).collect(alloc)
}

// The files `rows`, with those bytes, and a second `rows` without any.
fn files(alloc: Global) -> Result<Vec<(String, Vec<u8>)>, AllocError> {
    let mut files = Vec::new(alloc);
    files.push((String::from_str(alloc, "rows")?, rows(alloc)?))?;
    files.push((String::from_str(alloc, "rows")?, Vec::new(alloc)))?;
    Ok(files)
}

fn forty_at_a_time(alloc: Global, failing: u64) -> Result<MemoryShelf, AllocError>
    ensures { IfOk result (λ shelf. shelf.asked ≡ []) }
{
    MemoryShelf::new(alloc, files(alloc)?, vec![in alloc; failing]?, 40)
}

// The calls are `begin`, three reads of 40, 40 and 20 bytes, and one that meets the end.
#[test]
fn a_memory_shelf_fails_at_the_listed_call(rt: HostRuntime) -> Result<(), Fail> {
    let alloc = rt.alloc();
    for (failing, name, wanted) in [
        (5, "rows", None),
        (0, "rows", Some(ReadEnd::Fault)),
        (2, "rows", Some(ReadEnd::Fault)),
        (4, "rows", Some(ReadEnd::Fault)),
        (5, "columns", Some(ReadEnd::Fault)),
    ] {
        let mut shelf = forty_at_a_time(alloc, failing)?;
        match read_all(alloc, &mut shelf, String::from_str(alloc, name)?) {
            Ok(text) => {
                assert_eq!(rt; text.as_slice(), rows(alloc)?.as_slice());
                assert_eq!(rt; wanted, None, "call {failing} of {name}");
            }
            Err(end) => assert_eq!(rt; Some(end), wanted, "call {failing} of {name}"),
        }
    }
    Ok(())
}

#[test]
fn a_never_shelf_has_an_empty_file_of_any_name(rt: HostRuntime) -> Result<(), Fail> {
    let alloc = rt.alloc();
    let mut shelf = NeverShelf::new(alloc, files(alloc)?)?;
    let absent = read_all(alloc, &mut shelf, String::from_str(alloc, "columns")?);
    assert_eq!(rt; absent.ok().ok_or("columns")?.len(), 0);
    Ok(())
}

#[test]
fn a_memory_sink_keeps_what_came_before_the_fault(rt: HostRuntime) -> Result<(), Fail> {
    let alloc = rt.alloc();
    let text = rows(alloc)?;
    for (failing, room, len, kept) in [
        (11, 100, 100, 100),
        (1, 100, 100, 10),
        (11, 25, 100, 25),
        (0, 100, 0, 0),
        (0, 100, 1, 0),
    ] {
        let mut sink = MemorySink::new(alloc, vec![in alloc; failing]?, 10, room)?;
        assert!(rt; len <= text.len() && kept <= len);
        let wanted = if kept == len {
            Ok(())
        } else {
            Err(WriteEnd { taken: kept })
        };
        assert_eq!(rt;
            write_all(&mut sink, &text[..len]),
            wanted,
            "call {failing} in {room}"
        );
        assert_eq!(rt; sink.written(), &text[..kept], "call {failing} in {room}");
    }
    Ok(())
}

#[test]
fn a_real_shelf_reads_a_file_of_several_pieces(rt: HostRuntime) -> Result<(), Fail> {
    let alloc = rt.alloc();
    let bytes = vec![in alloc; 7u8; 10_000]?;
    fs::write(&rt, "rows.bin", bytes.as_slice())?;
    let mut shelf = RealShelf::new(alloc, &rt)?;
    let there = read_all(alloc, &mut shelf, String::from_str(alloc, "rows.bin")?);
    assert_eq!(rt; there.ok().ok_or("rows.bin")?.as_slice(), bytes.as_slice());
    let absent = read_all(alloc, &mut shelf, String::from_str(alloc, "columns.bin")?);
    assert_eq!(rt; absent.err(), Some(ReadEnd::Fault));
    let folder = read_all(alloc, &mut shelf, String::from_str(alloc, ".")?);
    assert_eq!(rt; folder.err(), Some(ReadEnd::Fault));
    fs::remove_file(&rt, "rows.bin")?;
    Ok(())
}

#[test]
fn a_real_shelf_gives_nothing_after_a_failed_begin(rt: HostRuntime) -> Result<(), Fail> {
    let alloc = rt.alloc();
    fs::write(&rt, "begun.bin", [7u8; 100].as_slice())?;
    let mut shelf = RealShelf::new(alloc, &rt)?;
    let mut piece = [0u8; 8];
    assert_eq!(rt; shelf.read(&mut piece), Ok(0), "before any begin");
    assert_eq!(rt; shelf.begin(String::from_str(alloc, "begun.bin")?), Ok(()));
    assert_eq!(rt; shelf.read(&mut piece), Ok(8), "of the file begun");
    assert_eq!(rt;
        shelf.begin(String::from_str(alloc, "columns.bin")?),
        Err(Failed)
    );
    assert_eq!(rt; shelf.read(&mut piece), Ok(0), "after the failure");
    fs::remove_file(&rt, "begun.bin")?;
    Ok(())
}

// What they wrote is seen in the output of a program alone.
#[test]
fn real_sinks_take_a_text(rt: HostRuntime) -> Result<(), Fail> {
    let mut out = RealSink::new(&rt);
    assert_eq!(rt; write_all(&mut out, b"leaks 0\n"), Ok(()));
    let mut errors = RealSink::new(rt.stderr());
    assert_eq!(rt; write_all(&mut errors, b"ctrel: words\n"), Ok(()));
    Ok(())
}

fn pass<G: Gate>(gate: &G, members: [u32; 2]) {
    for member in members {
        gate.pass(member);
    }
}

#[test]
fn two_members_meet_at_a_gate(rt: HostRuntime) -> Result<(), Fail> {
    pass(&OpenGate, [0, 1]);
    let gate = MeetGate::new();
    pass(&gate, [2, 3]);
    assert!(rt; !gate.met(), "neither came");
    let shared = &gate;
    join(
        &rt,
        move || pass(shared, [0, 0]),
        move || pass(shared, [1, 1]),
    );
    assert!(rt; gate.met());
    Ok(())
}
