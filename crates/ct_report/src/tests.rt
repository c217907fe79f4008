//! Reports of small tables.
ghost use Rattle.std.specs.Prelude.{◌≤◌, length};

use crate::{Finding, Outcome, can_report, report_text};
use cnf_form::{Clause, Cnf, Line, Log};
use ct_entries::{Cause, Listed, Seen};
use ct_pairs::{Found, Job, Pair, byte_job};
use ct_rows::Row;
use elf_load::{Elf, Segment};
use rv_image::Image;
use std::alloc::{AllocError, Global};
use std::process::Abort;
use std::test::Fail;

/// The job of one secret byte in a0 over code at 0x00010054.
fn job(alloc: Global, code: &[u8], bound: u32) -> Result<Job, AllocError>
    requires short { length code.now ≤ 64 }
    requires least { 1 ≤ bound }
    requires most { bound ≤ 100 }
{
    let text = Segment {
        address: 0x0001_0054,
        bytes: Row::from_vec(Vec::from_slice(alloc, code)?),
        read: true,
        write: false,
        exec: true,
    };
    let elf = Elf {
        segments: Row::from_vec(vec![in alloc; text]?),
        entry: 0x0001_0054,
        symbols: Row::from_vec(Vec::new(alloc)),
    };
    let image = Image::build(alloc, &elf, &[])?;
    let _size = image.size();
    byte_job(alloc, image, 0x0001_0054, bound)
}

fn row(alloc: Global, bytes: &[u8]) -> Result<Row<u8>, AllocError> {
    Ok(Row::from_vec(Vec::from_slice(alloc, bytes)?))
}

fn found(
    alloc: Global,
    site: u32,
    step: u32,
    shared: &[u8],
    left: &[u8],
    right: &[u8],
) -> Result<Found, AllocError> {
    let pair = Pair {
        shared: row(alloc, shared)?,
        left: row(alloc, left)?,
        right: row(alloc, right)?,
    };
    Ok(Found { site, step, pair })
}

/// Compares the finding and the report with what is wanted.
fn assert_report(
    rt: &impl Abort,
    alloc: Global,
    job: &Job,
    sites: Vec<Found>,
    listed: Vec<Listed>,
    (paths, doubts): (u128, u128),
    finding: Finding,
    report: &str,
) -> Result<(), Fail> {
    let outcome = Outcome {
        sites: Row::from_vec(sites),
        listed: Row::from_vec(listed),
        doubts,
        paths,
    };
    assert_eq!(rt; outcome.verdict(), finding);
    assert!(rt; can_report(job, outcome.sites.as_slice()));
    let text = report_text(alloc, job, &outcome)?;
    assert_eq!(rt; text.as_str(), report);
    Ok(())
}

// jalr zero, 0(ra)
const RETURN: [u8; 4] = [0x67, 0x80, 0x00, 0x00];
// beq a0, zero, +8, and two returns
const BRANCH: [u8; 12] = [
    0x63, 0x04, 0x05, 0x00, 0x67, 0x80, 0x00, 0x00, 0x67, 0x80, 0x00, 0x00,
];
// lbu a0, 0(a0), and a return
const LOAD: [u8; 8] = [0x03, 0x45, 0x05, 0x00, 0x67, 0x80, 0x00, 0x00];
// sw a1, -4(a0), and a return
const STORE: [u8; 8] = [0x23, 0x2e, 0xb5, 0xfe, 0x67, 0x80, 0x00, 0x00];

#[test]
fn reports(rt: HostRuntime) -> Result<(), Fail> {
    let alloc = rt.alloc();
    assert_report(
        &rt,
        alloc,
        &job(alloc, &RETURN, 10)?,
        Vec::new(alloc),
        Vec::new(alloc),
        (1, 0),
        Finding::Secure,
        "ctrel report 1\nverdict secure\nbound 10\npaths 1\ndoubts 0\nsites 0\nplaces 0\n",
    )?;
    assert_report(
        &rt,
        alloc,
        &job(alloc, &BRANCH, 10)?,
        vec![in alloc; found(alloc, 0x0001_0054, 1, &[], &[0], &[1])?]?,
        Vec::new(alloc),
        (2, 0),
        Finding::Insecure,
        "ctrel report 1\nverdict insecure\nbound 10\npaths 2\ndoubts 0\nsites 1\n\
         site 0x00010054 step 1 branch beq a0, zero, 0x0001005c\nshared -\nleft 00\nright 01\nplaces 0\n",
    )?;
    assert_report(
        &rt,
        alloc,
        &job(alloc, &LOAD, 10)?,
        vec![in alloc; found(alloc, 0x0001_0054, 1, &[], &[0], &[1])?]?,
        Vec::new(alloc),
        (1, 0),
        Finding::Insecure,
        "ctrel report 1\nverdict insecure\nbound 10\npaths 1\ndoubts 0\nsites 1\n\
         site 0x00010054 step 1 load lbu a0, 0(a0)\nshared -\nleft 00\nright 01\nplaces 0\n",
    )?;
    let first = found(alloc, 0x0001_0054, 12, &[0x07, 0xff], &[0xa0], &[0x9b])?;
    let second = found(alloc, 0x0001_0058, 3, &[0x10], &[], &[])?;
    assert_report(
        &rt,
        alloc,
        &job(alloc, &STORE, 100)?,
        vec![in alloc; first, second]?,
        Vec::new(alloc),
        (340_282_366_920_938_463_463_374_607_431_768_211_455, 7),
        Finding::Insecure,
        "ctrel report 1\nverdict insecure\nbound 100\npaths 340282366920938463463374607431768211455\ndoubts 7\nsites 2\n\
         site 0x00010054 step 12 store sw a1, -4(a0)\nshared 07ff\nleft a0\nright 9b\n\
         site 0x00010058 step 3 jump jalr zero, 0(ra)\nshared 10\nleft -\nright -\nplaces 0\n",
    )
}

/// A log of one line.
fn log(alloc: Global) -> Result<Log, AllocError> {
    let mut log = Log::new(alloc);
    log.push(&Line {
        clause: Clause::from_vec(Vec::new(alloc)),
        chain: Row::from_vec(Vec::new(alloc)),
    })?;
    Ok(log)
}

fn words(alloc: Global, words: &[u32]) -> Result<Row<u32>, AllocError> {
    Ok(Row::from_vec(Vec::from_slice(alloc, words)?))
}

fn seen(alloc: Global, next: u32) -> Result<Seen, AllocError> {
    let pair = Pair {
        shared: row(alloc, &[])?,
        left: row(alloc, &[0])?,
        right: row(alloc, &[1])?,
    };
    Ok(Seen { next, pair })
}

fn listed(alloc: Global, path: &[u32], cause: Cause) -> Result<Listed, AllocError> {
    Ok(Listed {
        path: words(alloc, path)?,
        cause,
    })
}

#[test]
fn reports_open_questions(rt: HostRuntime) -> Result<(), Fail> {
    let alloc = rt.alloc();
    let leak = Cause::SpentLeak {
        cnf: Cnf::new(alloc, 0),
        log: Log::new(alloc),
    };
    let next = Cause::SpentNext {
        explored: words(alloc, &[0x0002_0000, 0x10, 0x0002_0000])?,
        cnf: Cnf::new(alloc, 0),
        log: log(alloc)?,
    };
    let none = Cause::SpentNext {
        explored: words(alloc, &[])?,
        cnf: Cnf::new(alloc, 0),
        log: Log::new(alloc),
    };
    let over = Cause::Over {
        seen: Row::from_vec(vec![in alloc;
            seen(alloc, 0x20)?,
            seen(alloc, 0xffff_fffc)?,
            seen(alloc, 0)?,
        ]?),
    };
    let places = vec![in alloc;
        listed(alloc, &[], leak)?,
        listed(alloc, &[0x0001_0058], none)?,
        listed(alloc, &[0x0001_005c], next)?,
        listed(alloc, &[0x0001_005c, 0x0000_abcd], over)?,
    ]?;
    assert_report(
        &rt,
        alloc,
        &job(alloc, &BRANCH, 10)?,
        Vec::new(alloc),
        places,
        (2, 1),
        Finding::Unknown,
        "ctrel report 1\nverdict unknown\nbound 10\npaths 2\ndoubts 1\nsites 0\nplaces 4\n\
         place leak 0x00010054 after 0 lines 0 turns -\n\
         place next 0x00010058 after 1 lines 0 explored - turns 0\n\
         place next 0x0001005c after 1 lines 1 explored 0x00000010 0x00020000 0x00020000 turns 1\n\
         place over 0x0000abcd after 2 seen 0x00000000 0x00000020 0xfffffffc turns 1(0000abcd)\n",
    )
}
