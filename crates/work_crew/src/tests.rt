//! A small routine, checked by one worker and by several.
ghost use Rattle.std.specs.Prelude.{◌≡◌, ◌≤◌, ◌^◌, length, All, IfOk, vec_len};
ghost use Rattle.work_crew.specs.Crew.{HasFewPasses};

use crate::{MOST_WORKERS, check_alone, check_job};
use bv_passes::Kit;
use ct_outside::{Gate, MeetGate, OpenGate};
use ct_pairs::{Job, byte_job};
use ct_report::Outcome;
use ct_rows::Row;
use elf_load::{Elf, Segment};
use query_cache::SharedCache;
use rv_image::Image;
use std::alloc::{AllocError, Global};
use std::sync::Wait;
use std::test::Fail;
use std::thread::Threads;

// A loop that tests one bit of a0 at each turn: four paths within 20 steps, and one site.
const CODE: &[u8] =
    b"\x93\x02\x20\x00\x13\x73\x15\x00\x13\x55\x15\x00\x63\x04\x03\x00\x93\x83\x13\x00\x93\x82\xf2\xff\xe3\x96\x02\xfe\x67\x80\x00\x00";

fn image_of(alloc: Global, code: &[u8]) -> Result<Image, AllocError>
    requires { length code.now ≤ 64 }
    ensures { IfOk result (λ image. length image ≤ 2 ^ 24) }
{
    let mut segments = Vec::new(alloc);
    segments.push(Segment {
        address: 0x10054,
        bytes: Row::from_vec(Vec::from_slice(alloc, code)?),
        read: true,
        write: false,
        exec: true,
    })?;
    let elf = Elf {
        segments: Row::from_vec(segments),
        entry: 0x10054,
        symbols: Row::from_vec(Vec::new(alloc)),
    };
    let image = Image::build(alloc, &elf, &[])?;
    let _size = image.size();
    Ok(image)
}

fn job_of(alloc: Global, code: &[u8]) -> Result<Job, AllocError>
    requires { length code.now ≤ 64 }
{
    byte_job(alloc, image_of(alloc, code)?, 0x10054, 20)
}

fn kits_of(alloc: Global, count: u32) -> Result<Vec<Kit>, AllocError>
    ensures count { IfOk result (λ kits. vec_len kits ≡ count) }
    ensures few { IfOk result (λ kits. All HasFewPasses kits.items) }
{
    let mut kits = Vec::new(alloc);
    for number in 0..count {
        let _number = number;
        kits.push(Vec::new(alloc))?;
    }
    Ok(kits)
}

fn check<R: Threads + Wait + Sync, G: Gate>(
    rt: &R,
    alloc: Global,
    job: &Job,
    workers: u32,
    cache: &SharedCache,
    gate: &G,
) -> Result<Outcome, AllocError>
    requires some_workers { 1 ≤ workers }
    requires few_workers { workers ≤ MOST_WORKERS }
{
    let kits = kits_of(alloc, workers)?;
    check_job(rt, alloc, job, workers, kits, cache, gate)
}

// The paths, the doubts, the places, and the sites with their steps.
fn facts(outcome: &Outcome) -> (u128, u128, usize, Option<(u32, u32)>) {
    let site = match outcome.sites.as_slice() {
        [one] => Some((one.site, one.step)),
        _ => None,
    };
    (outcome.paths, outcome.doubts, outcome.listed.len(), site)
}

#[test]
fn one_worker_and_several_find_the_same(rt: HostRuntime) -> Result<(), Fail> {
    let alloc = rt.alloc();
    let wanted = (4, 0, 0, Some((0x10060, 4)));
    assert!(rt; CODE.len() <= 64);
    let job = job_of(alloc, CODE)?;
    let mut kit = Vec::new(alloc);
    let alone = check_alone(alloc, &job, &mut kit)?;
    assert_eq!(rt; facts(&alone), wanted, "alone");
    let cache = SharedCache::new(alloc)?;
    assert_eq!(rt;
        facts(&check(&rt, alloc, &job, 1, &cache, &OpenGate)?),
        wanted,
        "by 1"
    );
    let before = cache.hits(&rt);
    assert_eq!(rt;
        facts(&check(&rt, alloc, &job, 1, &cache, &OpenGate)?),
        wanted,
        "by 1 again"
    );
    assert!(rt; before < cache.hits(&rt), "nothing was found in the cache");
    assert_eq!(rt;
        facts(&check(&rt, alloc, &job, 16, &cache, &OpenGate)?),
        wanted,
        "by 16"
    );
    Ok(())
}

#[test]
fn two_members_meet(rt: HostRuntime) -> Result<(), Fail> {
    let alloc = rt.alloc();
    assert!(rt; CODE.len() <= 64);
    let job = job_of(alloc, CODE)?;
    let cache = SharedCache::new(alloc)?;
    let gate = MeetGate::new();
    let outcome = check(&rt, alloc, &job, 2, &cache, &gate)?;
    assert_eq!(rt; facts(&outcome), (4, 0, 0, Some((0x10060, 4))));
    assert!(rt; gate.met(), "the members ran one after another");
    Ok(())
}
