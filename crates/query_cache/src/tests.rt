//! Verdicts that are kept, and found again.
ghost use Rattle.std.specs.Prelude.{◌≡◌, true};
ghost use Rattle.bv_expr.specs.Nodes.{HasWidth};

use super::*;
use bv_expr::{Arena, ExprId};
use ct_words::{AluOp, Cond};
use query_ask::{Checked, Question, Verdict, are_variables_below, ask, question_of};
use std::alloc::Global;
use std::sync::Wait;
use std::test::Fail;
use std::thread::{Threads, join};

fn has_width(arena: &Arena, id: ExprId, width: u32) -> bool
    ensures { result ≡ true → HasWidth arena.now id.0 width }
{
    if id.0 < arena.nodes().len() {
        arena.width(id) == width
    } else {
        false
    }
}

// Input byte 0 as a word, to which it is added so often.
fn sum(arena: &mut Arena, times: u32) -> Result<ExprId, Fail> {
    let byte = arena.input(0)?;
    let zero = arena.constant(8, 0)?;
    let word = arena.join(byte, zero, zero, zero)?;
    let mut sum = word;
    for _ in 0..times {
        if !has_width(arena, sum, 32) {
            return Err(Fail::from("no word"));
        }
        if !has_width(arena, word, 32) {
            return Err(Fail::from("no word"));
        }
        sum = arena.alu(AluOp::Add, sum, word)?;
    }
    Ok(sum)
}

// Whether the sum is below a number: 5 nodes, and one for each addition.
fn is_below(alloc: Global, times: u32, number: u32) -> Result<Question, Fail> {
    let mut arena = Arena::new(alloc)?;
    let sum = sum(&mut arena, times)?;
    let bound = arena.constant(32, number)?;
    if !has_width(&arena, sum, 32) {
        return Err(Fail::from("no word"));
    }
    let below = arena.test(Cond::Ltu, sum, bound)?;
    if !are_variables_below(arena.nodes(), 1) {
        return Err(Fail::from("another variable"));
    }
    let question = question_of(alloc, &arena, 1, &[], below)?;
    Ok(question)
}

fn settled(alloc: Global, times: u32, number: u32) -> Result<Checked, Fail> {
    let question = is_below(alloc, times, number)?;
    let answer = ask(alloc, &question, 1_000_000)?;
    answer.law(&question, 1_000_000);
    let checked = answer.checked(alloc, question)?.ok_or("not settled")?;
    Ok(checked)
}

fn name(verdict: &Verdict) -> &'static str {
    match verdict {
        Verdict::Yes(_) => "yes",
        Verdict::No => "no",
    }
}

#[test]
fn a_cache_answers_what_it_kept(rt: HostRuntime) -> Result<(), Fail> {
    let alloc = rt.alloc();
    let mut cache = Cache::new(alloc)?;
    let question = is_below(alloc, 3, 5)?;
    assert_eq!(rt; cache.look(&question).map(name), None);
    assert_eq!(rt; cache.hits(), 0);
    assert_eq!(rt; cache.keep(settled(alloc, 3, 5)?), Kept::Done);
    assert_eq!(rt; cache.keep(settled(alloc, 3, 0)?), Kept::Done);
    assert_eq!(rt; cache.look(&question).map(name), Some("yes"));
    assert_eq!(rt; cache.hits(), 1);
    assert_eq!(rt; cache.look(&is_below(alloc, 3, 0)?).map(name), Some("no"));
    assert_eq!(rt; cache.look(&is_below(alloc, 2, 5)?).map(name), None);
    assert_eq!(rt; cache.hits(), 2);
    assert_eq!(rt; cache.keep(settled(alloc, 4092, 5)?), Kept::TooLarge);
    assert_eq!(rt; cache.keep(settled(alloc, 4091, 5)?), Kept::Done);
    Ok(())
}

fn look_by_two<R: Threads + Wait + Sync>(rt: &R, alloc: Global) -> Result<u64, Fail> {
    let shared = SharedCache::new(alloc)?;
    let question = is_below(alloc, 3, 5)?;
    if shared.look(rt, alloc, &question)?.is_some() {
        return Err(Fail::from("nothing was kept"));
    }
    if shared.keep(rt, settled(alloc, 4092, 5)?) != Kept::TooLarge {
        return Err(Fail::from("4,097 nodes"));
    }
    if shared.keep(rt, settled(alloc, 3, 5)?) != Kept::Done {
        return Err(Fail::from("a question was not kept"));
    }
    let (cache, asked) = (&shared, &question);
    let (one, two) = join(
        rt,
        move || cache.look(rt, alloc, asked),
        move || cache.look(rt, alloc, asked),
    );
    match (one?, two?) {
        (Some(Verdict::Yes(_)), Some(Verdict::Yes(_))) => Ok(shared.hits(rt)),
        _ => Err(Fail::from("the verdict is lost")),
    }
}

#[test]
fn two_threads_look_into_a_shared_cache(rt: HostRuntime) -> Result<(), Fail> {
    assert_eq!(rt; look_by_two(&rt, rt.alloc())?, 2);
    Ok(())
}
