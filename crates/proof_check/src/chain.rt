//! Chains of resolution.
ghost use Rattle.std.specs.Prelude.{◌≡◌, ◌<◌, ◌↔◌, Some, None, IsTrue, IfOk, MatchOption, length, take, slice_get};
ghost use Rattle.std.specs.Bool.{MatchBool};
ghost use Rattle.cnf_form.specs.Derivation.{chain_clause, older_clauses};
ghost use Rattle.proof_check.specs.Lines.{IsDerivedAt, IsUnderivedAt, IsGiven};

use cnf_form::{Clauses, Lit, Log, resolve};
use std::alloc::{AllocError, Global};
use std::mem::swap;

/// What a chain has given so far, and room for what its next number gives.
#[derive(Debug, Drop)]
pub(crate) struct Buffers {
    pub so_far: Vec<Lit>,
    pub next: Vec<Lit>,
}

impl Buffers {
    pub(crate) fn new(alloc: Global) -> Buffers {
        Buffers {
            so_far: Vec::new(alloc),
            next: Vec::new(alloc),
        }
    }
}

/// Whether the line at an index is derived from the clauses and the lines before it.
pub(crate) fn is_derived(
    buffers: &mut Buffers,
    clauses: &Clauses,
    log: &Log,
    at: usize,
) -> Result<bool, AllocError>
    requires { at < length log.now }
    ensures { IfOk result (λ derived. MatchBool derived (IsDerivedAt clauses.now log.now at) (IsUnderivedAt clauses.now log.now at)) }
{
    let given = follow(buffers, clauses, log, at, log.chain(at))?;
    let clause = log.clause(at);
    Ok(given && are_same(buffers.so_far.as_slice(), clause))
}

/// Follows a chain over the clauses and the first lines. Answers false where it gives no clause.
fn follow(
    buffers: &mut Buffers,
    clauses: &Clauses,
    log: &Log,
    count: usize,
    chain: &[u64],
) -> Result<bool, AllocError>
    requires { count < length log.now }
    ensures { IfOk result (λ given. IsGiven (older_clauses clauses.now (take count log.now)) chain.now given buffers.new.so_far.items) }
{
    if chain.is_empty() {
        return Ok(false);
    }
    let Some(first) = older_clause(clauses, log, count, chain[0]) else {
        return Ok(false);
    };
    buffers.so_far.clear();
    buffers.so_far.extend_from_slice(first)?;
    for place in 1..chain.len() {
        let Some(clause) = older_clause(clauses, log, count, chain[place]) else {
            return Ok(false);
        };
        if !resolve(&mut buffers.next, buffers.so_far.as_slice(), clause)? {
            return Ok(false);
        }
        swap(&mut buffers.so_far, &mut buffers.next);
    }
    Ok(true)
}

/// The clause with a number: those of the formula come first, and then those of the first lines.
fn older_clause<'a>(
    clauses: &'a Clauses,
    log: &'a Log,
    count: usize,
    number: u64,
) -> Option<&'a [Lit]>
    requires { count < length log.now }
    ensures { MatchOption result (slice_get (older_clauses clauses.now (take count log.now)) number ≡ None)
        (λ lits. slice_get (older_clauses clauses.now (take count log.now)) number ≡ Some lits.now) }
{
    let number = number as usize;
    if number < clauses.len() {
        Some(clauses.get(number))
    } else if number - clauses.len() < count {
        Some(log.clause(number - clauses.len()))
    } else {
        None
    }
}

fn are_same(left: &[Lit], right: &[Lit]) -> bool
    ensures { IsTrue result ↔ (left.now ≡ right.now) }
{
    if left.len() != right.len() {
        return false;
    }
    for at in 0..left.len() {
        if left[at] != right[at] {
            return false;
        }
    }
    true
}
