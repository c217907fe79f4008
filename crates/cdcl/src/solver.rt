//! The search over watched literals, with restarts.
ghost use Rattle.std.specs.Prelude.{◌≡◌, ◌<◌, ◌+◌, ◌^◌, true, IfOk, IfSome, IfNone};
ghost use Rattle.cnf_form.specs.News.{is_free};
ghost use Rattle.cnf_form.specs.Spent.{AreLean};
ghost use Rattle.cdcl.specs.Trail.{lits_of, IsFalsified};
ghost use Rattle.cdcl.specs.State.{IsState};
ghost use Rattle.cdcl.specs.Run.{IsPropagated, IsReady};
ghost use Rattle.cdcl.specs.Step.{IsStepped};
ghost use Rattle.cdcl.specs.Marks.{IsFull};
ghost use Rattle.cdcl.specs.Searched.{IsSearched, OnSpent};

use crate::analysis::analyze;
use crate::laws::{MOST_VARS, is_spent};
use crate::order::Order;
use crate::pace::Pace;
use crate::run::Run;
use crate::searched::Searched;
use crate::step::Step;
use crate::trail::Trail;
use cnf_form::{Cnf, Lit};
use std::alloc::{AllocError, Global};

/// Looks for a solution, and learns at most `budget` lines.
///
/// A formula of more than `laws::MOST_VARS` variables wants memory. Nothing random enters.
pub fn search(alloc: Global, cnf: &Cnf, budget: u64) -> Result<Searched, AllocError>
    ensures searched { IfOk result (IsSearched cnf.now.vars cnf.now.clauses budget) }
    ensures lean { IfOk result (OnSpent (AreLean cnf.now.clauses)) }
    ensures few { IfOk result (OnSpent (λ _. budget + 1 < 3 ^ cnf.now.vars)) }
{
    if cnf.vars > MOST_VARS {
        return Err(AllocError);
    }
    let mut run = Run::new(alloc, cnf)?;
    if let Some(conflict) = run.enter()? {
        let empty = analyze(alloc, &run.trail, &run.clauses, conflict)?;
        run.log.push(&empty)?;
        return Ok(Searched::Refuted(run.into_log()));
    }
    let mut order = Order::new(alloc, cnf.vars as usize)?;
    let mut pace = Pace::new();
    'search: loop {
        match step(alloc, cnf, budget, &mut run, &mut order, &mut pace)? {
            Step::Solved(found) => return Ok(Searched::Solved(found)),
            Step::Refuted => return Ok(Searched::Refuted(run.into_log())),
            Step::Spent => return Ok(Searched::Spent(run.into_log())),
            Step::Onward => {}
        }
    }
}

/// Sets what the clauses force; then learns from a conflict, starts anew where that is due, or decides.
fn step(
    alloc: Global,
    cnf: &Cnf,
    budget: u64,
    run: &mut Run,
    order: &mut Order,
    pace: &mut Pace,
) -> Result<Step, AllocError>
    requires { IsReady cnf.now.vars cnf.now.clauses budget run.old }
    ensures { IfOk result (IsStepped cnf.now.vars cnf.now.clauses budget run.old run.new pace.old pace.new) }
{
    if let Some(conflict) = run.propagate()? {
        let met = meet(alloc, cnf, budget, run, order, pace, conflict)?;
        return Ok(met);
    }
    if pace.is_due {
        run.restart(order)?;
        pace.restart();
        return Ok(Step::Onward);
    }
    match next_literal(order, &run.trail) {
        Some(lit) => {
            run.decide(lit)?;
            Ok(Step::Onward)
        }
        None => {
            let found = run.trail.assignment(alloc)?;
            Ok(Step::Solved(found))
        }
    }
}

/// Learns the line of a conflict, if the budget has one left.
fn meet(
    alloc: Global,
    cnf: &Cnf,
    budget: u64,
    run: &mut Run,
    order: &mut Order,
    pace: &mut Pace,
    conflict: usize,
) -> Result<Step, AllocError>
    requires state { IsState cnf.now.vars cnf.now.clauses budget run.old.trail run.old.clauses run.old.log }
    requires propagated { IsPropagated run.old }
    requires conflict { IsFalsified run.old.clauses conflict (lits_of run.old.trail.entries) }
    ensures { IfOk result (IsStepped cnf.now.vars cnf.now.clauses budget run.old run.new pace.old pace.new) }
{
    let line = analyze(alloc, &run.trail, &run.clauses, conflict)?;
    if run.trail.level() == 0 {
        run.log.push(&line)?;
        return Ok(Step::Refuted);
    }
    if is_spent(&run.log, budget) {
        return Ok(Step::Spent);
    }
    order.learn(&run.clauses, &line);
    run.learn(order, &line)?;
    pace.learn();
    Ok(Step::Onward)
}

/// A literal without a value to decide, if there is one.
fn next_literal(order: &mut Order, trail: &Trail) -> Option<Lit>
    ensures free { IfSome result (λ lit. (lit.var < trail.now.vars) × (is_free (lits_of trail.now.entries) lit.var ≡ true)) }
    ensures full { IfNone result (IsFull trail.now.vars (lits_of trail.now.entries)) }
{
    for _ in 0..order.len() {
        let Some(var) = order.take() else {
            break;
        };
        if trail.is_unset(var) {
            return Some(Lit {
                var,
                negated: order.sign(var),
            });
        }
    }
    let var = trail.first_free()?;
    Some(Lit {
        var,
        negated: order.sign(var),
    })
}
