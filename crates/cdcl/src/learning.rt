//! What a learnt clause is watched by, and how far the search goes back for it.
ghost use Rattle.std.specs.Prelude.{◌≡◌, ◌<◌, true};
ghost use Rattle.cnf_form.specs.Clauses.{all_below};
ghost use Rattle.cnf_form.specs.News.{are_distinct};
ghost use Rattle.cdcl.specs.Trail.{lits_of, IsLearnt};
ghost use Rattle.cdcl.specs.Jump.{IsJump, IsHighest, IsOpen, IsSecond};

use crate::trail::Trail;
use cnf_form::Lit;

/// The greatest level of the literals below the current one, or 0.
pub(crate) fn jump_level(trail: &Trail, lits: &[Lit]) -> usize
    requires { all_below trail.now.vars lits.now ≡ true }
    ensures jump { IsJump trail.now.entries lits.now result }
    ensures highest { IsHighest trail.now.entries lits.now result }
{
    let mut level = 0;
    for lit in lits {
        let Some(mark) = trail.mark(*lit) else {
            continue;
        };
        if level < mark.level && mark.level < trail.level() {
            level = mark.level;
        }
    }
    level
}

/// The literal that isn't of a level below the current one.
pub(crate) fn open_literal(trail: &Trail, lits: &[Lit]) -> Lit
    requires in_range { all_below trail.now.vars lits.now ≡ true }
    requires learnt { IsLearnt trail.now.entries lits.now }
    ensures { IsOpen trail.now.entries lits.now result }
{
    for lit in lits {
        if !trail.is_below(*lit) {
            return *lit;
        }
    }
    unreachable!()
}

/// Another literal than the first one that is of a level, or the first one where it stands alone.
pub(crate) fn second_literal(trail: &Trail, lits: &[Lit], first: Lit, level: usize) -> Lit
    requires in_range { all_below trail.now.vars lits.now ≡ true }
    requires distinct { are_distinct (lits_of trail.now.entries) ≡ true }
    requires learnt { IsLearnt trail.now.entries lits.now }
    requires first { IsOpen trail.now.entries lits.now first }
    requires jump { IsJump trail.now.entries lits.now level }
    requires highest { IsHighest trail.now.entries lits.now level }
    ensures { IsSecond trail.now.entries lits.now first level result }
{
    for lit in lits {
        if *lit != first && trail.is_at(*lit, level) {
            return *lit;
        }
    }
    first
}
