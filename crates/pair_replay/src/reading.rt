//! Pairs read from texts.
ghost use Rattle.std.specs.Prelude.{◌≡◌, ◌≤◌, ◌⊎◌, ◌↔◌, ℕ, Some, None, Ok, Err, IfOk, IfErr};
ghost use Rattle.ct_pairs.specs.Pair.{IsPair};
ghost use Rattle.ct_pairs.specs.Inputs.{public_count, secret_count};
ghost use Rattle.ct_pairs.specs.declared.pair.Pair.{Pair};
ghost use Rattle.pair_replay.specs.PairText.{pair_text, wanted_lines, IsBadLine, HasBadLine};
ghost use Rattle.pair_replay.specs.declared.refusal.PairRefusal.TheVariants.{Memory};
ghost use Rattle.pair_replay.specs.FirstBadLine.{first_bad_line};

use crate::refusal::PairRefusal;
use crate::values::read_values;
use ct_pairs::{Job, Pair};
use ct_rows::Row;
use std::alloc::Global;

/// Reads a pair of a job: exactly the lines that `pair_text` writes, with as many values as the job has
/// public and secret bytes.
pub fn read_pair(alloc: Global, bytes: &[u8], job: &Job) -> Result<Pair, PairRefusal>
    ensures text { IfOk result (λ pair. bytes.now ≡ pair_text pair) }
    ensures pair { IfOk result (λ pair. IsPair job.now pair) }
    ensures refused { IfErr result (λ refusal. HasBadLine job.now bytes.now refusal) }
    ensures inverse { (pair : Pair) → IsPair job.now pair → bytes.now ≡ pair_text pair → (result ≡ Ok pair) ⊎ (result ≡ Err Memory) }
{
    let publics = public_count(job);
    let secrets = secret_count(job);
    let Some(rest) = bytes.strip_prefix(b"pair 1\n".as_slice()) else {
        return Err(PairRefusal::Line(1));
    };
    let Some((shared, rest)) = read_values(alloc, rest, "shared", publics)? else {
        return Err(PairRefusal::Line(2));
    };
    let Some((left, rest)) = read_values(alloc, rest, "left", secrets)? else {
        return Err(PairRefusal::Line(3));
    };
    let Some((right, rest)) = read_values(alloc, rest, "right", secrets)? else {
        return Err(PairRefusal::Line(4));
    };
    if !rest.is_empty() {
        return Err(PairRefusal::Line(5));
    }
    Ok(Pair {
        shared: Row::from_vec(shared),
        left: Row::from_vec(left),
        right: Row::from_vec(right),
    })
}

/// How many of a job's bytes are public.
fn public_count(job: &Job) -> usize
    ensures count { result ≡ public_count job.now.inputs }
    ensures few { result ≤ 4096 }
{
    job.inputs.iter().filter(|input| !input.secret).count()
}

/// How many of a job's bytes are secret.
fn secret_count(job: &Job) -> usize
    ensures count { result ≡ secret_count job.now.inputs }
    ensures few { result ≤ 4096 }
{
    job.inputs.iter().filter(|input| input.secret).count()
}

/// The laws of texts of pairs: no two lines are the first bad one, a text of a pair has none, and no
/// two pairs of a job have one text.
pub fn pair_text_law(bytes: &[u8], job: &Job)
    ensures once { (i k : ℕ) → IsBadLine (wanted_lines job.now) bytes.now i → IsBadLine (wanted_lines job.now) bytes.now k → i ≡ k }
    ensures good { (pair : Pair) → IsPair job.now pair → bytes.now ≡ pair_text pair → (k : ℕ) → IsBadLine (wanted_lines job.now) bytes.now k → ⊥ }
    ensures one_pair { (p q : Pair) → IsPair job.now p → IsPair job.now q → bytes.now ≡ pair_text p → bytes.now ≡ pair_text q → p ≡ q }
{}

/// The law of the first bad line as it is computed: it is the first bad one, and only a text of a
/// pair has none.
pub fn bad_line_law(bytes: &[u8], job: &Job)
    ensures line { (k : ℕ) → (first_bad_line job.now.inputs bytes.now ≡ Some k) ↔ IsBadLine (wanted_lines job.now) bytes.now k }
    ensures good { (first_bad_line job.now.inputs bytes.now ≡ None) ↔ ((pair : Pair) × IsPair job.now pair × (bytes.now ≡ pair_text pair)) }
{}
