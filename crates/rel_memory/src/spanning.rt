//! Addresses that lie in spans.

ghost use Rattle.std.specs.Prelude.{◌≡◌, ◌+◌, ◌-◌, ◌*◌, ◌^◌, ◌<◌, ◌≤◌, ℕ, false, length, All, IfOk, IsTrue, if◌then◌else◌};
ghost use Rattle.std.specs.List.{list_any};
ghost use Rattle.ct_words.specs.Words.{flag};
ghost use Rattle.bv_expr.specs.Nodes.{IsValuation, AreBytes, HasWidth};
ghost use Rattle.bv_expr.specs.Growth.{Extends, AddsNoInput};
ghost use Rattle.bv_range.specs.Known.{IsWithin};
ghost use Rattle.bv_range.specs.Remembered.{AreRight, IsRangeOf};
ghost use Rattle.rel_memory.specs.Selecting.{Grows};
ghost use Rattle.rel_memory.specs.Spanning.{in_span, span_allows};
ghost use Rattle.rv_image.specs.View.{total};

use bv_expr::{Arena, BIT, ExprId, WORD};
use bv_range::{Range, Ranges};
use ct_words::{AluOp, Cond};
use rv_image::{Right, Span};
use std::alloc::AllocError;

/// The offsets into a span from the one to before the other are those of all addresses between the ends of a range.
pub fn offsets(range: Range, span: Span) -> (u32, u32)
    ensures within { result.1 ≤ span.length }
    ensures each { (at : ℕ) → IsTrue (in_span at span) → IsWithin range at → (result.0 ≤ at - span.address) × (at - span.address < result.1) }
{
    let first = range.least.saturating_sub(span.address);
    let end = if range.most < span.address {
        0
    } else if range.most - span.address < span.length {
        range.most - span.address + 1
    } else {
        span.length
    };
    (first, end)
}

// Whether a word is an address of a span: one bit.
fn inside_span(arena: &mut Arena, x: ExprId, span: Span) -> Result<ExprId, AllocError>
    requires word { HasWidth arena.old x.0 32 }
    requires filled { 0 < span.length }
    requires fits { span.address + span.length ≤ 2 ^ 32 }
    ensures value { IfOk result (λ id. (env v : ℕ → ℕ) → IsValuation env v arena.new → v x.0 < 2 ^ 32 → v id.0 ≡ flag (in_span (v x.0) span)) }
    ensures width { IfOk result (λ id. HasWidth arena.new id.0 1) }
    ensures grows { Grows arena.old arena.new }
    ensures count { length arena.new + 1 ≤ length arena.old + 4 * span.length }
    ensures no_input { AddsNoInput arena.old arena.new }
{
    let address = arena.constant(WORD, span.address)?;
    if span.length == 1 {
        let inside = arena.test(Cond::Eq, x, address)?;
        return Ok(inside);
    }
    let offset = arena.alu(AluOp::Sub, x, address)?;
    let length = arena.constant(WORD, span.length)?;
    let inside = arena.test(Cond::Ltu, offset, length)?;
    Ok(inside)
}

// Whether no address of a range is one of a span.
fn misses(range: Range, span: Span) -> bool
    ensures { IsTrue result → (at : ℕ) → IsWithin range at → in_span at span ≡ false }
{
    range.most < span.address
        || (range.least >= span.address && range.least - span.address >= span.length)
}

// 1 where a word is an address of a span that has a right, and else the bit before.
fn or_inside(
    arena: &mut Arena,
    x: ExprId,
    span: Span,
    one: ExprId,
    before: ExprId,
) -> Result<ExprId, AllocError>
    requires word { HasWidth arena.old x.0 32 }
    requires filled { 0 < span.length }
    requires fits { span.address + span.length ≤ 2 ^ 32 }
    requires one { HasWidth arena.old one.0 1 }
    requires one_value { (env v : ℕ → ℕ) → IsValuation env v arena.old → v one.0 ≡ 1 }
    requires before { HasWidth arena.old before.0 1 }
    ensures value { IfOk result (λ id. (env v : ℕ → ℕ) → IsValuation env v arena.new → v x.0 < 2 ^ 32 → v id.0 ≡ (if in_span (v x.0) span then 1 else v before.0)) }
    ensures width { IfOk result (λ id. HasWidth arena.new id.0 1) }
    ensures grows { Grows arena.old arena.new }
    ensures count { length arena.new ≤ length arena.old + 4 * span.length }
    ensures no_input { AddsNoInput arena.old arena.new }
{
    let inside = inside_span(arena, x, span)?;
    let either = arena.pick(inside, one, before)?;
    Ok(either)
}

// The same for a span that may not have the right, or may lie outside the word's range.
fn or_allowed(
    arena: &mut Arena,
    range: Range,
    right: Right,
    x: ExprId,
    span: Span,
    one: ExprId,
    before: ExprId,
) -> Result<ExprId, AllocError>
    requires word { HasWidth arena.old x.0 32 }
    requires range { IsRangeOf arena.old x.0 range }
    requires filled { 0 < span.length }
    requires fits { span.address + span.length ≤ 2 ^ 32 }
    requires one { HasWidth arena.old one.0 1 }
    requires one_value { (env v : ℕ → ℕ) → IsValuation env v arena.old → v one.0 ≡ 1 }
    requires before { HasWidth arena.old before.0 1 }
    ensures value { IfOk result (λ id. (env v : ℕ → ℕ) → AreBytes env → IsValuation env v arena.new → v id.0 ≡ (if span_allows right (v x.0) span then 1 else v before.0)) }
    ensures width { IfOk result (λ id. HasWidth arena.new id.0 1) }
    ensures grows { Grows arena.old arena.new }
    ensures count { length arena.new ≤ length arena.old + 4 * span.length }
    ensures no_input { AddsNoInput arena.old arena.new }
{
    if !span.allows(right) || misses(range, span) {
        return Ok(before);
    }
    let either = or_inside(arena, x, span, one, before)?;
    arena.law();
    Ok(either)
}

/// Whether a word is an address of one of the spans that have a right: one bit. Adds at most five nodes a span.
pub fn allowed_in(
    arena: &mut Arena,
    ranges: &mut Ranges,
    spans: &[Span],
    right: Right,
    x: ExprId,
) -> Result<ExprId, AllocError>
    requires word { HasWidth arena.old x.0 32 }
    requires ranges { AreRight arena.old ranges.old }
    requires filled { All (λ span. 0 < span.length) spans.now }
    requires fits { All (λ span. span.address + span.length ≤ 2 ^ 32) spans.now }
    ensures value { IfOk result (λ id. (env v : ℕ → ℕ) → AreBytes env → IsValuation env v arena.new → v id.0 ≡ flag (list_any (span_allows right (v x.0)) spans.now)) }
    ensures width { IfOk result (λ id. HasWidth arena.new id.0 1) }
    ensures extends { Extends arena.old arena.new (2 + 4 * total spans.now) }
    ensures no_input { AddsNoInput arena.old arena.new }
    ensures ranges { AreRight arena.new ranges.new }
{
    let range = ranges.of(arena, x)?;
    let one = arena.constant(BIT, 1)?;
    let zero = arena.constant(BIT, 0)?;
    let mut allowed = zero;
    for i in 0..spans.len() {
        let span = spans[i];
        allowed = or_allowed(arena, range, right, x, span, one, allowed)?;
    }
    Ok(allowed)
}
