//! The memory of two runs.

ghost use Rattle.std.specs.Prelude.{List, ◌≡◌, ◌==◌, ◌+◌, ◌*◌, ◌^◌, ◌<◌, ◌≤◌, ℕ, Bool, true, [], ◌∷◌, ◌++◌, length, drop, fold, Some, None, IfOk, OnOk, OnErr, IsSome, IsTrue, if◌then◌else◌};
ghost use Rattle.ct_words.specs.Words.{flag};
ghost use Rattle.rv_image.specs.Image.{allowed_at};
ghost use Rattle.rv_machine.specs.Step.{all_allowed, wrapped};
ghost use Rattle.bv_expr.specs.Nodes.{IsValuation, AreBytes, HasWidth};
ghost use Rattle.bv_expr.specs.Growth.{Extends, AddsNoInput};
ghost use Rattle.bv_expr.specs.Folding.{constant_in};
ghost use Rattle.bv_expr.specs.declared.q_node.QNode.{QNode};
ghost use Rattle.bv_range.specs.Known.{IsWithin};
ghost use Rattle.bv_range.specs.Remembered.{AreRight, IsRangeOf};
ghost use Rattle.rel_store.specs.Sides.{side_id, HasSides};
ghost use Rattle.rel_store.specs.declared.rel_value.RelValue.TheVariants.{Same};
ghost use Rattle.rel_memory.specs.Contents.{Contents, IsMemory, IsAccessible, HasNumbersOnly, IsPut, kept_at, passed, byte_in, after_write};
ghost use Rattle.rel_memory.specs.Log.{IsEntry, after_entry};
ghost use Rattle.rel_memory.specs.Selecting.{IsFirst, AreFirst, value_at};
ghost use Rattle.rel_memory.specs.Spanning.{in_span};
ghost use Rattle.rel_memory.specs.declared.contents.Kept.{Kept};
ghost use Rattle.rel_memory.specs.declared.entry.Entry.TheVariants.{Number};
ghost use Rattle.rel_memory.specs.declared.rel_memory.TheConstants.{READ_NODES};

use crate::contents::{Kept, Written};
use crate::entry::Entry;
use crate::replacing::{may_be, replaced};
use crate::selecting::selected;
use crate::spanning::{allowed_in, offsets};
use bv_expr::{Arena, BIT, BYTE, ExprId, QNode, WORD};
use bv_range::{Range, Ranges};
use ct_words::AluOp;
use indexmap::IndexMap;
use rel_store::RelValue;
use rv_image::{Image, Right, Span};
use std::alloc::{AllocError, Global};
use std::marker::Model;

/// How many nodes a read adds beside those for candidates and writes: tests of the address's bits.
pub const READ_NODES: usize = 160;

/// The memory of two runs: an image, and what was written over it.
///
/// Addresses are expressions of 32 bits, values of 8. The expressions are those of one arena, which each call
/// is given; what the arena gets later leaves them as they were. A byte is found by one look-up where its
/// address is a number and only such addresses were written.
#[derive(Drop)]
pub struct RelMemory {
    image: Image,
    kept: IndexMap<u32, Kept>,
    computed: Vec<Written>,
    // All writes since the first at an address that is no number, oldest first.
    log: Vec<Entry>,
    alloc: Global,
}

impl Model for RelMemory {
    ghost use Rattle.std.specs.Prelude.{length};
    ghost use Rattle.rel_memory.specs.Contents.{Contents};
    ghost use Rattle.rel_memory.specs.Log.{IsLogged};

    ghost Value = { Contents };

    ghost view = { λ m. record { image = m.image; kept = m.kept.entries; computed = m.computed.items; later = length m.log.items } };

    ghost invariant = { λ m. IsLogged (record { image = m.image; kept = m.kept.entries; computed = m.computed.items; later = length m.log.items }) m.log.items };
}

impl RelMemory {
    /// The memory as it is loaded. Copies the image once.
    pub fn new(alloc: Global, image: &Image) -> Result<RelMemory, AllocError>
        ensures image { IfOk result (λ m. m.image ≡ image.now) }
        ensures nothing { IfOk result (λ m. (at : ℕ) → kept_at m at ≡ None) }
        ensures numbers { IfOk result (λ m. m.computed ≡ []) }
        ensures later { IfOk result HasNumbersOnly }
        ensures memory { IfOk result (λ m. (nodes : List QNode) → IsMemory nodes m) }
    {
        let _size = image.size();
        Ok(RelMemory {
            image: image.copy(alloc)?,
            kept: IndexMap::new(alloc),
            computed: Vec::new(alloc),
            log: Vec::new(alloc),
            alloc,
        })
    }

    /// Puts a byte at an accessible address before anything is written.
    pub fn preset(&mut self, arena: &Arena, address: u32, value: RelValue) -> Result<(), AllocError>
        requires memory { IsMemory arena.now self.old }
        requires value { HasSides arena.now 8 value }
        requires accessible { IsAccessible self.old address }
        requires numbers { HasNumbersOnly self.old }
        ensures put { OnOk result (IsPut self.old address (record { held = value; before = 0 }) self.new) }
        ensures numbers { OnOk result (HasNumbersOnly self.new) }
        ensures memory { OnOk result (IsMemory arena.now self.new) }
        ensures meaning { OnOk result ((right : Bool) (v : ℕ → ℕ) (at : ℕ) → byte_in right v self.new at ≡ (if at == address then v (side_id right value) else byte_in right v self.old at)) }
        ensures unchanged { OnErr result (self.new ≡ self.old) }
    {
        let _nodes = arena.nodes();
        self.put(address, value)?;
        Ok(())
    }

    // Puts a byte at an address that is a number.
    fn put(&mut self, address: u32, held: RelValue) -> Result<(), AllocError>
        ensures put { OnOk result (IsPut self.old address (record { held = held; before = length self.old.computed }) self.new) }
        ensures numbers { OnOk result (HasNumbersOnly self.old → HasNumbersOnly self.new) }
        ensures later { OnOk result (self.new.later ≤ self.old.later + 1) }
        ensures none { HasNumbersOnly self.old → self.old.computed ≡ [] }
        ensures unchanged { OnErr result (self.new ≡ self.old) }
    {
        let kept = Kept {
            held,
            before: self.computed.len(),
        };
        self.log.reserve(1)?;
        self.kept.insert(address, kept)?;
        if !self.log.is_empty() {
            self.log.push(Entry::Number(address))?;
        }
        Ok(())
    }

    // Writes a byte at an address that is no number.
    fn write(&mut self, one: Written) -> Result<(), AllocError>
        requires memory { (nodes : List QNode) × IsMemory nodes self.old }
        ensures image { OnOk result (self.new.image ≡ self.old.image) }
        ensures kept { OnOk result (self.new.kept ≡ self.old.kept) }
        ensures computed { OnOk result (self.new.computed ≡ self.old.computed ++ one ∷ []) }
        ensures later { OnOk result (self.new.later ≤ self.old.later + 1) }
        ensures unchanged { OnErr result (self.new ≡ self.old) }
    {
        self.computed.reserve(1)?;
        self.log.reserve(1)?;
        self.computed.push(one)?;
        self.log.push(Entry::Computed(one))?;
        Ok(())
    }

    /// Whether each of some bytes from an address on has a right: one bit. A number where the address is one, or
    /// where its range lies inside one span.
    pub fn allowed(
        &self,
        arena: &mut Arena,
        ranges: &mut Ranges,
        address: ExprId,
        bytes: u32,
        right: Right,
    ) -> Result<ExprId, AllocError>
        requires memory { IsMemory arena.old self.now }
        requires address { HasWidth arena.old address.0 32 }
        requires some { 0 < bytes }
        requires few { bytes ≤ 4 }
        requires ranges { AreRight arena.old ranges.old }
        ensures value { IfOk result (λ id. (env v : ℕ → ℕ) → AreBytes env → IsValuation env v arena.new → v id.0 ≡ flag (all_allowed (allowed_at right self.now.image) (v address.0) bytes)) }
        ensures width { IfOk result (λ id. HasWidth arena.new id.0 1) }
        ensures number { IfOk result (λ id. (a : ℕ) → constant_in arena.old address.0 ≡ Some a → constant_in arena.new id.0 ≡ Some (flag (all_allowed (allowed_at right self.now.image) a bytes))) }
        ensures extends { Extends arena.old arena.new (4 * (READ_NODES + 4 * length self.now.image)) }
        ensures no_input { AddsNoInput arena.old arena.new }
        ensures ranges { AreRight arena.new ranges.new }
    {
        if let QNode::Constant { value, .. } = arena.node(address) {
            let all = self.all_allowed(value, bytes, right);
            let bit = arena.constant(BIT, u32::from(all))?;
            return Ok(bit);
        }
        let range = ranges.of(arena, address)?;
        if self.are_allowed(range, bytes, right) {
            let one = arena.constant(BIT, 1)?;
            return Ok(one);
        }
        let each = self.each_allowed(arena, ranges, address, bytes, right)?;
        Ok(each)
    }

    // Whether each of some bytes from an address on has a right.
    fn all_allowed(&self, address: u32, bytes: u32, right: Right) -> bool
        ensures { result ≡ all_allowed (allowed_at right self.now.image) address bytes }
    {
        for i in 0..bytes {
            if !self.image.allows(right, address.wrapping_add(i)) {
                return false;
            }
        }
        true
    }

    // Whether each of some bytes has a right from each address of a range on, as far as one block of addresses tells.
    fn are_allowed(&self, range: Range, bytes: u32, right: Right) -> bool
        requires some { 0 < bytes }
        requires few { bytes ≤ 4 }
        ensures { IsTrue result → (at : ℕ) → IsWithin range at → all_allowed (allowed_at right self.now.image) at bytes ≡ true }
    {
        if range.most < range.least || range.most - range.least > u32::MAX - bytes {
            return false;
        }
        let count = range.most - range.least + bytes;
        self.image.block(right, range.least, count).is_some()
    }

    // Whether each of some bytes from an address on has a right: one bit, byte by byte.
    fn each_allowed(
        &self,
        arena: &mut Arena,
        ranges: &mut Ranges,
        address: ExprId,
        bytes: u32,
        right: Right,
    ) -> Result<ExprId, AllocError>
        requires address { HasWidth arena.old address.0 32 }
        requires some { 0 < bytes }
        requires few { bytes ≤ 4 }
        requires ranges { AreRight arena.old ranges.old }
        ensures value { IfOk result (λ id. (env v : ℕ → ℕ) → AreBytes env → IsValuation env v arena.new → v id.0 ≡ flag (all_allowed (allowed_at right self.now.image) (v address.0) bytes)) }
        ensures width { IfOk result (λ id. HasWidth arena.new id.0 1) }
        ensures extends { Extends arena.old arena.new (4 * (READ_NODES + 4 * length self.now.image)) }
        ensures no_input { AddsNoInput arena.old arena.new }
        ensures ranges { AreRight arena.new ranges.new }
    {
        arena.law();
        let first = self.byte_allowed(arena, ranges, address, right)?;
        let mut all = first;
        for i in 1..bytes {
            all = self.next_allowed(arena, ranges, address, i, right, all)?;
        }
        Ok(all)
    }

    // Whether a bit is 1 and the address at an offset has a right: one bit.
    fn next_allowed(
        &self,
        arena: &mut Arena,
        ranges: &mut Ranges,
        address: ExprId,
        offset: u32,
        right: Right,
        before: ExprId,
    ) -> Result<ExprId, AllocError>
        requires address { HasWidth arena.old address.0 32 }
        requires ranges { AreRight arena.old ranges.old }
        requires before { HasWidth arena.old before.0 1 }
        ensures value { IfOk result (λ id. (env v : ℕ → ℕ) → AreBytes env → IsValuation env v arena.new → v id.0 ≡ (if v before.0 == 0 then 0 else flag (allowed_at right self.now.image (wrapped (v address.0 + offset))))) }
        ensures width { IfOk result (λ id. HasWidth arena.new id.0 1) }
        ensures extends { Extends arena.old arena.new (5 + 4 * length self.now.image) }
        ensures no_input { AddsNoInput arena.old arena.new }
        ensures ranges { AreRight arena.new ranges.new }
    {
        let number = arena.constant(WORD, offset)?;
        let next = arena.alu(AluOp::Add, address, number)?;
        let one = self.byte_allowed(arena, ranges, next, right)?;
        let both = arena.both(before, one)?;
        Ok(both)
    }

    // Whether an address has a right: one bit.
    fn byte_allowed(
        &self,
        arena: &mut Arena,
        ranges: &mut Ranges,
        address: ExprId,
        right: Right,
    ) -> Result<ExprId, AllocError>
        requires address { HasWidth arena.old address.0 32 }
        requires ranges { AreRight arena.old ranges.old }
        ensures value { IfOk result (λ id. (env v : ℕ → ℕ) → AreBytes env → IsValuation env v arena.new → v id.0 ≡ flag (allowed_at right self.now.image (v address.0))) }
        ensures width { IfOk result (λ id. HasWidth arena.new id.0 1) }
        ensures extends { Extends arena.old arena.new (2 + 4 * length self.now.image) }
        ensures no_input { AddsNoInput arena.old arena.new }
        ensures ranges { AreRight arena.new ranges.new }
    {
        let _size = self.image.size();
        let spans = self.image.ranges();
        let allowed = allowed_in(arena, ranges, spans, right, address)?;
        Ok(allowed)
    }

    /// The byte at an accessible address in both runs.
    ///
    /// At an address that is a number this is the byte that was last put there, behind a comparison with each later
    /// write at an address that is none. Else it is a selection, by the bits of the address, over the accessible
    /// addresses of its range, behind a comparison with each write since the first at an address that is no number.
    pub fn read_byte(
        &self,
        arena: &mut Arena,
        ranges: &mut Ranges,
        address: ExprId,
    ) -> Result<RelValue, AllocError>
        requires memory { IsMemory arena.old self.now }
        requires address { HasWidth arena.old address.0 32 }
        requires ranges { AreRight arena.old ranges.old }
        ensures value { IfOk result (λ r. (env v : ℕ → ℕ) → AreBytes env → IsValuation env v arena.new → IsAccessible self.now (v address.0) → (right : Bool) → v (side_id right r) ≡ byte_in right v self.now (v address.0)) }
        ensures kept { IfOk result (λ r. (a : ℕ) (one : Kept) → constant_in arena.old address.0 ≡ Some a → kept_at self.now a ≡ Some one → one.before ≡ length self.now.computed → r ≡ one.held) }
        ensures width { IfOk result (HasSides arena.new 8) }
        ensures extends { Extends arena.old arena.new (READ_NODES + 4 * length self.now.image + 4 * self.now.later) }
        ensures no_input { AddsNoInput arena.old arena.new }
        ensures ranges { AreRight arena.new ranges.new }
    {
        if let QNode::Constant { value, .. } = arena.node(address) {
            let number = self.read_at(arena, ranges, value)?;
            return Ok(number);
        }
        let range = ranges.of(arena, address)?;
        if range.least == range.most {
            let only = self.read_at(arena, ranges, range.least)?;
            return Ok(only);
        }
        let among = self.read_among(arena, ranges, address, range)?;
        Ok(among)
    }

    // What was last put at an address as a number, and else the loaded byte.
    fn first(&self, arena: &mut Arena, at: u32) -> Result<RelValue, AllocError>
        requires { IsMemory arena.old self.now }
        ensures first { IfOk result (IsFirst arena.new self.now at) }
        ensures kept { IfOk result (λ r. (one : Kept) → kept_at self.now at ≡ Some one → r ≡ one.held) }
        ensures extends { Extends arena.old arena.new 1 }
        ensures no_input { AddsNoInput arena.old arena.new }
    {
        if let Some(kept) = self.kept.get(&at) {
            return Ok(kept.held);
        }
        let loaded = self.image.loaded(at).unwrap_or(0);
        let byte = arena.constant(BYTE, u32::from(loaded))?;
        Ok(RelValue::Same(byte))
    }

    // How many writes at addresses that are no numbers were before what was last put at an address as a number.
    fn passed(&self, at: u32) -> usize
        ensures passed { result ≡ passed self.now at }
    {
        match self.kept.get(&at) {
            Some(kept) => kept.before,
            None => 0,
        }
    }

    // The byte at an address that is a number.
    fn read_at(
        &self,
        arena: &mut Arena,
        ranges: &mut Ranges,
        at: u32,
    ) -> Result<RelValue, AllocError>
        requires memory { IsMemory arena.old self.now }
        requires ranges { AreRight arena.old ranges.old }
        ensures value { IfOk result (λ r. (env v : ℕ → ℕ) → AreBytes env → IsValuation env v arena.new → (right : Bool) → v (side_id right r) ≡ byte_in right v self.now at) }
        ensures kept { IfOk result (λ r. (one : Kept) → kept_at self.now at ≡ Some one → one.before ≡ length self.now.computed → r ≡ one.held) }
        ensures width { IfOk result (HasSides arena.new 8) }
        ensures extends { Extends arena.old arena.new (2 + 3 * self.now.later) }
        ensures no_input { AddsNoInput arena.old arena.new }
        ensures ranges { AreRight arena.new ranges.new }
    {
        let first = self.first(arena, at)?;
        let passed = self.passed(at);
        if passed >= self.computed.len() {
            return Ok(first);
        }
        let byte = self.written_at(arena, ranges, at, passed, first)?;
        Ok(byte)
    }

    // The byte at an address that is a number after the writes at addresses that are none, from one of them on.
    fn written_at(
        &self,
        arena: &mut Arena,
        ranges: &mut Ranges,
        at: u32,
        passed: usize,
        first: RelValue,
    ) -> Result<RelValue, AllocError>
        requires memory { IsMemory arena.old self.now }
        requires some { passed < length self.now.computed }
        requires first { HasSides arena.old 8 first }
        requires ranges { AreRight arena.old ranges.old }
        ensures value { IfOk result (λ r. (env v : ℕ → ℕ) → AreBytes env → IsValuation env v arena.new → (right : Bool) → v (side_id right r) ≡ fold (after_write right v at) (v (side_id right first)) (drop passed self.now.computed)) }
        ensures width { IfOk result (HasSides arena.new 8) }
        ensures extends { Extends arena.old arena.new (1 + 3 * self.now.later) }
        ensures no_input { AddsNoInput arena.old arena.new }
        ensures ranges { AreRight arena.new ranges.new }
    {
        let number = arena.constant(WORD, at)?;
        let mut byte = first;
        for i in passed..self.computed.len() {
            let one = self.computed[i];
            byte = replaced(arena, ranges, number, one.address, one.held, byte)?;
        }
        Ok(byte)
    }

    // The byte at an accessible address, which is one of a range.
    fn read_among(
        &self,
        arena: &mut Arena,
        ranges: &mut Ranges,
        address: ExprId,
        range: Range,
    ) -> Result<RelValue, AllocError>
        requires memory { IsMemory arena.old self.now }
        requires address { HasWidth arena.old address.0 32 }
        requires range { IsRangeOf arena.old address.0 range }
        requires ranges { AreRight arena.old ranges.old }
        ensures value { IfOk result (λ r. (env v : ℕ → ℕ) → AreBytes env → IsValuation env v arena.new → IsAccessible self.now (v address.0) → (right : Bool) → v (side_id right r) ≡ byte_in right v self.now (v address.0)) }
        ensures width { IfOk result (HasSides arena.new 8) }
        ensures extends { Extends arena.old arena.new (READ_NODES + 4 * length self.now.image + 4 * self.now.later) }
        ensures no_input { AddsNoInput arena.old arena.new }
        ensures ranges { AreRight arena.new ranges.new }
    {
        let candidates = self.candidates(arena, range)?;
        let first = selected(self.alloc, arena, address, candidates)?;
        let mut byte = first;
        for i in 0..self.log.len() {
            let one = self.log[i];
            byte = self.after(arena, ranges, address, range, one, byte)?;
        }
        Ok(byte)
    }

    // The byte at an address after one of the writes.
    fn after(
        &self,
        arena: &mut Arena,
        ranges: &mut Ranges,
        address: ExprId,
        range: Range,
        one: Entry,
        before: RelValue,
    ) -> Result<RelValue, AllocError>
        requires memory { IsMemory arena.old self.now }
        requires address { HasWidth arena.old address.0 32 }
        requires range { IsRangeOf arena.old address.0 range }
        requires one { IsEntry arena.old one }
        requires before { HasSides arena.old 8 before }
        requires ranges { AreRight arena.old ranges.old }
        ensures value { IfOk result (λ r. (env v : ℕ → ℕ) → AreBytes env → IsValuation env v arena.new → (right : Bool) → v (side_id right r) ≡ after_entry right v (kept_at self.now (v address.0)) (v address.0) (v (side_id right before)) one) }
        ensures width { IfOk result (HasSides arena.new 8) }
        ensures extends { Extends arena.old arena.new 4 }
        ensures no_input { AddsNoInput arena.old arena.new }
        ensures ranges { AreRight arena.new ranges.new }
    {
        match one {
            Entry::Computed(one) => {
                let byte = replaced(arena, ranges, address, one.address, one.held, before)?;
                Ok(byte)
            }
            Entry::Number(at) => {
                let byte = self.after_number(arena, ranges, address, range, at, before)?;
                Ok(byte)
            }
        }
    }

    // The byte at an address after what was last put at a number.
    fn after_number(
        &self,
        arena: &mut Arena,
        ranges: &mut Ranges,
        address: ExprId,
        range: Range,
        at: u32,
        before: RelValue,
    ) -> Result<RelValue, AllocError>
        requires memory { IsMemory arena.old self.now }
        requires address { HasWidth arena.old address.0 32 }
        requires range { IsRangeOf arena.old address.0 range }
        requires before { HasSides arena.old 8 before }
        requires ranges { AreRight arena.old ranges.old }
        ensures value { IfOk result (λ r. (env v : ℕ → ℕ) → AreBytes env → IsValuation env v arena.new → (right : Bool) → v (side_id right r) ≡ after_entry right v (kept_at self.now (v address.0)) (v address.0) (v (side_id right before)) (Number at)) }
        ensures width { IfOk result (HasSides arena.new 8) }
        ensures extends { Extends arena.old arena.new 4 }
        ensures no_input { AddsNoInput arena.old arena.new }
        ensures ranges { AreRight arena.new ranges.new }
    {
        let kept = match self.kept.get(&at) {
            Some(kept) => *kept,
            None => return Ok(before),
        };
        if !may_be(range, at) {
            return Ok(before);
        }
        let number = arena.constant(WORD, at)?;
        let byte = replaced(arena, ranges, address, number, kept.held, before)?;
        Ok(byte)
    }

    // The accessible addresses of a range, as far as bits and ends tell, with their first bytes.
    fn candidates(
        &self,
        arena: &mut Arena,
        range: Range,
    ) -> Result<IndexMap<u32, RelValue>, AllocError>
        requires { IsMemory arena.old self.now }
        ensures first { IfOk result (λ found. AreFirst arena.new self.now found.entries) }
        ensures each { IfOk result (λ found. (at : ℕ) → IsAccessible self.now at → IsWithin range at → IsSome (value_at found.entries at)) }
        ensures few { IfOk result (λ found. length found.entries ≤ length self.now.image) }
        ensures extends { Extends arena.old arena.new (length self.now.image) }
        ensures no_input { AddsNoInput arena.old arena.new }
    {
        let _size = self.image.size();
        let spans = self.image.ranges();
        let mut found = IndexMap::new(self.alloc);
        for i in 0..spans.len() {
            let span = spans[i];
            self.note_span(arena, range, span, &mut found)?;
        }
        Ok(found)
    }

    // Notes the addresses of a span that are in a range.
    fn note_span(
        &self,
        arena: &mut Arena,
        range: Range,
        span: Span,
        found: &mut IndexMap<u32, RelValue>,
    ) -> Result<(), AllocError>
        requires memory { IsMemory arena.old self.now }
        requires first { AreFirst arena.old self.now found.old.entries }
        ensures first { OnOk result (AreFirst arena.new self.now found.new.entries) }
        ensures each { OnOk result ((at : ℕ) → at < 2 ^ 32 → IsTrue (in_span at span) → IsWithin range at → IsSome (value_at found.new.entries at)) }
        ensures stays { OnOk result ((at : ℕ) → IsSome (value_at found.old.entries at) → IsSome (value_at found.new.entries at)) }
        ensures few { OnOk result (length found.new.entries ≤ length found.old.entries + span.length) }
        ensures extends { Extends arena.old arena.new span.length }
        ensures no_input { AddsNoInput arena.old arena.new }
    {
        let (first, end) = offsets(range, span);
        for offset in first..end {
            let at = span.address.wrapping_add(offset);
            self.note(arena, range, at, found)?;
        }
        Ok(())
    }

    // Notes an address if it is in a range.
    fn note(
        &self,
        arena: &mut Arena,
        range: Range,
        at: u32,
        found: &mut IndexMap<u32, RelValue>,
    ) -> Result<(), AllocError>
        requires memory { IsMemory arena.old self.now }
        requires first { AreFirst arena.old self.now found.old.entries }
        ensures first { OnOk result (AreFirst arena.new self.now found.new.entries) }
        ensures this { OnOk result (IsWithin range at → IsSome (value_at found.new.entries at)) }
        ensures stays { OnOk result ((other : ℕ) → IsSome (value_at found.old.entries other) → IsSome (value_at found.new.entries other)) }
        ensures few { OnOk result (length found.new.entries ≤ length found.old.entries + 1) }
        ensures extends { Extends arena.old arena.new 1 }
        ensures no_input { AddsNoInput arena.old arena.new }
    {
        if may_be(range, at) {
            let held = self.first(arena, at)?;
            found.insert(at, held)?;
        }
        Ok(())
    }

    /// Writes a byte in both runs.
    pub fn write_byte(
        &mut self,
        arena: &Arena,
        address: ExprId,
        value: RelValue,
    ) -> Result<(), AllocError>
        requires memory { IsMemory arena.now self.old }
        requires address { HasWidth arena.now address.0 32 }
        requires value { HasSides arena.now 8 value }
        ensures meaning { OnOk result ((right : Bool) (env v : ℕ → ℕ) → IsValuation env v arena.now → (at : ℕ) → byte_in right v self.new at ≡ (if at == v address.0 then v (side_id right value) else byte_in right v self.old at)) }
        ensures memory { OnOk result (IsMemory arena.now self.new) }
        ensures image { OnOk result (self.new.image ≡ self.old.image) }
        ensures number { OnOk result ((a : ℕ) → constant_in arena.now address.0 ≡ Some a → IsPut self.old a (record { held = value; before = length self.old.computed }) self.new) }
        ensures numbers { OnOk result ((a : ℕ) → constant_in arena.now address.0 ≡ Some a → HasNumbersOnly self.old → HasNumbersOnly self.new) }
        ensures later { OnOk result (self.new.later ≤ self.old.later + 1) }
        ensures unchanged { OnErr result (self.new ≡ self.old) }
    {
        if let QNode::Constant { value: at, .. } = arena.node(address) {
            self.put(at, value)?;
        } else {
            self.write(Written {
                address,
                held: value,
            })?;
        }
        Ok(())
    }
}
