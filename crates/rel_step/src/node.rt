//! A control path in two runs at once.

ghost use Rattle.std.specs.Prelude.{◌≡◌, ◌↔◌, ℕ, ◌+◌, ◌*◌, ◌≤◌, ◌++◌, ◌∷◌, [], None, true, length, IfOk, IfSome, IsSome, OnErr, IsTrue};
ghost use Rattle.ct_words.specs.Words.{flag};
ghost use Rattle.bv_expr.specs.Nodes.{AreBytes, IsValuation, HasWidth};
ghost use Rattle.bv_expr.specs.Typing.{HasOperands};
ghost use Rattle.bv_expr.specs.Folding.{constant_in};
ghost use Rattle.query_ask.specs.Questions.{meets};
ghost use Rattle.ct_pairs.specs.declared.job.Job.{Job as TheJob};
ghost use Rattle.rel_step.specs.Building.{IsBuilt, AddsOnly, HasVariableBelow};
ghost use Rattle.rel_step.specs.Asking.{IsAsked};
ghost use Rattle.bv_expr.specs.Growth.{Extends, AddsNoInput};
ghost use Rattle.rel_step.specs.Runs.{Always, step_nodes};
ghost use Rattle.rel_step.specs.PathNodes.{IsNode, IsAhead, KeepsPath, CanGo};
ghost use Rattle.rel_step.specs.declared.simplifying.TheConstants.{MOST_PASSES};

use crate::asking::{claim_of, claims};
use crate::building::build;
use crate::following::{go_to, put, with_conjuncts};
use crate::here::Here;
use crate::instruction::instruction_at;
use crate::keeping::find_step;
use crate::last::{Last, hold_last};
use crate::root::started;
use crate::settling::settled;
use crate::stride::Ahead;
use bv_expr::{Arena, ExprId, QNode};
use bv_passes::Kit;
use bv_range::Ranges;
use ct_pairs::Job;
use query_ask::{Question, question_of};
use std::alloc::{AllocError, Global};
use std::marker::Model;

/// A control path of a job, in two runs at once: where both runs are after it, and what is true of the input bytes
/// exactly where a pair follows it.
#[derive(Drop)]
pub struct Node {
    alloc: Global,
    arena: Arena,
    ranges: Ranges,
    here: Here,
    path: Vec<u32>,
    conjuncts: Vec<ExprId>,
    last: Option<Last>,
}

impl Model for Node {
    ghost use Rattle.bv_range.specs.Remembered.{AreRight};
    ghost use Rattle.rel_step.specs.PathNodes.{PathNode};

    ghost Value = { PathNode };

    ghost view = { λ node. record { nodes = node.arena; here = node.here; path = node.path.items; conjuncts = node.conjuncts.items; last = node.last } };

    ghost invariant = { λ node. AreRight node.arena node.ranges };
}

impl Node {
    /// The node of the control path with no step. Takes time and memory in proportion to the registers, the image
    /// and the input bytes.
    pub fn root(alloc: Global, job: &Job) -> Result<Node, AllocError>
        ensures node { IfOk result (IsNode job.now) }
        ensures path { IfOk result (λ node. node.path ≡ []) }
        ensures nothing { IfOk result (λ node. node.last ≡ None) }
    {
        let mut arena = Arena::new(alloc)?;
        let ranges = Ranges::new(alloc)?;
        let here = started(alloc, &mut arena, job)?;
        Ok(Node {
            alloc,
            arena,
            ranges,
            here,
            path: Vec::new(alloc),
            conjuncts: Vec::new(alloc),
            last: None,
        })
    }

    /// The expressions of the node.
    pub fn arena(&self) -> &Arena
        ensures { result.now ≡ self.now.nodes }
    {
        &self.arena
    }

    /// What comes after the control path. A step is kept until it is followed.
    pub fn ahead(&mut self, job: &Job, kit: &mut Kit) -> Result<Ahead, AllocError>
        requires node { IsNode job.now self.old }
        requires few { length kit.old.items ≤ MOST_PASSES }
        ensures ahead { IfOk result (IsAhead job.now self.new) }
        ensures node { IsNode job.now self.new }
        ensures keeps { KeepsPath self.old self.new }
        ensures extends { Extends self.old.nodes self.new.nodes (step_nodes self.old.here + 1) }
        ensures no_input { AddsNoInput self.old.nodes self.new.nodes }
        ensures nothing { OnErr result (self.new.last ≡ None) }
        ensures passes { length kit.new.items ≡ length kit.old.items }
    {
        hold_last(&mut self.last, None);
        let length = self.path.len();
        let bound = job.bound as usize;
        if length == bound {
            return Ok(Ahead::Bound);
        }
        match instruction_at(job, self.here.pc) {
            Err(end) => Ok(Ahead::Ended(end)),
            Ok(instr) => {
                let step = find_step(
                    self.alloc,
                    kit,
                    &mut self.arena,
                    &mut self.ranges,
                    &self.here,
                    instr,
                )?;
                let (stride, last) = step;
                hold_last(&mut self.last, Some(last));
                Ok(Ahead::Step(stride))
            }
        }
    }

    /// The node of the control path with one more next. After want of memory the node is gone.
    pub fn follow(self, job: &Job, next: u32) -> Result<Node, AllocError>
        requires node { IsNode job.now self }
        requires can { CanGo self next }
        ensures node { IfOk result (IsNode job.now) }
        ensures path { IfOk result (λ later. later.path ≡ self.path ++ next ∷ []) }
        ensures extends { IfOk result (λ later. Extends self.nodes later.nodes 2) }
        ensures no_input { IfOk result (λ later. AddsNoInput self.nodes later.nodes) }
        ensures nothing { IfOk result (λ later. later.last ≡ None) }
    {
        let _job = job;
        let Node {
            alloc,
            mut arena,
            ranges,
            mut here,
            mut path,
            conjuncts,
            last,
        } = self;
        let Some(last) = last else { unreachable!() };
        let when = go_to(&mut arena, &last, next)?;
        put(&mut here, &arena, &last.moved)?;
        here.pc = next;
        path.push(next)?;
        let conjuncts = with_conjuncts(conjuncts, last.equal, when)?;
        Ok(Node {
            alloc,
            arena,
            ranges,
            here,
            path,
            conjuncts,
            last: None,
        })
    }

    /// The question whether bytes of the variables give runs along the control path, which show the same next where
    /// that is claimed, and make the asked expression true.
    pub fn question(
        &self,
        alloc: Global,
        job: &Job,
        asked: ExprId,
        equal: bool,
    ) -> Result<Question, AllocError>
        requires node { IsNode job.now self.now }
        requires bit { HasWidth self.now.nodes asked.0 1 }
        requires step { IsTrue equal → IsSome self.now.last }
        ensures vars { IfOk result (λ q. q.vars ≡ 2 * length job.now.inputs) }
        ensures meaning { IfOk result (λ q. (env v : ℕ → ℕ) → AreBytes env → IsValuation env v self.now.nodes → (meets env q ≡ true) ↔ IsAsked job.now self.now equal env v asked.0) }
    {
        self.arena.law();
        let vars = 2 * job.inputs.len();
        let claim = claim_of(&self.last, equal);
        let conjuncts = claims(alloc, self.conjuncts.as_slice(), claim)?;
        let question = question_of(alloc, &self.arena, vars, conjuncts.as_slice(), asked)?;
        Ok(question)
    }

    /// Adds one node, whose operands are expressions of the node and have the widths that its kind asks for.
    pub fn build(&mut self, what: QNode) -> Result<ExprId, AllocError>
        requires { HasOperands self.old.nodes what }
        ensures built { IfOk result (λ id. IsBuilt self.new.nodes id.0 what) }
        ensures extends { Extends self.old.nodes self.new.nodes 1 }
        ensures inputs { AddsOnly self.old.nodes self.new.nodes what }
        ensures keeps { KeepsPath self.old self.new }
        ensures last { self.new.last ≡ self.old.last }
        ensures node { (job : TheJob) → IsNode job self.old → HasVariableBelow (2 * length job.inputs) what → IsNode job self.new }
    {
        let id = build(&mut self.arena, what)?;
        Ok(id)
    }

    /// The bit that an expression is under every valuation, where that is found without a search: always where it is
    /// a constant.
    pub fn settled(&mut self, asked: ExprId) -> Result<Option<bool>, AllocError>
        requires { HasWidth self.old.nodes asked.0 1 }
        ensures right { IfOk result (λ known. IfSome known (λ bit. Always self.old.nodes (λ v. v asked.0 ≡ flag bit))) }
        ensures constant { IfOk result (λ known. IsSome (constant_in self.old.nodes asked.0) → IsSome known) }
        ensures unchanged { self.new ≡ self.old }
    {
        let known = settled(&self.arena, &mut self.ranges, asked)?;
        Ok(known)
    }
}
