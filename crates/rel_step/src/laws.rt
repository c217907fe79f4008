//! Laws of pairs and nodes.

ghost use Rattle.std.specs.Prelude.{◌≡◌, ◌↔◌, ℕ, List, length, true, false};
ghost use Rattle.rv_machine.specs.Trail.{state_after};
ghost use Rattle.bv_expr.specs.Nodes.{AreBytes, IsValuation};
ghost use Rattle.ct_pairs.specs.declared.job.Job.{Job as TheJob};
ghost use Rattle.ct_pairs.specs.declared.pair.Pair.{Pair as ThePair};
ghost use Rattle.ct_pairs.specs.Pair.{IsPair, left_start, right_start};
ghost use Rattle.ct_pairs.specs.Paths.{Follows};
ghost use Rattle.rel_step.specs.Bridge.{side_start, env_of, pair_of, RunsAlong};
ghost use Rattle.rel_step.specs.Runs.{state_of};
ghost use Rattle.rel_step.specs.PathNodes.{PathNode, Meets, IsNode};

/// A pair and its bytes for the variables have the same starts, and so have bytes and their pair.
pub fn bridge_law()
    ensures bytes { (job : TheJob) (pair : ThePair) → IsPair job pair → AreBytes (env_of job pair) }
    ensures left { (job : TheJob) (pair : ThePair) → side_start false job (env_of job pair) ≡ left_start job pair }
    ensures right { (job : TheJob) (pair : ThePair) → side_start true job (env_of job pair) ≡ right_start job pair }
    ensures pair { (job : TheJob) (env : ℕ → ℕ) → AreBytes env → IsPair job (pair_of job env) }
    ensures left_back { (job : TheJob) (env : ℕ → ℕ) → side_start false job env ≡ left_start job (pair_of job env) }
    ensures right_back { (job : TheJob) (env : ℕ → ℕ) → side_start true job env ≡ right_start job (pair_of job env) }
    ensures follows { (job : TheJob) (env : ℕ → ℕ) (path : List ℕ) → AreBytes env → RunsAlong job env path ↔ Follows job (pair_of job env) path }
{}

/// A pair follows the control path of a node exactly where its bytes make the conjuncts true, and then the registers
/// and the bytes of memory are those of the two machines.
pub fn node_law()
    ensures exact { (job : TheJob) (node : PathNode) (pair : ThePair) (v : ℕ → ℕ) → IsNode job node → IsPair job pair → IsValuation (env_of job pair) v node.nodes → Meets v node.conjuncts ↔ Follows job pair node.path }
    ensures left { (job : TheJob) (node : PathNode) (pair : ThePair) (v : ℕ → ℕ) → IsNode job node → IsValuation (env_of job pair) v node.nodes → Follows job pair node.path → state_after job.image job.stops (left_start job pair) (length node.path) ≡ state_of false v node.here }
    ensures right { (job : TheJob) (node : PathNode) (pair : ThePair) (v : ℕ → ℕ) → IsNode job node → IsValuation (env_of job pair) v node.nodes → Follows job pair node.path → state_after job.image job.stops (right_start job pair) (length node.path) ≡ state_of true v node.here }
{}
