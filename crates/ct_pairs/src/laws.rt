//! Laws of pairs and paths.
ghost use Rattle.std.specs.Prelude.{◌≡◌, ℕ};
ghost use Rattle.ct_pairs.specs.declared.job.Job.{Job as TheJob};
ghost use Rattle.ct_pairs.specs.declared.pair.Pair.{Pair as ThePair};
ghost use Rattle.ct_pairs.specs.Pair.{IsPair};
ghost use Rattle.ct_pairs.specs.Split.{SplitsAt};
ghost use Rattle.ct_pairs.specs.Covered.{AgreesOrSplits};
ghost use Rattle.ct_pairs.specs.Paths.{CountsPaths};

/// The path count is the number of control paths that some pair follows and at which it is finished.
pub fn path_count_law()
    ensures { (job : TheJob) → CountsPaths job }
{}

/// A pair agrees up to the bound or first splits, once, at records of one pc.
pub fn split_law()
    ensures either { (job : TheJob) (pair : ThePair) → IsPair job pair → AgreesOrSplits job pair }
    ensures one_pc { (job : TheJob) (pair : ThePair) (site step : ℕ) (split : SplitsAt job pair site step) →
        split.left.pc ≡ split.right.pc }
    ensures once { (job : TheJob) (pair : ThePair) (site step other later : ℕ) →
        SplitsAt job pair site step → SplitsAt job pair other later → (site ≡ other) × (step ≡ later) }
{}
