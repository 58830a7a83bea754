//! What holds of every summary, as the contract of a function that does nothing.

ghost use Rattle.std.specs.Prelude.{◌≡◌, ◌≤◌, ℕ, List};
ghost use Rattle.mat_sets.specs.Limits.{most_elements};
ghost use Rattle.mat_gen.specs.declared.kind.SampleKind.{SampleKind};
ghost use Rattle.mat_summary.specs.Summaries.{IsSummary};

/// One kind, size and seed have one summary, whichever right answer it sums up. So the line doesn't depend on the number of workers.
pub fn summaries_agree()
    ensures { (kind : SampleKind) (size seed : ℕ) (text other : List ℕ) → size ≤ most_elements
        → IsSummary kind size seed text → IsSummary kind size seed other → text ≡ other }
{}
