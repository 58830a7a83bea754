//! Which facts suffice, and that right answers give them. Each law is the contract of a function that does nothing.

ghost use Rattle.std.specs.Prelude.{◌≡◌, ◌<◌, ◌-◌, ℕ, suc, Bool, true, List, length, slice_get, slice_index, Option, Some, All};
ghost use Rattle.mat_sets.specs.{Graphs.{ends_of, Reaches}, Sets.{IsSet}, Weights.{◌≼◌, weight, weight_at, zero_weight}, declared.weight.Weight.{Weight}};
ghost use Rattle.mat_fronts.specs.Rainbow.{IsRainbowTree};
ghost use Rattle.mat_problem.specs.{Instances.{Instance, coloured, rooted}, Validity.{IsValid}};
ghost use Rattle.mat_cert.specs.{
  Certificates.{Certificate, arbor, rainbow},
  declared.answer.PlainRung.{PlainRung},
  declared.answer.PricedRung.{PricedRung},
};
ghost use Rattle.mat_check.specs.Optimal.{IsOptimal};
ghost use Rattle.mat_right.specs.Right.{IsRight};
ghost use Rattle.mat_facts.specs.{
  Answers.{rungs_of},
  Facts.{Fact},
  Holding.{Holds},
  Problems.{AllAllow, weights_of},
  Reasons.{reason_of, told_sizes},
  Sufficing.{BoundsEachSize, BoundsSize, ShowsCheapestReach, ShowsNoHeavier, ShowsNoLarger, ShowsNoRainbowTree, Suffice},
};

/// No set of k elements that all rules allow weighs more than facts on shares and terms say (Frank 1981). No law of matroids is used but that
/// rules allow sets of elements alone.
pub fn facts_bound_a_size()
    ensures { (problem : Instance) (answer : Certificate) (facts : List Fact) → IsValid problem → All (Holds problem answer) facts
        → (k : ℕ) (most : Weight) → ShowsNoHeavier problem facts k most
        → (X : List ℕ) → AllAllow problem X → length X ≡ k → weight (weights_of problem) X ≼ most }
{}

/// No set that all rules allow has m elements or more if there are fewer elements; if each element is in one of some sets, one for each rule, of
/// which the rules together allow fewer (Edmonds); or if the one rule allows a set of fewer elements to which none can be added.
pub fn facts_exclude_larger_sets()
    ensures { (problem : Instance) (answer : Certificate) (facts : List Fact) → IsValid problem → All (Holds problem answer) facts
        → (m : ℕ) → ShowsNoLarger problem facts m → (X : List ℕ) → AllAllow problem X → length X < m }
{}

/// No set of any size that all rules allow weighs more, by facts on three sizes: fewer elements take the first steps, of which none is below 0,
/// and more elements add steps of at most 0. That the greatest weights of all sizes are concave is not used.
pub fn facts_bound_all_weights()
    ensures { (problem : Instance) (answer : Certificate) (facts : List Fact) → IsValid problem → All (Holds problem answer) facts
        → (k : ℕ) (most : Weight) → BoundsEachSize problem facts k most
        → (X : List ℕ) → AllAllow problem X → weight (weights_of problem) X ≼ most }
{}

/// An answer is best if facts hold that suffice for its form: it has the heaviest sets of each size and the largest; the best parts; the most
/// bases, or the empty one alone; the fewest sets that cover, or there are none; such trees or arborescences, the cheapest one, or there are none.
pub fn facts_suffice()
    ensures { (problem : Instance) (answer : Certificate) (facts : List Fact) → IsValid problem → All (Holds problem answer) facts
        → Suffice problem answer facts → IsOptimal problem answer }
{}

/// There is no spanning tree of pairwise different colours if without the edges of some colours too many groups are left (Broersma and Li).
pub fn facts_exclude_rainbow_trees()
    ensures { (vertices colours : ℕ) (edges : List (ℕ × ℕ)) (colour_of : List ℕ) (w : List Weight) (answer : Certificate) (facts : List Fact)
        → IsValid (coloured vertices colours edges colour_of w) → All (Holds (coloured vertices colours edges colour_of w) answer) facts
        → ShowsNoRainbowTree facts
        → (X : List ℕ) → ¬ IsRainbowTree vertices (length edges) (ends_of edges) (slice_index colour_of) X }
{}

/// If no cost is below 0, arcs along which the root reaches every vertex cost at least what facts show each spanning arborescence to cost,
/// however many arcs they are. With costs below 0 more arcs may cost less.
pub fn facts_bound_reaching_sets()
    ensures { (vertices root : ℕ) (arcs : List (ℕ × ℕ)) (costs : List Weight) (answer : Certificate) (facts : List Fact)
        → IsValid (rooted vertices root arcs costs) → All (Holds (rooted vertices root arcs costs) answer) facts
        → (cost : Weight) → ShowsCheapestReach (rooted vertices root arcs costs) vertices facts cost
        → (Y : List ℕ) → IsSet (length arcs) Y → ((v : ℕ) → v < vertices → Reaches (ends_of arcs) Y root v) → cost ≼ weight costs Y }
{}

/// A right answer gives a reason: each of its facts holds, whatever sizes are told, and they suffice if each size is told of which the answer has a
/// set. Of an answer without a set of each size they always suffice.
pub fn right_answers_give_reasons()
    ensures hold { (told : ℕ → Bool) (problem : Instance) (answer : Certificate) → IsValid problem → IsRight problem answer
        → All (Holds problem answer) (reason_of told problem answer) }
    ensures suffice { (told : ℕ → Bool) (problem : Instance) (answer : Certificate) → IsValid problem → IsRight problem answer
        → ((k : ℕ) → k < length (rungs_of answer) → told k ≡ true) → Suffice problem answer (reason_of told problem answer) }
{}

/// Of a right answer with a set of each size, the facts that are told suffice: for each size that is told, that no set of it weighs more; if the
/// sizes beside the heaviest set are told too, that none of any size weighs more; and that none is larger. `told_sizes` tells these sizes. The
/// facts of a right arborescence suffice, if no cost is below 0, to show that no arcs along which the root reaches every vertex cost less. Those
/// of a right answer on coloured edges, if its last set is no spanning tree, show that no spanning tree has pairwise different colours.
pub fn told_reasons_suffice()
    ensures told { (heaviest last : ℕ) → (told_sizes heaviest last heaviest ≡ true) × (told_sizes heaviest last (heaviest - 1) ≡ true)
        × (told_sizes heaviest last (suc heaviest) ≡ true) × (told_sizes heaviest last last ≡ true) }
    ensures size { (told : ℕ → Bool) (problem : Instance) (answer : Certificate) → IsValid problem → IsRight problem answer
        → (k : ℕ) (rung : PlainRung) → slice_get (rungs_of answer) k ≡ Some rung → told k ≡ true
        → BoundsSize problem (reason_of told problem answer) k rung.weight }
    ensures best { (told : ℕ → Bool) (problem : Instance) (answer : Certificate) → IsValid problem → IsRight problem answer
        → (k : ℕ) (rung : PlainRung) → slice_get (rungs_of answer) k ≡ Some rung → told k ≡ true
        → told (k - 1) ≡ true → told (suc k) ≡ true
        → ((j : ℕ) (other : PlainRung) → slice_get (rungs_of answer) j ≡ Some other → other.weight ≼ rung.weight)
        → BoundsEachSize problem (reason_of told problem answer) k rung.weight }
    ensures largest { (told : ℕ → Bool) (problem : Instance) (answer : Certificate) → IsValid problem → IsRight problem answer
        → 0 < length (rungs_of answer) → ShowsNoLarger problem (reason_of told problem answer) (length (rungs_of answer)) }
    ensures reach { (told : ℕ → Bool) (vertices root : ℕ) (arcs : List (ℕ × ℕ)) (costs : List Weight)
        (n : ℕ) (cost : Weight) (tree : List ℕ) (first second : List Weight)
        → IsValid (rooted vertices root arcs costs) → IsRight (rooted vertices root arcs costs) (arbor n cost tree first second)
        → ((a : ℕ) → a < length costs → zero_weight ≼ weight_at costs a)
        → ShowsCheapestReach (rooted vertices root arcs costs) vertices
        (reason_of told (rooted vertices root arcs costs) (arbor n cost tree first second)) cost }
    ensures rainbow { (told : ℕ → Bool) (vertices colours : ℕ) (edges : List (ℕ × ℕ)) (colour_of : List ℕ) (w : List Weight)
        (n v c : ℕ) (rungs : List PricedRung) (cut : List ℕ) (missing : Option (List ℕ))
        → IsRight (coloured vertices colours edges colour_of w) (rainbow n v c rungs cut missing) → length rungs < vertices
        → ShowsNoRainbowTree (reason_of told (coloured vertices colours edges colour_of w) (rainbow n v c rungs cut missing)) }
{}
