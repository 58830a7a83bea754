//! What holds of every text, and of every text that is written.

ghost use Rattle.std.specs.Prelude.{◌≡◌, ◌↔◌, ◌⊎◌, ℕ, List, Ok, Err};
ghost use Rattle.mat_problem.specs.{Validity.{IsValid}, Instances.{Instance}};
ghost use Rattle.mat_desc.specs.{
  Canonical.{canonical_text, named_text},
  Faults.{Fault},
  Grammar.{Spells, SpellsNamed},
  Notations.{NamedInstance, IsNotationFor, names},
  Reading.{read_of, named_of},
};

/// The reading of a text gives exactly the problem that the text spells. So a text spells at most one problem, and it spells one or has
/// exactly one first fault, and never both.
pub fn reading_laws()
    ensures exact { (text : List ℕ) (instance : Instance) → (read_of text ≡ Ok instance) ↔ Spells text instance }
    ensures one_problem { (text : List ℕ) (first second : Instance) → Spells text first → Spells text second → first ≡ second }
    ensures either { (text : List ℕ) → ((instance : Instance) × Spells text instance) ⊎ ((fault : Fault) × (read_of text ≡ Err fault)) }
    ensures never_both { (text : List ℕ) (instance : Instance) (fault : Fault) → Spells text instance → read_of text ≡ Err fault → ⊥ }
    ensures one_fault { (text : List ℕ) (first second : Fault) → read_of text ≡ Err first → read_of text ≡ Err second → first ≡ second }
    // With the names of elements and vertices the same holds, and the faults are the same.
    ensures named { (text : List ℕ) (problem : NamedInstance) → (named_of text ≡ Ok problem) ↔ SpellsNamed text problem }
    ensures same_fault { (text : List ℕ) (fault : Fault) → (named_of text ≡ Err fault) ↔ (read_of text ≡ Err fault) }
{}

/// The canonical text of a problem in range spells that problem. So two texts that spell problems spell the same one exactly where the
/// canonical texts of their problems are equal.
pub fn writing_laws()
    ensures spelled { (instance : Instance) → IsValid instance → Spells (canonical_text instance) instance }
    ensures equal { (s t : List ℕ) (p q : Instance) → Spells s p → Spells t q → (p ≡ q) ↔ (canonical_text p ≡ canonical_text q) }
    // With a name for each element and each vertex it spells the problem with these names.
    ensures named { (problem : NamedInstance) → IsValid problem.instance → IsNotationFor problem.instance (names problem.elements problem.vertices)
        → SpellsNamed (named_text problem) problem }
{}
