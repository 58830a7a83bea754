//! The exchanges of an element at an independent set.

ghost use Rattle.std.specs.Prelude.{◌≡◌};
ghost use Rattle.mat_laws.specs.Exchanges.{circuit_members};

use mat_sets::ElemSet;

/// The exchanges of an element x at an independent set I (Schrijver, chapter 39). A member of I cannot be added and has none.
#[derive(Debug, Drop)]
pub struct Exchange {
    /// Whether x is outside I and I + x is independent.
    pub addable: bool,
    /// For x outside I the members y of I with I - y + x independent.
    pub with: ElemSet,
}

impl Exchange {
    /// For an element outside an independent set I the members of I that stand in its fundamental circuit (Oxley, section 1.2), and None where it
    /// can be added.
    pub fn circuit_members(self) -> Option<ElemSet>
        ensures { result ≡ circuit_members self }
    {
        if self.addable {
            return None;
        }
        Some(self.with)
    }
}
