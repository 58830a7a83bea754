//! The traits of the outside: a shelf of files that are read, and a sink that bytes are put to.

ghost use Rattle.std.specs.Prelude.{◌≡◌, ◌≤◌, ◌<◌, ℕ, List, Option, Some, length, take, OnOk, OnErr, IfOk, IfSome};
ghost use Rattle.mat_shelf.specs.{Faults.{Rose}, Reading.{Gave}, Writing.{Appended}};

/// A call failed, and the fault was counted.
#[derive(Clone, Copy, Debug, PartialEq, Eq)]
pub struct Failed;

/// Files by name, of which one is read at a time. In the contracts a name is the list of its bytes.
pub trait Shelf {
    /// What the file of this name holds: `None` where the contracts say nothing of it, as of real
    /// files.
    ghost held: { Self → List ℕ → Option (List ℕ) };

    /// What is left of the file that was opened last: `None` where nothing is open, or the
    /// contracts say nothing of it.
    ghost left: { Self → Option (List ℕ) };

    /// The file of this name may be read.
    ghost reading: { Self → List ℕ → Type 0 };

    /// How often a call for this name failed. It never falls, and stays at the last value of a
    /// `u64`: a count that stands there is said to rise at each failure.
    ghost faults: { Self → List ℕ → ℕ };

    /// Opens the file of this name at its start. `Failed` comes only where the count of this name
    /// rose.
    fn open(&mut self, name: &str) -> Result<(), Failed>
        ensures held { (other : List ℕ) → held self.new other ≡ held self.old other }
        ensures grows { (other : List ℕ) → faults self.old other ≤ faults self.new other }
        ensures reading { OnOk result (reading self.new name.now) }
        ensures left { OnOk result (IfSome (held self.old name.now) (λ bytes. left self.new ≡ Some bytes)) }
        ensures cause { OnErr result (Rose (faults self.old name.now) (faults self.new name.now)) };

    /// Puts the next bytes of the file that was opened last into the front of `into`, and gives
    /// their number. No bytes for a buffer with room come exactly at the end of the file. `Failed`
    /// comes only where the count of this name rose.
    fn read(&mut self, name: &str, into: &mut [u8]) -> Result<usize, Failed>
        requires { reading self.old name.now }
        ensures held { (other : List ℕ) → held self.new other ≡ held self.old other }
        ensures grows { (other : List ℕ) → faults self.old other ≤ faults self.new other }
        ensures reading { reading self.new name.now }
        ensures bound { IfOk result (λ c. c ≤ length into.new) }
        ensures bytes { IfOk result (λ c. IfSome (left self.old) (λ bytes. Gave bytes c into.new (left self.new))) }
        ensures cause { OnErr result (Rose (faults self.old name.now) (faults self.new name.now)) };
}

/// A sink, to which bytes are put.
pub trait Sink {
    /// What was put so far: `None` where the contracts say nothing of it, as of real streams.
    ghost written: { Self → Option (List ℕ) };

    /// How often a call failed. It never falls, and stays at the last value of a `u64`: a count
    /// that stands there is said to rise at each failure.
    ghost faults: { Self → ℕ };

    /// Appends a front of the piece and gives its length, which is not 0 where the piece is not
    /// empty. `Failed` comes only where the count rose, and changes nothing that is told.
    fn put(&mut self, piece: &[u8]) -> Result<usize, Failed>
        ensures grows { faults self.old ≤ faults self.new }
        ensures bound { IfOk result (λ c. c ≤ length piece.now) }
        ensures some { IfOk result (λ c. 0 < length piece.now → 0 < c) }
        ensures appended { IfOk result (λ c. Appended (written self.old) (take c piece.now) (written self.new)) }
        ensures unchanged { OnErr result (written self.new ≡ written self.old) }
        ensures cause { OnErr result (Rose (faults self.old) (faults self.new)) };
}
