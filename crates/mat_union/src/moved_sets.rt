//! Parts after moves, and the moves that bring an element into them.
ghost use Rattle.std.specs.Prelude.{◌≡◌, ◌<◌, ◌||◌, ◌∷◌, ℕ, List, [], Bool, true, false, length, IfOk};
ghost use Rattle.mat_sets.specs.{Families.{family_union}, Sets.{is_member, minus, union, IsRising}};
ghost use Rattle.mat_union.specs.{Moves.{all_moved, elements, entering, exchanges_with, is_entered_or_left}, Placings.{ArePlaced}, Unions.{AreMatroids, AreParts}};

use crate::moves::Move;
use mat_sets::ElemSet;
use std::alloc::{AllocError, Global};

/// The part without the elements of these moves.
fn without_moved(alloc: Global, part: &ElemSet, moves: &[Move]) -> Result<ElemSet, AllocError>
    ensures set { IfOk result (λ s. s ≡ minus part.now (elements moves.now)) }
    ensures rises { IfOk result (λ s. IsRising s) }
{
    let mut set = part.copy(alloc)?;
    for i in 0..moves.len() {
        set.take_out(moves[i].element);
    }
    Ok(set)
}

/// Part q after all moves: it loses the elements that move, and gains those that move into it. The only error is want of memory.
pub fn moved_part(
    alloc: Global,
    part: &ElemSet,
    moves: &[Move],
    q: u32,
) -> Result<ElemSet, AllocError>
    ensures set { IfOk result (λ s. s ≡ union (entering moves.now q) (minus part.now (elements moves.now))) }
    ensures rises { IfOk result (λ s. IsRising s) }
{
    let mut set = without_moved(alloc, part, moves)?;
    for i in 0..moves.len() {
        set.add_if(moves[i].element, moves[i].part == q)?;
    }
    Ok(set)
}

/// Whether a move of this element changes the part: it leads into the part, as `enters` says, or takes a member away.
fn is_changed_by(part: &ElemSet, element: u32, enters: bool) -> bool
    ensures { result ≡ (enters || is_member element part.now) }
{
    enters || part.contains(element)
}

/// Whether one of these moves leads into part q or takes an element of it away: if not, it is the same part after all of them.
pub fn is_entered_or_left(part: &ElemSet, moves: &[Move], q: u32) -> bool
    ensures { result ≡ is_entered_or_left moves.now q part.now }
{
    for i in 0..moves.len() {
        if is_changed_by(part, moves[i].element, moves[i].part == q) {
            return true;
        }
    }
    false
}

/// The one move of an element into a part to which it can be added. The only error is want of memory.
pub fn move_into(alloc: Global, x: u32, q: u32) -> Result<Vec<Move>, AllocError>
    ensures one { IfOk result (λ moves. moves.items ≡ record { element = x; part = q } ∷ []) }
    ensures placed { IfOk result (λ moves. (n : ℕ) (tests : List (List ℕ → Bool)) (parts : List (List ℕ)) (among : List ℕ) → AreMatroids n tests
        → AreParts tests parts → is_member x (family_union parts) ≡ false → q < length parts → (exchanges_with tests parts q).adds x ≡ true
        → ArePlaced tests parts among x (all_moved parts moves.items)) }
{
    let mut moves = Vec::new(alloc);
    moves.push(Move {
        element: x,
        part: q,
    })?;
    Ok(moves)
}

/// The members of any of these sets. The only error is want of memory.
#[tactic(auto, using(mat_sets::proofs::Steps::set_steps))]
pub fn members_of(alloc: Global, sets: &[ElemSet]) -> Result<ElemSet, AllocError>
    ensures { IfOk result (λ s. s ≡ family_union sets.now) }
{
    let mut members = ElemSet::new(alloc);
    for set in sets {
        members = set.union(alloc, &members)?;
    }
    Ok(members)
}
