//! What a search for moves has found at its end.
ghost use Rattle.std.specs.Prelude.{◌≡◌, ◌<◌, ◌^◌, ℕ, List, Bool, length, IfOk};
ghost use Rattle.mat_sets.specs.{Families.{family_union}, Sets.{all_below, IsRising}};
ghost use Rattle.mat_laws.specs.Exchanges.{row_of};
ghost use Rattle.mat_union.specs.{EndedSearches.{IsEnded, IsReady}, Placings.{IsPlaceSearch}, Unions.{union_test}};

use crate::move_graph::insert_all;
use crate::move_search::MoveSearch;
use crate::moves::Move;
use mat_laws::Exchange;
use mat_sets::{BitSet, ElemSet, SetList};
use std::alloc::{AllocError, Global};

/// What a search for moves that bring an element into the parts ends with.
#[derive(Debug, Drop)]
pub enum PlaceSearch {
    /// Moves after which the parts hold the element too.
    Placed(Vec<Move>),
    /// A search from the element that found no moves.
    Stuck(MoveSearch),
}

/// The moves that the search found, after which the parts hold its first element too; else the search itself. The only error is want of
/// memory.
pub fn found_place(
    alloc: Global,
    parts: &SetList,
    search: MoveSearch,
) -> Result<PlaceSearch, AllocError>
    requires ready { IsReady search }
    requires parts { length parts.now < 2 ^ 32 }
    ensures { IfOk result (λ found. (n : ℕ) (tests : List (List ℕ → Bool)) (among : List ℕ) (x : ℕ)
        → IsEnded n tests parts.now among x search → IsPlaceSearch n tests parts.now among x found) }
{
    match search.moves(alloc, parts.as_slice())? {
        Some(moves) => Ok(PlaceSearch::Placed(moves)),
        None => Ok(PlaceSearch::Stuck(search)),
    }
}

/// The exchanges, at a set and in the union, of the first element of a search among parts of the set that may reach all elements: after
/// moves it can be added and takes any place, else it takes the places that were reached (Schrijver, chapter 42). The only error is want of
/// memory.
pub fn row_by_search(
    alloc: Global,
    set: &ElemSet,
    search: &MoveSearch,
) -> Result<Exchange, AllocError>
    ensures row { IfOk result (λ e. (n : ℕ) (tests : List (List ℕ → Bool)) (parts : List (List ℕ)) (x : ℕ) → family_union parts ≡ set.now
        → IsEnded n tests parts (all_below n) x search.now → e ≡ row_of (union_test n tests) set.now x) }
    ensures rises { IfOk result (λ e. IsRising e.with) }
{
    if search.entered {
        return Ok(Exchange {
            addable: true,
            with: set.copy(alloc)?,
        });
    }
    let mut reached = BitSet::new(alloc);
    insert_all(&mut reached, search.reached())?;
    Ok(Exchange {
        addable: false,
        with: set.among(alloc, &reached)?,
    })
}
