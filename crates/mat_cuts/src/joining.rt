//! The path of joined vertex sets, as places of the vertices.
ghost use Rattle.std.specs.Prelude.{◌≡◌, ◌+◌, ◌<◌, ◌==◌, length, IfOk};
ghost use Rattle.mat_cuts.specs.{Limits.{never}, Listing.{IsJoined, IsPushed}, Raising.{at}};
ghost use Rattle.mat_sets.specs.Search.{those_below};

use mat_sets::ElemSet;
use std::alloc::{AllocError, Global};

/// The place of a vertex that was not seen.
pub(crate) const UNSEEN: u32 = 1_000_000;

/// The places of the vertices on the path.
#[derive(Debug, Drop)]
pub(crate) struct Path {
    /// The place of each vertex: 0 for those that the root reaches.
    pub(crate) place: Vec<u32>,
    /// The vertices that were not seen.
    pub(crate) fresh: ElemSet,
    /// The last place of the path, 0 where there is no path.
    pub(crate) last: u32,
}

/// Puts an unseen vertex at the end of the path.
pub(crate) fn push(path: &mut Path, t: u32)
    requires below { t < length path.old.place.items }
    requires few { path.old.last + 1 < never }
    ensures { IsPushed t path.old path.new }
{
    path.fresh.take_out(t);
    path.last += 1;
    path.place[t as usize] = path.last;
}

/// Joins the sets from place `to` on.
pub(crate) fn join(path: &mut Path, to: u32)
    ensures { IsJoined to path.old path.new }
{
    for v in 0..path.place.len() {
        let p = path.place[v];
        if to <= p && p <= path.last {
            path.place[v] = to;
        }
    }
    path.last = to;
}

/// The vertices at a place.
pub(crate) fn at_place(alloc: Global, place: &[u32], last: u32) -> Result<ElemSet, AllocError>
    requires { length place.now < never }
    ensures { IfOk result (λ s. s ≡ those_below (length place.now) (λ v. at place.now v == last)) }
{
    let mut part = ElemSet::new(alloc);
    for v in 0..place.len() {
        if place[v] == last {
            part.add(v as u32)?;
        }
    }
    Ok(part)
}
