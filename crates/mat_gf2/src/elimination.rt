//! Gaussian elimination over the field of two elements, on columns as words of bits.
ghost use Rattle.std.specs.Prelude.{◌≡◌, ◌≤◌, [], length, IfOk};
ghost use Rattle.mat_sets.specs.Sets.{AllBelow, IsRising};
ghost use Rattle.mat_laws.specs.GreedyRuns.{grown_along};
ghost use Rattle.mat_gf2.specs.{
  Columns.{column_of, is_gf2, is_linearly_independent},
  Eliminations.{reduced_by},
  TaggedColumns.{IsTaggedBasis, marked, reduced_tagged_by},
};

use mat_sets::{BitSet, ElemSet};
use std::alloc::{AllocError, Global};

// What is left of a column when it is reduced by each of the basis in turn.
fn reduce(basis: &[u128], column: u128) -> u128
    ensures { result ≡ reduced_by basis.now column }
{
    let mut left = column;
    for row in basis {
        let sum = left ^ *row;
        if sum < left {
            left = sum;
        }
    }
    left
}

/// Whether the columns of the set are linearly independent, by one elimination from its last member to its first: an
/// exclusive-or for each member and each column of the basis, which are no more than a column has entries. The only
/// error is want of memory.
pub(crate) fn are_independent(
    alloc: Global,
    columns: &[u128],
    set: &ElemSet,
) -> Result<bool, AllocError>
    requires { AllBelow (length columns.now) set.now }
    ensures answer { IfOk result (λ b. b ≡ is_linearly_independent (column_of columns.now) set.now) }
    ensures rises { IfOk result (λ _. IsRising set.now) }
{
    let mut basis: Vec<u128> = Vec::new(alloc);
    for place in (0..set.len()).rev() {
        let left = reduce(&basis, columns[set.get(place) as usize]);
        if left == 0 {
            return Ok(false);
        }
        basis.push(left)?;
    }
    Ok(true)
}

/// The greedy run along an order, by one elimination that grows by a column: an element enters where something is left of
/// its column. An exclusive-or for each item of the order and each column of the basis, which are no more than a column has
/// entries. The only error is want of memory.
pub(crate) fn run_along(
    alloc: Global,
    columns: &[u128],
    order: &[u32],
) -> Result<ElemSet, AllocError>
    requires { AllBelow (length columns.now) order.now }
    ensures { IfOk result (λ set. set ≡ grown_along (is_gf2 (length columns.now) (column_of columns.now)) [] order.now) }
{
    let mut basis: Vec<u128> = Vec::new(alloc);
    let mut set = BitSet::new(alloc);
    for x in order {
        let left = reduce(&basis, columns[*x as usize]);
        if left != 0 {
            basis.push(left)?;
            set.insert(*x)?;
        }
    }
    ElemSet::from_bits(alloc, &set)
}

/// A column with a tag, whose bits are places of members of a set.
#[derive(Clone, Copy, Debug, Drop)]
pub(crate) struct TaggedColumn {
    pub(crate) column: u128,
    pub(crate) tag: u128,
}

/// What is left of a column when it is reduced by each of the basis in turn; the tags of those that are added to it are
/// added to its own.
pub(crate) fn reduce_tagged(basis: &[TaggedColumn], column: TaggedColumn) -> TaggedColumn
    ensures { result ≡ reduced_tagged_by basis.now column }
{
    let mut left = column;
    for row in basis {
        let sum = left.column ^ row.column;
        if sum < left.column {
            left = TaggedColumn {
                column: sum,
                tag: left.tag ^ row.tag,
            };
        }
    }
    left
}

/// A basis of the columns of a set, by one elimination from its last member to its first; each tag marks the members of
/// which its column is the sum. The only error is want of memory.
pub(crate) fn tagged_basis(
    alloc: Global,
    columns: &[u128],
    set: &ElemSet,
) -> Result<Vec<TaggedColumn>, AllocError>
    requires below { AllBelow (length columns.now) set.now }
    requires few { length set.now ≤ 128 }
    ensures basis { IfOk result (λ b. IsTaggedBasis (column_of columns.now) set.now set.now b.items) }
    ensures rises { IfOk result (λ _. IsRising set.now) }
{
    let mut basis: Vec<TaggedColumn> = Vec::new(alloc);
    for place in (0..set.len()).rev() {
        let column = TaggedColumn {
            column: columns[set.get(place) as usize],
            tag: 1 << place,
        };
        let left = reduce_tagged(&basis, column);
        basis.push(left)?;
    }
    Ok(basis)
}

/// The members of the set that the tag marks. The only error is want of memory.
pub(crate) fn marked_members(alloc: Global, set: &ElemSet, tag: u128) -> Result<ElemSet, AllocError>
    requires { length set.now ≤ 128 }
    ensures members { IfOk result (λ s. s ≡ marked tag set.now) }
    ensures rises { IfOk result (λ s. IsRising s) }
{
    let mut members = ElemSet::new(alloc);
    for place in 0..set.len() {
        if (tag >> place) & 1 == 1 {
            members.add(set.get(place))?;
        }
    }
    Ok(members)
}
