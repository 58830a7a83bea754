//! Classes by the labels of the elements.
ghost use Rattle.std.specs.Prelude.{◌≡◌, ◌<◌, ◌^◌, length, slice_index, IfOk};
ghost use Rattle.mat_count.specs.Labels.{classes_by, labelled};

use mat_sets::{ElemSet, SetList};
use std::alloc::{AllocError, Global};

// The elements with this label.
fn elements_with(alloc: Global, labels: &[u32], label: u32) -> Result<ElemSet, AllocError>
    requires few { length labels.now < 2 ^ 32 }
    ensures members { IfOk result (λ s. s ≡ labelled (length labels.now) (slice_index labels.now) label) }
{
    let mut set = ElemSet::new(alloc);
    for e in 0..labels.len() {
        if labels[e] == label {
            set.add(e as u32)?;
        }
    }
    Ok(set)
}

/// For each label below their count, the elements that have it: element e has the e-th label. The time is the product of the number of
/// elements and that of the labels. The only error is want of memory.
pub(crate) fn classes_by(alloc: Global, labels: &[u32], count: u32) -> Result<SetList, AllocError>
    requires few { length labels.now < 2 ^ 32 }
    ensures { IfOk result (λ classes. classes ≡ classes_by (length labels.now) count (slice_index labels.now)) }
{
    let mut classes = Vec::new(alloc);
    for label in 0..count {
        classes.push(elements_with(alloc, labels, label)?)?;
    }
    Ok(SetList::new(classes))
}
