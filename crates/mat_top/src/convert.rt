//! Descriptions with names.

ghost use Rattle.std.specs.Prelude.{◌≡◌, ◌≤◌, ℕ, List, IfOk, IfErr};
ghost use Rattle.mat_command.specs.CommandLines.{convert};
ghost use Rattle.mat_top.specs.Refusals.{MayBeWritten, IsRefusal};

use mat_desc::write_named;
use mat_judge::{Refusal, named_in};
use mat_shelf::Shelf;
use std::alloc::Global;

/// The description in the file of this name, in version 2, with the names of its elements and its vertices.
pub(crate) fn converted_text<F: Shelf>(
    alloc: Global,
    files: &mut F,
    name: &str,
) -> Result<Vec<u8>, Refusal>
    ensures held { (other : List ℕ) → F.held files.new other ≡ F.held files.old other }
    ensures grows { (other : List ℕ) → F.faults files.old other ≤ F.faults files.new other }
    ensures text { IfOk result (λ v. MayBeWritten (F.held files.old) (convert name.now) v.items) }
    ensures refusal { IfErr result (λ e. IsRefusal (F.held files.old) (convert name.now) (F.faults files.old) (F.faults files.new) e) }
{
    let named = named_in(alloc, files, name)?;
    let text = write_named(alloc, &named);
    drop(named);
    Ok(text?)
}
