//! The problem that a file describes.

ghost use Rattle.std.specs.Prelude.{◌≡◌, ◌≤◌, ℕ, List, IfOk, IfErr, IfSome};
ghost use Rattle.mat_problem.specs.{Validity.{IsValid}, Views.{instance_of}};
ghost use Rattle.mat_desc.specs.{Notations.{IsNotationFor, names}, Views.{named_instance}};
ghost use Rattle.mat_words.specs.NameLists.{names_of};
ghost use Rattle.mat_judge.specs.declared.described.Undescribed.TheVariants as undescribed;
ghost use Rattle.mat_judge.specs.Described.{IsDescribed, IsNamed, IsUndescribed, undescribed_by};

use crate::reading::{Unread, read_all};
use mat_desc::{DescKind, DescRefusal, read_named, read_problem};
use mat_problem::{Named, Problem};
use mat_shelf::Shelf;
use std::alloc::Global;
use thiserror::Error;

// The most bytes that a description may have.
const DESCRIPTION_LIMIT: usize = 4_194_304;

/// Why a file describes no problem.
#[derive(Clone, Copy, Debug, Error)]
pub enum Undescribed {
    /// It was not read, or memory ran out.
    #[error("the description was not read: {0}")]
    Unread(Unread),
    /// Its first fault, and the number of its line.
    #[error("line {1} of the description: {0:?}")]
    Fault(DescKind, u32),
}

impl From<Unread> for Undescribed {
    ghost from_gives = { λ unread e. e ≡ undescribed.Unread unread };

    fn from(unread: Unread) -> Undescribed {
        Undescribed::Unread(unread)
    }
}

impl From<DescRefusal> for Undescribed {
    ghost from_gives = { λ refusal e. e ≡ undescribed_by refusal };

    fn from(refusal: DescRefusal) -> Undescribed {
        match refusal {
            DescRefusal::Fault { kind, line } => Undescribed::Fault(kind, line),
            DescRefusal::Memory => Undescribed::Unread(Unread::Memory),
        }
    }
}

/// The problem that the file of this name describes: `Fault` comes where its bytes, at most 4,194,304, describe none, and `Unread` where they were
/// not read or memory ran out.
pub fn problem_in<F: Shelf>(
    alloc: Global,
    files: &mut F,
    name: &str,
) -> Result<Problem, Undescribed>
    ensures held { (other : List ℕ) → F.held files.new other ≡ F.held files.old other }
    ensures grows { (other : List ℕ) → F.faults files.old other ≤ F.faults files.new other }
    ensures valid { IfOk result (λ p. IsValid (instance_of p)) }
    ensures described { IfOk result (λ p. IfSome (F.held files.old name.now) (λ bytes. IsDescribed bytes (instance_of p))) }
    ensures refusal { IfErr result (λ e. IsUndescribed (F.held files.old name.now)
        (F.faults files.old name.now) (F.faults files.new name.now) e) }
{
    let bytes = read_all(alloc, files, name, DESCRIPTION_LIMIT)?;
    Ok(read_problem(alloc, &bytes)?)
}

/// The problem that the file of this name describes, with the names of its elements and its vertices. Errors come as those of `problem_in`.
pub fn named_in<F: Shelf>(alloc: Global, files: &mut F, name: &str) -> Result<Named, Undescribed>
    ensures held { (other : List ℕ) → F.held files.new other ≡ F.held files.old other }
    ensures grows { (other : List ℕ) → F.faults files.old other ≤ F.faults files.new other }
    ensures valid { IfOk result (λ n. IsValid (instance_of n.problem)) }
    ensures notated { IfOk result (λ n. IsNotationFor (instance_of n.problem) (names (names_of n.elements) (names_of n.vertices))) }
    ensures named { IfOk result (λ n. IfSome (F.held files.old name.now) (λ bytes. IsNamed bytes (named_instance n))) }
    ensures refusal { IfErr result (λ e. IsUndescribed (F.held files.old name.now)
        (F.faults files.old name.now) (F.faults files.new name.now) e) }
{
    let bytes = read_all(alloc, files, name, DESCRIPTION_LIMIT)?;
    Ok(read_named(alloc, &bytes)?)
}
