//! What elements and vertices are called.

ghost use Rattle.std.specs.Prelude.{◌≡◌, length, IfOk, string_len};
ghost use Rattle.mat_words.specs.NameLists.{names_of};
ghost use Rattle.mat_text.specs.Called.{IsCalled};

use mat_sets::ElemSet;
use mat_words::Names;
use std::alloc::{AllocError, Global};
use std::fmt;

/// What an element or a vertex is called: its name, or its number where it has none.
#[derive(Clone, Copy)]
pub enum Name<'a> {
    /// Its name.
    Listed(&'a [u8]),
    /// Its number.
    Number(usize),
}

impl fmt::Display for Name<'_> {
    fn fmt<W: fmt::Write>(&self, f: &mut fmt::Formatter<W>) -> fmt::Result {
        match self {
            Name::Listed(bytes) => {
                for b in *bytes {
                    f.write_char(char::from(*b))?;
                }
                Ok(())
            }
            Name::Number(number) => write!(f, "{number}"),
        }
    }
}

// What the number x is called.
fn name_in<'a>(names: &'a Names, x: usize) -> Name<'a>
    ensures { IsCalled (names_of names.now) x result }
{
    if x < names.len() {
        Name::Listed(names.get(x))
    } else {
        Name::Number(x)
    }
}

// The names of the members of a set, each behind a space. The clause says only that no members have no words.
fn words_in(alloc: Global, names: &Names, set: &[u32]) -> Result<String, AllocError>
    ensures { IfOk result (λ words. length set.now ≡ 0 → string_len words ≡ 0) }
{
    let mut words = String::new(alloc);
    for x in set {
        write!(words, " {}", name_in(names, *x as usize))?;
    }
    Ok(words)
}

/// What the elements and the vertices of a problem are called.
#[derive(Clone, Copy)]
pub struct Called<'a> {
    /// The names of the elements.
    pub elements: &'a Names,
    /// The names of the vertices.
    pub vertices: &'a Names,
}

impl<'a> Called<'a> {
    /// What an element is called.
    pub fn element(&self, e: usize) -> Name<'a>
        ensures { IsCalled (names_of self.now.elements.now) e result }
    {
        name_in(self.elements, e)
    }

    /// What a vertex is called.
    pub fn vertex(&self, v: usize) -> Name<'a>
        ensures { IsCalled (names_of self.now.vertices.now) v result }
    {
        name_in(self.vertices, v)
    }

    /// The names of the elements of a set, each behind a space. The clause says only that no elements have no words. The only error is want of
    /// memory.
    pub fn elements_of(&self, alloc: Global, set: &ElemSet) -> Result<String, AllocError>
        ensures { IfOk result (λ words. length set.now ≡ 0 → string_len words ≡ 0) }
    {
        words_in(alloc, self.elements, set.as_slice())
    }

    /// The names of the vertices of a set, each behind a space. The clause says only that no vertices have no words. The only error is want of
    /// memory.
    pub fn vertices_of(&self, alloc: Global, set: &ElemSet) -> Result<String, AllocError>
        ensures { IfOk result (λ words. length set.now ≡ 0 → string_len words ≡ 0) }
    {
        words_in(alloc, self.vertices, set.as_slice())
    }
}

/// The numbers of a set, each behind a space. The clause says only that no numbers have no words. The only error is want of memory.
pub fn numbers_of(alloc: Global, set: &ElemSet) -> Result<String, AllocError>
    ensures { IfOk result (λ words. length set.now ≡ 0 → string_len words ≡ 0) }
{
    let mut words = String::new(alloc);
    for x in set.as_slice() {
        write!(words, " {x}")?;
    }
    Ok(words)
}
