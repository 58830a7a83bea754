//! Why a text is no description.

ghost use Rattle.std.specs.Prelude.{◌≡◌};
ghost use Rattle.mat_desc.specs.{Faults.{kind_of}, Kinds.{kind_number, kind_name}};

use mat_words::{FaultKind, NumberFault, ReadingFault, Refusal};

/// What is wrong with a line.
#[derive(Clone, Copy, Debug, PartialEq, Eq)]
pub enum DescKind {
    /// The line isn't well spaced: a byte outside `32..=126`, or a space that doesn't stand alone between two words.
    BadByte,
    /// The word after `matroids` is neither `1` nor `2`.
    Version,
    /// The first word isn't one of those that may stand here.
    UnknownWord,
    /// A word isn't the spelling of a number or a weight where one is needed.
    NumberSpelling,
    /// A number, or a number of a weight, is out of its range.
    NumberRange,
    /// A needed word is missing.
    TooFewWords,
    /// A word stands after the last needed one.
    TooManyWords,
    /// A set of a laminar family crosses an earlier set of it.
    Crossing,
    /// A member of a list, or a name where names are listed, stood in this list before, or in an earlier class of the same partition.
    Repeated,
    /// A matroid stands within too many others.
    TooDeep,
    /// A byte stands after the line `end`.
    TooManyLines,
    /// A line is needed, and no byte 10 is left.
    EndsEarly,
    /// A word where a listed name is needed isn't one.
    UnknownName,
    /// A word where names are listed has more than 32 bytes.
    NameSpelling,
}

impl DescKind {
    /// The number by which a note tells the kind.
    pub fn number(self) -> u32
        ensures { result ≡ kind_number self }
    {
        match self {
            DescKind::BadByte => 1,
            DescKind::Version => 2,
            DescKind::UnknownWord => 3,
            DescKind::NumberSpelling => 4,
            DescKind::NumberRange => 5,
            DescKind::TooFewWords => 6,
            DescKind::TooManyWords => 7,
            DescKind::Crossing => 8,
            DescKind::Repeated => 9,
            DescKind::TooDeep => 10,
            DescKind::TooManyLines => 11,
            DescKind::EndsEarly => 12,
            DescKind::UnknownName => 13,
            DescKind::NameSpelling => 14,
        }
    }

    /// The name by which a note tells the kind.
    pub fn name(self) -> &'static str
        ensures { result.now ≡ kind_name self }
    {
        match self {
            DescKind::BadByte => "BadByte",
            DescKind::Version => "Version",
            DescKind::UnknownWord => "UnknownWord",
            DescKind::NumberSpelling => "NumberSpelling",
            DescKind::NumberRange => "NumberRange",
            DescKind::TooFewWords => "TooFewWords",
            DescKind::TooManyWords => "TooManyWords",
            DescKind::Crossing => "Crossing",
            DescKind::Repeated => "Repeated",
            DescKind::TooDeep => "TooDeep",
            DescKind::TooManyLines => "TooManyLines",
            DescKind::EndsEarly => "EndsEarly",
            DescKind::UnknownName => "UnknownName",
            DescKind::NameSpelling => "NameSpelling",
        }
    }
}

/// The first fault of a text that spells no problem, or want of memory.
pub type DescRefusal = Refusal<DescKind>;

impl FaultKind for DescKind {
    ghost kind_of = { kind_of };

    fn of_fault(fault: ReadingFault) -> DescKind {
        match fault {
            ReadingFault::EndsEarly => DescKind::EndsEarly,
            ReadingFault::BadByte => DescKind::BadByte,
            ReadingFault::NoWord => DescKind::TooFewWords,
            ReadingFault::UnknownWord => DescKind::UnknownWord,
            ReadingFault::Number(NumberFault::Spelling) => DescKind::NumberSpelling,
            ReadingFault::Number(NumberFault::Range) => DescKind::NumberRange,
        }
    }
}
