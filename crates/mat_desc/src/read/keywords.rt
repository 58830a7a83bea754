//! The words that begin the line of a form or of a matroid.

ghost use Rattle.std.specs.Prelude.{◌≡◌};
ghost use Rattle.mat_desc.specs.Reading.{keyword_of, form_of, version_of};

/// The version of a description.
#[derive(Clone, Copy)]
pub(crate) enum Version {
    /// Elements and vertices are numbers: `1`.
    One,
    /// Elements and vertices have names: `2`.
    Two,
}

/// The form of a problem.
#[derive(Clone, Copy)]
pub(crate) enum Form {
    /// Two weighted matroids: `pair`.
    Pair,
    /// A list of weighted matroids: `list`.
    List,
    /// A graph: `graph`.
    Graph,
    /// A directed graph with a root: `rooted`.
    Rooted,
    /// A graph with coloured edges: `coloured`.
    Coloured,
    /// A table: `table`.
    Table,
}

/// The kind of a matroid.
#[derive(Clone, Copy)]
pub(crate) enum Keyword {
    /// `uniform`: sets of at most so many elements.
    Uniform,
    /// `partition`: sets of at most so many elements of each class.
    Partition,
    /// `laminar`: sets of at most so many elements of each set of a family, no two of which cross.
    Laminar,
    /// `graphic`: forests of a graph.
    Graphic,
    /// `transversal`: sets that can be matched into a family.
    Transversal,
    /// `gammoid`: sets that disjoint paths link to sources.
    Gammoid,
    /// `gf2`: independent columns over the field of two elements.
    Gf2,
    /// `dual`: the dual of a matroid.
    Dual,
    /// `truncate`: a matroid, with its sets cut off at a size.
    Truncate,
    /// `restrict`: a matroid within a set of its elements.
    Restrict,
    /// `contract`: a matroid with a set of its elements contracted.
    Contract,
    /// `union`: sets that are made up of an independent set of each of some matroids.
    Union,
}

/// The version that a word names.
pub(crate) fn version_from(word: &[u8]) -> Option<Version>
    ensures { result ≡ version_of word.now }
{
    if word == b"1".as_slice() {
        Some(Version::One)
    } else if word == b"2".as_slice() {
        Some(Version::Two)
    } else {
        None
    }
}

/// The form that a word names.
pub(crate) fn form_from(word: &[u8]) -> Option<Form>
    ensures { result ≡ form_of word.now }
{
    if word == b"pair".as_slice() {
        Some(Form::Pair)
    } else if word == b"list".as_slice() {
        Some(Form::List)
    } else if word == b"graph".as_slice() {
        Some(Form::Graph)
    } else if word == b"rooted".as_slice() {
        Some(Form::Rooted)
    } else if word == b"coloured".as_slice() {
        Some(Form::Coloured)
    } else if word == b"table".as_slice() {
        Some(Form::Table)
    } else {
        None
    }
}

/// The kind that a word names.
pub(crate) fn keyword_from(word: &[u8]) -> Option<Keyword>
    ensures { result ≡ keyword_of word.now }
{
    if word == b"uniform".as_slice() {
        Some(Keyword::Uniform)
    } else if word == b"partition".as_slice() {
        Some(Keyword::Partition)
    } else if word == b"laminar".as_slice() {
        Some(Keyword::Laminar)
    } else if word == b"graphic".as_slice() {
        Some(Keyword::Graphic)
    } else if word == b"transversal".as_slice() {
        Some(Keyword::Transversal)
    } else if word == b"gammoid".as_slice() {
        Some(Keyword::Gammoid)
    } else if word == b"gf2".as_slice() {
        Some(Keyword::Gf2)
    } else if word == b"dual".as_slice() {
        Some(Keyword::Dual)
    } else if word == b"truncate".as_slice() {
        Some(Keyword::Truncate)
    } else if word == b"restrict".as_slice() {
        Some(Keyword::Restrict)
    } else if word == b"contract".as_slice() {
        Some(Keyword::Contract)
    } else if word == b"union".as_slice() {
        Some(Keyword::Union)
    } else {
        None
    }
}
