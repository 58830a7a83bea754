//! The canonical text of a problem.

ghost use Rattle.std.specs.Prelude.{◌≡◌, ◌++◌, ◌∷◌, ◌<◌, [], codes, length, IfOk, IfSome, OnOk};
ghost use Rattle.mat_words.specs.{Lines.{text_of}, NameLists.{names_of}, Writing.{weights_line}};
ghost use Rattle.mat_any.specs.Views.{tree_of};
ghost use Rattle.mat_problem.specs.{Validity.{IsValid, IsValidTree}, Views.{instance_of}};
ghost use Rattle.mat_desc.specs.{
  Grammar.{rooted_header, version_line, vertex_name_lines, name_lines, root_lines},
  Notations.{names, element_naming, vertex_naming, IsNotationFor},
  Canonical.{matroid_lines, header, body_lines, canonical_lines, canonical_text, named_text, MayBeWritten},
  Views.{naming, named_instance, written_notation},
};

use crate::write::lines::{
    put_coloured_edge_lines, put_ends_lines, put_member_word, put_names_line, put_weighted_lines,
};
use crate::write::matroids::{put_matroid, put_matroids};
use mat_any::AnyMatroid;
use mat_problem::{Named, Problem};
use mat_sets::Weight;
use mat_words::{Names, put_numbers_line, put_weights_line};
use std::alloc::{AllocError, Global};

/// The names that a text is written with.
#[derive(Clone, Copy)]
pub(crate) struct Lists<'a> {
    /// The name of each element.
    elements: &'a Names,
    /// The name of each vertex.
    vertices: &'a Names,
}

/// The names of the elements, where they have names.
fn element_names<'a>(lists: Option<Lists<'a>>) -> Option<&'a Names>
    ensures { naming result ≡ element_naming (written_notation lists.entry) }
{
    match lists {
        None => None,
        Some(lists) => Some(lists.elements),
    }
}

/// The names of the vertices, where they have names.
fn vertex_names<'a>(lists: Option<Lists<'a>>) -> Option<&'a Names>
    ensures { naming result ≡ vertex_naming (written_notation lists.entry) }
{
    match lists {
        None => None,
        Some(lists) => Some(lists.vertices),
    }
}

/// Appends the line of the version: 1 where elements and vertices are numbers, 2 where they have names.
fn put_version_line(out: &mut Vec<u8>, lists: Option<Lists<'_>>) -> Result<(), AllocError>
    ensures { OnOk result (out.new.items ≡ out.old.items ++ text_of (version_line (written_notation lists.entry) ∷ [])) }
{
    match lists {
        None => out.extend_from_slice(b"matroids 1\n"),
        Some(_) => out.extend_from_slice(b"matroids 2\n"),
    }
}

/// Appends the form line of a directed graph with a root. The root stands in this line only where vertices have no names.
fn put_rooted_header(
    out: &mut Vec<u8>,
    lists: Option<Lists<'_>>,
    vertices: u32,
    arcs: usize,
    root: u32,
) -> Result<(), AllocError>
    ensures { OnOk result (out.new.items ≡ out.old.items ++ text_of (rooted_header (written_notation lists.entry) vertices arcs root ∷ [])) }
{
    let (vertices, arcs) = (i128::from(vertices), arcs as i128);
    match lists {
        None => put_numbers_line(out, b"rooted", &[vertices, arcs, i128::from(root)]),
        Some(_) => put_numbers_line(out, b"rooted", &[vertices, arcs]),
    }
}

/// Appends the line of the form of a problem.
fn put_header(
    out: &mut Vec<u8>,
    lists: Option<Lists<'_>>,
    problem: &Problem,
) -> Result<(), AllocError>
    ensures { OnOk result (out.new.items ≡ out.old.items
        ++ text_of (header (written_notation lists.entry) (instance_of problem.now) ∷ [])) }
{
    match problem {
        Problem::Pair { weights, .. } => put_numbers_line(out, b"pair", &[weights.len() as i128]),
        Problem::List { weights, matroids } => put_numbers_line(
            out,
            b"list",
            &[weights.len() as i128, matroids.len() as i128],
        ),
        Problem::Graph { vertices, edges } => {
            put_numbers_line(out, b"graph", &[i128::from(*vertices), edges.len() as i128])
        }
        Problem::Rooted {
            vertices,
            root,
            arcs,
            ..
        } => put_rooted_header(out, lists, *vertices, arcs.len(), *root),
        Problem::Coloured {
            vertices,
            colours,
            edges,
            ..
        } => put_numbers_line(
            out,
            b"coloured",
            &[
                i128::from(*vertices),
                edges.len() as i128,
                i128::from(*colours),
            ],
        ),
        Problem::Table {
            rows,
            columns,
            cells,
            ..
        } => put_numbers_line(
            out,
            b"table",
            &[i128::from(*rows), i128::from(*columns), cells.len() as i128],
        ),
    }
}

/// Appends the line of the names of vertices, if there are any.
fn put_vertex_names(out: &mut Vec<u8>, vertices: &Names) -> Result<(), AllocError>
    ensures { OnOk result (out.new.items ≡ out.old.items ++ text_of (vertex_name_lines (names_of vertices.now))) }
{
    if vertices.len() == 0 {
        return Ok(());
    }
    put_names_line(out, b"vertices", vertices)
}

/// Appends the lines that list names.
fn put_name_lines(out: &mut Vec<u8>, lists: Option<Lists<'_>>) -> Result<(), AllocError>
    ensures { OnOk result (out.new.items ≡ out.old.items ++ text_of (name_lines (written_notation lists.entry))) }
{
    let Some(lists) = lists else {
        return Ok(());
    };
    put_names_line(out, b"elements", lists.elements)?;
    put_vertex_names(out, lists.vertices)
}

/// Appends the line of the root, where vertices have names.
fn put_root_line(out: &mut Vec<u8>, lists: Option<Lists<'_>>, root: u32) -> Result<(), AllocError>
    requires { IfSome (vertex_naming (written_notation lists)) (λ listed. root < length listed) }
    ensures { OnOk result (out.new.items ≡ out.old.items ++ text_of (root_lines (written_notation lists.entry) root)) }
{
    let Some(lists) = lists else {
        return Ok(());
    };
    out.extend_from_slice(b"root")?;
    put_member_word(out, Some(lists.vertices), root)?;
    out.push(b'\n')?;
    Ok(())
}

/// Appends the lines of two weighted matroids.
fn put_pair(
    out: &mut Vec<u8>,
    names: Option<&Names>,
    weights: &[Weight],
    first: &AnyMatroid,
    second: &AnyMatroid,
) -> Result<(), AllocError>
    requires first { IfSome (naming names) (λ listed. IsValidTree (length listed) (tree_of first.now)) }
    requires second { IfSome (naming names) (λ listed. IsValidTree (length listed) (tree_of second.now)) }
    ensures { OnOk result (out.new.items ≡ out.old.items ++ text_of (weights_line (codes "weights") weights.now
        ∷ (matroid_lines (naming names.entry) (tree_of first.now) ++ matroid_lines (naming names.entry) (tree_of second.now)))) }
{
    put_weights_line(out, b"weights", weights)?;
    put_matroid(out, names, first)?;
    put_matroid(out, names, second)?;
    Ok(())
}

/// Appends the lines behind those of a form and of its names.
fn put_body(
    out: &mut Vec<u8>,
    lists: Option<Lists<'_>>,
    problem: &Problem,
) -> Result<(), AllocError>
    requires { MayBeWritten (written_notation lists) (instance_of problem.now) }
    ensures { OnOk result (out.new.items ≡ out.old.items ++ text_of (body_lines (written_notation lists.entry) (instance_of problem.now))) }
{
    let elements = element_names(lists);
    let vertices = vertex_names(lists);
    match problem {
        Problem::Pair {
            weights,
            first,
            second,
        } => put_pair(out, elements, weights.as_slice(), first, second),
        Problem::List { weights, matroids } => {
            put_weights_line(out, b"weights", weights.as_slice())?;
            put_matroids(out, elements, matroids)
        }
        Problem::Graph { edges, .. } => put_ends_lines(out, vertices, b"edge", edges.as_slice()),
        Problem::Rooted {
            root,
            arcs,
            costs,
            ..
        } => {
            put_root_line(out, lists, *root)?;
            put_weighted_lines(out, vertices, b"arc", arcs.as_slice(), costs.as_slice())
        }
        Problem::Coloured {
            edges,
            colour_of,
            weights,
            ..
        } => put_coloured_edge_lines(
            out,
            vertices,
            edges.as_slice(),
            colour_of,
            weights.as_slice(),
        ),
        Problem::Table { cells, weights, .. } => {
            put_weighted_lines(out, None, b"cell", cells.as_slice(), weights.as_slice())
        }
    }
}

/// The canonical text of a problem, with these names or with none.
fn text(alloc: Global, lists: Option<Lists<'_>>, problem: &Problem) -> Result<Vec<u8>, AllocError>
    requires { MayBeWritten (written_notation lists) (instance_of problem.now) }
    ensures { IfOk result (λ v. v.items ≡ text_of (canonical_lines (written_notation lists.entry) (instance_of problem.now))) }
{
    let mut out = Vec::new(alloc);
    put_version_line(&mut out, lists)?;
    put_header(&mut out, lists, problem)?;
    put_name_lines(&mut out, lists)?;
    put_body(&mut out, lists, problem)?;
    out.extend_from_slice(b"end\n")?;
    Ok(out)
}

/// The canonical text of a problem: the elements of each set in rising order, and everything else in its own order. It takes memory for
/// the text alone, and an error is want of it.
#[tactic(auto, unfolding(crate::specs::Canonical::canonical_text))]
pub fn write_problem(alloc: Global, problem: &Problem) -> Result<Vec<u8>, AllocError>
    ensures { IfOk result (λ v. v.items ≡ canonical_text (instance_of problem.now)) }
{
    text(alloc, None, problem)
}

/// The canonical text of a problem in version 2, which has names for elements and vertices: the elements of each set in rising order of
/// their numbers, and everything else in its own order. The problem has to be in range and to have a name for each element and each
/// vertex. It takes memory for the text alone, and an error is want of it.
#[tactic(auto, unfolding(crate::specs::Canonical::named_text))]
pub fn write_named(alloc: Global, named: &Named) -> Result<Vec<u8>, AllocError>
    requires valid { IsValid (instance_of named.now.problem) }
    requires notated { IsNotationFor (instance_of named.now.problem) (names (names_of named.now.elements) (names_of named.now.vertices)) }
    ensures { IfOk result (λ v. v.items ≡ named_text (named_instance named.now)) }
{
    let lists = Lists {
        elements: &named.elements,
        vertices: &named.vertices,
    };
    text(alloc, Some(lists), &named.problem)
}
