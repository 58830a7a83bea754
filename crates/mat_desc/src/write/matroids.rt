//! Writing the lines of a matroid.

ghost use Rattle.std.specs.{Prelude.{◌≡◌, ◌++◌, ◌∷◌, None, [], length, map, All, IfSome, OnOk}, List.{flat_map}};
ghost use Rattle.mat_words.specs.Lines.{text_of};
ghost use Rattle.mat_any.specs.{Trees.{partition, laminar, graphic, transversal, gammoid, gf2}, Views.{tree_of}};
ghost use Rattle.mat_problem.specs.Validity.{IsValidTree};
ghost use Rattle.mat_desc.specs.{Canonical.{matroid_lines}, Grammar.{column_line}, Views.{naming}};

use crate::write::lines::{put_capped_lines, put_ends_lines, put_family_lines, put_listing_line};
use mat_any::AnyMatroid;
use mat_count::{Laminar, Partition};
use mat_gf2::Gf2;
use mat_graphic::Graphic;
use mat_linked::{Gammoid, Transversal};
use mat_words::{Names, put_binary, put_members_line, put_numbers_line};
use std::alloc::AllocError;

/// Appends the lines of a partition matroid.
fn put_partition(
    out: &mut Vec<u8>,
    names: Option<&Names>,
    matroid: &Partition,
) -> Result<(), AllocError>
    requires { IfSome (naming names) (λ listed. IsValidTree (length listed) (partition matroid.now.count matroid.now.classes matroid.now.caps)) }
    ensures { OnOk result (out.new.items ≡ out.old.items
        ++ text_of (matroid_lines (naming names.entry) (partition matroid.now.count matroid.now.classes matroid.now.caps))) }
{
    let classes = matroid.classes().as_slice();
    put_numbers_line(out, b"partition", &[classes.len() as i128])?;
    put_capped_lines(out, names, b"class", classes, matroid.caps())?;
    Ok(())
}

/// Appends the lines of a laminar matroid.
fn put_laminar(
    out: &mut Vec<u8>,
    names: Option<&Names>,
    matroid: &Laminar,
) -> Result<(), AllocError>
    requires { IfSome (naming names) (λ listed. IsValidTree (length listed) (laminar matroid.now.count matroid.now.sets matroid.now.caps)) }
    ensures { OnOk result (out.new.items ≡ out.old.items
        ++ text_of (matroid_lines (naming names.entry) (laminar matroid.now.count matroid.now.sets matroid.now.caps))) }
{
    let sets = matroid.sets().as_slice();
    put_numbers_line(out, b"laminar", &[sets.len() as i128])?;
    put_capped_lines(out, names, b"set", sets, matroid.caps())?;
    Ok(())
}

/// Appends the lines of a graphic matroid.
fn put_graphic(out: &mut Vec<u8>, matroid: &Graphic) -> Result<(), AllocError>
    ensures { OnOk result (out.new.items ≡ out.old.items
        ++ text_of (matroid_lines None (graphic matroid.now.vertices matroid.now.edges))) }
{
    put_numbers_line(out, b"graphic", &[i128::from(matroid.vertices())])?;
    put_ends_lines(out, None, b"edge", matroid.edges().as_slice())?;
    Ok(())
}

/// Appends the lines of a transversal matroid.
fn put_transversal(
    out: &mut Vec<u8>,
    names: Option<&Names>,
    matroid: &Transversal,
) -> Result<(), AllocError>
    requires { IfSome (naming names) (λ listed. IsValidTree (length listed) (transversal matroid.now.count matroid.now.sets)) }
    ensures { OnOk result (out.new.items ≡ out.old.items
        ++ text_of (matroid_lines (naming names.entry) (transversal matroid.now.count matroid.now.sets))) }
{
    let family = matroid.family().as_slice();
    put_numbers_line(out, b"transversal", &[family.len() as i128])?;
    put_family_lines(out, names, family)?;
    Ok(())
}

/// Appends the lines of a gammoid.
fn put_gammoid(out: &mut Vec<u8>, matroid: &Gammoid) -> Result<(), AllocError>
    ensures { OnOk result (out.new.items ≡ out.old.items
        ++ text_of (matroid_lines None (gammoid matroid.now.vertices matroid.now.arcs matroid.now.sources matroid.now.targets))) }
{
    let graph = matroid.graph();
    let arcs = graph.arcs().as_slice();
    put_numbers_line(
        out,
        b"gammoid",
        &[i128::from(graph.vertices()), arcs.len() as i128],
    )?;
    put_members_line(out, b"sources", matroid.sources().as_slice())?;
    put_members_line(out, b"targets", matroid.targets())?;
    put_ends_lines(out, None, b"arc", arcs)?;
    Ok(())
}

/// Appends a column line.
fn put_column_line(out: &mut Vec<u8>, dim: u32, column: u128) -> Result<(), AllocError>
    ensures { OnOk result (out.new.items ≡ out.old.items ++ text_of (column_line dim column ∷ [])) }
{
    out.extend_from_slice(b"column ")?;
    put_binary(out, dim, column)?;
    out.push(b'\n')?;
    Ok(())
}

/// Appends a line for each column.
fn put_column_lines(out: &mut Vec<u8>, dim: u32, columns: &[u128]) -> Result<(), AllocError>
    ensures { OnOk result (out.new.items ≡ out.old.items ++ text_of (map (column_line dim) columns.now)) }
{
    for column in columns {
        put_column_line(out, dim, *column)?;
    }
    Ok(())
}

/// Appends the lines of a matroid of columns over the field of two elements.
fn put_gf2(out: &mut Vec<u8>, matroid: &Gf2) -> Result<(), AllocError>
    ensures { OnOk result (out.new.items ≡ out.old.items
        ++ text_of (matroid_lines None (gf2 matroid.now.dim matroid.now.columns))) }
{
    put_numbers_line(out, b"gf2", &[i128::from(matroid.dim())])?;
    put_column_lines(out, matroid.dim(), matroid.columns())?;
    Ok(())
}

/// Appends the lines of a matroid, and behind its line those of the matroids within it, if there are any.
#[cycle(writing)]
pub(crate) fn put_matroid(
    out: &mut Vec<u8>,
    names: Option<&Names>,
    matroid: &AnyMatroid,
) -> Result<(), AllocError>
    requires { IfSome (naming names) (λ listed. IsValidTree (length listed) (tree_of matroid.now)) }
    ensures { OnOk result (out.new.items ≡ out.old.items ++ text_of (matroid_lines (naming names.entry) (tree_of matroid.now))) }
{
    match matroid {
        AnyMatroid::Uniform(uniform) => put_numbers_line(
            out,
            b"uniform",
            &[i128::from(uniform.cap())],
        ),
        AnyMatroid::Partition(partition) => put_partition(out, names, partition),
        AnyMatroid::Laminar(laminar) => put_laminar(out, names, laminar),
        AnyMatroid::Graphic(graphic) => put_graphic(out, graphic),
        AnyMatroid::Transversal(transversal) => put_transversal(out, names, transversal),
        AnyMatroid::Gammoid(gammoid) => put_gammoid(out, gammoid),
        AnyMatroid::Gf2(gf2) => put_gf2(out, gf2),
        AnyMatroid::Dual(inner) => {
            put_numbers_line(out, b"dual", &[])?;
            put_matroid(out, names, inner)
        }
        AnyMatroid::Truncate { cap, inner } => {
            put_numbers_line(out, b"truncate", &[i128::from(*cap)])?;
            put_matroid(out, names, inner)
        }
        AnyMatroid::Restrict { kept, inner } => {
            put_listing_line(out, names, b"restrict", kept.as_slice())?;
            put_matroid(out, names, inner)
        }
        AnyMatroid::Contract { away, inner } => {
            put_listing_line(out, names, b"contract", away.as_slice())?;
            put_matroid(out, names, inner)
        }
        AnyMatroid::Union { parts } => {
            put_numbers_line(out, b"union", &[parts.len() as i128])?;
            put_matroids(out, names, parts)?;
            Ok(())
        }
    }
}

/// Appends the lines of each matroid.
#[cycle(writing)]
pub(crate) fn put_matroids(
    out: &mut Vec<u8>,
    names: Option<&Names>,
    matroids: &[AnyMatroid],
) -> Result<(), AllocError>
    requires { IfSome (naming names) (λ listed. All (IsValidTree (length listed)) (map tree_of matroids.now)) }
    ensures { OnOk result (out.new.items ≡ out.old.items ++ text_of (flat_map (matroid_lines (naming names.entry)) (map tree_of matroids.now))) }
{
    for matroid in matroids {
        put_matroid(out, names, matroid)?;
    }
    Ok(())
}
