//! The reasons of answers about coloured edges and about tables, by the two matroids that stand behind each.

ghost use Rattle.std.specs.Prelude.{◌≡◌, ◌<◌, ◌^◌, ◌++◌, length, slice_index, IfOk};
ghost use Rattle.mat_sets.specs.Graphs.{IsGraph, ends_of};
ghost use Rattle.mat_graphic.specs.Forests.{is_graphic};
ghost use Rattle.mat_cert.specs.Certificates.{IsRangedLadder};
ghost use Rattle.mat_fronts.specs.{Assignments.{column_at, row_at}, Once.{is_once}};
ghost use Rattle.mat_facts.specs.{Reasons.{colours_facts, ladder_facts}, Views.{facts_of, is_told}};

use crate::fact::Fact;
use crate::graphs::put_colours;
use crate::ladders::ladder_reason;
use crate::told::ToldSizes;
use mat_cert::PricedRung;
use mat_count::Partition;
use mat_graphic::Graphic;
use mat_sets::{ElemSet, Pairs};
use std::alloc::{AllocError, Global};

/// The facts that a right ladder of assignments gives, for the sizes that are told. The only error is want of memory.
pub(crate) fn assign_reason<'a>(
    alloc: Global,
    rows: u32,
    columns: u32,
    cells: &Pairs,
    rungs: &'a [PricedRung],
    cut: &ElemSet,
    told: ToldSizes,
) -> Result<Vec<Fact<'a>>, AllocError>
    requires few { length cells.now < 2 ^ 32 }
    requires ranged { IsRangedLadder (length cells.now) rungs.now cut.now }
    ensures { IfOk result (λ facts. facts_of facts.items ≡ ladder_facts (is_told told) (length cells.now)
        (is_once (length cells.now) rows (row_at cells.now)) (is_once (length cells.now) columns (column_at cells.now)) rungs.now cut.now) }
{
    let row_of = cells.firsts(alloc)?;
    let column_of = cells.seconds(alloc)?;
    let by_row = Partition::one_for_each_label(alloc, &row_of, rows)?;
    let by_column = Partition::one_for_each_label(alloc, &column_of, columns)?;
    let facts = ladder_reason(alloc, &by_row, &by_column, rungs, cut, told)?;
    Ok(facts)
}

/// The facts that a right ladder of forests of different colours gives, for the sizes that are told, and those of the missing colours. The
/// only error is want of memory.
pub(crate) fn rainbow_reason<'a>(
    alloc: Global,
    vertices: u32,
    edges: &Pairs,
    colours: u32,
    colour_of: &[u32],
    rungs: &'a [PricedRung],
    cut: &ElemSet,
    missing: &'a Option<ElemSet>,
    told: ToldSizes,
) -> Result<Vec<Fact<'a>>, AllocError>
    requires graph { IsGraph vertices edges.now }
    requires long { length colour_of.now ≡ length edges.now }
    requires ranged { IsRangedLadder (length edges.now) rungs.now cut.now }
    ensures { IfOk result (λ facts. facts_of facts.items ≡ ladder_facts (is_told told) (length edges.now)
        (is_graphic (length edges.now) (ends_of edges.now)) (is_once (length edges.now) colours (slice_index colour_of.now)) rungs.now cut.now
        ++ colours_facts vertices (length edges.now) (ends_of edges.now) (slice_index colour_of.now) missing.now) }
{
    let graph = Graphic::new(alloc, vertices, edges.copy(alloc)?)?;
    let classes = Partition::one_for_each_label(alloc, colour_of, colours)?;
    let mut facts = ladder_reason(alloc, &graph, &classes, rungs, cut, told)?;
    put_colours(alloc, &mut facts, &graph, colour_of, missing)?;
    Ok(facts)
}
