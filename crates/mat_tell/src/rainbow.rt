//! Forests of edges of different colours.

ghost use Rattle.std.specs.Prelude.{◌≡◌, ◌<◌, ◌^◌, length};
ghost use Rattle.mat_sets.specs.{Graphs.{IsGraph}, Sets.{AllBelow}};
ghost use Rattle.mat_cert.specs.Certificates.{IsRangedLadder};

use mat_cert::PricedRung;
use mat_count::Partition;
use mat_graphic::Graphic;
use mat_reasons::{Largest, Things, left_groups, tell_cut, tell_ladder};
use mat_sets::{ElemSet, Weight};
use mat_text::{Called, Ends, Noun, Spelled, Text, many, numbers_of, tell_groups};
use std::alloc::AllocError;

/// A graph with a colour and a weight for each edge.
#[derive(Clone, Copy)]
pub(crate) struct Coloured<'a> {
    pub(crate) vertices: u32,
    pub(crate) colours: u32,
    pub(crate) ends: Ends<'a>,
    pub(crate) colour_of: &'a [u32],
    pub(crate) weights: &'a [Weight],
}

/// Coloured edges. Each edge of a set is shown with its ends, its colour and its weight.
impl Things for Coloured<'_> {
    fn noun(&self) -> Noun {
        Noun::Edge
    }

    fn show(&self, text: &mut Text, set: &ElemSet) -> Result<(), AllocError> {
        let called = self.ends.called;
        for e in set.as_slice() {
            let at = *e as usize;
            let (Some((first, second)), Some(colour), Some(weight)) = (
                self.ends.pairs.as_slice().get(at),
                self.colour_of.get(at),
                self.weights.get(at),
            ) else {
                return Ok(());
            };
            text.detail(format_args!(
                "{}: {} to {}, colour {colour}, weight {}",
                called.element(at),
                called.vertex(*first as usize),
                called.vertex(*second as usize),
                Spelled(*weight)
            ))?;
        }
        Ok(())
    }
}

// Tells why no tree of different colours joins all vertices: what is left without these colours falls into too many groups.
fn tell_missing(
    text: &mut Text,
    coloured: &Coloured<'_>,
    graph: &Graphic,
    missing: &ElemSet,
) -> Result<(), AllocError>
    requires graph { IsGraph graph.now.vertices graph.now.edges }
    requires few_vertices { graph.now.vertices < 2 ^ 32 }
    requires few { length coloured.now.colour_of.now < 2 ^ 32 }
    requires long { length coloured.now.colour_of.now ≡ length graph.now.edges }
{
    let alloc = text.alloc();
    text.say(format_args!(
        "Why no such set joins all {}:",
        many(coloured.vertices as usize, Noun::Vertex)
    ))?;
    let numbers = numbers_of(alloc, missing)?;
    text.list(
        format_args!(
            "Take away the edges of {}",
            many(missing.len(), Noun::Colour)
        ),
        &numbers,
    )?;
    let groups = left_groups(alloc, graph, coloured.colour_of, missing)?;
    tell_left_groups(text, &coloured.ends.called, &groups, missing.len())
}

// Tells the groups that are left, and that there are too few colours to join them.
fn tell_left_groups(
    text: &mut Text,
    called: &Called<'_>,
    groups: &[ElemSet],
    colours: usize,
) -> Result<(), AllocError> {
    text.detail(format_args!("Then there are {}:", many(groups.len(), Noun::Group)))?;
    tell_groups(text, called, groups)?;
    text.detail(format_args!(
        "To join them takes {} of these colours; of different colours there are at most {colours}.",
        many(groups.len().saturating_sub(1), Noun::Edge)
    ))
}

// Tells why the largest set, of so many edges, joins not all vertices.
fn tell_short(
    text: &mut Text,
    coloured: &Coloured<'_>,
    size: usize,
    cut: &ElemSet,
    missing: &ElemSet,
) -> Result<(), AllocError>
    requires graph { IsGraph coloured.now.vertices coloured.now.ends.pairs.now }
    requires few { length coloured.now.colour_of.now < 2 ^ 32 }
    requires long { length coloured.now.colour_of.now ≡ length coloured.now.ends.pairs.now }
    requires below { AllBelow (length coloured.now.colour_of.now) cut.now }
{
    let alloc = text.alloc();
    let graph = Graphic::new(alloc, coloured.vertices, coloured.ends.pairs.copy(alloc)?)?;
    let once = vec![in alloc; 1; coloured.colours as usize]?;
    let colours = Partition::by_labels(alloc, coloured.colour_of, once)?;
    let largest = Largest {
        size,
        noun: Noun::Edge,
        group: Noun::Colour,
    };
    tell_cut(text, &coloured.ends.called, largest, &graph, &colours, cut)?;
    tell_missing(text, coloured, &graph, missing)
}

// Tells what is wanted.
fn tell_wanted(text: &mut Text, coloured: &Coloured<'_>) -> Result<(), AllocError> {
    text.say(format_args!(
        "Wanted: of {} between {} a set that keeps two rules.",
        many(coloured.weights.len(), Noun::Edge),
        many(coloured.vertices as usize, Noun::Vertex)
    ))?;
    text.detail("rule 1: there is no ring of them")?;
    text.detail("rule 2: no two have the same colour")
}

/// Tells the heaviest forests of each size of edges of different colours, and whether one joins all vertices. The only error is want of
/// memory.
pub(crate) fn tell_rainbow(
    text: &mut Text,
    coloured: &Coloured<'_>,
    rungs: &[PricedRung],
    cut: &ElemSet,
    missing: &Option<ElemSet>,
) -> Result<(), AllocError>
    requires graph { IsGraph coloured.now.vertices coloured.now.ends.pairs.now }
    requires long { length coloured.now.colour_of.now ≡ length coloured.now.ends.pairs.now }
    requires lengths { length coloured.now.weights.now ≡ length coloured.now.ends.pairs.now }
    requires ranged { IsRangedLadder (length coloured.now.weights.now) rungs.now cut.now }
{
    tell_wanted(text, coloured)?;
    tell_ladder(
        text,
        &coloured.ends.called,
        coloured,
        coloured.weights,
        rungs,
    )?;
    match missing {
        Some(missing) => tell_short(text, coloured, rungs.len() - 1, cut, missing),
        None => text.say(format_args!(
            "The largest set joins all {}.",
            many(coloured.vertices as usize, Noun::Vertex)
        )),
    }
}
