//! Arcs along which a root reaches all vertices.

ghost use Rattle.std.specs.Prelude.{◌≡◌, ◌<◌, ◌^◌, length, map, IfOk};
ghost use Rattle.mat_sets.specs.{Limits.{largest_number}, Sets.{AllBelow}, Weights.{negated, AreWeightsWithin}};
ghost use Rattle.mat_reasons.specs.Sums.{AreSummable};

use mat_reasons::{Aim, Claim, Shares, entering, have_tie, tell_shares, tell_ties};
use mat_sets::{ElemSet, Weight};
use mat_text::{
    Counted, Ends, Name, Noun, Spelled, Text, many, tell_found, tell_none, tell_numbered,
};
use std::alloc::{AllocError, Global};

/// A directed graph with a root.
#[derive(Clone, Copy)]
pub(crate) struct Network<'a> {
    pub(crate) vertices: u32,
    pub(crate) root: u32,
    pub(crate) ends: Ends<'a>,
    pub(crate) costs: &'a [Weight],
}

impl<'a> Network<'a> {
    // What the root is called.
    fn root(&self) -> Name<'a> {
        self.ends.called.vertex(self.root as usize)
    }

    // All arcs, counted.
    fn arcs(&self) -> Counted {
        many(self.ends.pairs.len(), Noun::Arc)
    }

    // All vertices, counted.
    fn all(&self) -> Counted {
        many(self.vertices as usize, Noun::Vertex)
    }
}

// Tells that arcs of the least cost are wanted.
fn tell_cheapest_wanted(text: &mut Text, network: &Network<'_>) -> Result<(), AllocError> {
    text.say(format_args!(
        "Wanted: of {} some along which {} reaches all {}, for the least cost.",
        network.arcs(),
        network.root(),
        network.all()
    ))
}

// Tells the arcs of a set with their costs.
fn tell_arcs(text: &mut Text, network: &Network<'_>, set: &ElemSet) -> Result<(), AllocError> {
    let called = network.ends.called;
    for e in set.as_slice() {
        let at = *e as usize;
        let (Some((tail, head)), Some(cost)) = (
            network.ends.pairs.as_slice().get(at),
            network.costs.get(at),
        ) else {
            return Ok(());
        };
        text.detail(format_args!(
            "{}: {} to {}, cost {}",
            called.element(at),
            called.vertex(*tail as usize),
            called.vertex(*head as usize),
            Spelled(*cost)
        ))?;
    }
    Ok(())
}

// The weights with the other sign.
fn opposite(alloc: Global, weights: &[Weight]) -> Result<Vec<Weight>, AllocError>
    requires { AreWeightsWithin largest_number weights.now }
    ensures { IfOk result (λ others. others.items ≡ map negated weights.now) }
{
    let mut others = Vec::new(alloc);
    for weight in weights {
        others.push(-*weight)?;
    }
    Ok(others)
}

/// A cheapest set of arcs: its cost, and a split of the negated costs.
#[derive(Clone, Copy)]
pub(crate) struct Cheapest<'a> {
    pub(crate) cost: Weight,
    pub(crate) arcs: &'a ElemSet,
    pub(crate) first: &'a [Weight],
    pub(crate) second: &'a [Weight],
}

// Tells which rules the arcs keep.
fn tell_rules(text: &mut Text, network: &Network<'_>) -> Result<(), AllocError> {
    text.detail("Such arcs keep two rules.")?;
    text.detail("rule 1: there is no ring of them, whatever their directions")?;
    text.detail(format_args!(
        "rule 2: at most one leads into each vertex, and none into {}",
        network.root()
    ))
}

// Tells that both rules bound their shares of the costs, which are the parts of the split with the other sign.
fn tell_split(
    text: &mut Text,
    network: &Network<'_>,
    cheapest: &Cheapest<'_>,
    things: Counted,
) -> Result<(), AllocError>
    requires costs { AllBelow (length network.now.costs.now) cheapest.now.arcs.now }
    requires first { AreSummable cheapest.now.first.now cheapest.now.arcs.now }
    requires second { AreSummable cheapest.now.second.now cheapest.now.arcs.now }
{
    let first = opposite(text.alloc(), cheapest.first)?;
    let second = opposite(text.alloc(), cheapest.second)?;
    let shares = Shares {
        given: network.costs,
        first: &first,
        second: &second,
    };
    let claim = Claim {
        set: cheapest.arcs,
        sum: cheapest.cost,
        things,
        aim: Aim::Cost,
    };
    tell_shares(text, &network.ends.called, &shares, &claim)
}

/// Tells the cheapest arcs along which the root reaches all vertices. The only error is want of memory.
pub(crate) fn tell_cheapest(
    text: &mut Text,
    network: &Network<'_>,
    cheapest: &Cheapest<'_>,
) -> Result<(), AllocError>
    requires costs { AllBelow (length network.now.costs.now) cheapest.now.arcs.now }
    requires first { AreSummable cheapest.now.first.now cheapest.now.arcs.now }
    requires second { AreSummable cheapest.now.second.now cheapest.now.arcs.now }
{
    tell_cheapest_wanted(text, network)?;
    tell_ties(
        text,
        have_tie(network.costs) || have_tie(cheapest.first) || have_tie(cheapest.second),
    )?;
    let things = many(network.vertices.saturating_sub(1) as usize, Noun::Arc);
    text.say(format_args!("BEST: {things}, cost {}.", Spelled(cheapest.cost)))?;
    tell_arcs(text, network, cheapest.arcs)?;
    if network.vertices < 2 {
        return Ok(());
    }
    text.say(format_args!("Why no less cost than {}:", Spelled(cheapest.cost)))?;
    tell_rules(text, network)?;
    tell_split(text, network, cheapest, things)
}

/// Tells that the root does not reach these vertices. The only error is want of memory.
pub(crate) fn tell_unreached(
    text: &mut Text,
    network: &Network<'_>,
    set: &ElemSet,
) -> Result<(), AllocError> {
    tell_cheapest_wanted(text, network)?;
    tell_none(text)?;
    let names = network.ends.called.vertices_of(text.alloc(), set)?;
    text.list(
        format_args!(
            "No arc leads from elsewhere into the {} listed here",
            many(set.len(), Noun::Vertex)
        ),
        &names,
    )
}

// Tells that so many sets of arcs are wanted.
fn tell_sets_wanted(text: &mut Text, network: &Network<'_>, sets: usize) -> Result<(), AllocError> {
    text.say(format_args!(
        "Wanted: of {} {} without a common arc, along each of which {} reaches all {}.",
        network.arcs(),
        many(sets, Noun::Set),
        network.root(),
        network.all()
    ))
}

/// Tells sets of arcs without a common one, along each of which the root reaches all vertices. The only error is want of memory.
pub(crate) fn tell_disjoint(
    text: &mut Text,
    network: &Network<'_>,
    sets: &[ElemSet],
) -> Result<(), AllocError> {
    tell_sets_wanted(text, network, sets.len())?;
    tell_found(text, sets.len(), Noun::Set, network.vertices, Noun::Arc)?;
    tell_numbered(text, &network.ends, Noun::Set, sets)?;
    if sets.len() < 2 || network.vertices < 2 {
        return Ok(());
    }
    text.say(format_args!(
        "So {} still reaches all vertices after the loss of any {}.",
        network.root(),
        many(sets.len() - 1, Noun::Arc)
    ))
}

/// Tells that there are not so many disjoint sets of arcs along each of which the root reaches all vertices, since too few arcs enter these
/// vertices (Edmonds 1973; Schrijver, chapter 53). The only error is want of memory.
pub(crate) fn tell_not_disjoint(
    text: &mut Text,
    network: &Network<'_>,
    sets: u32,
    set: &ElemSet,
) -> Result<(), AllocError>
    requires { length network.now.ends.pairs.now < 2 ^ 32 }
{
    tell_sets_wanted(text, network, sets as usize)?;
    tell_none(text)?;
    let names = network.ends.called.vertices_of(text.alloc(), set)?;
    text.list(
        format_args!("Take {}", many(set.len(), Noun::Vertex)),
        &names,
    )?;
    let entering = entering(text.alloc(), network.ends.pairs, set)?;
    let words = network.ends.words(text.alloc(), &entering)?;
    text.list(
        format_args!("Arcs from elsewhere into them, {} in all", entering.len()),
        &words,
    )?;
    text.detail(format_args!("Needed: {sets}, one for each set."))
}
