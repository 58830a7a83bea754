//! Graphs as they are drawn: their edges, and what is told of each.

ghost use Rattle.std.specs.Prelude.{◌<◌, ◌^◌, length, IfSome};
ghost use Rattle.mat_problem.specs.{Validity.{IsValid}, Views.{instance_of}};

use mat_problem::Problem;
use mat_sets::Weight;
use mat_text::{Called, Ends, Name, Noun, Spelled};
use std::alloc::{AllocError, Global};

/// What the edges of a graph are worth.
#[derive(Clone, Copy)]
pub(crate) enum Worth<'a> {
    Nothing,
    Costs(&'a [Weight]),
    Weights {
        colour_of: &'a [u32],
        weights: &'a [Weight],
    },
}

/// The edges of a graph, or the arcs of a directed one.
#[derive(Clone, Copy)]
pub(crate) struct Graph<'a> {
    pub(crate) vertices: u32,
    pub(crate) ends: Ends<'a>,
    pub(crate) worth: Worth<'a>,
}

// The most bytes of a name in a label.
const LONGEST: usize = 16;

// What a name begins with, and the mark of what is cut from it where it is too long for a label.
fn cut<'a>(name: Name<'a>) -> (Name<'a>, &'static str) {
    match name {
        Name::Listed(bytes) if bytes.len() > LONGEST => {
            (Name::Listed(&bytes[..LONGEST - 2]), "..")
        }
        whole => (whole, ""),
    }
}

impl<'a> Graph<'a> {
    /// The graph that a problem states: None where it states no graph.
    pub(crate) fn of(called: Called<'a>, problem: &'a Problem) -> Option<Graph<'a>>
        requires { IsValid (instance_of problem.now) }
        ensures { IfSome result (λ graph. length graph.ends.pairs.now < 2 ^ 32) }
    {
        match problem {
            Problem::Graph { vertices, edges } => Some(Graph {
                vertices: *vertices,
                ends: Ends::of_edges(called, edges),
                worth: Worth::Nothing,
            }),
            Problem::Rooted {
                vertices,
                arcs,
                costs,
                ..
            } => Some(Graph {
                vertices: *vertices,
                ends: Ends::of_arcs(called, arcs),
                worth: Worth::Costs(costs.as_slice()),
            }),
            Problem::Coloured {
                vertices,
                edges,
                colour_of,
                weights,
                ..
            } => Some(Graph {
                vertices: *vertices,
                ends: Ends::of_edges(called, edges),
                worth: Worth::Weights {
                    colour_of,
                    weights: weights.as_slice(),
                },
            }),
            _ => None,
        }
    }

    /// How many vertices there are.
    pub(crate) fn order(&self) -> usize {
        self.vertices as usize
    }

    /// How many edges there are.
    pub(crate) fn edges(&self) -> u32 {
        u32::try_from(self.ends.pairs.len()).unwrap_or(u32::MAX)
    }

    /// Whether it is directed.
    pub(crate) fn is_directed(&self) -> bool {
        matches!(self.ends.noun, Noun::Arc)
    }

    // The cost or the weight of an edge, and none where edges have none.
    fn price(&self, e: usize) -> Weight {
        let prices = match self.worth {
            Worth::Nothing => return Weight::ZERO,
            Worth::Costs(costs) => costs,
            Worth::Weights { weights, .. } => weights,
        };
        prices.get(e).copied().unwrap_or(Weight::ZERO)
    }

    // What an edge is worth, behind a comma, where edges are worth anything.
    fn money(&self, alloc: Global, e: usize) -> Result<String, AllocError> {
        let price = Spelled(self.price(e));
        match self.worth {
            Worth::Nothing => Ok(String::new(alloc)),
            Worth::Costs(_) => format!(in alloc; ", cost {price}"),
            Worth::Weights { colour_of, .. } => {
                let colour = colour_of.get(e).copied().unwrap_or(0);
                format!(in alloc; ", colour {colour}, weight {price}")
            }
        }
    }

    /// What is told of an edge: its name, those of its ends, and what it is worth. The only error is want of memory.
    pub(crate) fn title(
        &self,
        alloc: Global,
        e: usize,
        tail: u32,
        head: u32,
    ) -> Result<String, AllocError> {
        let called = self.ends.called;
        let name = called.element(e);
        let tail = called.vertex(tail as usize);
        let head = called.vertex(head as usize);
        let money = self.money(alloc, e)?;
        format!(in alloc; "{name}: {tail} to {head}{money}")
    }

    /// The name of an edge, cut where it is long, and where this is asked for its cost or its weight. The only error is want of memory.
    pub(crate) fn label(
        &self,
        alloc: Global,
        e: usize,
        is_priced: bool,
    ) -> Result<String, AllocError> {
        let (name, mark) = cut(self.ends.called.element(e));
        if is_priced {
            let price = Spelled(self.price(e));
            format!(in alloc; "{name}{mark} {price}")
        } else {
            format!(in alloc; "{name}{mark}")
        }
    }
}
