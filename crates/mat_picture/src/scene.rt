//! What a picture is drawn of.

ghost use Rattle.std.specs.Prelude.{◌<◌, ◌^◌, length, IfSome};
ghost use Rattle.mat_problem.specs.{Validity.{IsValid}, Views.{instance_of}};

use crate::graph::Graph;
use mat_problem::Problem;
use mat_sets::Weight;
use mat_text::{Called, Text};

/// A problem, what its elements and vertices are called, and what is told of the answer.
#[derive(Clone, Copy)]
pub(crate) struct Scene<'a> {
    pub(crate) called: Called<'a>,
    pub(crate) problem: &'a Problem,
    pub(crate) told: &'a Text,
}

impl<'a> Scene<'a> {
    /// The weights or the costs of the elements: none where they have none.
    pub(crate) fn weights(&self) -> &'a [Weight] {
        match self.problem {
            Problem::Pair { weights, .. }
            | Problem::List { weights, .. }
            | Problem::Coloured { weights, .. }
            | Problem::Table { weights, .. } => weights.as_slice(),
            Problem::Rooted { costs, .. } => costs.as_slice(),
            Problem::Graph { .. } => &[],
        }
    }

    /// The graph that the problem states: None where it states no graph.
    pub(crate) fn graph(&self) -> Option<Graph<'a>>
        requires { IsValid (instance_of self.now.problem.now) }
        ensures { IfSome result (λ graph. length graph.ends.pairs.now < 2 ^ 32) }
    {
        Graph::of(self.called, self.problem)
    }

    /// Whether the problem states a directed graph.
    pub(crate) fn has_arcs(&self) -> bool {
        matches!(self.problem, Problem::Rooted { .. })
    }

    /// The root of the directed graph that the problem states, and 0 of another problem.
    pub(crate) fn root(&self) -> u32 {
        match self.problem {
            Problem::Rooted { root, .. } => *root,
            _ => 0,
        }
    }
}
