//! Where the vertices of a graph stand on a circle, and how its edges run between them.

use crate::arrangement::Arrangement;
use crate::circle::Circle;
use crate::graph::Graph;
use crate::strands::{Strand, strands};
use mat_charts::MARGIN;
use mat_drawing::{Point, Units};
use mat_text::Called;
use std::alloc::{AllocError, Global};

/// The most vertices whose names stand upright.
pub(crate) const FEW: usize = 24;

// The most edges beside one another that have labels.
const MOST_BESIDE: usize = 8;

/// How an edge between two vertices runs: along the quadratic Bézier curve from the vertex of the lower place to the other one, with the control
/// point `by`.
#[derive(Clone, Copy)]
pub(crate) struct Bend {
    from: Point,
    pub(crate) by: Point,
    to: Point,
}

impl Bend {
    // A coordinate of the point of the curve at the parameter `part` / `parts`, rounded down, from the same coordinate of the two ends and of the
    // control point.
    fn mix(from: Units, by: Units, to: Units, part: Units, parts: Units) -> Units {
        let rest = parts - part;
        let sum = rest * rest * from + part * rest * 2 * by + part * part * to;
        sum.over(parts * parts)
    }

    /// The point of the curve at the parameter `part` / `parts`.
    pub(crate) fn along(&self, part: Units, parts: Units) -> Point {
        Point {
            x: Bend::mix(self.from.x, self.by.x, self.to.x, part, parts),
            y: Bend::mix(self.from.y, self.by.y, self.to.y, part, parts),
        }
    }
}

// How much room a graph takes: its circle, the radius of it, and how far from it on every side the names end.
#[derive(Clone, Copy)]
struct Room {
    circle: Circle,
    radius: Units,
    side: Units,
    tall: Units,
}

impl Room {
    // The room from this height on of so many vertices, whose names have at most so many bytes and stand at most so far from the circle.
    fn new(vertices: usize, names: usize, far: Units, from: Units) -> Room {
        let radius = (Units::of(vertices) * 5).max(Units(170));
        let side = far + Units::of(names) * 9 + 10;
        let tall = if vertices > FEW { side } else { far + 24 };
        let middle = Point {
            x: MARGIN + side + radius,
            y: from + tall + radius,
        };
        let circle = Circle {
            middle,
            places: vertices,
        };
        Room {
            circle,
            radius,
            side,
            tall,
        }
    }
}

/// A graph that is drawn on a circle.
#[derive(Drop)]
pub(crate) struct Layout<'a> {
    pub(crate) graph: &'a Graph<'a>,
    pub(crate) arrangement: &'a Arrangement,
    pub(crate) strands: Vec<Strand>,
    /// How far from the circle the name of each vertex stands.
    far: Vec<Units>,
    room: Room,
}

// How many loops a vertex has.
fn loops_at(strands: &[Strand], v: usize) -> usize {
    for strand in strands {
        if strand.is_loop() && strand.tail as usize == v {
            return strand.count;
        }
    }
    0
}

// How far from the circle the name of a vertex with so many loops stands.
fn distance_behind(loops: usize) -> Units {
    if loops == 0 {
        Units(12)
    } else {
        Units::of(loops) * 6 + 22
    }
}

// How far from the circle the name of each vertex stands: behind its loops.
fn distances(alloc: Global, vertices: usize, strands: &[Strand]) -> Result<Vec<Units>, AllocError> {
    let mut distances = Vec::new(alloc);
    for v in 0..vertices {
        distances.push(distance_behind(loops_at(strands, v)))?;
    }
    Ok(distances)
}

// The most bytes of the name of one of so many vertices: 0 of none.
fn longest_name(alloc: Global, called: &Called<'_>, vertices: usize) -> Result<usize, AllocError> {
    let mut longest = 0;
    for v in 0..vertices {
        longest = longest.max(called.vertex(v).to_string(alloc)?.len());
    }
    Ok(longest)
}

// The greatest of these distances.
fn farthest(distances: &[Units]) -> Units {
    let mut farthest = Units::ZERO;
    for distance in distances {
        farthest = farthest.max(*distance);
    }
    farthest
}

impl<'a> Layout<'a> {
    /// The graph, drawn from this height on. The only error is want of memory.
    pub(crate) fn new(
        alloc: Global,
        graph: &'a Graph<'a>,
        arrangement: &'a Arrangement,
        from: Units,
    ) -> Result<Layout<'a>, AllocError> {
        let vertices = graph.order();
        let names = longest_name(alloc, &graph.ends.called, vertices)?;
        let marks = if arrangement.numbers_groups() { 6 } else { 0 };
        let strands = strands(alloc, graph.ends.pairs)?;
        let far = distances(alloc, vertices, &strands)?;
        Ok(Layout {
            graph,
            arrangement,
            strands,
            room: Room::new(vertices, names.saturating_add(marks), farthest(&far), from),
            far,
        })
    }

    /// Where the graph ends.
    pub(crate) fn bottom(&self) -> Units {
        self.room.circle.middle.y + self.room.radius + self.room.tall
    }

    /// How wide the graph is.
    pub(crate) fn width(&self) -> Units {
        (self.room.side + self.room.radius) * 2
    }

    /// Whether there are more vertices than their names have room for upright.
    pub(crate) fn is_crowded(&self) -> bool {
        self.graph.order() > FEW
    }

    // The point so far outside the circle, at a vertex.
    fn outside(&self, v: u32, distance: Units) -> Point {
        let room = &self.room;
        room.circle.at(v as usize, room.radius + distance)
    }

    /// Where a vertex stands.
    pub(crate) fn point(&self, v: u32) -> Point {
        self.outside(v, Units::ZERO)
    }

    /// Where the name of a vertex stands.
    pub(crate) fn name_at(&self, v: u32) -> Point {
        let far = self.far.get(v as usize).copied().unwrap_or(Units::ZERO);
        self.outside(v, far)
    }

    /// The point of a loop that is farthest from its vertex, and the radius of the loop. Both depend on the place of the loop among those of the
    /// vertex.
    pub(crate) fn loop_end(&self, strand: &Strand) -> (Point, Units) {
        let radius = Units::of(strand.place) * 3 + 10;
        (self.outside(strand.tail, radius * 2), radius)
    }

    /// How an edge runs that is no loop: edges beside one another bend away from each other.
    pub(crate) fn bend(&self, strand: &Strand) -> Bend {
        let (first, second) = if strand.tail < strand.head {
            (strand.tail, strand.head)
        } else {
            (strand.head, strand.tail)
        };
        let from = self.point(first);
        let to = self.point(second);
        let across = to.x - from.x;
        let down = to.y - from.y;
        let length = (across * across + down * down).root().max(Units(1));
        let place = Units::of(strand.place) * 2 - (Units::of(strand.count) - 1);
        let aside = (place * 140).over(Units::of(strand.count.max(10)));
        let by = Point {
            x: (from.x + to.x).half() - (down * aside).over(length),
            y: (from.y + to.y).half() + (across * aside).over(length),
        };
        Bend { from, by, to }
    }

    /// Whether an edge has a label: a loop has none, nor has one of many edges beside one another, nor one between many vertices.
    pub(crate) fn has_label(&self, strand: &Strand) -> bool {
        !self.is_crowded() && !strand.is_loop() && strand.count <= MOST_BESIDE
    }

    /// Where the label of an edge stands that is no loop: those of edges beside one another at different parts of the way.
    pub(crate) fn label_at(&self, strand: &Strand) -> Point {
        let others = Units::of(strand.count) - 1;
        let (part, parts) = if others > Units::ZERO {
            (others * 3 + Units::of(strand.place) * 4, others * 10)
        } else if self.graph.order() > 6 {
            (Units(2), Units(5))
        } else {
            (Units(1), Units(4))
        };
        self.bend(strand).along(part, parts)
    }
}
