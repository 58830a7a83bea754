//! What the answers prove. Each law is the contract of a function that does nothing.

ghost use Rattle.std.specs.Prelude.{◌≡◌, ◌<◌, ◌≤◌, ◌+◌, ◌↔◌, ℕ, List, true, length, suc, slice_index};
ghost use Rattle.mat_sets.specs.{Graphs.{IsGraph, ends_of}, Sets.{IsRising, IsSet}, declared.weight.Weight.{Weight}};
ghost use Rattle.mat_laws.specs.Ladders.{IsCut, IsRung};
ghost use Rattle.mat_graphic.specs.Forests.{is_graphic, number_of_components};
ghost use Rattle.mat_fronts.specs.{
  Once.{AreLabelsOf, is_once},
  Rainbow.{IsColouring, IsMissingColours, IsRainbowTree, edges_without},
  Assignments.{AreCells, IsAssignment, row_at, column_at},
};

/// A set of one edge fewer than there are vertices is a spanning tree of pairwise different colours exactly where it is independent in
/// the graphic matroid and in the partition matroid of the colours.
pub fn rainbow_tree_is_common()
    ensures { (vertices : ℕ) (edges : List (ℕ × ℕ)) (colours : ℕ) (colour_of : List ℕ) (X : List ℕ)
        → IsColouring (length edges) colours colour_of
        → IsRainbowTree vertices (length edges) (ends_of edges) (slice_index colour_of) X
        ↔ ((suc (length X) ≡ vertices) × (is_graphic (length edges) (ends_of edges) X ≡ true)
        × (is_once (length edges) colours (slice_index colour_of) X ≡ true)) }
{}

/// Where the edges of other colours than those of C make more than |C| + 1 components, there is no spanning tree of pairwise different
/// colours.
pub fn missing_colours_exclude_trees()
    ensures { (vertices : ℕ) (edges : List (ℕ × ℕ)) (colours : ℕ) (colour_of : List ℕ) (C : List ℕ)
        → IsGraph vertices edges
        → IsMissingColours vertices (length edges) (ends_of edges) colours (slice_index colour_of) C
        → (X : List ℕ) → ¬ IsRainbowTree vertices (length edges) (ends_of edges) (slice_index colour_of) X }
{}

/// The set of a rung of one edge fewer than there are vertices is a spanning tree of pairwise different colours.
pub fn full_rung_is_a_rainbow_tree()
    ensures { (vertices : ℕ) (edges : List (ℕ × ℕ)) (colours : ℕ) (colour_of : List ℕ) (w : List Weight) (k : ℕ) (set : List ℕ)
        (first second : List Weight) → IsGraph vertices edges → IsColouring (length edges) colours colour_of
        → IsRung (length edges) (is_graphic (length edges) (ends_of edges)) (is_once (length edges) colours (slice_index colour_of)) w k set first second
        → suc k ≡ vertices → IsRainbowTree vertices (length edges) (ends_of edges) (slice_index colour_of) set }
{}

/// Where a cut shows that there is no spanning tree of pairwise different colours, so do the colours on the cut: the edges of other
/// colours make more components than one more than there are such colours.
pub fn colours_on_a_cut_are_missing()
    ensures { (vertices : ℕ) (edges : List (ℕ × ℕ)) (colours : ℕ) (colour_of : List ℕ) (k : ℕ) (cut C : List ℕ)
        → IsGraph vertices edges → IsColouring (length edges) colours colour_of
        → IsCut (length edges) (is_graphic (length edges) (ends_of edges)) (is_once (length edges) colours (slice_index colour_of)) k cut
        → suc k < vertices → IsRising C → AreLabelsOf (slice_index colour_of) cut C
        → IsMissingColours vertices (length edges) (ends_of edges) colours (slice_index colour_of) C }
{}

/// There is a spanning tree of pairwise different colours exactly where for each set C of colours the edges of other colours make at
/// most |C| + 1 components (Schrijver, chapter 41).
pub fn rainbow_trees_exist()
    ensures { (vertices : ℕ) (edges : List (ℕ × ℕ)) (colours : ℕ) (colour_of : List ℕ)
        → IsGraph vertices edges → 0 < vertices → IsColouring (length edges) colours colour_of
        → ((X : List ℕ) × IsRainbowTree vertices (length edges) (ends_of edges) (slice_index colour_of) X)
        ↔ ((C : List ℕ) → IsSet colours C
        → number_of_components vertices (ends_of edges) (edges_without (length edges) (slice_index colour_of) C) ≤ length C + 1) }
{}

/// Cells are an assignment exactly where they are independent in the partition matroids of the rows and of the columns.
pub fn assignment_is_common()
    ensures { (rows columns : ℕ) (cells : List (ℕ × ℕ)) (X : List ℕ) → AreCells rows columns cells
        → IsAssignment cells X ↔ ((is_once (length cells) rows (row_at cells) X ≡ true) × (is_once (length cells) columns (column_at cells) X ≡ true)) }
{}
