//! Union-find over the vertices of a graph: the root of a component is its least vertex.
ghost use Rattle.std.specs.Prelude.{◌≡◌, ◌<◌, ◌≤◌, ◌==◌, ℕ, length, not, slice_index, IfOk};
ghost use Rattle.mat_graphic.specs.{Mergings.{merged}, ParentTables.{IsDescending, IsParentTable}};

use std::alloc::{AllocError, Global};

/// The table in which each vertex is a component of its own. The only error is want of memory.
#[tactic(auto, using(crate::proofs::ParentTables::singletons))]
pub(crate) fn singletons(alloc: Global, vertices: u32) -> Result<Vec<u32>, AllocError>
    ensures long { IfOk result (λ t. length t.items ≡ vertices) }
    ensures descending { IfOk result (λ t. IsDescending t.items) }
    ensures table { IfOk result (λ t. IsParentTable (λ v. v) t.items) }
{
    let mut parent = Vec::with_capacity(alloc, vertices as usize)?;
    for v in 0..vertices {
        parent.push(v)?;
    }
    Ok(parent)
}

/// The least vertex of the component of `start`. Every other vertex on the way gets the parent of its parent (path
/// halving), so that many calls take logarithmic time each on average.
pub(crate) fn find(parent: &mut [u32], start: u32) -> u32
    requires descending { IsDescending parent.old }
    requires inside { start < length parent.old }
    ensures descending { IsDescending parent.new }
    ensures low { result ≤ start }
    ensures table { (least : ℕ → ℕ) → IsParentTable least parent.old → IsParentTable least parent.new }
    ensures found { (least : ℕ → ℕ) → IsParentTable least parent.old → result ≡ least start }
{
    let mut v = start;
    while parent[v as usize] != v {
        let up = parent[parent[v as usize] as usize];
        parent[v as usize] = up;
        v = up;
    }
    v
}

/// Makes one of the components of two vertices, and tells whether they were two.
pub(crate) fn unite(parent: &mut [u32], a: u32, b: u32) -> bool
    requires descending { IsDescending parent.old }
    requires first { a < length parent.old }
    requires second { b < length parent.old }
    ensures descending { IsDescending parent.new }
    ensures table { (least : ℕ → ℕ) → IsParentTable least parent.old
        → IsParentTable (λ v. merged (least a) (least b) (least v)) parent.new }
    ensures apart { (least : ℕ → ℕ) → IsParentTable least parent.old → result ≡ not (least a == least b) }
{
    let p = find(parent, a);
    let q = find(parent, b);
    if p == q {
        return false;
    }
    parent[p.max(q) as usize] = p.min(q);
    true
}

/// Makes each parent the least vertex of the component.
pub(crate) fn settle(parent: &mut [u32])
    requires { IsDescending parent.old }
    ensures { (least : ℕ → ℕ) → IsParentTable least parent.old → (v : ℕ) → v < length parent.new
        → slice_index parent.new v ≡ least v }
{
    for v in 0..parent.len() {
        parent[v] = parent[parent[v] as usize];
    }
}
