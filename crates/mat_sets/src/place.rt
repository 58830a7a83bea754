//! Where an element stands in a rising slice.
ghost use Rattle.std.specs.Prelude.{MatchResult};
ghost use Rattle.mat_sets.specs.{Places.{IsGap, IsPlace}, Sets.{IsRising}};

/// The place of x, or where it would stand, by binary search.
pub(crate) fn place(items: &[u32], x: u32) -> Result<usize, usize>
    requires { IsRising items.now }
    ensures { MatchResult result (IsPlace items.now x) (IsGap items.now x) }
{
    items.binary_search(&x)
}

/// The place of x, or where it would stand, found at once where it is above all items.
pub(crate) fn place_to_add(items: &[u32], x: u32) -> Result<usize, usize>
    requires { IsRising items.now }
    ensures { MatchResult result (IsPlace items.now x) (IsGap items.now x) }
{
    let len = items.len();
    if len == 0 || items[len - 1] < x {
        Err(len)
    } else {
        place(items, x)
    }
}
