//! Counts against caps.
ghost use Rattle.std.specs.Prelude.{◌≡◌, ◌↔◌, ℕ, ◌<◌, ◌≤◌, length, slice_index, IsTrue};

/// Whether each number is at most its cap.
pub(crate) fn are_within(numbers: &[usize], caps: &[u32]) -> bool
    requires { length numbers.now ≡ length caps.now }
    ensures { IsTrue result ↔ ((i : ℕ) → i < length caps.now → slice_index numbers.now i ≤ slice_index caps.now i) }
{
    for i in 0..caps.len() {
        if numbers[i] > caps[i] as usize {
            return false;
        }
    }
    true
}
