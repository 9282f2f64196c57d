// Ranks of functions: a function calls only what is ranked no higher.

ghost use Rattle.std.specs.Prelude.{◌≡◌, ◌≤◌, ℕ, Some, slice_get, slice_index, true};
ghost use Rattle.check_calls.specs.Graph.{AreRanked, rows_of};

/// The number at an index, or 0 past the end.
pub(crate) fn number_at(numbers: &[u32], index: usize) -> u32
    ensures { result ≡ slice_index numbers.now index }
{
    if index < numbers.len() {
        numbers[index]
    } else {
        0
    }
}

/// Whether these places are ranked no higher than a rank.
fn are_no_higher(ranks: &[u32], rank: u32, places: &[u32]) -> bool
    ensures { result ≡ true → (k place : ℕ) → slice_get places.now k ≡ Some place →
        slice_index ranks.now place ≤ rank }
{
    for place in places {
        if number_at(ranks, *place as usize) > rank {
            return false;
        }
    }
    true
}

/// Whether what each place leads to is ranked no higher. Takes time linear in the rows.
pub(crate) fn are_ranked(ranks: &[u32], rows: &[Vec<u32>]) -> bool
    ensures { result ≡ true → AreRanked ranks.now (rows_of rows.now) }
{
    for from in 0..rows.len() {
        if !are_no_higher(ranks, number_at(ranks, from), rows[from].as_slice()) {
            return false;
        }
    }
    true
}
