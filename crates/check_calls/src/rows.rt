// The functions that each function calls.

ghost use Rattle.std.specs.Prelude.{◌≡◌, ◌==◌, ◌∷◌, ◌<◌, ℕ, IfOk, Some, length, map, slice_get, slice_index};
ghost use Rattle.std.specs.List.{list_any};
ghost use Rattle.std.specs.List.Sorted.{IsStrictlyIncreasing};
ghost use Rattle.check_calls.specs.Graph.{AreApart, AreCallees, rows_of};
ghost use Rattle.check_calls.specs.Inside.Order.{AreWhere};

use crate::ranks::number_at;
use crate::statement::add_calls_of_all;
use check_names::Names;
use std::alloc::Global;
use texts::NoMemory;

/// The functions that each function calls, in program order, all by their places among the functions
/// of the program. Takes time and memory linear in the program.
pub(crate) fn callees_of_all(alloc: Global, names: &Names) -> Result<Vec<Vec<u32>>, NoMemory>
    ensures { IfOk result (λ rows. AreCallees names.now (rows_of rows.items)) }
{
    let mut rows = Vec::new(alloc);
    for function in names.functions() {
        let mut row = Vec::new(alloc);
        add_calls_of_all(names, function.body, &mut row)?;
        rows.push(row)?;
    }
    Ok(rows)
}

/// The numbers of the functions' procedures, in program order.
pub(crate) fn numbers_of_all(alloc: Global, names: &Names) -> Result<Vec<u32>, NoMemory>
    ensures { IfOk result (λ numbers. numbers.items ≡ map (λ f. f.number) names.now.functions) }
{
    let mut numbers = Vec::new(alloc);
    for function in names.functions() {
        numbers.push(function.number)?;
    }
    Ok(numbers)
}

/// How many numbers there are, which rise from 1 on.
pub(crate) fn count_of(numbers: &[u32]) -> u32
    requires { IsStrictlyIncreasing (0 ∷ numbers.now) }
    ensures { result ≡ length numbers.now }
{
    numbers.len() as u32
}

/// The numbers at these places, each 0 where there is none.
pub(crate) fn numbers_at(
    alloc: Global,
    numbers: &[u32],
    places: &[u32],
) -> Result<Vec<u32>, NoMemory>
    ensures { IfOk result (λ taken. taken.items ≡ map (slice_index numbers.now) places.now) }
{
    let mut taken = Vec::new(alloc);
    for place in places {
        taken.push(number_at(numbers, *place as usize))?;
    }
    Ok(taken)
}

/// Where each place below a count stands in a list of such places.
pub(crate) fn stand_at(alloc: Global, count: u32, places: &[u32]) -> Result<Vec<u32>, NoMemory>
    requires apart { AreApart places.now }
    requires within { (k place : ℕ) → slice_get places.now k ≡ Some place → place < count }
    ensures { IfOk result (λ stand. AreWhere stand.items places.now) }
{
    let mut stand = vec![in alloc; 0u32; count as usize]?;
    let mut at = 0u32;
    for place in places {
        stand[*place as usize] = at;
        at += 1;
    }
    Ok(stand)
}

/// Whether one of these places has this number.
pub(crate) fn is_among(numbers: &[u32], places: &[u32], number: u32) -> bool
    ensures { result ≡ list_any (λ place. slice_index numbers.now place == number) places.now }
{
    for place in places {
        if number_at(numbers, *place as usize) == number {
            return true;
        }
    }
    false
}
