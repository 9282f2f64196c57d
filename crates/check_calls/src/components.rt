// The components of a program's calls: functions that reach each other by calls are of one component.

ghost use Rattle.std.specs.Prelude.{◌≡◌, ◌<◌, ◌^◌, ℕ, IfOk, List, length, slice_index, true};
ghost use Rattle.check_calls.specs.Components.{AreComponents};
ghost use Rattle.check_calls.specs.Graph.{AreRanked, Reaches, rows_of};

use crate::depth::component_roots;
use crate::marks::{mark_at, marks_reached, marks_reaching};
use crate::ranks::{are_ranked, number_at};
use crate::rows::numbers_at;
use std::alloc::Global;
use texts::NoMemory;

/// The components of a program's calls, each with a root, which is one of its functions, and a rank.
/// Functions are named by their places among the functions of the program.
#[derive(Drop)]
pub(crate) struct Components {
    /// For each function the root of its component.
    roots: Vec<u32>,
    /// For each function the rank of its component.
    ranks: Vec<u32>,
    /// Whether no function calls one of a higher rank.
    is_ranked: bool,
    /// For each function whether it is known that its root reaches it.
    reached: Vec<bool>,
    /// For each function whether it is known that it reaches its root.
    reaching: Vec<bool>,
}

impl Components {
    /// The components of the calls in these rows, from a depth-first order of all functions and where
    /// each stands in it. Takes time and memory linear in the rows.
    pub(crate) fn build(
        alloc: Global,
        rows: &[Vec<u32>],
        order: &[u32],
        places: &[u32],
    ) -> Result<Components, NoMemory>
        requires { length rows.now < 2 ^ 32 }
        ensures { IfOk result (AreComponents (rows_of rows.now)) }
    {
        let found = component_roots(alloc, rows, order)?;
        let roots = found.roots;
        let ranks = numbers_at(alloc, places, roots.as_slice())?;
        let is_ranked = are_ranked(ranks.as_slice(), rows);
        let reached = marks_reached(alloc, rows, roots.as_slice(), order)?;
        let reaching = marks_reaching(alloc, rows, roots.as_slice(), found.left.as_slice())?;
        Ok(Components {
            roots,
            ranks,
            is_ranked,
            reached,
            reaching,
        })
    }

    /// Whether a function is ranked below another, and no function calls one of a higher rank: then it
    /// does not reach the other. Takes constant time.
    pub(crate) fn is_below(&self, from: usize, to: usize) -> bool
        ensures { (rows : List (List ℕ)) → AreComponents rows self.now → result ≡ true →
            AreRanked self.now.ranks.items rows
            × (slice_index self.now.ranks.items from < slice_index self.now.ranks.items to) }
    {
        if !self.is_ranked {
            return false;
        }
        number_at(self.ranks.as_slice(), from) < number_at(self.ranks.as_slice(), to)
    }

    /// Whether a function is known to reach another by way of the root of both. Takes constant time.
    pub(crate) fn are_joined(&self, from: usize, to: usize) -> bool
        ensures { (rows : List (List ℕ)) → AreComponents rows self.now → result ≡ true →
            Reaches rows from to }
    {
        if number_at(self.roots.as_slice(), from) != number_at(self.roots.as_slice(), to) {
            return false;
        }
        mark_at(self.reaching.as_slice(), from) && mark_at(self.reached.as_slice(), to)
    }
}
