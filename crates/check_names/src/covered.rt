// Numbers that ranges cover, where most ranges come in ascending order.

ghost use Rattle.std.specs.Prelude.{◌≡◌, ◌≤◌, ℕ, List, [], ◌∷◌, IfOk, OnOk};
ghost use Rattle.std.specs.Bool.{OnTrue};
ghost use Rattle.std.specs.List.{list_any};
ghost use Rattle.check_names.specs.Inside.Covered.{Covers, EndBefore, IsRising};
ghost use Rattle.check_names.specs.Inside.Ranges.{meet};

use crate::ranges::Ranges;
use std::alloc::Global;
use texts::NoMemory;

/// The numbers that ranges cover so far.
#[derive(Drop)]
pub(crate) struct Covered {
    /// The least and the greatest number of each range that began above all of these before it.
    rising: Vec<(u64, u64)>,
    /// The other ranges.
    others: Ranges,
}

/// Whether all ranges of a list in ascending order end before `low`.
fn end_before(rising: &[(u64, u64)], low: u64) -> bool
    ensures { IsRising rising.now → OnTrue result (EndBefore rising.now low) }
{
    match rising.last() {
        None => true,
        Some(last) => last.1 < low,
    }
}

/// Whether a range of a list in ascending order has a number in common with that from `low` to `high`. Takes
/// time logarithmic in the list.
fn one_meets(rising: &[(u64, u64)], low: u64, high: u64) -> bool
    requires { low ≤ high }
    ensures { IsRising rising.now → result ≡ list_any (meet (low, high)) rising.now }
{
    let place = rising.partition_point(|range| range.1 < low);
    place < rising.len() && rising[place].0 <= high
}

impl Covered {
    /// No numbers. Takes no memory.
    pub(crate) fn new(alloc: Global) -> Covered
        ensures { Covers result [] }
    {
        Covered {
            rising: Vec::new(alloc),
            others: Ranges::new(alloc),
        }
    }

    /// Takes one more range, and says whether it has numbers in common with those so far. Takes amortized
    /// constant time where it begins above all that came in order, and none came otherwise; else time
    /// logarithmic in the ranges so far, for itself and for each with which it is made one.
    pub(crate) fn add(&mut self, low: u64, high: u64) -> Result<bool, NoMemory>
        requires { low ≤ high }
        ensures known { (all : List (ℕ × ℕ)) → Covers self.old all →
            IfOk result (λ known. known ≡ list_any (meet (low, high)) all) }
        ensures taken { (all : List (ℕ × ℕ)) → Covers self.old all →
            OnOk result (Covers self.new ((low, high) ∷ all)) }
    {
        if end_before(self.rising.as_slice(), low) {
            let known = self.others.meets(low, high);
            self.rising.push((low, high))?;
            return Ok(known);
        }
        let rising = one_meets(self.rising.as_slice(), low, high);
        let others = self.others.add(low, high)?;
        Ok(rising | others)
    }
}
