// Ranges of numbers, to find those that have a number in common.

ghost use Rattle.std.specs.Prelude.{◌≡◌, ◌≤◌, ℕ, List, [], ◌∷◌, IfOk, IfSome, None, OnOk};
ghost use Rattle.std.specs.List.{list_any};
ghost use Rattle.check_names.specs.Inside.Ranges.{AreApart, AreRanges, IsMet, IsMetBy, meet};

use std::alloc::Global;
use std::collections::BTreeMap;
use texts::NoMemory;

/// Ranges of numbers, of which those with a number in common are kept as one.
#[derive(Drop)]
pub(crate) struct Ranges {
    /// The greatest number of each range, by its least.
    ends: BTreeMap<u64, u64>,
}

impl Ranges {
    /// No ranges. Takes no memory.
    pub(crate) fn new(alloc: Global) -> Ranges
        ensures { AreRanges result [] }
    {
        Ranges {
            ends: BTreeMap::new(alloc),
        }
    }

    /// A range that has a number in common with that from `low` to `high`, if there is one. Takes time
    /// logarithmic in the ranges, and little where there are none.
    fn met(&self, low: u64, high: u64) -> Option<(u64, u64)>
        requires { low ≤ high }
        ensures some { IfSome result (λ range. IsMetBy self.now low high range.0 range.1) }
        ensures none { AreApart self.now → result ≡ None → IsMet self.now low high → ⊥ }
    {
        if self.ends.is_empty() {
            return None;
        }
        let (start, end) = self.ends.range(..=high).next_back()?;
        if *end < low {
            return None;
        }
        Some((*start, *end))
    }

    /// Whether a range has a number in common with that from `low` to `high`. Takes time logarithmic in the
    /// ranges.
    pub(crate) fn meets(&self, low: u64, high: u64) -> bool
        requires { low ≤ high }
        ensures { (all : List (ℕ × ℕ)) → AreRanges self.now all →
            result ≡ list_any (meet (low, high)) all }
    {
        self.met(low, high).is_some()
    }

    /// Takes one more range, makes one of those with which it has numbers in common, and says whether there
    /// were some. Takes time logarithmic in the ranges so far, for itself and for each that it ends.
    pub(crate) fn add(&mut self, low: u64, high: u64) -> Result<bool, NoMemory>
        requires { low ≤ high }
        ensures known { (all : List (ℕ × ℕ)) → AreRanges self.old all →
            IfOk result (λ known. known ≡ list_any (meet (low, high)) all) }
        ensures taken { (all : List (ℕ × ℕ)) → AreRanges self.old all →
            OnOk result (AreRanges self.new ((low, high) ∷ all)) }
    {
        let mut low = low;
        let mut high = high;
        let mut known = false;
        while let Some((start, end)) = self.met(low, high) {
            known = true;
            self.ends.remove(&start);
            low = low.min(start);
            high = high.max(end);
        }
        self.ends.insert(low, high)?;
        Ok(known)
    }
}
