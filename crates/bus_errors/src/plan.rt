// The numbers of the transmissions that are disturbed.

ghost use Rattle.std.specs.Prelude.{◌≡◌};
ghost use Rattle.std.specs.FinSet as set;

use std::marker::Model;

/// A set of numbers, as a list in ascending order. A number may stand there more than once.
#[derive(Drop)]
pub(crate) struct Plan {
    numbers: Vec<u32>,
}

impl Model for Plan {
    ghost use Rattle.std.specs.Ordering.{nat_cmp};
    ghost use Rattle.std.specs.Coded.{coded_ℕ};
    ghost use Rattle.std.specs.FinSet as set;

    ghost Value = { set.FinSet nat_cmp };

    ghost coded = { set.code coded_ℕ };

    ghost use Rattle.bus_errors.specs.Inside.Plan.{numbers_of, IsPlan};

    ghost view = { numbers_of };

    ghost invariant = { IsPlan };
}

impl Plan {
    /// The set of these numbers, in time n log n.
    pub(crate) fn make(mut numbers: Vec<u32>) -> Plan
        ensures { result ≡ set.from_list numbers.items }
    {
        numbers.sort_unstable();
        Plan { numbers }
    }

    /// Whether the number is one of them, in time logarithmic in how many they are.
    pub(crate) fn has(&self, number: u64) -> bool
        ensures { result ≡ set.contains self.now number }
    {
        self.numbers
            .binary_search_by_key(&number, |planned| u64::from(*planned))
            .is_ok()
    }
}
