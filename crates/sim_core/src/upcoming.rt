// What is still to come of a list.

ghost use Rattle.std.specs.Prelude.{◌≡◌, drop};

use std::marker::Model;

/// What is still to come of a list, in order. Contracts see the list of it.
#[derive(Drop)]
pub(crate) struct Upcoming<T> {
    list: Vec<T>,
    passed: usize,
}

impl<T> Model for Upcoming<T> {
    ghost use Rattle.std.specs.Prelude.{◌≤◌, List, drop, length};
    ghost use Rattle.std.specs.Coded.{coded_list};

    ghost Value = { List T };

    ghost coded = { coded_list T.code };

    ghost view = { λ upcoming. drop upcoming.passed upcoming.list.items };

    ghost invariant = { λ upcoming. upcoming.passed ≤ length upcoming.list.items };
}

impl<T> Upcoming<T> {
    /// All of a list.
    pub(crate) fn all_of(list: Vec<T>) -> Upcoming<T>
        ensures { result ≡ list.items }
    {
        Upcoming { list, passed: 0 }
    }

    /// What is still to come.
    pub(crate) fn as_slice(&self) -> &[T]
        ensures { result.now ≡ self.now }
    {
        &self.list[self.passed..]
    }

    /// Passes the first, where there is one.
    pub(crate) fn pass(&mut self)
        ensures { self.new ≡ drop 1 self.old }
    {
        if self.passed < self.list.len() {
            self.passed += 1;
        }
    }
}
