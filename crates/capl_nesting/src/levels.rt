// The levels of a scan for nesting.

ghost use Rattle.std.specs.Prelude.{◌≡◌, ◌<◌, ◌≤◌, ◌+◌, ◌-◌, ◌^◌, [], ◌∷◌, OnOk};
ghost use Rattle.capl_tree.specs.Nesting.{counted, cleared, closed};
ghost use Rattle.capl_nesting.specs.Inside.Levels.{counts, IsSummed};

use std::alloc::Global;
use texts::NoMemory;

/// The levels that are open, each with its count, and the depth that they make.
#[derive(Drop)]
pub(crate) struct Levels {
    /// The count of the last level.
    pub(crate) last: u32,
    /// The counts of the levels around it, the outermost first.
    pub(crate) outer: Vec<u32>,
    /// The number of the levels around the last, and all counts.
    pub(crate) depth: u32,
}

impl Levels {
    /// One level with the count 0.
    pub(crate) fn new(alloc: Global) -> Levels
        ensures levels { counts result ≡ 0 ∷ [] }
        ensures summed { IsSummed result }
    {
        Levels {
            last: 0,
            outer: Vec::new(alloc),
            depth: 0,
        }
    }

    /// Adds a level with the count 0.
    pub(crate) fn open(&mut self) -> Result<(), NoMemory>
        requires summed { IsSummed self.old }
        requires small { self.old.depth < 2 ^ 32 - 1 }
        ensures levels { OnOk result (counts self.new ≡ 0 ∷ counts self.old) }
        ensures summed { OnOk result (IsSummed self.new) }
        ensures deeper { OnOk result (self.new.depth ≡ self.old.depth + 1) }
    {
        self.outer.push(self.last)?;
        self.last = 0;
        self.depth += 1;
        Ok(())
    }

    /// Takes the last level away, where there is more than one.
    pub(crate) fn close(&mut self)
        requires { IsSummed self.old }
        ensures levels { counts self.new ≡ closed (counts self.old) }
        ensures summed { IsSummed self.new }
        ensures less { self.new.depth ≤ self.old.depth }
    {
        if let Some(next) = self.outer.pop() {
            self.depth -= self.last + 1;
            self.last = next;
        }
    }

    /// One more in the last level's count.
    pub(crate) fn add_one(&mut self)
        requires summed { IsSummed self.old }
        requires small { self.old.depth < 2 ^ 32 - 1 }
        ensures levels { counts self.new ≡ counted (counts self.old) }
        ensures summed { IsSummed self.new }
        ensures deeper { self.new.depth ≡ self.old.depth + 1 }
    {
        self.last += 1;
        self.depth += 1;
    }

    /// 0 as the last level's count.
    pub(crate) fn clear(&mut self)
        requires { IsSummed self.old }
        ensures levels { counts self.new ≡ cleared (counts self.old) }
        ensures summed { IsSummed self.new }
        ensures less { self.new.depth ≤ self.old.depth }
    {
        self.depth -= self.last;
        self.last = 0;
    }
}
