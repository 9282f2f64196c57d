// What is stored as bytes and read again.

ghost use Rattle.std.specs.Prelude.{◌≡◌, ◌++◌, ◌||◌, ℕ, Bool, true, List, Option, Some, None, IfOk, OnOk, IsErrOf};
ghost use Rattle.object_file.specs.Inside.Reading.{IsLong, pair_at};
ghost use Rattle.object_file.specs.declared.stored.ReadRefusal.TheVariants.{Bad};

use std::alloc::{AllocError, AllocFailed, Global};
use texts::NoMemory;

/// Why nothing is read.
#[derive(Clone, Copy, Debug, PartialEq, Eq)]
pub(crate) enum ReadRefusal {
    /// The bytes begin with no spelling.
    Bad,
    /// There was no memory.
    NoMemory,
}

impl From<NoMemory> for ReadRefusal {
    ghost use Rattle.std.specs.Prelude.{◌≡◌};
    ghost use Rattle.object_file.specs.declared.stored.ReadRefusal.TheVariants.{NoMemory};

    ghost from_gives = { λ _ refusal. refusal ≡ NoMemory };

    fn from(_: NoMemory) -> ReadRefusal {
        ReadRefusal::NoMemory
    }
}

impl From<AllocError> for ReadRefusal {
    ghost use Rattle.std.specs.Prelude.{◌≡◌};
    ghost use Rattle.object_file.specs.declared.stored.ReadRefusal.TheVariants.{NoMemory};

    ghost from_gives = { λ _ refusal. refusal ≡ NoMemory };

    fn from(_: AllocError) -> ReadRefusal {
        ReadRefusal::NoMemory
    }
}

impl<T: Drop> From<AllocFailed<T>> for ReadRefusal {
    ghost use Rattle.std.specs.Prelude.{◌≡◌};
    ghost use Rattle.object_file.specs.declared.stored.ReadRefusal.TheVariants.{NoMemory};

    ghost from_gives = { λ _ refusal. refusal ≡ NoMemory };

    fn from(_: AllocFailed<T>) -> ReadRefusal {
        ReadRefusal::NoMemory
    }
}

/// What has a spelling in bytes, of which it can be read.
pub(crate) trait Stored: Drop {
    /// Its bytes.
    ghost spelling: { Self → List ℕ };

    /// What is true of each that is stored.
    ghost holds: { Self → Type 0 };

    /// What stands at the front of bytes, and what stands behind it.
    ghost at: { List ℕ → Option (Self × List ℕ) };

    /// Whether reading it takes memory.
    ghost allocates: { Bool };

    /// Appends its spelling.
    fn write(&self, into: &mut Vec<u8>) -> Result<(), NoMemory>
        requires { holds self.now }
        ensures { OnOk result (into.new.items ≡ into.old.items ++ spelling self.now) };

    /// What is spelled at the front, and what stands behind it.
    fn read(alloc: Global, bytes: &[u8]) -> Result<(Self, &[u8]), ReadRefusal>
        ensures spelled { IfOk result (λ found. bytes.now ≡ spelling found.0 ++ found.1.now) }
        ensures holds { IfOk result (λ found. holds found.0) }
        ensures bad { IsErrOf result Bad → at bytes.now ≡ None }
        ensures memory { IsErrOf result ReadRefusal.NoMemory → allocates ≡ true };

    /// What is spelled at the front is what stands there. The call does nothing: its contract is the law.
    fn complete()
        ensures { (x : Self) (rest : List ℕ) → holds x → at (spelling x ++ rest) ≡ Some (x, rest) };
}

/// What a list holds: the bytes that are left say how many of it there can be.
pub(crate) trait Record: Stored {
    /// How many bytes its spelling has at least.
    ghost LEAST: { ℕ };

    /// The same number.
    const LEAST: u8;

    /// What stands at the front of bytes takes so many of them. The call does nothing: its contract is the
    /// law.
    fn long_enough()
        ensures { IsLong LEAST Self.at };
}

impl<A: Stored, B: Stored> Stored for (A, B) {
    ghost spelling = { λ pair. A.spelling pair.0 ++ B.spelling pair.1 };

    ghost holds = { λ pair. A.holds pair.0 × B.holds pair.1 };

    ghost at = { pair_at A.at B.at };

    ghost allocates = { A.allocates || B.allocates };

    fn write(&self, into: &mut Vec<u8>) -> Result<(), NoMemory> {
        self.0.write(into)?;
        self.1.write(into)
    }

    fn read(alloc: Global, bytes: &[u8]) -> Result<((A, B), &[u8]), ReadRefusal> {
        A::complete();
        let (first, rest) = A::read(alloc, bytes)?;
        let (second, rest) = B::read(alloc, rest)?;
        Ok(((first, second), rest))
    }

    fn complete() {
        A::complete();
        B::complete();
    }
}
