// Tables of names.

ghost use Rattle.std.specs.Prelude.{◌≡◌, ℕ, List, IfOk, None, OnOk, Some, if◌then◌else◌, is_some};
ghost use Rattle.std.specs.Option.{option_or};
ghost use Rattle.std.specs.Str.{bytes_eq};
ghost use Rattle.check_names.specs.Inside.Table.{numbered};

use crate::key::Key;
use crate::seed::Seed;
use indexmap::IndexMap;
use std::alloc::Global;
use texts::NoMemory;

/// Names of the program with the first number that each was noted with.
#[derive(Drop)]
pub(crate) struct NameTable<'p> {
    numbers: IndexMap<Key<'p>, u32, Seed>,
}

impl<'p> NameTable<'p> {
    /// No names. Takes no memory.
    pub(crate) fn new(alloc: Global, seed: Seed) -> NameTable<'p>
        ensures { (name : List ℕ) → numbered result name ≡ None }
    {
        NameTable {
            numbers: IndexMap::with_hasher(alloc, seed),
        }
    }

    /// No names, with room for so many.
    pub(crate) fn with_room(
        alloc: Global,
        seed: Seed,
        room: usize,
    ) -> Result<NameTable<'p>, NoMemory>
        ensures { (name : List ℕ) → IfOk result (λ table. numbered table name ≡ None) }
    {
        Ok(NameTable {
            numbers: IndexMap::with_capacity_and_hasher(alloc, room, seed)?,
        })
    }

    /// The number of a name, or None where it was not noted. Takes time linear in the name, and
    /// constant in the number of names but for names of one hash.
    pub(crate) fn number(&self, name: &[u8]) -> Option<u32>
        ensures { result ≡ numbered self.now name.now }
    {
        self.numbers.get(&Key { bytes: name }).copied()
    }

    /// Notes a name with its number, if it was not noted before, and says whether it was. Takes the time
    /// of a look-up.
    pub(crate) fn note(&mut self, name: &'p [u8], number: u32) -> Result<bool, NoMemory>
        ensures noted { (other : List ℕ) → OnOk result (numbered self.new other ≡
            option_or (numbered self.old other) (if bytes_eq other name.now then Some number else None)) }
        ensures known { IfOk result (λ known. known ≡ is_some (numbered self.old name.now)) }
    {
        let Some(first) = self.numbers.insert(Key { bytes: name }, number)? else {
            return Ok(false);
        };
        // The number that it was first noted with stays.
        self.numbers.insert(Key { bytes: name }, first)?;
        Ok(true)
    }
}
