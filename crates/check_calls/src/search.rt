// What is reached by calls.

ghost use Rattle.std.specs.Prelude.{◌≡◌, ◌<◌, ℕ, Bool, IfOk, OnOk, length, true};
ghost use Rattle.check_calls.specs.Graph.{Has, Keeps, rows_of};
ghost use Rattle.check_calls.specs.Inside.Search.{AllPass, AreFlagged, AreOnce, IsClosed, IsGrown};

use std::alloc::Global;
use texts::NoMemory;

/// A search under way.
#[derive(Drop)]
struct Search {
    /// For each place whether it was found.
    flags: Vec<bool>,
    /// What was found, in order.
    found: Vec<u32>,
}

impl Search {
    /// Notes a place as found, if there is such a place and it was not found before.
    fn note(&mut self, place: u32) -> Result<(), NoMemory>
        ensures flagged { OnOk result (AreFlagged self.old.flags.items self.old.found.items →
            AreFlagged self.new.flags.items self.new.found.items) }
        ensures here { OnOk result (AreFlagged self.old.flags.items self.old.found.items →
            place < length self.old.flags.items → Has self.new.found.items place) }
        ensures grown { OnOk result (IsGrown self.old.found.items self.new.found.items
            (λ other. other ≡ place)) }
        ensures once { OnOk result (AreOnce self.old.flags.items self.old.found.items →
            AreOnce self.new.flags.items self.new.found.items) }
        ensures count { length self.new.flags.items ≡ length self.old.flags.items }
    {
        let at = place as usize;
        if at >= self.flags.len() || self.flags[at] {
            return Ok(());
        }
        self.found.push(place)?;
        self.flags[at] = true;
        Ok(())
    }

    /// Notes places as found that were not found before.
    fn note_all(&mut self, places: &[u32]) -> Result<(), NoMemory>
        ensures flagged { OnOk result (AreFlagged self.old.flags.items self.old.found.items →
            AreFlagged self.new.flags.items self.new.found.items) }
        ensures here { OnOk result (AreFlagged self.old.flags.items self.old.found.items →
            (place : ℕ) → Has places.now place → place < length self.old.flags.items →
            Has self.new.found.items place) }
        ensures grown { OnOk result (IsGrown self.old.found.items self.new.found.items (Has places.now)) }
        ensures once { OnOk result (AreOnce self.old.flags.items self.old.found.items →
            AreOnce self.new.flags.items self.new.found.items) }
        ensures count { length self.new.flags.items ≡ length self.old.flags.items }
    {
        for place in places {
            self.note(*place)?;
        }
        Ok(())
    }
}

/// What is reached from a place, which is reached too where there is such a place. Takes time and memory
/// linear in the rows.
pub(crate) fn reached_from(
    alloc: Global,
    rows: &[Vec<u32>],
    from: u32,
) -> Result<Vec<u32>, NoMemory>
    ensures has { from < length rows.now → IfOk result (λ found. Has found.items from) }
    ensures closed { IfOk result (λ found. IsClosed (rows_of rows.now) found.items) }
    ensures least { (test : ℕ → Bool) → test from ≡ true → Keeps (rows_of rows.now) test →
        IfOk result (λ found. AllPass test found.items) }
{
    let flags = vec![in alloc; false; rows.len()]?;
    let found = Vec::new(alloc);
    let mut search = Search { flags, found };
    search.note(from)?;
    for head in 0..rows.len() {
        if head >= search.found.len() {
            return Ok(search.found);
        }
        let place = search.found[head] as usize;
        search.note_all(rows[place].as_slice())?;
    }
    Ok(search.found)
}
