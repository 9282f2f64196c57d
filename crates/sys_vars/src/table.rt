// The values that all nodes share.

ghost use Rattle.std.specs.Prelude.{◌≡◌, ◌<◌, All, length, replicate, slice_get, None, Some, IfOk};
ghost use Rattle.sys_vars.specs.Name.{HasLong, IsLong};
ghost use Rattle.sys_vars.specs.Table.{merged, noted, offered, shared_by};

use crate::item::SysItem;
use std::alloc::Global;
use std::marker::Model;
use texts::NoMemory;

/// The values of system variables, by their numbers in the order of the scenario, with a note for each of
/// the value that it gets when the round ends. Only [`SysTable::make`] takes memory.
#[derive(Debug, Drop)]
pub struct SysTable {
    values: Vec<i128>,
    notes: Vec<Option<i128>>,
    /// The notes of the last round.
    last: Vec<Option<i128>>,
}

impl Model for SysTable {
    ghost use Rattle.std.specs.Prelude.{is_some, map};
    ghost use Rattle.sys_vars.specs.Table.{IsShared, Shared};

    ghost Value = { Shared };

    ghost view = { λ table. record {
      values = table.values.items;
      notes = table.notes.items;
      changed = map is_some table.last.items;
    } };

    ghost invariant = { λ table. IsShared record {
      values = table.values.items;
      notes = table.notes.items;
      changed = map is_some table.last.items;
    } };
}

impl SysTable {
    /// The variables of these items, each with its first value and no note. Takes time and memory linear in
    /// their number.
    pub fn make(alloc: Global, items: &[SysItem]) -> Result<SysTable, NoMemory>
        requires { All HasLong items.now }
        ensures { IfOk result (λ table. table ≡ shared_by items.now) }
    {
        let mut values = Vec::new(alloc);
        let mut notes = Vec::new(alloc);
        let mut last = Vec::new(alloc);
        for item in items {
            values.push(item.value)?;
            notes.push(None)?;
            last.push(None)?;
        }
        Ok(SysTable {
            values,
            notes,
            last,
        })
    }

    /// The values, in order. Notes are not seen in them. Takes constant time.
    pub fn values(&self) -> &[i128]
        ensures values { result.now ≡ self.now.values }
        ensures longs { All IsLong result.now }
    {
        self.values.as_slice()
    }

    /// Notes a value for the variable of this number, in place of an earlier note, where it differs from the
    /// variable's. Takes constant time.
    pub fn offer(&mut self, number: u32, value: i128)
        requires number { number < length self.old.values }
        requires long { IsLong value }
        ensures { self.new ≡ offered self.old number value }
    {
        let number = number as usize;
        if value != self.values[number] {
            self.notes[number] = Some(value);
        }
    }

    /// Makes the notes the values, and forgets them. Takes time linear in the variables.
    pub fn close(&mut self)
        ensures { self.new ≡ merged self.old }
    {
        std::mem::swap(&mut self.notes, &mut self.last);
        take_notes(&mut self.values, self.last.as_slice());
        forget(&mut self.notes);
    }

    /// Whether the last `close` had a note for the variable of this number; false before the first one.
    /// Takes constant time.
    pub fn changed(&self, number: u32) -> bool
        requires { number < length self.now.values }
        ensures { slice_get self.now.changed number ≡ Some result }
    {
        self.last[number as usize].is_some()
    }
}

/// Puts each note in the place of the value at its number.
fn take_notes(values: &mut Vec<i128>, notes: &[Option<i128>])
    requires { length notes.now ≡ length values.old.items }
    ensures { values.new.items ≡ noted values.old.items notes.now }
{
    for number in 0..notes.len() {
        values[number] = notes[number].unwrap_or(values[number]);
    }
}

/// Takes all notes away.
fn forget(notes: &mut Vec<Option<i128>>)
    ensures { notes.new.items ≡ replicate (length notes.old.items) None }
{
    for number in 0..notes.len() {
        notes[number] = None;
    }
}
