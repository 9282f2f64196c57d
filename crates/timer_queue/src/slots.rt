// Slots for settings in the order in which these were made.

ghost use Rattle.std.specs.Prelude.{◌≡◌, ◌+◌, ◌*◌, ◌<◌, ◌≤◌, ◌↔◌, [], ◌∷◌, ◌++◌, length, slice_set, Some, None, IsTrue, IfOk, IfSome, MatchOption};
ghost use Rattle.timer_queue.specs.Timers.{first_due, least_due};
ghost use Rattle.timer_queue.specs.Inside.Slots.{settings_in, slot_at, HasNone, IsPlaceOf, IsPacked};

use crate::minima::{Minima, NEVER};
use crate::setting::Setting;
use std::alloc::Global;
use std::marker::Model;
use texts::NoMemory;

/// Slots, each empty or with a setting of a timer that no other slot has. Contracts see the list.
///
/// There is room for twice as many slots as timers.
#[derive(Drop)]
pub(crate) struct Slots {
    slots: Vec<Option<Setting>>,
    /// For each timer the place of its setting.
    places: Vec<Option<usize>>,
    /// How many slots have a setting.
    filled: usize,
    /// The due moments of the slots.
    moments: Minima,
}

impl Model for Slots {
    ghost use Rattle.timer_queue.specs.Inside.Slots.{SlotList};

    ghost Value = { SlotList };

    ghost use Rattle.timer_queue.specs.Fields.Slots.{slots_of, IsSlots};

    ghost view = { slots_of };

    ghost invariant = { IsSlots };
}

impl Slots {
    /// No slots yet, for so many timers. Takes time and memory linear in their number.
    pub(crate) fn make(alloc: Global, timers: u32) -> Result<Slots, NoMemory>
        ensures { IfOk result (λ slots. slots ≡ record { timers = timers; slots = [] }) }
    {
        let count = timers as usize;
        Ok(Slots {
            slots: Vec::with_capacity(alloc, 2 * count)?,
            places: vec![in alloc; None; count]?,
            filled: 0,
            moments: Minima::make(alloc, 2 * count)?,
        })
    }

    /// How many slots there are.
    pub(crate) fn len(&self) -> usize
        ensures count { result ≡ length self.now.slots }
        ensures room { result ≤ 2 * self.now.timers }
    {
        self.slots.len()
    }

    /// Whether there is no room for another slot.
    pub(crate) fn is_full(&self) -> bool
        ensures full { IsTrue result ↔ (length self.now.slots ≡ 2 * self.now.timers) }
        ensures room { length self.now.slots ≤ 2 * self.now.timers }
    {
        self.slots.len() == 2 * self.places.len()
    }

    /// The setting at the place, if there is one.
    pub(crate) fn get(&self, place: usize) -> Option<Setting>
        requires { place < length self.now.slots }
        ensures slot { result ≡ slot_at self.now.slots place }
        ensures exists { IfSome result (λ setting. setting.timer < self.now.timers) }
        ensures alone { IfSome result (λ setting. IsPlaceOf self.now.slots setting.timer place) }
    {
        self.slots[place]
    }

    /// The place of the timer's setting, or `None` where it has none.
    pub(crate) fn place_of(&self, timer: u32) -> Option<usize>
        requires { timer < self.now.timers }
        ensures { MatchOption result (HasNone self.now.slots timer) (IsPlaceOf self.now.slots timer) }
    {
        self.places[timer as usize]
    }

    /// Empties a slot.
    pub(crate) fn clear(&mut self, place: usize)
        requires { place < length self.old.slots }
        ensures { self.new ≡ record self.old { slots = slice_set self.old.slots place None } }
    {
        let Some(setting) = self.slots[place] else {
            return;
        };
        self.slots[place] = None;
        self.places[setting.timer as usize] = None;
        self.filled -= 1;
        self.moments.set(place, NEVER);
    }

    /// Puts the setting of a timer that has none into an empty slot.
    pub(crate) fn put(&mut self, place: usize, setting: Setting)
        requires within { place < length self.old.slots }
        requires empty { slot_at self.old.slots place ≡ None }
        requires exists { setting.timer < self.old.timers }
        requires inactive { HasNone self.old.slots setting.timer }
        ensures { self.new ≡ record self.old { slots = slice_set self.old.slots place (Some setting) } }
    {
        self.slots[place] = Some(setting);
        self.places[setting.timer as usize] = Some(place);
        self.filled += 1;
        self.moments.set(place, setting.due);
    }

    /// Adds an empty slot at the end.
    pub(crate) fn push(&mut self)
        requires { length self.old.slots < 2 * self.old.timers }
        ensures { self.new ≡ record self.old { slots = self.old.slots ++ None ∷ [] } }
    {
        self.slots.push(None).unwrap();
    }

    /// Removes the slots from the place on, which are empty, and before which all have settings.
    pub(crate) fn truncate(&mut self, filled: usize)
        requires { IsPacked self.old.slots filled (length self.old.slots) }
        ensures same { settings_in self.new.slots ≡ settings_in self.old.slots }
        ensures timers { self.new.timers ≡ self.old.timers }
        ensures room { length self.new.slots ≤ self.new.timers }
    {
        self.slots.truncate(filled);
    }

    /// The least due moment, or `None` where no slot has a setting.
    pub(crate) fn next_due(&self) -> Option<u64>
        ensures { result ≡ least_due (settings_in self.now.slots) }
    {
        if self.filled == 0 {
            return None;
        }
        Some(self.moments.least())
    }

    /// The first setting that is due at the moment or before. Takes constant time where it stands in the
    /// slot of the last one that was found for this moment or in the next, and time logarithmic in the
    /// number of timers else.
    pub(crate) fn first_due(&mut self, now: u64) -> Option<Setting>
        requires { now < NEVER }
        ensures same { self.new ≡ self.old }
        ensures first { result ≡ first_due (settings_in self.old.slots) now }
    {
        let place = self.moments.first_up_to(now)?;
        self.slots[place]
    }
}
