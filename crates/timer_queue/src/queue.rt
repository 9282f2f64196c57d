// The timers of a node.

ghost use Rattle.std.specs.Prelude.{◌≡◌, ◌+◌, ◌*◌, ◌^◌, ◌<◌, ◌≤◌, ◌↔◌, ℕ, false, [], ◌∷◌, ◌++◌, length, Some, IsNone, IfOk};
ghost use Rattle.std.specs.Option.{option_map};
ghost use Rattle.timer_queue.specs.Timers.{inactive, is_active, others, set_at, again, after_set, after_cancel, after_take, first_due, least_due, IsTimers};
ghost use Rattle.timer_queue.specs.Inside.Slots.{settings_in, IsPacked};

use crate::setting::Setting;
use crate::slots::Slots;
use std::alloc::Global;
use std::marker::Model;
use texts::NoMemory;

/// The timers of a node. Contracts see them as `Timers`: the settings of the active ones in order.
#[derive(Drop)]
pub struct TimerQueue {
    slots: Slots,
}

impl Model for TimerQueue {
    ghost use Rattle.timer_queue.specs.Timers.{Timers};

    ghost Value = { Timers };

    ghost use Rattle.timer_queue.specs.Fields.TimerQueue.{timers_of, IsQueue};

    ghost view = { timers_of };

    ghost invariant = { IsQueue };
}

impl TimerQueue {
    /// So many inactive timers, named by the numbers from 0. Takes time and memory linear in their
    /// number; no other call takes memory.
    pub fn make(alloc: Global, timers: u32) -> Result<TimerQueue, NoMemory>
        ensures { IfOk result (λ queue. queue ≡ inactive timers) }
    {
        Ok(TimerQueue {
            slots: Slots::make(alloc, timers)?,
        })
    }

    /// Sets a timer, active or not, for so many microseconds from now, once or again and again. It
    /// has this one setting then, the newest of all. Takes time logarithmic in the number of timers
    /// in the mean over many settings, and linear at the worst.
    pub fn set(&mut self, timer: u32, now: u64, micros: u64, cyclic: bool)
        requires exists { timer < self.old.count }
        requires in_time { now ≤ 2 ^ 63 }
        requires later { 0 < micros }
        requires in_range { micros < 2 ^ 63 }
        ensures set { self.new ≡ after_set self.old timer now micros cyclic }
        ensures valid { IsTimers self.new }
    {
        remove(&mut self.slots, timer);
        add(&mut self.slots, setting_at(timer, now, micros, cyclic));
    }

    /// Makes a timer inactive. Takes time logarithmic in the number of timers.
    pub fn cancel(&mut self, timer: u32)
        requires { timer < self.old.count }
        ensures cancelled { self.new ≡ after_cancel self.old timer }
        ensures valid { IsTimers self.new }
    {
        remove(&mut self.slots, timer);
    }

    /// Whether a timer is active.
    pub fn active(&self, timer: u32) -> bool
        requires { timer < self.now.count }
        ensures { result ≡ is_active self.now.settings timer }
    {
        self.slots.place_of(timer).is_some()
    }

    /// The least due moment, or `None` exactly where no timer is active.
    pub fn next_due(&self) -> Option<u64>
        ensures least { result ≡ least_due self.now.settings }
        ensures none { IsNone result ↔ (self.now.settings ≡ []) }
        ensures valid { IsTimers self.now }
    {
        self.slots.next_due()
    }

    /// The timer whose setting fires: of those that are due now or earlier the one that was set
    /// first, or `None` exactly where none is due. It becomes inactive, or where it is cyclic it is set
    /// again, as the newest setting, for one period after the moment at which it was due. Takes time
    /// as a setting does. Of that, the search takes constant time where the setting right before it
    /// fired last, at the same moment `now`, and logarithmic time else.
    pub fn take_due(&mut self, now: u64) -> Option<u32>
        requires { now ≤ 2 ^ 63 }
        ensures taken { result ≡ option_map (λ fired. fired.timer) (first_due self.old.settings now) }
        ensures after { self.new ≡ after_take self.old now }
        ensures valid { IsTimers self.new }
    {
        let fired = self.slots.first_due(now)?;
        remove(&mut self.slots, fired.timer);
        set_again(&mut self.slots, fired);
        Some(fired.timer)
    }
}

/// The setting of a timer for so many microseconds from now, once or again and again.
fn setting_at(timer: u32, now: u64, micros: u64, cyclic: bool) -> Setting
    requires { now + micros < 2 ^ 64 }
    ensures { result ≡ set_at timer now micros cyclic }
{
    let period = if cyclic { Some(micros) } else { None };
    Setting {
        timer,
        due: now + micros,
        period,
    }
}

/// Removes the setting of a timer, if it has one.
fn remove(slots: &mut Slots, timer: u32)
    requires { timer < slots.old.timers }
    ensures others { settings_in slots.new.slots ≡ others (settings_in slots.old.slots) timer }
    ensures timers { slots.new.timers ≡ slots.old.timers }
{
    if let Some(place) = slots.place_of(timer) {
        slots.clear(place);
    }
}

/// Adds the setting of a timer that has none, as the newest.
fn add(slots: &mut Slots, setting: Setting)
    requires exists { setting.timer < slots.old.timers }
    requires inactive { is_active (settings_in slots.old.slots) setting.timer ≡ false }
    ensures added { settings_in slots.new.slots ≡ settings_in slots.old.slots ++ setting ∷ [] }
    ensures timers { slots.new.timers ≡ slots.old.timers }
{
    make_room(slots);
    let place = slots.len();
    slots.push();
    slots.put(place, setting);
}

/// Makes room for a slot, where there is a timer. Takes time linear in the number of timers once in as
/// many settings, and no more than a test else.
fn make_room(slots: &mut Slots)
    requires { 0 < slots.old.timers }
    ensures same { settings_in slots.new.slots ≡ settings_in slots.old.slots }
    ensures timers { slots.new.timers ≡ slots.old.timers }
    ensures room { length slots.new.slots < 2 * slots.new.timers }
{
    if !slots.is_full() {
        return;
    }
    pack(slots);
}

/// Adds the setting that a fired one leaves, if it is cyclic.
fn set_again(slots: &mut Slots, fired: Setting)
    requires exists { fired.timer < slots.old.timers }
    requires inactive { is_active (settings_in slots.old.slots) fired.timer ≡ false }
    requires in_range { (period : ℕ) → fired.period ≡ Some period → fired.due + period < 2 ^ 64 }
    ensures added { settings_in slots.new.slots ≡ settings_in slots.old.slots ++ again fired }
    ensures timers { slots.new.timers ≡ slots.old.timers }
{
    if let Some(period) = fired.period {
        add(
            slots,
            Setting {
                timer: fired.timer,
                due: fired.due + period,
                period: fired.period,
            },
        );
    }
}

/// Moves the settings to the front, in their order, and removes the empty slots behind them.
fn pack(slots: &mut Slots)
    ensures same { settings_in slots.new.slots ≡ settings_in slots.old.slots }
    ensures timers { slots.new.timers ≡ slots.old.timers }
    ensures room { length slots.new.slots ≤ slots.new.timers }
{
    let mut filled = 0;
    for place in 0..slots.len() {
        filled = move_to(slots, place, filled);
    }
    slots.truncate(filled);
}

/// Moves the setting at a place, if there is one, to the first empty slot, behind which all slots before
/// the place are empty, and answers the place of the first empty slot then.
fn move_to(slots: &mut Slots, place: usize, filled: usize) -> usize
    requires within { place < length slots.old.slots }
    requires small { length slots.old.slots < 2 ^ 64 }
    requires packed { IsPacked slots.old.slots filled place }
    ensures packed { IsPacked slots.new.slots result (place + 1) }
    ensures same { settings_in slots.new.slots ≡ settings_in slots.old.slots }
    ensures timers { slots.new.timers ≡ slots.old.timers }
    ensures length { length slots.new.slots ≡ length slots.old.slots }
{
    let Some(setting) = slots.get(place) else {
        return filled;
    };
    slots.clear(place);
    slots.put(filled, setting);
    filled + 1
}
