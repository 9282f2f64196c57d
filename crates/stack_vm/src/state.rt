// The part of the machine's state that a run holds by itself.

use run_effects::Outcome;
use std::alloc::Global;
use std::marker::Model;
use std::mem;
use texts::NoMemory;

/// A place of the code, the numbers on the stack, where open calls return to, the cells and the
/// turns that are left.
///
/// The numbers and calls stand in lists of a fixed length, from their beginning up to `top` and
/// `open_calls`.
#[derive(Debug, Drop)]
pub(crate) struct State {
    cells: Vec<i128>,
    stack: Vec<i128>,
    top: usize,
    calls: Vec<usize>,
    open_calls: usize,
    place: usize,
    turns: u64,
}

impl Model for State {
    ghost use Rattle.std.specs.Prelude.{◌≤◌, length, reverse, take};
    ghost use Rattle.stack_vm.specs.Inside.State.{RunState};

    ghost Value = { RunState };

    ghost view = { λ state. record {
      place = state.place;
      stack = reverse (take state.top state.stack.items);
      calls = reverse (take state.open_calls state.calls.items);
      cells = state.cells.items;
      turns = state.turns;
      numbers_room = length state.stack.items;
      calls_room = length state.calls.items;
    } };

    ghost invariant = { λ state.
        (state.top ≤ length state.stack.items) × (state.open_calls ≤ length state.calls.items) };
}

impl State {
    ghost use Rattle.std.specs.Prelude.{◌≡◌, ◌+◌, ◌-◌, ◌^◌, ◌<◌, ◌≤◌, ◌↔◌, [], ◌∷◌, drop, length, pos, replicate, reverse, slice_index, slice_index_or, slice_set, take, IfOk, IsTrue, MatchResult, OnErr, OnOk};
    ghost use Rattle.std.specs.List.{splice};
    ghost use Rattle.run_effects.specs.declared.outcome.Outcome.TheVariants.{Cut};

    /// A state of this many cells of 0, with room for so many numbers and calls.
    pub(crate) fn make(
        alloc: Global,
        cells: usize,
        numbers: usize,
        calls: usize,
    ) -> Result<State, NoMemory>
        ensures { IfOk result (λ state. state ≡ record {
          place = 0;
          stack = [];
          calls = [];
          cells = replicate cells (pos 0);
          turns = 0;
          numbers_room = numbers;
          calls_room = calls;
        }) }
    {
        Ok(State {
            cells: vec![in alloc; 0; cells]?,
            stack: vec![in alloc; 0; numbers]?,
            top: 0,
            calls: vec![in alloc; 0; calls]?,
            open_calls: 0,
            place: 0,
            turns: 0,
        })
    }

    /// The state, in whose place one without cells and room is left.
    pub(crate) fn move_out(&mut self) -> State
        ensures { result ≡ self.old }
    {
        let alloc = self.alloc();
        let none = State {
            cells: Vec::new(alloc),
            stack: Vec::new(alloc),
            top: 0,
            calls: Vec::new(alloc),
            open_calls: 0,
            place: 0,
            turns: 0,
        };
        mem::replace(self, none)
    }

    /// The cells.
    pub(crate) fn cells(&self) -> &[i128]
        ensures { result.now ≡ self.now.cells }
    {
        self.cells.as_slice()
    }

    /// Sets a cell.
    pub(crate) fn set_cell(&mut self, cell: usize, n: i128)
        requires { cell < length self.old.cells }
        ensures { self.new ≡ record self.old { cells = slice_set self.old.cells cell n } }
    {
        self.cells[cell] = n;
    }

    /// Sets neighbouring cells.
    pub(crate) fn put(&mut self, at: usize, numbers: &[i128])
        requires { at + length numbers.now ≤ length self.old.cells }
        ensures { self.new ≡ record self.old {
          cells = splice self.old.cells at (at + length numbers.now) numbers.now;
        } }
    {
        self.cells[at..at + numbers.len()].copy_from_slice(numbers);
    }

    /// The place of the next instruction.
    #[inline]
    pub(crate) fn place(&self) -> usize
        ensures { result ≡ self.now.place }
    {
        self.place
    }

    /// The turns that are left.
    #[inline]
    pub(crate) fn turns(&self) -> u64
        ensures { result ≡ self.now.turns }
    {
        self.turns
    }

    /// The number in a cell.
    #[inline]
    pub(crate) fn cell(&self, cell: usize) -> i128
        requires { cell < length self.now.cells }
        ensures { result ≡ slice_index_or self.now.cells cell (pos 0) }
    {
        self.cells[cell]
    }

    /// The number on top.
    #[inline]
    pub(crate) fn top(&self) -> i128
        requires { 1 ≤ length self.now.stack }
        ensures { result ≡ slice_index_or self.now.stack 0 (pos 0) }
    {
        self.stack[self.top - 1]
    }

    /// The number below the top.
    #[inline]
    pub(crate) fn under(&self) -> i128
        requires { 2 ≤ length self.now.stack }
        ensures { result ≡ slice_index_or self.now.stack 1 (pos 0) }
    {
        self.stack[self.top - 2]
    }

    /// So many of the numbers that were given last, in the order in which they were given.
    #[inline]
    pub(crate) fn last_given(&self, count: usize) -> &[i128]
        requires { count ≤ length self.now.stack }
        ensures { result.now ≡ reverse (take count self.now.stack) }
    {
        &self.stack[self.top - count..self.top]
    }

    /// Where the state takes its memory.
    #[inline]
    pub(crate) fn alloc(&self) -> Global {
        *self.cells.allocator()
    }

    /// Goes on with one number more.
    #[inline]
    pub(crate) fn give(&mut self, n: i128)
        requires room { length self.old.stack < self.old.numbers_room }
        requires place { self.old.place + 1 < 2 ^ 64 }
        ensures { self.new ≡ record self.old { place = self.old.place + 1; stack = n ∷ self.old.stack } }
    {
        self.stack[self.top] = n;
        self.top += 1;
        self.place += 1;
    }

    /// Goes on with another number on top.
    #[inline]
    pub(crate) fn replace(&mut self, n: i128)
        requires there { 1 ≤ length self.old.stack }
        requires place { self.old.place + 1 < 2 ^ 64 }
        ensures { self.new ≡ record self.old {
          place = self.old.place + 1;
          stack = n ∷ drop 1 self.old.stack;
        } }
    {
        self.stack[self.top - 1] = n;
        self.place += 1;
    }

    /// Goes on with one number in the place of two.
    #[inline]
    pub(crate) fn replace_two(&mut self, n: i128)
        requires there { 2 ≤ length self.old.stack }
        requires place { self.old.place + 1 < 2 ^ 64 }
        ensures { self.new ≡ record self.old {
          place = self.old.place + 1;
          stack = n ∷ drop 2 self.old.stack;
        } }
    {
        self.top -= 1;
        self.stack[self.top - 1] = n;
        self.place += 1;
    }

    /// Goes on to the next place.
    #[inline]
    pub(crate) fn go_on(&mut self)
        requires { self.old.place + 1 < 2 ^ 64 }
        ensures { self.new ≡ record self.old { place = self.old.place + 1 } }
    {
        self.place += 1;
    }

    /// Goes on with so many numbers less.
    #[inline]
    pub(crate) fn forget(&mut self, count: usize)
        requires there { count ≤ length self.old.stack }
        requires place { self.old.place + 1 < 2 ^ 64 }
        ensures { self.new ≡ record self.old {
          place = self.old.place + 1;
          stack = drop count self.old.stack;
        } }
    {
        self.top -= count;
        self.place += 1;
    }

    /// Goes to a place with so many numbers less.
    #[inline]
    pub(crate) fn jump(&mut self, place: usize, count: usize)
        requires { count ≤ length self.old.stack }
        ensures { self.new ≡ record self.old { place = place; stack = drop count self.old.stack } }
    {
        self.top -= count;
        self.place = place;
    }

    /// Takes a turn. Where none is left, this ends the run.
    #[inline]
    pub(crate) fn take_turn(&mut self) -> Result<(), Outcome>
        ensures cut { MatchResult result (λ _. 0 < self.old.turns)
            (λ end. (end ≡ Cut) × (self.old.turns ≡ 0)) }
        ensures taken { OnOk result (self.new ≡ record self.old { turns = self.old.turns - 1 }) }
        ensures stays { OnErr result (self.new ≡ self.old) }
    {
        if self.turns == 0 {
            return Err(Outcome::Cut);
        }
        self.turns -= 1;
        Ok(())
    }

    /// Calls the function that begins at a place.
    #[inline]
    pub(crate) fn call(&mut self, place: usize)
        requires room { length self.old.calls < self.old.calls_room }
        requires place { self.old.place + 1 < 2 ^ 64 }
        ensures { self.new ≡ record self.old {
          place = place;
          calls = (self.old.place + 1) ∷ self.old.calls;
        } }
    {
        self.calls[self.open_calls] = self.place + 1;
        self.open_calls += 1;
        self.place = place;
    }

    /// Whether there is an open call.
    #[inline]
    pub(crate) fn is_called(&self) -> bool
        ensures { IsTrue result ↔ (1 ≤ length self.now.calls) }
    {
        self.open_calls > 0
    }

    /// Goes back to where the innermost call was.
    #[inline]
    pub(crate) fn give_back(&mut self)
        requires { 1 ≤ length self.old.calls }
        ensures { self.new ≡ record self.old {
          place = slice_index self.old.calls 0;
          calls = drop 1 self.old.calls;
        } }
    {
        self.open_calls -= 1;
        self.place = self.calls[self.open_calls];
    }

    /// Begins a run at a place, with so many turns.
    pub(crate) fn begin(&mut self, place: usize, turns: u64)
        ensures { self.new ≡ record self.old { place = place; stack = []; calls = []; turns = turns } }
    {
        self.top = 0;
        self.open_calls = 0;
        self.place = place;
        self.turns = turns;
    }
}
