// The memory of a node's runs.

ghost use Rattle.std.specs.Prelude.{◌≡◌, ◌++◌, drop, length, pos, replicate, slice_set, IfOk};
ghost use Rattle.stack_vm.specs.Frame.{message_of};
ghost use Rattle.stack_vm.specs.Memory.{IsMemoryOf, StaysMemory, with_starts};
ghost use Rattle.stack_vm.specs.Room.{calls_room, numbers_room};

use crate::cases::case_index;
use crate::frame::message;
use crate::room::numbers_room;
use crate::state::State;
use bytecode::Verified;
use can_frame::Frame;
use items::Items;
use std::alloc::Global;
use std::marker::Model;
use texts::NoMemory;

/// The cells of a node, the room for the numbers and calls of its runs, and an index of the long
/// runs of neighbouring Cases.
///
/// Contracts see it as a `MemoryState`.
#[derive(Debug, Drop)]
pub struct Memory {
    pub(crate) state: State,
    pub(crate) cases: Items<Items<(i128, usize)>>,
}

impl Model for Memory {
    ghost use Rattle.std.specs.Prelude.{◌≤◌, length};
    ghost use Rattle.stack_vm.specs.Memory.{MemoryState};

    ghost Value = { MemoryState };

    ghost view = { λ memory. record {
      cells = memory.state.cells;
      numbers_room = memory.state.numbers_room;
      calls_room = memory.state.calls_room;
      cases = memory.cases;
    } };

    ghost invariant = { λ memory. 15 ≤ length memory.state.cells };
}

impl Memory {
    /// The memory of the runs of this code. A cell holds its initial value, the last one where it
    /// has several, and 0 where it has none.
    ///
    /// Takes memory linear in the code, and time linear in it but for a sort of the labels of each
    /// run of 32 or more neighbouring Cases: the room for numbers is, for each function, its greatest
    /// depth and no more than its instructions.
    pub fn make(alloc: Global, code: &Verified) -> Result<Memory, NoMemory>
        ensures cells { IfOk result (λ memory.
            memory.cells ≡ with_starts (replicate (length code.now.cells) (pos 0)) code.now.starts) }
        ensures of_code { IfOk result (IsMemoryOf code.now) }
        ensures numbers { IfOk result (λ memory. memory.numbers_room ≡ numbers_room code.now) }
        ensures calls { IfOk result (λ memory. memory.calls_room ≡ calls_room code.now) }
    {
        let code = code.code();
        let cases = case_index(alloc, code)?;
        let numbers = numbers_room(code);
        let cells = code.cells.len();
        let functions = code.functions.len();
        let mut state = State::make(alloc, cells, numbers, functions)?;
        for start in code.starts.as_slice() {
            state.set_cell(start.0 as usize, start.1);
        }
        Ok(Memory { state, cases })
    }

    /// The cells.
    pub fn cells(&self) -> &[i128]
        ensures { result.now ≡ self.now.cells }
    {
        self.state.cells()
    }

    /// Sets cells 0 to 13 to the message of a frame that was on the bus at this moment in
    /// microseconds, sent by this node or received. The other cells stay.
    pub fn set_frame(&mut self, f: &Frame, sent: bool, now: u64)
        ensures sets { self.new ≡ record self.old {
          cells = message_of f.now sent now ++ drop 14 self.old.cells;
        } }
        ensures stays { StaysMemory self.old self.new }
    {
        self.state.put(0, &message(f, sent, now));
    }

    /// Sets cell 14 to a key. The other cells stay.
    pub fn set_key(&mut self, key: u8)
        ensures sets { self.new ≡ record self.old { cells = slice_set self.old.cells 14 (pos key) } }
        ensures stays { StaysMemory self.old self.new }
    {
        self.state.set_cell(14, i128::from(key));
    }
}
