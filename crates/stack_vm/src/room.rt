// How much room the runs of code need.

ghost use Rattle.std.specs.Prelude.{◌≡◌, ◌≤◌, ◌<◌, ◌^◌, length};
ghost use Rattle.bytecode.specs.Verified.{IsVerified};
ghost use Rattle.stack_vm.specs.Room.{greatest, numbers_room, room_of};

use bytecode::{Code, Fun};

/// How many numbers the runs of this code may have on the stack: at most as many as it has
/// instructions. Takes time linear in the code.
pub(crate) fn numbers_room(code: &Code) -> usize
    requires verified { IsVerified code.now }
    requires short { length code.now.instrs < 2 ^ 32 }
    ensures { result ≡ numbers_room code.now }
{
    let mut room = 0usize;
    for function in code.functions.as_slice() {
        room += room_of(code.depths.as_slice(), function) as usize;
    }
    room
}

/// How many numbers a function may have: as many as its greatest depth, and no more than places.
fn room_of(depths: &[u32], function: &Fun) -> u32
    requires order { function.now.start ≤ function.now.end }
    requires inside { function.now.end ≤ length depths.now }
    ensures { result ≡ room_of depths.now function.now }
{
    let places = &depths[function.start as usize..function.end as usize];
    greatest(places).min(function.end - function.start)
}

/// The greatest of some depths, or 0.
fn greatest(depths: &[u32]) -> u32
    ensures { result ≡ greatest depths.now }
{
    let mut most = 0;
    for depth in depths {
        most = most.max(*depth);
    }
    most
}
