// The rule of one place.

ghost use Rattle.std.specs.Prelude.{◌≡◌, ◌↔◌, ◌≤◌, ◌<◌, ◌^◌, ℕ, IsTrue, length, Some, slice_get, take, drop};
ghost use Rattle.std.specs.List.{AllByRecursion};
ghost use Rattle.int_kinds.specs.Kind.{IsNumber};
ghost use Rattle.signal_codec.specs.Signal.{IsUsable};
ghost use Rattle.message_cells.specs.Message.{IsMessage};
ghost use Rattle.bytecode.specs.Rule.{CallsEarlier, GoesTheRightWay, IsArray, IsOperation, IsReached, KeepsRule, NamesWhatExists, ReturnsAsItSays, targets};
ghost use Rattle.bytecode.specs.Shape.{numbers_given};

use crate::code::{Code, Fun};
use crate::instr::Instr;
use crate::shape::{Flow, Named, Shape, shape_of};
use int_kinds::{BinOp, Kind, is_number};
use message_cells::is_message;
use signal_codec::usable;

/// The greatest depth.
const MAX_DEPTH: u32 = 1_000_000;

/// Whether a place with this instruction and depth keeps its rule, in the function of this number.
pub(crate) fn keeps_rule(
    code: &Code,
    number: usize,
    function: Fun,
    place: u32,
    instr: Instr,
    depth: u32,
) -> bool
    ensures { IsTrue result ↔ KeepsRule code.now number function place instr depth }
{
    let shape = shape_of(code, instr);
    depth <= MAX_DEPTH
        && (place != function.start || depth == 0)
        && shape.taken <= depth as usize
        && targets_agree(code, function, shape, place as usize, depth as usize)
        && goes_the_right_way(shape.flow, place)
        && calls_earlier(shape.flow, number)
        && returns_as_it_says(shape.flow, function, depth)
        && names_what_exists(code, shape.named)
}

/// Whether each place that it may go to lies in the function and has the depth with which it is
/// reached.
fn targets_agree(code: &Code, function: Fun, shape: Shape, place: usize, depth: usize) -> bool
    requires place { place < 2 ^ 32 }
    requires depth { depth < 2 ^ 32 }
    requires given { shape.given ≤ 2 }
    ensures { IsTrue result ↔ AllByRecursion (IsReached code.now function) (targets shape place depth) }
{
    let left = depth.saturating_sub(shape.taken);
    let given = left + usize::from(shape.given);
    match shape.flow {
        Flow::Next | Flow::Call(_) => is_reached(code, function, place + 1, given),
        Flow::Jump(target) => is_reached(code, function, target as usize, left),
        Flow::Branch(target) | Flow::Loop(target) => {
            is_reached(code, function, target as usize, left)
                && is_reached(code, function, place + 1, given)
        }
        Flow::Return => true,
    }
}

/// Whether a place lies in the function and has this depth.
fn is_reached(code: &Code, function: Fun, place: usize, depth: usize) -> bool
    ensures { IsTrue result ↔ IsReached code.now function (record { place = place; depth = depth }) }
{
    function.start as usize <= place
        && place < function.end as usize
        && code
            .depths
            .as_slice()
            .get(place)
            .is_some_and(|there| *there as usize == depth)
}

/// Whether a jump or a branch goes up, and a loop to its place or down.
fn goes_the_right_way(flow: Flow, place: u32) -> bool
    ensures { IsTrue result ↔ GoesTheRightWay flow place }
{
    match flow {
        Flow::Jump(target) | Flow::Branch(target) => place < target,
        Flow::Loop(target) => target <= place,
        Flow::Next | Flow::Call(_) | Flow::Return => true,
    }
}

/// Whether a call is of a function of a smaller number.
fn calls_earlier(flow: Flow, number: usize) -> bool
    ensures { IsTrue result ↔ CallsEarlier flow number }
{
    match flow {
        Flow::Call(function) => (function as usize) < number,
        Flow::Next | Flow::Jump(_) | Flow::Branch(_) | Flow::Loop(_) | Flow::Return => true,
    }
}

/// Whether the end of a function has the depth that it is said to give.
fn returns_as_it_says(flow: Flow, function: Fun, depth: u32) -> bool
    ensures { IsTrue result ↔ ReturnsAsItSays flow function depth }
{
    match flow {
        Flow::Return => depth == if function.gives { 1 } else { 0 },
        Flow::Next | Flow::Jump(_) | Flow::Branch(_) | Flow::Loop(_) | Flow::Call(_) => true,
    }
}

/// Whether what an instruction names exists.
fn names_what_exists(code: &Code, named: Named) -> bool
    ensures { IsTrue result ↔ NamesWhatExists code.now named }
{
    let kinds = code.cells.as_slice();
    match named {
        Named::Nothing => true,
        Named::Number(n) => is_number(n),
        Named::Cell(cell) => (cell as usize) < kinds.len(),
        Named::Array(base, len) => is_array(kinds, base, len),
        Named::Message(at) => is_message(kinds, at),
        Named::Messages(to, from) => is_message(kinds, to) && is_message(kinds, from),
        Named::Signal(layout, at) => usable(&layout) && is_message(kinds, at),
        Named::Field(field, at) => field <= 3 && is_message(kinds, at),
        Named::Operation(op) => is_operation(op),
        Named::Format(format) => (format as usize) < code.formats.len(),
        Named::Timer(timer) => (timer as usize) < code.timers.len(),
    }
}

/// Whether there is an array of at least one cell.
fn is_array(kinds: &[Kind], base: u32, len: u32) -> bool
    ensures { IsTrue result ↔ IsArray kinds.now base len }
{
    1 <= len && base as usize + len as usize <= kinds.len()
}

/// Whether an operator has a value on two numbers.
fn is_operation(op: BinOp) -> bool
    ensures { IsTrue result ↔ IsOperation op }
{
    !matches!(op, BinOp::OrElse | BinOp::AndAlso)
}
