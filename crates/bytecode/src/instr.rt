// The instructions of the machine.

use int_kinds::{BinOp, Kind};
use signal_codec::Layout;

/// One instruction of the machine.
///
/// A cell, function, format or timer is given by its number, a message by its first cell and a
/// target by its place in the code.
#[derive(Clone, Copy, Debug, PartialEq, Eq)]
pub enum Instr {
    /// Gives a number.
    Push(i128),
    /// Gives the number in a cell.
    Load(u32),
    /// Takes a number, stores it in a cell and gives what is stored.
    Store(u32),
    /// Ends the run where the top is no index below this length.
    Check(u32),
    /// Takes an index, checks it and gives the number of this element of the array that begins at
    /// the first cell and has the second number of cells.
    Elem(u32, u32),
    /// Takes a number and an index below it, checks the index, stores the number in this element of
    /// an array and gives what is stored.
    SetElem(u32, u32),
    /// Takes an index, checks it and gives the number of a kind that begins there in the payload of
    /// a message.
    Bytes(Kind, u32),
    /// Takes a number and an index below it, checks the index, stores the number as a kind in the
    /// payload of a message and gives what is stored.
    SetBytes(Kind, u32),
    /// Gives the number that a signal of a message has.
    Sig(Layout, u32),
    /// Takes a number, sets a signal of a message to it and gives what is stored.
    SetSig(Layout, u32),
    /// Takes a number, stores it in a field of a message (0 is the identifier, 1 the length, 2 the
    /// remote bit, 3 the channel) and gives what is stored.
    SetField(u8, u32),
    /// Takes two numbers and gives the value of an operator on them in a kind.
    Bin(BinOp, Kind),
    /// Takes a number and gives its negative in a kind.
    Neg(Kind),
    /// Takes a number and gives it with each bit turned in a kind.
    Inv(Kind),
    /// Takes a number and gives it wrapped to a kind.
    Conv(Kind),
    /// Takes a number and gives 1 for 0, and 0 for any other.
    Not,
    /// Gives the top once more.
    Dup,
    /// Takes a number.
    Drop,
    /// Goes to a place.
    Jump(u32),
    /// Takes a number and goes to a place where it is 0.
    Zero(u32),
    /// Where the top is this number, takes it and goes to a place. The place stands before the number, so
    /// that an instruction has 32 bytes and not 48.
    Case(u32, i128),
    /// Takes a number and, where it is not 0, takes a turn and goes to a place.
    Back(u32),
    /// Takes a turn.
    Turn,
    /// Takes a turn and runs a function.
    Call(u32),
    /// Ends the function.
    Ret,
    /// Takes the numbers of a format and writes its line.
    Write(u32),
    /// Sends a message.
    Send(u32),
    /// Copies to the first message the second.
    Copy(u32, u32),
    /// Asks to stop the measurement.
    Stop,
    /// Takes a duration and sets a timer, which is cyclic or not.
    Set(u32, bool),
    /// Cancels a timer.
    Cancel(u32),
    /// Gives 1 where a timer is active, and 0 elsewhere.
    Active(u32),
    /// Gives the present moment in units of ten microseconds.
    Now,
}
