// The table of what each instruction takes and gives, where it goes, and what it names.

ghost use Rattle.std.specs.Prelude.{◌≡◌, ◌≤◌, Some, slice_get};
ghost use Rattle.bytecode.specs.Shape.{given_by_call, shape_of, taken_by_line};

use crate::code::Code;
use crate::instr::Instr;
use int_kinds::BinOp;
use signal_codec::Layout;

/// Where the machine goes after an instruction.
#[derive(Clone, Copy)]
pub(crate) enum Flow {
    /// To the next place.
    Next,
    /// To this place.
    Jump(u32),
    /// To this place or to the next one.
    Branch(u32),
    /// Back to this place, for which it takes a turn, or to the next one.
    Loop(u32),
    /// Through this function to the next place.
    Call(u32),
    /// Out of its function.
    Return,
}

/// What an instruction names.
#[derive(Clone, Copy)]
pub(crate) enum Named {
    /// Nothing that has to exist.
    Nothing,
    /// A number.
    Number(i128),
    /// A cell.
    Cell(u32),
    /// An array: its first cell and how many cells it has.
    Array(u32, u32),
    /// A message, by its first cell.
    Message(u32),
    /// Two messages.
    Messages(u32, u32),
    /// A layout and a message.
    Signal(Layout, u32),
    /// A field of a message, and the message.
    Field(u8, u32),
    /// An operation on two numbers.
    Operation(BinOp),
    /// A format.
    Format(u32),
    /// A timer.
    Timer(u32),
}

/// What the verifier knows of an instruction.
#[derive(Clone, Copy)]
pub(crate) struct Shape {
    /// How many numbers it takes.
    pub taken: usize,
    /// How many numbers it gives where it goes to the next place.
    pub given: u8,
    /// Where it goes.
    pub flow: Flow,
    /// What it names.
    pub named: Named,
}

/// The shape of an instruction in this code.
pub(crate) fn shape_of(code: &Code, instr: Instr) -> Shape
    ensures shape { result ≡ shape_of code.now instr }
    ensures given { result.given ≤ 2 }
{
    let (taken, given, flow, named) = match instr {
        Instr::Push(n) => (0, 1, Flow::Next, Named::Number(n)),
        Instr::Load(cell) => (0, 1, Flow::Next, Named::Cell(cell)),
        Instr::Store(cell) => (1, 1, Flow::Next, Named::Cell(cell)),
        Instr::Check(_) => (1, 1, Flow::Next, Named::Nothing),
        Instr::Elem(base, len) => (1, 1, Flow::Next, Named::Array(base, len)),
        Instr::SetElem(base, len) => (2, 1, Flow::Next, Named::Array(base, len)),
        Instr::Bytes(_, at) => (1, 1, Flow::Next, Named::Message(at)),
        Instr::SetBytes(_, at) => (2, 1, Flow::Next, Named::Message(at)),
        Instr::Sig(layout, at) => (0, 1, Flow::Next, Named::Signal(layout, at)),
        Instr::SetSig(layout, at) => (1, 1, Flow::Next, Named::Signal(layout, at)),
        Instr::SetField(field, at) => (1, 1, Flow::Next, Named::Field(field, at)),
        Instr::Bin(op, _) => (2, 1, Flow::Next, Named::Operation(op)),
        Instr::Neg(_) => (1, 1, Flow::Next, Named::Nothing),
        Instr::Inv(_) => (1, 1, Flow::Next, Named::Nothing),
        Instr::Conv(_) => (1, 1, Flow::Next, Named::Nothing),
        Instr::Not => (1, 1, Flow::Next, Named::Nothing),
        Instr::Dup => (1, 2, Flow::Next, Named::Nothing),
        Instr::Drop => (1, 0, Flow::Next, Named::Nothing),
        Instr::Jump(target) => (0, 0, Flow::Jump(target), Named::Nothing),
        Instr::Zero(target) => (1, 0, Flow::Branch(target), Named::Nothing),
        Instr::Case(target, label) => (1, 1, Flow::Branch(target), Named::Number(label)),
        Instr::Back(target) => (1, 0, Flow::Loop(target), Named::Nothing),
        Instr::Turn => (0, 0, Flow::Next, Named::Nothing),
        Instr::Call(f) => (0, given_by_call(code, f), Flow::Call(f), Named::Nothing),
        Instr::Ret => (0, 0, Flow::Return, Named::Nothing),
        Instr::Write(f) => (taken_by_line(code, f), 0, Flow::Next, Named::Format(f)),
        Instr::Send(at) => (0, 0, Flow::Next, Named::Message(at)),
        Instr::Copy(to, from) => (0, 0, Flow::Next, Named::Messages(to, from)),
        Instr::Stop => (0, 0, Flow::Next, Named::Nothing),
        Instr::Set(timer, _) => (1, 0, Flow::Next, Named::Timer(timer)),
        Instr::Cancel(timer) => (0, 0, Flow::Next, Named::Timer(timer)),
        Instr::Active(timer) => (0, 1, Flow::Next, Named::Timer(timer)),
        Instr::Now => (0, 1, Flow::Next, Named::Nothing),
    };
    Shape {
        taken,
        given,
        flow,
        named,
    }
}

/// How many numbers a line of a format takes.
fn taken_by_line(code: &Code, format: u32) -> usize
    ensures { result ≡ taken_by_line code.now format }
{
    let formats = code.formats.as_slice();
    formats
        .get(format as usize)
        .map_or(0, |format| format.numbers_taken())
}

/// How many numbers a call of a function gives: one or none.
fn given_by_call(code: &Code, function: u32) -> u8
    ensures value { result ≡ given_by_call code.now function }
    ensures small { result ≤ 1 }
{
    match code.functions.as_slice().get(function as usize) {
        Some(function) if function.gives => 1,
        Some(_) | None => 0,
    }
}
