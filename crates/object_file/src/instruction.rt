// Instructions.

ghost use Rattle.std.specs.Prelude.{◌≡◌, ◌++◌, ◌∷◌, IfOk, IfSome, IsErrOf, None, Some, false, ⊤};
ghost use Rattle.std.specs.Int.{w128};
ghost use Rattle.std.specs.Int.RustNames.{FitsSigned};
ghost use Rattle.object_file.specs.Instruction.{IsInRange, instruction_text, layout_text, operator_number, operator_text};
ghost use Rattle.object_file.specs.Number.{byte, dword, integer, truth};
ghost use Rattle.object_file.specs.Table.{kind_text};
ghost use Rattle.object_file.specs.Inside.Instructions.{instruction_by, operands_of, operator_of, pair_by, with_field_and_place, with_kind, with_kind_and_place, with_layout_and_place, with_nothing, with_number, with_number_and_place, with_operation, with_place, with_place_and_truth, with_two_places};
ghost use Rattle.object_file.specs.declared.stored.ReadRefusal.TheVariants.{Bad};

use crate::operand::{Operands, Pair};
use crate::stored::{ReadRefusal, Record, Stored};
use bytecode::Instr;
use int_kinds::{BinOp, Kind};
use signal_codec::Layout;
use std::alloc::Global;
use texts::NoMemory;

/// What stands behind the number of an instruction, if it is one.
fn operands_of(n: u8) -> Option<Operands>
    ensures { result ≡ operands_of n }
{
    match n {
        0 => Some(Operands::Number),
        1 => Some(Operands::Place),
        2 => Some(Operands::Place),
        3 => Some(Operands::Place),
        4 => Some(Operands::Two(Pair::Places)),
        5 => Some(Operands::Two(Pair::Places)),
        6 => Some(Operands::Two(Pair::KindAndPlace)),
        7 => Some(Operands::Two(Pair::KindAndPlace)),
        8 => Some(Operands::Two(Pair::LayoutAndPlace)),
        9 => Some(Operands::Two(Pair::LayoutAndPlace)),
        10 => Some(Operands::Two(Pair::FieldAndPlace)),
        11 => Some(Operands::Two(Pair::Operation)),
        12 => Some(Operands::Kind),
        13 => Some(Operands::Kind),
        14 => Some(Operands::Kind),
        15 => Some(Operands::Nothing),
        16 => Some(Operands::Nothing),
        17 => Some(Operands::Nothing),
        18 => Some(Operands::Place),
        19 => Some(Operands::Place),
        20 => Some(Operands::Two(Pair::NumberAndPlace)),
        21 => Some(Operands::Place),
        22 => Some(Operands::Nothing),
        23 => Some(Operands::Place),
        24 => Some(Operands::Nothing),
        25 => Some(Operands::Place),
        26 => Some(Operands::Place),
        27 => Some(Operands::Two(Pair::Places)),
        28 => Some(Operands::Nothing),
        29 => Some(Operands::Two(Pair::PlaceAndTruth)),
        30 => Some(Operands::Place),
        31 => Some(Operands::Place),
        32 => Some(Operands::Nothing),
        _ => None,
    }
}

/// The operator of a number.
fn operator_of(n: u8) -> Option<BinOp>
    ensures found { result ≡ operator_of n }
    ensures number { IfSome result (λ op. operator_number op ≡ n) }
{
    match n {
        0 => Some(BinOp::OrElse),
        1 => Some(BinOp::AndAlso),
        2 => Some(BinOp::Or),
        3 => Some(BinOp::Xor),
        4 => Some(BinOp::And),
        5 => Some(BinOp::Equal),
        6 => Some(BinOp::NotEqual),
        7 => Some(BinOp::Less),
        8 => Some(BinOp::LessEqual),
        9 => Some(BinOp::Greater),
        10 => Some(BinOp::GreaterEqual),
        11 => Some(BinOp::Shl),
        12 => Some(BinOp::Shr),
        13 => Some(BinOp::Add),
        14 => Some(BinOp::Sub),
        15 => Some(BinOp::Mul),
        16 => Some(BinOp::Div),
        17 => Some(BinOp::Rem),
        _ => None,
    }
}

/// The number of an operator.
fn operator_number(op: BinOp) -> u8
    ensures { result ≡ operator_number op }
{
    match op {
        BinOp::OrElse => 0,
        BinOp::AndAlso => 1,
        BinOp::Or => 2,
        BinOp::Xor => 3,
        BinOp::And => 4,
        BinOp::Equal => 5,
        BinOp::NotEqual => 6,
        BinOp::Less => 7,
        BinOp::LessEqual => 8,
        BinOp::Greater => 9,
        BinOp::GreaterEqual => 10,
        BinOp::Shl => 11,
        BinOp::Shr => 12,
        BinOp::Add => 13,
        BinOp::Sub => 14,
        BinOp::Mul => 15,
        BinOp::Div => 16,
        BinOp::Rem => 17,
    }
}

impl Stored for BinOp {
    ghost use Rattle.object_file.specs.Instruction.{operator_text};
    ghost use Rattle.object_file.specs.Inside.Instructions.{operator_at};

    ghost spelling = { operator_text };

    ghost holds = { λ _. ⊤ };

    ghost at = { operator_at };

    ghost allocates = { false };

    fn write(&self, into: &mut Vec<u8>) -> Result<(), NoMemory> {
        operator_number(*self).write(into)
    }

    fn read(alloc: Global, bytes: &[u8]) -> Result<(BinOp, &[u8]), ReadRefusal> {
        u8::complete();
        let (n, rest) = u8::read(alloc, bytes)?;
        let op = operator_of(n).ok_or(ReadRefusal::Bad)?;
        Ok((op, rest))
    }

    fn complete() {}
}

impl Stored for Layout {
    ghost use Rattle.object_file.specs.Instruction.{layout_text};
    ghost use Rattle.object_file.specs.Inside.Instructions.{layout_at};

    ghost spelling = { layout_text };

    ghost holds = { λ _. ⊤ };

    ghost at = { layout_at };

    ghost allocates = { false };

    fn write(&self, into: &mut Vec<u8>) -> Result<(), NoMemory> {
        (self.start, (self.len, (self.big, self.signed))).write(into)
    }

    fn read(alloc: Global, bytes: &[u8]) -> Result<(Layout, &[u8]), ReadRefusal> {
        let ((start, (len, (big, signed))), rest) = <(u16, (u16, (bool, bool))) as Stored>::read(
            alloc, bytes,
        )?;
        let layout = Layout {
            start,
            len,
            big,
            signed,
        };
        Ok((layout, rest))
    }

    fn complete() {
        <(u16, (u16, (bool, bool))) as Stored>::complete();
    }
}

/// The instruction of a number that holds nothing.
fn with_nothing(n: u8) -> Option<Instr>
    ensures found { result ≡ with_nothing n }
    ensures text { IfSome result (λ instr. instruction_text instr ≡ byte n) }
    ensures range { IfSome result IsInRange }
{
    match n {
        15 => Some(Instr::Not),
        16 => Some(Instr::Dup),
        17 => Some(Instr::Drop),
        22 => Some(Instr::Turn),
        24 => Some(Instr::Ret),
        28 => Some(Instr::Stop),
        32 => Some(Instr::Now),
        _ => None,
    }
}

/// The instruction of a number that holds a cell, a place or an entry of a table.
fn with_place(n: u8, place: u32) -> Option<Instr>
    ensures found { result ≡ with_place n place }
    ensures text { IfSome result (λ instr. instruction_text instr ≡ byte n ++ dword place) }
    ensures range { IfSome result IsInRange }
{
    match n {
        1 => Some(Instr::Load(place)),
        2 => Some(Instr::Store(place)),
        3 => Some(Instr::Check(place)),
        18 => Some(Instr::Jump(place)),
        19 => Some(Instr::Zero(place)),
        21 => Some(Instr::Back(place)),
        23 => Some(Instr::Call(place)),
        25 => Some(Instr::Write(place)),
        26 => Some(Instr::Send(place)),
        30 => Some(Instr::Cancel(place)),
        31 => Some(Instr::Active(place)),
        _ => None,
    }
}

/// The instruction of a number that holds two of them.
fn with_two_places(n: u8, first: u32, second: u32) -> Option<Instr>
    ensures found { result ≡ with_two_places n (first, second) }
    ensures text { IfSome result (λ instr. instruction_text instr ≡ byte n ++ dword first ++ dword second) }
    ensures range { IfSome result IsInRange }
{
    match n {
        4 => Some(Instr::Elem(first, second)),
        5 => Some(Instr::SetElem(first, second)),
        27 => Some(Instr::Copy(first, second)),
        _ => None,
    }
}

/// The instruction of a number that holds a kind.
fn with_kind(n: u8, kind: Kind) -> Option<Instr>
    ensures found { result ≡ with_kind n kind }
    ensures text { IfSome result (λ instr. instruction_text instr ≡ byte n ++ kind_text kind) }
    ensures range { IfSome result IsInRange }
{
    match n {
        12 => Some(Instr::Neg(kind)),
        13 => Some(Instr::Inv(kind)),
        14 => Some(Instr::Conv(kind)),
        _ => None,
    }
}

/// The instruction of a number that holds a kind and a message.
fn with_kind_and_place(n: u8, kind: Kind, at: u32) -> Option<Instr>
    ensures found { result ≡ with_kind_and_place n (kind, at) }
    ensures text { IfSome result (λ instr. instruction_text instr ≡ byte n ++ kind_text kind ++ dword at) }
    ensures range { IfSome result IsInRange }
{
    match n {
        6 => Some(Instr::Bytes(kind, at)),
        7 => Some(Instr::SetBytes(kind, at)),
        _ => None,
    }
}

/// The instruction of a number that holds a layout and a message.
fn with_layout_and_place(n: u8, layout: Layout, at: u32) -> Option<Instr>
    ensures found { result ≡ with_layout_and_place n (layout, at) }
    ensures text { IfSome result (λ instr.
        instruction_text instr ≡ byte n ++ layout_text layout ++ dword at) }
    ensures range { IfSome result IsInRange }
{
    match n {
        8 => Some(Instr::Sig(layout, at)),
        9 => Some(Instr::SetSig(layout, at)),
        _ => None,
    }
}

/// The instruction of a number that holds a field and a message, where it is one of the four fields.
fn with_field_and_place(n: u8, field: u8, at: u32) -> Option<Instr>
    ensures found { result ≡ with_field_and_place n (field, at) }
    ensures text { IfSome result (λ instr. instruction_text instr ≡ byte n ++ byte field ++ dword at) }
    ensures range { IfSome result IsInRange }
{
    if n == 10 && field <= 3 {
        Some(Instr::SetField(field, at))
    } else {
        None
    }
}

/// The instruction of a number that holds a number of 128 bits.
fn with_number(n: u8, number: i128) -> Option<Instr>
    ensures found { result ≡ with_number n number }
    ensures text { IfSome result (λ instr. instruction_text instr ≡ byte n ++ integer number) }
    ensures range { FitsSigned w128 number → IfSome result IsInRange }
{
    if n == 0 {
        Some(Instr::Push(number))
    } else {
        None
    }
}

/// The instruction of a number that holds an operator and a kind.
fn with_operation(n: u8, op: BinOp, kind: Kind) -> Option<Instr>
    ensures found { result ≡ with_operation n (op, kind) }
    ensures text { IfSome result (λ instr.
        instruction_text instr ≡ byte n ++ operator_text op ++ kind_text kind) }
    ensures range { IfSome result IsInRange }
{
    if n == 11 {
        Some(Instr::Bin(op, kind))
    } else {
        None
    }
}

/// The instruction of a number that holds a number of 128 bits and a place.
fn with_number_and_place(n: u8, label: i128, target: u32) -> Option<Instr>
    ensures found { result ≡ with_number_and_place n (label, target) }
    ensures text { IfSome result (λ instr. instruction_text instr ≡ byte n ++ integer label ++ dword target) }
    ensures range { FitsSigned w128 label → IfSome result IsInRange }
{
    if n == 20 {
        Some(Instr::Case(target, label))
    } else {
        None
    }
}

/// The instruction of a number that holds a timer and a truth value.
fn with_place_and_truth(n: u8, timer: u32, cyclic: bool) -> Option<Instr>
    ensures found { result ≡ with_place_and_truth n (timer, cyclic) }
    ensures text { IfSome result (λ instr. instruction_text instr ≡ byte n ++ dword timer ++ truth cyclic) }
    ensures range { IfSome result IsInRange }
{
    if n == 29 {
        Some(Instr::Set(timer, cyclic))
    } else {
        None
    }
}

/// What was made, with what stands behind it.
fn made(instr: Option<Instr>, rest: &[u8]) -> Result<(Instr, &[u8]), ReadRefusal>
    ensures some { IfOk result (λ found. (instr ≡ Some found.0) × (found.1.now ≡ rest.now)) }
    ensures none { IsErrOf result Bad → instr ≡ None }
    ensures memory { ¬ (IsErrOf result ReadRefusal.NoMemory) }
{
    match instr {
        Some(instr) => Ok((instr, rest)),
        None => Err(ReadRefusal::Bad),
    }
}

/// The instruction of a number that holds these two, and what stands behind it.
fn read_pair(alloc: Global, n: u8, pair: Pair, bytes: &[u8]) -> Result<(Instr, &[u8]), ReadRefusal>
    ensures spelled { IfOk result (λ found. n ∷ bytes.now ≡ instruction_text found.0 ++ found.1.now) }
    ensures range { IfOk result (λ found. IsInRange found.0) }
    ensures bad { IsErrOf result Bad → pair_by pair n bytes.now ≡ None }
    ensures memory { ¬ (IsErrOf result ReadRefusal.NoMemory) }
{
    <(u32, u32) as Stored>::complete();
    <(Kind, u32) as Stored>::complete();
    <(Layout, u32) as Stored>::complete();
    <(u8, u32) as Stored>::complete();
    <(BinOp, Kind) as Stored>::complete();
    <(i128, u32) as Stored>::complete();
    <(u32, bool) as Stored>::complete();
    match pair {
        Pair::Places => {
            let ((first, second), rest) = <(u32, u32) as Stored>::read(alloc, bytes)?;
            made(with_two_places(n, first, second), rest)
        }
        Pair::KindAndPlace => {
            let ((kind, at), rest) = <(Kind, u32) as Stored>::read(alloc, bytes)?;
            made(with_kind_and_place(n, kind, at), rest)
        }
        Pair::LayoutAndPlace => {
            let ((layout, at), rest) = <(Layout, u32) as Stored>::read(alloc, bytes)?;
            made(with_layout_and_place(n, layout, at), rest)
        }
        Pair::FieldAndPlace => {
            let ((field, at), rest) = <(u8, u32) as Stored>::read(alloc, bytes)?;
            made(with_field_and_place(n, field, at), rest)
        }
        Pair::Operation => {
            let ((op, kind), rest) = <(BinOp, Kind) as Stored>::read(alloc, bytes)?;
            made(with_operation(n, op, kind), rest)
        }
        Pair::NumberAndPlace => {
            let ((label, target), rest) = <(i128, u32) as Stored>::read(alloc, bytes)?;
            made(with_number_and_place(n, label, target), rest)
        }
        Pair::PlaceAndTruth => {
            let ((timer, cyclic), rest) = <(u32, bool) as Stored>::read(alloc, bytes)?;
            made(with_place_and_truth(n, timer, cyclic), rest)
        }
    }
}

/// The instruction of a number that has these operands, and what stands behind it.
fn read_operands(
    alloc: Global,
    n: u8,
    operands: Operands,
    bytes: &[u8],
) -> Result<(Instr, &[u8]), ReadRefusal>
    ensures spelled { IfOk result (λ found. n ∷ bytes.now ≡ instruction_text found.0 ++ found.1.now) }
    ensures range { IfOk result (λ found. IsInRange found.0) }
    ensures bad { IsErrOf result Bad → instruction_by operands n bytes.now ≡ None }
    ensures memory { ¬ (IsErrOf result ReadRefusal.NoMemory) }
{
    i128::complete();
    u32::complete();
    Kind::complete();
    match operands {
        Operands::Nothing => made(with_nothing(n), bytes),
        Operands::Number => {
            let (number, rest) = i128::read(alloc, bytes)?;
            made(with_number(n, number), rest)
        }
        Operands::Place => {
            let (place, rest) = u32::read(alloc, bytes)?;
            made(with_place(n, place), rest)
        }
        Operands::Kind => {
            let (kind, rest) = Kind::read(alloc, bytes)?;
            made(with_kind(n, kind), rest)
        }
        Operands::Two(pair) => read_pair(alloc, n, pair, bytes),
    }
}

impl Stored for Instr {
    ghost use Rattle.object_file.specs.Instruction.{IsInRange, instruction_text};
    ghost use Rattle.object_file.specs.Inside.Instructions.{instruction_at};

    ghost spelling = { instruction_text };

    ghost holds = { IsInRange };

    ghost at = { instruction_at };

    ghost allocates = { false };

    fn write(&self, into: &mut Vec<u8>) -> Result<(), NoMemory> {
        match self {
            Instr::Push(n) => (0u8, *n).write(into),
            Instr::Load(cell) => (1u8, *cell).write(into),
            Instr::Store(cell) => (2u8, *cell).write(into),
            Instr::Check(len) => (3u8, *len).write(into),
            Instr::Elem(base, len) => (4u8, (*base, *len)).write(into),
            Instr::SetElem(base, len) => (5u8, (*base, *len)).write(into),
            Instr::Bytes(kind, at) => (6u8, (*kind, *at)).write(into),
            Instr::SetBytes(kind, at) => (7u8, (*kind, *at)).write(into),
            Instr::Sig(layout, at) => (8u8, (*layout, *at)).write(into),
            Instr::SetSig(layout, at) => (9u8, (*layout, *at)).write(into),
            Instr::SetField(field, at) => (10u8, (*field, *at)).write(into),
            Instr::Bin(op, kind) => (11u8, (*op, *kind)).write(into),
            Instr::Neg(kind) => (12u8, *kind).write(into),
            Instr::Inv(kind) => (13u8, *kind).write(into),
            Instr::Conv(kind) => (14u8, *kind).write(into),
            Instr::Not => 15u8.write(into),
            Instr::Dup => 16u8.write(into),
            Instr::Drop => 17u8.write(into),
            Instr::Jump(target) => (18u8, *target).write(into),
            Instr::Zero(target) => (19u8, *target).write(into),
            Instr::Case(target, label) => (20u8, (*label, *target)).write(into),
            Instr::Back(target) => (21u8, *target).write(into),
            Instr::Turn => 22u8.write(into),
            Instr::Call(function) => (23u8, *function).write(into),
            Instr::Ret => 24u8.write(into),
            Instr::Write(format) => (25u8, *format).write(into),
            Instr::Send(at) => (26u8, *at).write(into),
            Instr::Copy(to, from) => (27u8, (*to, *from)).write(into),
            Instr::Stop => 28u8.write(into),
            Instr::Set(timer, cyclic) => (29u8, (*timer, *cyclic)).write(into),
            Instr::Cancel(timer) => (30u8, *timer).write(into),
            Instr::Active(timer) => (31u8, *timer).write(into),
            Instr::Now => 32u8.write(into),
        }
    }

    fn read(alloc: Global, bytes: &[u8]) -> Result<(Instr, &[u8]), ReadRefusal> {
        u8::complete();
        let (n, rest) = u8::read(alloc, bytes)?;
        match operands_of(n) {
            Some(operands) => read_operands(alloc, n, operands, rest),
            None => Err(ReadRefusal::Bad),
        }
    }

    fn complete() {
        i128::complete();
        u32::complete();
        Kind::complete();
        <(u32, u32) as Stored>::complete();
        <(Kind, u32) as Stored>::complete();
        <(Layout, u32) as Stored>::complete();
        <(u8, u32) as Stored>::complete();
        <(BinOp, Kind) as Stored>::complete();
        <(i128, u32) as Stored>::complete();
        <(u32, bool) as Stored>::complete();
    }
}

impl Record for Instr {
    ghost LEAST = { 1 };

    const LEAST: u8 = 1;

    fn long_enough() {}
}
