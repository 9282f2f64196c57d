// The records of the tables of code.

ghost use Rattle.std.specs.Prelude.{◌≡◌, ◌↔◌, ◌<◌, ◌^◌, All, IfOk, IfSome, IsErrOf, IsTrue, None, false, length, true, ⊤};
ghost use Rattle.write_format.specs.Line.{IsFormatOf, IsShort, IsShortArgument};
ghost use Rattle.object_file.specs.Object.{IsKept};
ghost use Rattle.object_file.specs.Table.{kind_number};
ghost use Rattle.object_file.specs.Inside.Tables.{format_of, kind_of};
ghost use Rattle.object_file.specs.declared.stored.ReadRefusal.TheVariants.{Bad};

use crate::list::{write_list, write_text};
use crate::stored::{ReadRefusal, Record, Stored};
use bytecode::{Fun, Handler};
use int_kinds::Kind;
use items::Items;
use run_effects::{Event, Selector};
use std::alloc::Global;
use texts::{NoMemory, Text};
use write_format::laws::pieces_are_found;
use write_format::{ArgKind, Format, FormatRefusal};

/// What is as long as this has no length of four bytes.
const LIMIT: usize = 0x1_0000_0000;

/// The kind of a number.
fn kind_of(n: u8) -> Option<Kind>
    ensures found { result ≡ kind_of n }
    ensures number { IfSome result (λ kind. kind_number kind ≡ n) }
{
    match n {
        0 => Some(Kind::Byte),
        1 => Some(Kind::Word),
        2 => Some(Kind::Dword),
        3 => Some(Kind::Qword),
        4 => Some(Kind::Int),
        5 => Some(Kind::Long),
        6 => Some(Kind::Int64),
        7 => Some(Kind::Char),
        _ => None,
    }
}

/// The number of a kind.
fn kind_number(kind: Kind) -> u8
    ensures { result ≡ kind_number kind }
{
    match kind {
        Kind::Byte => 0,
        Kind::Word => 1,
        Kind::Dword => 2,
        Kind::Qword => 3,
        Kind::Int => 4,
        Kind::Long => 5,
        Kind::Int64 => 6,
        Kind::Char => 7,
    }
}

impl Stored for Kind {
    ghost use Rattle.object_file.specs.Table.{kind_text};
    ghost use Rattle.object_file.specs.Inside.Tables.{kind_at};

    ghost spelling = { kind_text };

    ghost holds = { λ _. ⊤ };

    ghost at = { kind_at };

    ghost allocates = { false };

    fn write(&self, into: &mut Vec<u8>) -> Result<(), NoMemory> {
        kind_number(*self).write(into)
    }

    fn read(alloc: Global, bytes: &[u8]) -> Result<(Kind, &[u8]), ReadRefusal> {
        u8::complete();
        let (n, rest) = u8::read(alloc, bytes)?;
        let kind = kind_of(n).ok_or(ReadRefusal::Bad)?;
        Ok((kind, rest))
    }

    fn complete() {}
}

impl Record for Kind {
    ghost LEAST = { 1 };

    const LEAST: u8 = 1;

    fn long_enough() {}
}

impl Record for (u32, i128) {
    ghost LEAST = { 20 };

    const LEAST: u8 = 20;

    fn long_enough() {}
}

impl Stored for ArgKind {
    ghost use Rattle.write_format.specs.Line.{IsShortArgument};
    ghost use Rattle.object_file.specs.Table.{argument_text};
    ghost use Rattle.object_file.specs.Inside.Tables.{argument_at};

    ghost spelling = { argument_text };

    ghost holds = { IsShortArgument };

    ghost at = { argument_at };

    ghost allocates = { true };

    fn write(&self, into: &mut Vec<u8>) -> Result<(), NoMemory> {
        match self {
            ArgKind::Number(kind) => (0u8, *kind).write(into),
            ArgKind::Chars { base, len } => (1u8, (*base, *len)).write(into),
            ArgKind::Str(own) => {
                2u8.write(into)?;
                write_text(own.bytes(), into)
            }
        }
    }

    fn read(alloc: Global, bytes: &[u8]) -> Result<(ArgKind, &[u8]), ReadRefusal> {
        u8::complete();
        let (tag, rest) = u8::read(alloc, bytes)?;
        match tag {
            0 => {
                let (kind, rest) = Kind::read(alloc, rest)?;
                Ok((ArgKind::Number(kind), rest))
            }
            1 => {
                let ((base, len), rest) = <(u32, u32) as Stored>::read(alloc, rest)?;
                Ok((ArgKind::Chars { base, len }, rest))
            }
            2 => {
                let (own, rest) = Text::read(alloc, rest)?;
                Ok((ArgKind::Str(own), rest))
            }
            _ => Err(ReadRefusal::Bad),
        }
    }

    fn complete() {
        Kind::complete();
        <(u32, u32) as Stored>::complete();
        Text::complete();
    }
}

impl Record for ArgKind {
    ghost LEAST = { 2 };

    const LEAST: u8 = 2;

    fn long_enough() {}
}

/// Whether an argument is no text of 2^32 bytes or more.
fn is_short_argument(arg: &ArgKind) -> bool
    ensures { IsTrue result ↔ IsShortArgument arg.now }
{
    match arg {
        ArgKind::Number(_) => true,
        ArgKind::Chars { .. } => true,
        ArgKind::Str(own) => own.bytes().len() < LIMIT,
    }
}

/// Whether none of these arguments is a text of 2^32 bytes or more.
fn are_short_arguments(args: &[ArgKind]) -> bool
    ensures { IsTrue result ↔ All IsShortArgument args.now }
{
    args.iter().all(|arg| is_short_argument(arg))
}

/// Whether the text of a format, its arguments and the texts among them are short enough to be stored.
fn is_kept(format: &Format) -> bool
    ensures { IsTrue result ↔ IsKept format.now }
{
    let text = format.text();
    let args = format.args();
    format.is_short() && text.len() < LIMIT && args.len() < LIMIT && are_short_arguments(args)
}

/// Whether all formats are short enough to be stored.
pub(crate) fn are_kept(formats: &[Format]) -> bool
    ensures { IsTrue result ↔ All IsKept formats.now }
{
    formats.iter().all(|format| is_kept(format))
}

/// The format of a text and arguments, which it keeps.
fn read_format(own: Text, args: Items<ArgKind>) -> Result<Format, ReadRefusal>
    ensures found { IfOk result (IsFormatOf own args) }
    ensures short { IfOk result (λ format.
        length own < 2 ^ 32 → All IsShortArgument args → IsShort format) }
    ensures bad { IsErrOf result Bad → format_of own args ≡ None }
{
    pieces_are_found();
    match Format::of_owned(own, args) {
        Ok(format) => Ok(format),
        Err(FormatRefusal::Wrong { .. }) => Err(ReadRefusal::Bad),
        Err(FormatRefusal::NoMemory) => Err(ReadRefusal::NoMemory),
    }
}

impl Stored for Format {
    ghost use Rattle.object_file.specs.Table.{format_text};
    ghost use Rattle.object_file.specs.Object.{IsKept};
    ghost use Rattle.object_file.specs.Inside.Tables.{format_at};

    ghost spelling = { format_text };

    ghost holds = { IsKept };

    ghost at = { format_at };

    ghost allocates = { true };

    fn write(&self, into: &mut Vec<u8>) -> Result<(), NoMemory> {
        write_text(self.text(), into)?;
        write_list(self.args(), into)
    }

    fn read(alloc: Global, bytes: &[u8]) -> Result<(Format, &[u8]), ReadRefusal> {
        <(Text, Items<ArgKind>) as Stored>::complete();
        let ((own, args), rest) = <(Text, Items<ArgKind>) as Stored>::read(alloc, bytes)?;
        let format = read_format(own, args)?;
        Ok((format, rest))
    }

    fn complete() {
        <(Text, Items<ArgKind>) as Stored>::complete();
        pieces_are_found();
    }
}

impl Record for Format {
    ghost LEAST = { 8 };

    const LEAST: u8 = 8;

    fn long_enough() {}
}

impl Stored for Fun {
    ghost use Rattle.object_file.specs.Table.{function_text};
    ghost use Rattle.object_file.specs.Inside.Tables.{function_at};

    ghost spelling = { function_text };

    ghost holds = { λ _. ⊤ };

    ghost at = { function_at };

    ghost allocates = { false };

    fn write(&self, into: &mut Vec<u8>) -> Result<(), NoMemory> {
        (self.start, (self.end, self.gives)).write(into)
    }

    fn read(alloc: Global, bytes: &[u8]) -> Result<(Fun, &[u8]), ReadRefusal> {
        let ((start, (end, gives)), rest) = <(u32, (u32, bool)) as Stored>::read(alloc, bytes)?;
        Ok((Fun { start, end, gives }, rest))
    }

    fn complete() {
        <(u32, (u32, bool)) as Stored>::complete();
    }
}

impl Record for Fun {
    ghost LEAST = { 9 };

    const LEAST: u8 = 9;

    fn long_enough() {}
}

impl Stored for Selector {
    ghost use Rattle.object_file.specs.Table.{selector_text};
    ghost use Rattle.object_file.specs.Inside.Tables.{selector_at};

    ghost spelling = { selector_text };

    ghost holds = { λ _. ⊤ };

    ghost at = { selector_at };

    ghost allocates = { false };

    fn write(&self, into: &mut Vec<u8>) -> Result<(), NoMemory> {
        (self.rank, (self.low, self.high)).write(into)
    }

    fn read(alloc: Global, bytes: &[u8]) -> Result<(Selector, &[u8]), ReadRefusal> {
        let ((rank, (low, high)), rest) = <(u8, (u32, u32)) as Stored>::read(alloc, bytes)?;
        Ok((Selector { rank, low, high }, rest))
    }

    fn complete() {
        <(u8, (u32, u32)) as Stored>::complete();
    }
}

impl Record for Selector {
    ghost LEAST = { 9 };

    const LEAST: u8 = 9;

    fn long_enough() {}
}

impl Stored for Option<u8> {
    ghost use Rattle.object_file.specs.Table.{key_text};
    ghost use Rattle.object_file.specs.Inside.Tables.{key_at};

    ghost spelling = { key_text };

    ghost holds = { λ _. ⊤ };

    ghost at = { key_at };

    ghost allocates = { false };

    fn write(&self, into: &mut Vec<u8>) -> Result<(), NoMemory> {
        match self {
            None => 0u8.write(into),
            Some(key) => (1u8, *key).write(into),
        }
    }

    fn read(alloc: Global, bytes: &[u8]) -> Result<(Option<u8>, &[u8]), ReadRefusal> {
        u8::complete();
        let (tag, rest) = u8::read(alloc, bytes)?;
        match tag {
            0 => Ok((None, rest)),
            1 => {
                let (key, rest) = u8::read(alloc, rest)?;
                Ok((Some(key), rest))
            }
            _ => Err(ReadRefusal::Bad),
        }
    }

    fn complete() {}
}

impl Stored for Event {
    ghost use Rattle.object_file.specs.Table.{event_text};
    ghost use Rattle.object_file.specs.Inside.Tables.{IsShortEvent, event_at};

    ghost spelling = { event_text };

    ghost holds = { IsShortEvent };

    ghost at = { event_at };

    ghost allocates = { true };

    fn write(&self, into: &mut Vec<u8>) -> Result<(), NoMemory> {
        match self {
            Event::PreStart => 0u8.write(into),
            Event::Start => 1u8.write(into),
            Event::Stop => 2u8.write(into),
            Event::Message(selectors) => {
                3u8.write(into)?;
                selectors.write(into)
            }
            Event::Timer(timer) => (4u8, *timer).write(into),
            Event::Key(key) => (5u8, *key).write(into),
        }
    }

    fn read(alloc: Global, bytes: &[u8]) -> Result<(Event, &[u8]), ReadRefusal> {
        u8::complete();
        let (tag, rest) = u8::read(alloc, bytes)?;
        match tag {
            0 => Ok((Event::PreStart, rest)),
            1 => Ok((Event::Start, rest)),
            2 => Ok((Event::Stop, rest)),
            3 => {
                let (selectors, rest) = <Items<Selector> as Stored>::read(alloc, rest)?;
                Ok((Event::Message(selectors), rest))
            }
            4 => {
                let (timer, rest) = u32::read(alloc, rest)?;
                Ok((Event::Timer(timer), rest))
            }
            5 => {
                let (key, rest) = <Option<u8> as Stored>::read(alloc, rest)?;
                Ok((Event::Key(key), rest))
            }
            _ => Err(ReadRefusal::Bad),
        }
    }

    fn complete() {
        <Items<Selector> as Stored>::complete();
        u32::complete();
        <Option<u8> as Stored>::complete();
    }
}

impl Stored for Handler {
    ghost use Rattle.object_file.specs.Table.{handler_text};
    ghost use Rattle.object_file.specs.Inside.Tables.{IsShortEvent, handler_at};

    ghost spelling = { handler_text };

    ghost holds = { λ handler. IsShortEvent handler.event };

    ghost at = { handler_at };

    ghost allocates = { true };

    fn write(&self, into: &mut Vec<u8>) -> Result<(), NoMemory> {
        self.event.write(into)?;
        (self.function, (self.file, self.line)).write(into)
    }

    fn read(alloc: Global, bytes: &[u8]) -> Result<(Handler, &[u8]), ReadRefusal> {
        let ((event, (function, (file, line))), rest) = <(
            Event,
            (u32, (u32, u32)),
        ) as Stored>::read(alloc, bytes)?;
        let handler = Handler {
            event,
            function,
            file,
            line,
        };
        Ok((handler, rest))
    }

    fn complete() {
        <(Event, (u32, (u32, u32))) as Stored>::complete();
    }
}

impl Record for Handler {
    ghost LEAST = { 13 };

    const LEAST: u8 = 13;

    fn long_enough() {}
}
