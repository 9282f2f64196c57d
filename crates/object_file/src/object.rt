// The text of code.

ghost use Rattle.std.specs.Prelude.{◌≡◌, ◌++◌, ℕ, List, IfOk, IsErrOf, OnOk, Some, ⊤};
ghost use Rattle.std.specs.Option.{option_map};
ghost use Rattle.object_file.specs.Object.{HasNoCode, IsStorable, IsTextOf};
ghost use Rattle.object_file.specs.Number.{dword};
ghost use Rattle.object_file.specs.Inside.Lists.{Lists, ListsHold, behind_letters, lists_at, lists_of, lists_text, with_lists};
ghost use Rattle.object_file.specs.Inside.Reading.{dword_at};
ghost use Rattle.object_file.specs.declared.stored.ReadRefusal.TheVariants.{Bad};

use crate::stored::{ReadRefusal, Stored};
use bytecode::{Code, Fun, Handler, Instr};
use int_kinds::Kind;
use items::Items;
use std::alloc::Global;
use texts::NoMemory;
use write_format::Format;

/// The letters that a text begins with.
const LETTERS: &[u8] = b"CAPLOBJ1";

/// The lists of code, in the order of its text.
type Lists = (
    Items<Kind>,
    (
        Items<(u32, i128)>,
        (
            Items<u64>,
            (
                Items<Format>,
                (Items<Fun>, (Items<Handler>, (Items<Instr>, Items<u32>))),
            ),
        ),
    ),
);

/// Appends the lists of code.
fn write_lists(code: &Code, into: &mut Vec<u8>) -> Result<(), NoMemory>
    requires { ListsHold (lists_of code.now) }
    ensures { OnOk result (into.new.items ≡ into.old.items ++ lists_text (lists_of code.now)) }
{
    code.cells.write(into)?;
    code.starts.write(into)?;
    code.timers.write(into)?;
    code.formats.write(into)?;
    code.functions.write(into)?;
    code.handlers.write(into)?;
    code.instrs.write(into)?;
    code.depths.write(into)
}

/// The text of code.
pub(crate) fn text_of(alloc: Global, code: &Code) -> Result<Vec<u8>, NoMemory>
    requires { IsStorable code.now }
    ensures { IfOk result (λ bytes. IsTextOf code.now bytes.items) }
{
    let mut bytes = Vec::from_slice(alloc, LETTERS)?;
    write_lists(code, &mut bytes)?;
    0u32.write(&mut bytes)?;
    Ok(bytes)
}

/// The code of a text.
pub(crate) fn code_of(alloc: Global, bytes: &[u8]) -> Result<Code, ReadRefusal>
    ensures text { IfOk result (λ code. IsTextOf code bytes.now) }
    ensures bad { IsErrOf result Bad → HasNoCode bytes.now }
{
    complete();
    let Some(front) = behind_letters(bytes) else {
        return Err(ReadRefusal::Bad);
    };
    let (lists, rest) = <Lists as Stored>::read(alloc, front)?;
    let (last, rest) = u32::read(alloc, rest)?;
    if last != 0 || !rest.is_empty() {
        return Err(ReadRefusal::Bad);
    }
    Ok(with_lists(lists))
}

/// What stands behind the letters, where the bytes begin with them.
fn behind_letters(bytes: &[u8]) -> Option<&[u8]>
    ensures { option_map (λ rest. rest.now) result ≡ behind_letters bytes.now }
{
    if bytes.starts_with(LETTERS) {
        Some(&bytes[8..])
    } else {
        None
    }
}

/// The code of these lists.
fn with_lists(lists: Lists) -> Code
    ensures { result ≡ with_lists lists }
{
    let (cells, (starts, (timers, (formats, (functions, (handlers, (instrs, depths))))))) = lists;
    Code {
        instrs,
        depths,
        functions,
        handlers,
        cells,
        starts,
        timers,
        formats,
    }
}

/// The lists that a text spells are found in it, and the number behind them. The call does nothing: its
/// contract is the law.
pub(crate) fn complete()
    ensures lists { (lists : Lists) (rest : List ℕ) →
        ListsHold lists → lists_at (lists_text lists ++ rest) ≡ Some (lists, rest) }
    ensures number { (n : ℕ) (rest : List ℕ) → ⊤ → dword_at (dword n ++ rest) ≡ Some (n, rest) }
{
    <Lists as Stored>::complete();
    u32::complete();
}
