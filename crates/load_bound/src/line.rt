// The line of a bound.

ghost use Rattle.std.specs.Prelude.{◌≡◌, ◌++◌, IfOk, OnOk};
ghost use Rattle.load_bound.specs.Written.{ident_text, wait_text, bound_line};

use can_frame::Ident;
use itoa::Buffer;
use std::alloc::Global;
use texts::{NoMemory, Text};

/// The line of a stream's bound: `b IDENT W` and its line end, or `b IDENT none` where it has none.
/// A standard identifier has three hexadecimal digits, an extended one eight. Takes the time and the
/// memory of a short text.
pub fn bound_line(alloc: Global, ident: Ident, wait: Option<u64>) -> Result<Text, NoMemory>
    ensures { IfOk result (λ line. line ≡ bound_line ident wait) }
{
    let mut line = Vec::from_slice(alloc, b"b ")?;
    append_ident(alloc, &mut line, ident)?;
    line.push(b' ')?;
    append_wait(&mut line, wait)?;
    line.push(b'\n')?;
    Text::from_list(alloc, line)
}

/// Appends the digits of an identifier.
#[tactic(auto, using(text_parts::proofs::DigitLemmas::hexadecimal_is))]
fn append_ident(alloc: Global, line: &mut Vec<u8>, ident: Ident) -> Result<(), NoMemory>
    ensures { OnOk result (line.new.items ≡ line.old.items ++ ident_text ident) }
{
    let digits = match ident {
        Ident::Std(number) => format!(in alloc; "{number:03X}")?,
        Ident::Ext(number) => format!(in alloc; "{number:08X}")?,
    };
    line.extend_from_slice(digits.as_bytes())?;
    Ok(())
}

/// Appends the digits of a wait, or `none`.
fn append_wait(line: &mut Vec<u8>, wait: Option<u64>) -> Result<(), NoMemory>
    ensures { OnOk result (line.new.items ≡ line.old.items ++ wait_text wait) }
{
    match wait {
        Some(wait) => {
            let mut buffer = Buffer::new();
            line.extend_from_slice(buffer.format(wait).as_bytes())?;
        }
        None => line.extend_from_slice(b"none")?,
    }
    Ok(())
}
