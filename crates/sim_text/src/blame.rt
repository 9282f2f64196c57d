// The line of a broken rule.

ghost use Rattle.std.specs.Prelude.{◌≡◌, ◌++◌, IfOk, OnOk};
ghost use Rattle.sim_text.specs.Lines.{blame_line, place_text, rule_text};

use crate::number::append_number;
use crate::shown::append_shown;
use std::alloc::Global;
use texts::{Blame, NoMemory, Rule, Text};

/// The line of a blame: `refused FILE RULE` and its line end, with `:` and the number of the line, and
/// the same of the column, behind FILE where the blame has them. A line feed in FILE is shown as `\n` and
/// a carriage return as `\r`. Takes time and memory linear in the name of the file.
pub fn blame_line(alloc: Global, blame: &Blame) -> Result<Text, NoMemory>
    ensures { IfOk result (λ line. line ≡ blame_line blame.now) }
{
    let mut line = Vec::from_slice(alloc, b"refused ")?;
    append_shown(&mut line, blame.file.bytes())?;
    append_place(&mut line, blame.line)?;
    append_place(&mut line, blame.column)?;
    line.push(b' ')?;
    append_rule(alloc, &mut line, blame.rule)?;
    line.push(b'\n')?;
    Text::from_list(alloc, line)
}

/// Appends `:` and the number of a line or a column, where there is one.
fn append_place(line: &mut Vec<u8>, place: Option<u32>) -> Result<(), NoMemory>
    ensures { OnOk result (line.new.items ≡ line.old.items ++ place_text place) }
{
    if let Some(number) = place {
        line.push(b':')?;
        append_number(line, u64::from(number))?;
    }
    Ok(())
}

/// Appends the letter of a rule's group and its number in two digits.
fn append_rule(alloc: Global, line: &mut Vec<u8>, rule: Rule) -> Result<(), NoMemory>
    ensures { OnOk result (line.new.items ≡ line.old.items ++ rule_text rule) }
{
    let number = rule.number;
    line.push(rule.group)?;
    line.extend_from_slice(format!(in alloc; "{number:02}")?.as_bytes())?;
    Ok(())
}
