// The fields of a line.

ghost use Rattle.std.specs.Prelude.{◌≡◌, ◌==◌, not, filter, length, map, IfOk};
ghost use Rattle.std.specs.List.{slice_split};
ghost use Rattle.scenario.specs.Item.{is_gap, fields_of};

use std::alloc::Global;
use texts::NoMemory;

/// The fields between the blanks of a line, or none where the line begins or ends with a blank. Takes
/// time linear in the line, and memory linear in the fields.
pub(crate) fn fields_of(alloc: Global, line: &[u8]) -> Result<Vec<&[u8]>, NoMemory>
    ensures { IfOk result (λ fields. map (λ field. field.now) fields.items ≡ fields_of line.now) }
{
    if let [b' ' | b'\t', ..] | [.., b' ' | b'\t'] = line {
        return Ok(Vec::new(alloc));
    }
    split_at_blanks(alloc, line)
}

/// The pieces between blanks that are not empty.
fn split_at_blanks(alloc: Global, line: &[u8]) -> Result<Vec<&[u8]>, NoMemory>
    ensures { IfOk result (λ fields. map (λ field. field.now) fields.items
        ≡ filter (λ field. not (length field == 0)) (slice_split is_gap line.now)) }
{
    let fields = line
        .split(
            |byte: &u8| -> bool
                ensures { result ≡ is_gap byte.now }
            { *byte == b' ' || *byte == b'\t' },
        )
        .filter(|field| !field.is_empty())
        .collect(alloc)?;
    Ok(fields)
}
