// Texts as they are shown in a line.

ghost use Rattle.std.specs.Prelude.{◌≡◌, ◌++◌, OnOk};
ghost use Rattle.sim_text.specs.Lines.{shown_text};

use texts::NoMemory;

/// Appends a text as it is shown.
#[tactic(auto, using(crate::proofs::ShownLemmas::plain_is_shown))]
pub(crate) fn append_shown(line: &mut Vec<u8>, text: &[u8]) -> Result<(), NoMemory>
    ensures { OnOk result (line.new.items ≡ line.old.items ++ shown_text text.now) }
{
    if text.iter().all(|byte| *byte != b'\n' && *byte != b'\r') {
        line.extend_from_slice(text)?;
        return Ok(());
    }
    append_each_shown(line, text)
}

/// Appends each byte of a text as it is shown.
fn append_each_shown(line: &mut Vec<u8>, text: &[u8]) -> Result<(), NoMemory>
    ensures { OnOk result (line.new.items ≡ line.old.items ++ shown_text text.now) }
{
    for byte in text {
        match byte {
            b'\n' => line.extend_from_slice(b"\\n")?,
            b'\r' => line.extend_from_slice(b"\\r")?,
            _ => line.push(*byte)?,
        }
    }
    Ok(())
}
