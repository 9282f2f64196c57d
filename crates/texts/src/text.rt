// Bytes that a file, a name or a line is made of.

ghost use Rattle.std.specs.Prelude.{◌≡◌, ◌≤◌, IfOk, IfSome, length, take};
ghost use Rattle.texts.specs.Inside.Kept.{bytes_of};

use crate::memory::NoMemory;
use std::alloc::Global;
use std::marker::Model;
use std::rc::Rc;

/// How many bytes lie in a text itself, which takes 16.
const SHORT: usize = 14;

/// How many lie in one piece of memory with the count of the copies.
const MIDDLE: usize = 32;

/// A list of bytes that need not be characters: a name, a line, or a part of a file.
///
/// Up to 14 bytes lie in the value itself, so a short name asks for no memory. The copies of a longer
/// text share its bytes, which lie in one piece of memory where there are up to 32.
#[derive(Debug)]
pub struct Text {
    kept: Kept,
}

/// Where the bytes are.
#[derive(Debug, Drop)]
enum Kept {
    /// The first `len` of these.
    Short { len: u8, bytes: [u8; SHORT] },
    /// The first `len` of these.
    Middle { len: u8, bytes: Rc<[u8; MIDDLE]> },
    /// A list of them.
    Long(Rc<Vec<u8>>),
}

impl Model for Text {
    ghost use Rattle.std.specs.Prelude.{List, ℕ};
    ghost use Rattle.texts.specs.Inside.Kept.{bytes_of};

    ghost Value = { List ℕ };

    ghost view = { λ text. bytes_of text.kept };
}

// So that crates that drop a text have no more to prove than this call.
impl Drop for Text {
    fn drop(self) {
        let Text { kept } = self;
        drop(kept);
    }
}

impl Text {
    /// The text of these bytes. Takes time and memory linear in their number.
    pub fn make(alloc: Global, bytes: &[u8]) -> Result<Text, NoMemory>
        ensures { IfOk result (λ text. text ≡ bytes.now) }
    {
        let kept = match near(alloc, bytes)? {
            Some(kept) => kept,
            None => Kept::Long(Rc::new(alloc, Vec::from_slice(alloc, bytes)?)?),
        };
        Ok(Text { kept })
    }

    /// The text of a list's bytes, which a long text keeps as they are.
    pub fn from_list(alloc: Global, list: Vec<u8>) -> Result<Text, NoMemory>
        ensures { IfOk result (λ text. text ≡ list.items) }
    {
        let kept = match near(alloc, &list)? {
            Some(kept) => kept,
            None => Kept::Long(Rc::new(alloc, list)?),
        };
        Ok(Text { kept })
    }

    /// The same text once more, in constant time and without memory.
    pub fn copy(&self) -> Result<Text, NoMemory>
        ensures { IfOk result (λ text. text ≡ self.now) }
    {
        let kept = match &self.kept {
            Kept::Short { len, bytes } => Kept::Short {
                len: *len,
                bytes: *bytes,
            },
            Kept::Middle { len, bytes } => Kept::Middle {
                len: *len,
                bytes: bytes.clone()?,
            },
            Kept::Long(list) => Kept::Long(list.clone()?),
        };
        Ok(Text { kept })
    }

    /// The bytes, in order.
    pub fn bytes(&self) -> &[u8]
        ensures { result.now ≡ self.now }
    {
        match &self.kept {
            Kept::Short { len, bytes } => beginning(bytes, usize::from(*len)),
            Kept::Middle { len, bytes } => beginning(&**bytes, usize::from(*len)),
            Kept::Long(list) => list.as_slice(),
        }
    }
}

/// How bytes are kept that are few enough to lie beside their number.
fn near(alloc: Global, bytes: &[u8]) -> Result<Option<Kept>, NoMemory>
    ensures { IfOk result (λ found. IfSome found (λ kept. bytes_of kept ≡ bytes.now)) }
{
    let len = bytes.len();
    if len <= SHORT {
        return Ok(Some(Kept::Short {
            len: len as u8,
            bytes: filled(bytes),
        }));
    }
    if len <= MIDDLE {
        return Ok(Some(Kept::Middle {
            len: len as u8,
            bytes: Rc::new(alloc, filled(bytes))?,
        }));
    }
    Ok(None)
}

/// The bytes, and zeros behind them.
fn filled<const N: usize>(bytes: &[u8]) -> [u8; N]
    requires { length bytes.now ≤ N }
    ensures { take (length bytes.now) result ≡ bytes.now }
{
    let mut held = [0; N];
    held[..bytes.len()].copy_from_slice(bytes);
    held
}

/// The first `len` bytes, or all where there are fewer.
fn beginning(bytes: &[u8], len: usize) -> &[u8]
    ensures { result.now ≡ take len bytes.now }
{
    match bytes.get(..len) {
        Some(first) => first,
        None => bytes,
    }
}
