// The values of const integers, by the places of their names.

ghost use Rattle.std.specs.Prelude.{◌≡◌, ◌==◌, ◌&&◌, ℕ, IfSome, None, OnOk, Some, if◌then◌else◌};
ghost use Rattle.std.specs.Option.{option_or};
ghost use Rattle.int_kinds.specs.Kind.{IsNumber};
ghost use Rattle.check_sorts.specs.Constant.{held, is_within, known_at, precedes};

use std::alloc::Global;
use std::collections::BTreeMap;
use texts::NoMemory;

/// Values by the file and the token of the names that have them. At each place the first stays. They
/// are kept in order and not hashed, since who writes a program chooses where its names stand.
#[derive(Drop)]
pub(crate) struct ValueTable {
    values: BTreeMap<(u32, u32), i128>,
}

/// The values that are known at a place.
#[derive(Clone, Copy)]
pub(crate) struct Known<'c> {
    /// All values.
    pub(crate) table: &'c ValueTable,
    /// The file and the token before which names stand that are known; None where all are.
    pub(crate) before: Option<(u32, u32)>,
}

impl ValueTable {
    /// No values. Takes no memory.
    pub(crate) fn new(alloc: Global) -> ValueTable
        ensures { (file token : ℕ) → held result file token ≡ None }
    {
        ValueTable {
            values: BTreeMap::new(alloc),
        }
    }

    /// The value at a place, or None where there is none. Takes time logarithmic in the values.
    pub(crate) fn value(&self, file: u32, token: u32) -> Option<i128>
        ensures { result ≡ held self.now file token }
    {
        self.values.get(&(file, token)).copied()
    }

    /// Notes the value at a place, if none was noted there before. Takes time logarithmic in the values.
    pub(crate) fn note(&mut self, file: u32, token: u32, value: i128) -> Result<(), NoMemory>
        ensures { (f t : ℕ) → OnOk result (held self.new f t ≡
            option_or (held self.old f t) (if f == file && t == token then Some value else None)) }
    {
        if self.value(file, token).is_some() {
            return Ok(());
        }
        self.values.insert((file, token), value)?;
        Ok(())
    }
}

/// Whether a place is before another.
fn precedes(file: u32, token: u32, other_file: u32, other_token: u32) -> bool
    ensures { result ≡ precedes file token other_file other_token }
{
    other_file < file || (other_file == file && other_token < token)
}

/// Whether a place is before a limit, if there is one.
fn is_within(before: Option<(u32, u32)>, file: u32, token: u32) -> bool
    ensures { result ≡ is_within before file token }
{
    match before {
        None => true,
        Some((limit_file, limit_token)) => precedes(limit_file, limit_token, file, token),
    }
}

impl<'c> Known<'c> {
    /// The value that is known at a place.
    pub(crate) fn value(&self, file: u32, token: u32) -> Option<i128>
        ensures { result ≡ known_at self.now file token }
    {
        if is_within(self.before, file, token) {
            self.table.value(file, token)
        } else {
            None
        }
    }
}
