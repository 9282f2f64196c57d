// Texts and lists.

ghost use Rattle.std.specs.Prelude.{◌≡◌, ◌++◌, ◌*◌, ◌<◌, ◌≤◌, ◌^◌, ◌∷◌, All, IfOk, IsErrOf, None, OnOk, flat_map, length, true};
ghost use Rattle.object_file.specs.Number.{list, text};
ghost use Rattle.object_file.specs.Inside.Reading.{items_at};
ghost use Rattle.object_file.specs.declared.stored.ReadRefusal.TheVariants.{Bad};

use crate::stored::{ReadRefusal, Record, Stored};
use items::Items;
use std::alloc::Global;
use texts::{NoMemory, Text};

/// Room for so many records is made at once, where there are as many; a longer list takes memory as its
/// records come.
const ROOM: usize = 16;

/// Appends a text: its length and its bytes.
pub(crate) fn write_text(own: &[u8], into: &mut Vec<u8>) -> Result<(), NoMemory>
    requires { length own.now < 2 ^ 32 }
    ensures { OnOk result (into.new.items ≡ into.old.items ++ text own.now) }
{
    (own.len() as u32).write(into)?;
    into.extend_from_slice(own)?;
    Ok(())
}

/// Appends a list: the number of its records, and the records.
pub(crate) fn write_list<T: Stored>(records: &[T], into: &mut Vec<u8>) -> Result<(), NoMemory>
    requires short { length records.now < 2 ^ 32 }
    requires hold { All T.holds records.now }
    ensures { OnOk result (into.new.items ≡ into.old.items ++ list T.spelling records.now) }
{
    (records.len() as u32).write(into)?;
    write_records(records, into)
}

/// Appends records.
fn write_records<T: Stored>(records: &[T], into: &mut Vec<u8>) -> Result<(), NoMemory>
    requires { All T.holds records.now }
    ensures { OnOk result (into.new.items ≡ into.old.items ++ flat_map T.spelling records.now) }
{
    for record in records {
        record.write(into)?;
    }
    Ok(())
}

/// So many records, and what stands behind them. Memory for more than a few is taken as they come.
fn read_records<T: Record>(
    alloc: Global,
    count: u32,
    bytes: &[u8],
) -> Result<(Vec<T>, &[u8]), ReadRefusal>
    requires room { count * T.LEAST ≤ length bytes.now }
    ensures spelled { IfOk result (λ found.
        bytes.now ≡ flat_map T.spelling (found.0).items ++ found.1.now) }
    ensures count { IfOk result (λ found. length (found.0).items ≡ count) }
    ensures holds { IfOk result (λ found. All T.holds (found.0).items) }
    ensures bad { IsErrOf result Bad → items_at T.at count bytes.now ≡ None }
{
    T::complete();
    let mut records = Vec::with_capacity(alloc, (count as usize).min(ROOM))?;
    let mut rest = bytes;
    for _ in 0..count {
        let (record, behind) = T::read(alloc, rest)?;
        records.push(record)?;
        rest = behind;
    }
    Ok((records, rest))
}

impl Stored for Text {
    ghost use Rattle.std.specs.Prelude.{◌<◌, ◌^◌, length};
    ghost use Rattle.object_file.specs.Number.{text};
    ghost use Rattle.object_file.specs.Inside.Reading.{text_at};

    ghost spelling = { text };

    ghost holds = { λ bytes. length bytes < 2 ^ 32 };

    ghost at = { text_at };

    ghost allocates = { true };

    fn write(&self, into: &mut Vec<u8>) -> Result<(), NoMemory> {
        write_text(self.bytes(), into)
    }

    fn read(alloc: Global, bytes: &[u8]) -> Result<(Text, &[u8]), ReadRefusal> {
        u32::complete();
        let (count, rest) = u32::read(alloc, bytes)?;
        if count as usize > rest.len() {
            return Err(ReadRefusal::Bad);
        }
        let (own, rest) = rest.split_at(count as usize);
        Ok((Text::make(alloc, own)?, rest))
    }

    fn complete() {
        u32::complete();
    }
}

impl<T: Record> Stored for Items<T> {
    ghost use Rattle.std.specs.Prelude.{◌<◌, ◌^◌, All, length};
    ghost use Rattle.object_file.specs.Number.{list};
    ghost use Rattle.object_file.specs.Inside.Reading.{list_at};

    ghost spelling = { list T.spelling };

    ghost holds = { λ records. (length records < 2 ^ 32) × All T.holds records };

    ghost at = { list_at T.at };

    ghost allocates = { true };

    fn write(&self, into: &mut Vec<u8>) -> Result<(), NoMemory> {
        write_list(self.as_slice(), into)
    }

    fn read(alloc: Global, bytes: &[u8]) -> Result<(Items<T>, &[u8]), ReadRefusal> {
        u32::complete();
        T::long_enough();
        let (count, rest) = u32::read(alloc, bytes)?;
        if count as usize * usize::from(T::LEAST) > rest.len() {
            return Err(ReadRefusal::Bad);
        }
        let (records, rest) = read_records(alloc, count, rest)?;
        Ok((Items::from_list(records), rest))
    }

    fn complete() {
        u32::complete();
        T::complete();
    }
}
