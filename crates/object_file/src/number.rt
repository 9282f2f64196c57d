// Numbers and truth values.

ghost use Rattle.std.specs.Prelude.{◌≡◌, ◌+◌, ◌*◌, ◌<◌, ◌^◌, false, ⊤};

use crate::stored::{ReadRefusal, Record, Stored};
use std::alloc::Global;
use texts::NoMemory;

/// The number of 16 bits with these halves.
#[inline]
fn join_u16(low: u8, high: u8) -> u16
    ensures number { result ≡ low + 2 ^ 8 * high }
    ensures low { low < 2 ^ 8 }
{
    u16::from(low) + 256 * u16::from(high)
}

/// The number of 32 bits with these halves.
#[inline]
fn join_u32(low: u16, high: u16) -> u32
    ensures number { result ≡ low + 2 ^ 16 * high }
    ensures low { low < 2 ^ 16 }
{
    u32::from(low) + 0x1_0000 * u32::from(high)
}

/// The number of 64 bits with these halves.
#[inline]
fn join_u64(low: u32, high: u32) -> u64
    ensures number { result ≡ low + 2 ^ 32 * high }
    ensures low { low < 2 ^ 32 }
{
    u64::from(low) + 0x1_0000_0000 * u64::from(high)
}

/// The number of 128 bits with these halves.
#[inline]
fn join_u128(low: u64, high: u64) -> u128
    ensures number { result ≡ low + 2 ^ 64 * high }
    ensures low { low < 2 ^ 64 }
{
    u128::from(low) + (1 << 64) * u128::from(high)
}

impl Stored for u8 {
    ghost use Rattle.object_file.specs.Number.{byte};
    ghost use Rattle.object_file.specs.Inside.Reading.{byte_at};

    ghost spelling = { byte };

    ghost holds = { λ _. ⊤ };

    ghost at = { byte_at };

    ghost allocates = { false };

    fn write(&self, into: &mut Vec<u8>) -> Result<(), NoMemory> {
        into.push(*self)?;
        Ok(())
    }

    fn read(_: Global, bytes: &[u8]) -> Result<(u8, &[u8]), ReadRefusal> {
        match bytes.split_first() {
            Some((first, rest)) => Ok((*first, rest)),
            None => Err(ReadRefusal::Bad),
        }
    }

    fn complete() {}
}

impl Stored for u16 {
    ghost use Rattle.object_file.specs.Number.{word};
    ghost use Rattle.object_file.specs.Inside.Reading.{word_at};

    ghost spelling = { word };

    ghost holds = { λ _. ⊤ };

    ghost at = { word_at };

    ghost allocates = { false };

    fn write(&self, into: &mut Vec<u8>) -> Result<(), NoMemory> {
        ((*self % 256) as u8, (*self / 256) as u8).write(into)
    }

    fn read(alloc: Global, bytes: &[u8]) -> Result<(u16, &[u8]), ReadRefusal> {
        let ((low, high), rest) = <(u8, u8) as Stored>::read(alloc, bytes)?;
        Ok((join_u16(low, high), rest))
    }

    fn complete() {
        u8::complete();
    }
}

impl Stored for u32 {
    ghost use Rattle.object_file.specs.Number.{dword};
    ghost use Rattle.object_file.specs.Inside.Reading.{dword_at};

    ghost spelling = { dword };

    ghost holds = { λ _. ⊤ };

    ghost at = { dword_at };

    ghost allocates = { false };

    fn write(&self, into: &mut Vec<u8>) -> Result<(), NoMemory> {
        ((*self % 0x1_0000) as u16, (*self / 0x1_0000) as u16).write(into)
    }

    fn read(alloc: Global, bytes: &[u8]) -> Result<(u32, &[u8]), ReadRefusal> {
        let ((low, high), rest) = <(u16, u16) as Stored>::read(alloc, bytes)?;
        Ok((join_u32(low, high), rest))
    }

    fn complete() {
        u16::complete();
    }
}

impl Record for u32 {
    ghost LEAST = { 4 };

    const LEAST: u8 = 4;

    fn long_enough() {}
}

impl Stored for u64 {
    ghost use Rattle.object_file.specs.Number.{qword};
    ghost use Rattle.object_file.specs.Inside.Reading.{qword_at};

    ghost spelling = { qword };

    ghost holds = { λ _. ⊤ };

    ghost at = { qword_at };

    ghost allocates = { false };

    fn write(&self, into: &mut Vec<u8>) -> Result<(), NoMemory> {
        (
            (*self % 0x1_0000_0000) as u32,
            (*self / 0x1_0000_0000) as u32,
        )
            .write(into)
    }

    fn read(alloc: Global, bytes: &[u8]) -> Result<(u64, &[u8]), ReadRefusal> {
        let ((low, high), rest) = <(u32, u32) as Stored>::read(alloc, bytes)?;
        Ok((join_u64(low, high), rest))
    }

    fn complete() {
        u32::complete();
    }
}

impl Record for u64 {
    ghost LEAST = { 8 };

    const LEAST: u8 = 8;

    fn long_enough() {}
}

impl Stored for u128 {
    ghost use Rattle.object_file.specs.Number.{halves, qword};
    ghost use Rattle.object_file.specs.Inside.Reading.{halves_at, qword_at};

    ghost spelling = { halves (2 ^ 64) qword };

    ghost holds = { λ _. ⊤ };

    ghost at = { halves_at (2 ^ 64) qword_at };

    ghost allocates = { false };

    fn write(&self, into: &mut Vec<u8>) -> Result<(), NoMemory> {
        ((*self % (1 << 64)) as u64, (*self / (1 << 64)) as u64).write(into)
    }

    fn read(alloc: Global, bytes: &[u8]) -> Result<(u128, &[u8]), ReadRefusal> {
        let ((low, high), rest) = <(u64, u64) as Stored>::read(alloc, bytes)?;
        Ok((join_u128(low, high), rest))
    }

    fn complete() {
        u64::complete();
    }
}

impl Stored for i128 {
    ghost use Rattle.std.specs.Int.{w128};
    ghost use Rattle.std.specs.Int.RustNames.{FitsSigned};
    ghost use Rattle.object_file.specs.Number.{integer};
    ghost use Rattle.object_file.specs.Inside.Reading.{integer_at};

    ghost spelling = { integer };

    ghost holds = { FitsSigned w128 };

    ghost at = { integer_at };

    ghost allocates = { false };

    fn write(&self, into: &mut Vec<u8>) -> Result<(), NoMemory> {
        self.cast_unsigned().write(into)
    }

    fn read(alloc: Global, bytes: &[u8]) -> Result<(i128, &[u8]), ReadRefusal> {
        let (n, rest) = u128::read(alloc, bytes)?;
        Ok((n.cast_signed(), rest))
    }

    fn complete() {
        u128::complete();
    }
}

impl Stored for bool {
    ghost use Rattle.object_file.specs.Number.{truth};
    ghost use Rattle.object_file.specs.Inside.Reading.{truth_at};

    ghost spelling = { truth };

    ghost holds = { λ _. ⊤ };

    ghost at = { truth_at };

    ghost allocates = { false };

    fn write(&self, into: &mut Vec<u8>) -> Result<(), NoMemory> {
        if *self { 1u8 } else { 0u8 }.write(into)
    }

    fn read(alloc: Global, bytes: &[u8]) -> Result<(bool, &[u8]), ReadRefusal> {
        let (byte, rest) = u8::read(alloc, bytes)?;
        match byte {
            0 => Ok((false, rest)),
            1 => Ok((true, rest)),
            _ => Err(ReadRefusal::Bad),
        }
    }

    fn complete() {}
}
