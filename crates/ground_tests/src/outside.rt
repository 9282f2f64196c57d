// What no clause says: that calls succeed where there is memory, and what the system gives and takes.

use sim_outside::{
    FileRefusal, Files, MemFiles, MemSink, RealFiles, RealSink, Sink, beside, read_to_limit,
    write_whole,
};
use std::alloc::Global;
use std::io::{ErrorKind, Read, Write};
use std::test::Fail;
use std::{fs, io};
use texts::Text;

// How many bytes the short reader gives and the short writer takes at most in a call.
const SHORT: usize = 2;

// A reader that gives few bytes a call, and fails after so many calls.
#[derive(Drop)]
struct ShortReader<'a> {
    left: &'a [u8],
    calls: u32,
}

impl Read for ShortReader<'_> {
    ghost use Rattle.std.specs.Prelude.{Some};

    ghost remaining = { λ reader. Some reader.left.now };

    fn read(&mut self, buffer: &mut [u8]) -> io::Result<usize> {
        if self.calls == 0 {
            return Err(io::Error::from(ErrorKind::BrokenPipe));
        }
        self.calls -= 1;
        let count = buffer.len().min(SHORT);
        self.left.read(&mut buffer[..count])
    }
}

// A writer that takes few bytes a call, and fails after so many calls.
#[derive(Drop)]
struct ShortWriter {
    taken: Vec<u8>,
    calls: u32,
}

impl Write for ShortWriter {
    ghost use Rattle.std.specs.Prelude.{Some};

    ghost contents = { λ writer. Some writer.taken.items };

    fn write(&mut self, buffer: &[u8]) -> io::Result<usize> {
        if self.calls == 0 {
            return Err(io::Error::from(ErrorKind::BrokenPipe));
        }
        self.calls -= 1;
        let count = buffer.len().min(SHORT);
        self.taken.extend_from_slice(&buffer[..count])?;
        Ok(count)
    }

    fn flush(&mut self) -> io::Result<()> {
        Ok(())
    }
}

/// What reading a short reader of seven bytes answers.
fn read_short(alloc: Global, calls: u32, limit: usize) -> Result<Vec<u8>, FileRefusal> {
    let mut reader = ShortReader {
        left: b"seven b",
        calls,
    };
    read_to_limit(&mut reader, alloc, limit)
}

#[test]
fn a_short_reader_is_read_to_its_end(rt: HostRuntime) -> Result<(), Fail> {
    let alloc = rt.alloc();
    assert!(rt;
        matches!(read_short(alloc, 5, 7), Ok(bytes) if bytes.as_slice() == b"seven b".as_slice())
    );
    assert!(rt; matches!(read_short(alloc, 4, 7), Err(FileRefusal::Failed)));
    assert!(rt; matches!(read_short(alloc, 5, 6), Err(FileRefusal::TooLong)));
    Ok(())
}

#[test]
fn a_short_writer_takes_the_whole_piece(rt: HostRuntime) -> Result<(), Fail> {
    let mut writer = ShortWriter {
        taken: Vec::new(rt.alloc()),
        calls: 5,
    };
    write_whole(&mut writer, b"seven b")?;
    assert_eq!(rt; writer.taken.as_slice(), b"seven b".as_slice());
    assert!(rt; write_whole(&mut writer, b"more").is_err());
    assert_eq!(rt; writer.taken.as_slice(), b"seven bmo".as_slice());
    Ok(())
}

#[test]
fn files_are_sought_beside_the_file_that_names_them(rt: HostRuntime) -> Result<(), Fail> {
    let rows = [
        ("d/e/s.scn", "n.can", "d/e/n.can"),
        ("s.scn", "n.can", "n.can"),
        ("d/s.scn", "/n.can", "/n.can"),
    ];
    for (naming, name, joined) in rows {
        let text = beside(rt.alloc(), naming.as_bytes(), name.as_bytes())?;
        assert_eq!(rt; text.bytes(), joined.as_bytes());
    }
    Ok(())
}

/// What a read of a file shall give.
#[derive(Clone, Copy)]
enum Want {
    Bytes(&'static [u8]),
    Failed,
    TooLong,
    Missing,
}

/// Whether the read of a file of this name, up to so many bytes, gives this.
fn gives(
    files: &mut impl Files,
    alloc: Global,
    name: &[u8],
    limit: usize,
    want: Want,
) -> Result<bool, Fail> {
    let name = Text::make(alloc, name)?;
    Ok(match (files.read(alloc, &name, limit), want) {
        (Ok(bytes), Want::Bytes(wanted)) => bytes.as_slice() == wanted,
        (Err(FileRefusal::Failed), Want::Failed)
        | (Err(FileRefusal::TooLong), Want::TooLong)
        | (Err(FileRefusal::Missing), Want::Missing) => true,
        _ => false,
    })
}

/// Two files of one name, where the second read fails.
fn files_in_memory(alloc: Global) -> Result<MemFiles, Fail> {
    let mut entries = Vec::new(alloc);
    for bytes in [[1, 2, 3].as_slice(), &[4]] {
        entries.push((Text::make(alloc, b"a.can")?, bytes.to_vec(alloc)?))?;
    }
    Ok(MemFiles::new(entries, [2].to_vec(alloc)?))
}

#[test]
fn files_in_memory_are_read(rt: HostRuntime) -> Result<(), Fail> {
    let mut files = files_in_memory(rt.alloc())?;
    let rows: [(&[u8], usize, Want); 4] = [
        (b"a.can", 3, Want::Bytes(&[1, 2, 3])),
        (b"a.can", 3, Want::Failed),
        (b"a.can", 2, Want::TooLong),
        (b"b.can", 3, Want::Missing),
    ];
    for (name, limit, want) in rows {
        assert!(rt; gives(&mut files, rt.alloc(), name, limit, want)?);
    }
    Ok(())
}

#[test]
fn a_sink_in_memory_keeps_what_is_written(rt: HostRuntime) -> Result<(), Fail> {
    let alloc = rt.alloc();
    let mut sink = MemSink::new(alloc, [(2, 1)].to_vec(alloc)?);
    sink.write(b"ab")?;
    assert!(rt; sink.write(b"cd").is_err());
    sink.write(b"ef")?;
    assert_eq!(rt; sink.written(), b"abcef".as_slice());
    Ok(())
}

#[test]
fn the_files_of_the_system_are_read(rt: HostRuntime) -> Result<(), Fail> {
    fs::write(&rt, "held.txt", "seven b")?;
    let mut files = RealFiles::new(&rt);
    let rows: [(&[u8], usize, Want); 4] = [
        (b"held.txt", 7, Want::Bytes(b"seven b")),
        (b"held.txt", 6, Want::TooLong),
        (b"missing.txt", 6, Want::Missing),
        (b".", 6, Want::Failed),
    ];
    for (name, limit, want) in rows {
        assert!(rt; gives(&mut files, rt.alloc(), name, limit, want)?);
    }
    fs::remove_file(&rt, "held.txt")?;
    Ok(())
}

#[test]
fn standard_output_is_written(rt: HostRuntime) -> Result<(), Fail> {
    let mut sink = RealSink::new(&rt);
    sink.write(b"a line of standard output\n")?;
    sink.write(b"")?;
    Ok(())
}
