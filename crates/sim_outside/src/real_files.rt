// The files of the system.

ghost use Rattle.std.specs.Prelude.{◌≡◌, ◌≤◌, IfOk, vec_len};

use crate::files::{FileRefusal, Files};
use crate::reader::read_to_limit;
use std::alloc::Global;
use std::fs::File;
use std::io::ErrorKind;
use std::marker::Model;
use std::{rt, str};
use texts::Text;

/// The files of the system, read through the runtime. They tell nothing of what they hold.
#[derive(Drop)]
pub struct RealFiles<'a, R> {
    rt: &'a R,
    reads: u64,
    faults: u64,
}

// They are seen as the counts of their reads and faults.
impl<'a, R> Model for RealFiles<'a, R> {
    ghost use Rattle.sim_outside.specs.RealFiles.{FileCounts};

    ghost Value = { FileCounts };

    ghost view = { λ files. record { reads = files.reads; faults = files.faults } };
}

impl<'a, R: rt::Files> RealFiles<'a, R> {
    /// The files that this runtime reaches. No read and no fault is counted yet.
    pub fn new(rt: &'a R) -> RealFiles<'a, R>
        ensures { result ≡ record { reads = 0; faults = 0 } }
    {
        RealFiles {
            rt,
            reads: 0,
            faults: 0,
        }
    }
}

impl<'a, R: rt::Files> Files for RealFiles<'a, R> {
    ghost use Rattle.std.specs.Prelude.{None};

    ghost held = { λ _. None };

    ghost faults = { λ files. files.faults };

    ghost reads = { λ files. files.reads };

    /// Only the system's "not found" is Missing. A folder, a refused permission, a name that is not
    /// UTF-8 and every other error is a fault.
    fn read(&mut self, alloc: Global, name: &Text, limit: usize) -> Result<Vec<u8>, FileRefusal> {
        self.reads = self.reads.saturating_add(1);
        let read = read_file(self.rt, alloc, name.bytes(), limit);
        if let Err(FileRefusal::Failed) = &read {
            self.faults = self.faults.saturating_add(1);
        }
        read
    }
}

/// Opens the file and reads it to its end, if it has at most `limit` bytes.
fn read_file<R: rt::Files>(
    rt: &R,
    alloc: Global,
    name: &[u8],
    limit: usize,
) -> Result<Vec<u8>, FileRefusal>
    ensures { IfOk result (λ bytes. vec_len bytes ≤ limit) }
{
    let Ok(path) = str::from_utf8(name) else {
        return Err(FileRefusal::Failed);
    };
    match File::open(rt, path) {
        Ok(mut file) => read_to_limit(&mut file, alloc, limit),
        Err(error) => Err(match error.kind() {
            ErrorKind::NotFound => FileRefusal::Missing,
            _ => FileRefusal::Failed,
        }),
    }
}
