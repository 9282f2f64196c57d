//! The command line: touches the stack that the deepest nesting of a source needs, takes the words, the
//! files and the standard output of the system, runs the simulation over them, and ends with its status.
#![tactic(auto)]

mod stack;

use sim_outside::{RealFiles, RealSink};
use sim_play::Out;
use sim_run::simulate;
use stack::{LEVEL, LEVELS, lowest};
use stack_vm::Meter;
use std::alloc::Global;
use std::process::ExitCode;
use std::rt::Env;
use std::{env, io};

// The exit status where the words could not be taken for want of memory.
const NO_MEMORY: u8 = 5;

// The exit status where a word is not UTF-8.
const NOT_TEXT: u8 = 6;

// The bytes of the list that is taken and given back before anything is read: about the largest, 32 MiB, by
// which malloc of glibc goes.
const LARGEST: usize = 31 << 20;

/// Runs the words of the command line, and ends with the status.
///
/// Where there is less stack than a source may need, the system ends the program at once, before
/// anything is read.
fn main(rt: HostRuntime) -> ExitCode {
    // Bytes of 0 give 0, which is looked at so that the copies are made.
    if lowest(LEVELS, &[0; LEVEL]) > 0 {
        return ExitCode::from(NO_MEMORY);
    }
    widen_heap(rt.alloc());
    match words(&rt) {
        Ok(words) => {
            let mut files = RealFiles::new(&rt);
            let mut out = Out::new(RealSink::new(&rt));
            let mut meter = Meter::new(rt.alloc());
            let status = simulate(rt.alloc(), &words, &mut files, &mut out, &mut meter);
            ExitCode::from(status.number())
        }
        Err(error) => ExitCode::from(match error.kind() {
            io::ErrorKind::OutOfMemory => NO_MEMORY,
            _ => NOT_TEXT,
        }),
    }
}

/// The words after the program's name.
fn words<R: Env + AllocGlobal>(rt: &R) -> io::Result<Vec<String>> {
    Ok(env::args(rt)?.skip(1).collect(rt.alloc())?)
}

/// Takes the memory of a large list and gives it back untouched.
///
/// A list that is larger than any that was given back gets pages of its own from malloc of glibc, which the
/// system clears, and takes away with the list. Behind this it stands in the heap, where the memory of a list
/// that is no longer needed serves what comes next. Where there is not as much, all stays as it is.
fn widen_heap(alloc: Global) {
    drop(Vec::<u8>::with_capacity(alloc, LARGEST));
}
