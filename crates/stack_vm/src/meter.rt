// What runs have taken.

ghost use Rattle.std.specs.Prelude.{◌≡◌, ◌<◌, ◌+◌, ◌^◌, ◌++◌, [], length, replicate, slice_get, IfOk, OnErr, OnOk};
ghost use Rattle.stack_vm.specs.Meter.{AddsRun};

use std::alloc::Global;
use std::marker::Model;
use texts::NoMemory;

/// What the runs of one handler have taken. A sum above 2^64 - 1 stands as 2^64 - 1.
#[derive(Clone, Copy, Debug, PartialEq, Eq)]
pub struct MeterRow {
    /// How many runs there were.
    pub runs: u64,
    /// How many turns they took.
    pub turns: u64,
}

/// A row for each handler, of which each run raises one.
///
/// Contracts see it as the list of its rows.
#[derive(Debug, Drop)]
pub struct Meter {
    rows: Vec<MeterRow>,
}

impl Model for Meter {
    ghost use Rattle.std.specs.Prelude.{List};
    ghost use Rattle.stack_vm.specs.declared.meter.MeterRow.{MeterRow};

    ghost Value = { List MeterRow };

    ghost view = { λ meter. meter.rows.items };
}

impl Meter {
    /// A meter without rows.
    pub fn new(alloc: Global) -> Meter
        ensures { result ≡ [] }
    {
        Meter {
            rows: Vec::new(alloc),
        }
    }

    /// Appends this many rows of zeros and gives the number of the first one.
    pub fn open_rows(&mut self, n: u32) -> Result<usize, NoMemory>
        ensures opened { OnOk result (self.new ≡ self.old ++ replicate n (record { runs = 0; turns = 0 })) }
        ensures first { IfOk result (λ first. first ≡ length self.old) }
        ensures counted { IfOk result (λ first. first + n < 2 ^ 64) }
        ensures refused { OnErr result (self.new ≡ self.old) }
    {
        let first = self.rows.len();
        self.rows
            .resize(first + n as usize, MeterRow { runs: 0, turns: 0 })?;
        Ok(first)
    }

    /// How many rows there are.
    pub fn rows(&self) -> usize
        ensures { result ≡ length self.now }
    {
        self.rows.len()
    }

    /// The row of this number, or `None` exactly past the end.
    pub fn row(&self, i: usize) -> Option<MeterRow>
        ensures { result ≡ slice_get self.now i }
    {
        self.rows.get(i).copied()
    }

    /// Adds to a row one run that took these turns.
    pub(crate) fn add_run(&mut self, row: usize, turns: u64)
        requires { row < length self.old }
        ensures { AddsRun row turns self.old self.new }
    {
        let row = &mut self.rows[row];
        row.runs = row.runs.saturating_add(1);
        row.turns = row.turns.saturating_add(turns);
    }
}
