// The database that a scenario names.

ghost use Rattle.std.specs.Prelude.{◌≡◌, ◌<◌, ◌≤◌, ◌^◌, length, IfSome, IsErrOf};
ghost use Rattle.dbc_reader.specs.Database.{IsDatabase};
ghost use Rattle.texts.specs.Fault.{HasRisen};
ghost use Rattle.sim_inputs.specs.Accepted.{BaseAt, DatabaseAt, IsBaseBlame, IsDatabaseBlame, IsStatementBlame};
ghost use Rattle.input_refusals.specs.Agreement.{Agrees, Judges};
ghost use Rattle.sim_inputs.specs.Inside.Messages.{messages_in};

use crate::files::read_text;
use crate::rules::{STATEMENT, TWICE};
use dbc_reader::{Database, DbcRefusal, read};
use input_refusals::{InputRefusal, blamed_line};
use sim_outside::{Files, beside};
use std::alloc::Global;
use texts::Text;

/// The most bytes of a database.
const DATABASE_LIMIT: usize = 1 << 24;

/// The database that the scenario of this name names, if it names one.
pub(crate) fn read_base<F: Files>(
    alloc: Global,
    name: &Text,
    database: &Option<Text>,
    files: &mut F,
) -> Result<Option<Database>, InputRefusal>
    ensures told { IfSome (F.held files.old) (λ contents.
        Agrees (λ base. BaseAt contents name.now database.now (messages_in base))
        (IsBaseBlame contents name.now database.now) result) }
    ensures failed { IsErrOf result InputRefusal.Failed → HasRisen (F.faults files.old) (F.faults files.new) }
    ensures faults_stay { F.faults files.old ≤ F.faults files.new }
    ensures contents_stay { F.held files.new ≡ F.held files.old }
{
    let Some(file) = database else {
        return Ok(None);
    };
    let file = beside(alloc, name.bytes(), file.bytes())?;
    let base = read_database(alloc, &file, files)?;
    Ok(Some(base))
}

/// The database of this name.
fn read_database<F: Files>(
    alloc: Global,
    name: &Text,
    files: &mut F,
) -> Result<Database, InputRefusal>
    ensures told { IfSome (F.held files.old) (λ contents.
        Agrees (DatabaseAt contents name.now) (IsDatabaseBlame contents name.now) result) }
    ensures failed { IsErrOf result InputRefusal.Failed → HasRisen (F.faults files.old) (F.faults files.new) }
    ensures faults_stay { F.faults files.old ≤ F.faults files.new }
    ensures contents_stay { F.held files.new ≡ F.held files.old }
{
    let text = read_text(alloc, name, DATABASE_LIMIT, files)?;
    let base = database_of(alloc, name, &text)?;
    Ok(base)
}

/// The database that the text of this file is.
fn database_of(alloc: Global, name: &Text, text: &[u8]) -> Result<Database, InputRefusal>
    requires { length text.now < 2 ^ 32 }
    ensures { Judges (IsDatabase text.now) (IsStatementBlame text.now name.now) result }
{
    match read(alloc, text) {
        Ok(base) => Ok(base),
        Err(DbcRefusal::Text { line }) => Err(blamed_line(alloc, name.bytes(), line, STATEMENT)),
        Err(DbcRefusal::Twice { line }) => Err(blamed_line(alloc, name.bytes(), line, TWICE)),
        Err(DbcRefusal::NoMemory) => Err(InputRefusal::NoMemory),
    }
}
