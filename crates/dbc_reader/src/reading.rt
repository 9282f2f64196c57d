// Reading of a whole text.

ghost use Rattle.std.specs.Prelude.{◌≡◌, ◌<◌, ◌^◌, length, List, IfOk, IfErr};
ghost use Rattle.dbc_reader.specs.declared.message.DbcMessage.{DbcMessage};
ghost use Rattle.dbc_reader.specs.Database.{IsDatabase, IsDatabaseRefusal, AreDistinct};

use crate::builder::Builder;
use crate::database::Database;
use crate::refusal::{DbcRefusal, NotAdded};
use crate::seed::Seed;
use dbc_statements::{Cursor, Unread, next_statement};
use std::alloc::Global;

/// Reads the database of a DBC text. Takes time and memory linear in the text, but for names of one
/// hash.
///
/// `Text` names the line of the first statement that has no spelling, where all before it are well,
/// and `Twice` the line of the first name or identifier for the second time.
pub fn read(alloc: Global, bytes: &[u8]) -> Result<Database, DbcRefusal>
    requires { length bytes.now < 2 ^ 32 }
    ensures found { IfOk result (IsDatabase bytes.now) }
    ensures only { IfOk result (λ database.
        (others : List DbcMessage) → IsDatabase bytes.now others → others ≡ database) }
    ensures distinct { IfOk result AreDistinct }
    ensures refused { IfErr result (IsDatabaseRefusal bytes.now) }
{
    let mut cursor = Cursor::new(bytes);
    let mut builder = Builder::new(alloc, Seed::of(bytes));
    while let Some(line) = cursor.line() {
        let statement = match next_statement(alloc, &mut cursor, builder.has_owner()) {
            Ok(statement) => statement,
            Err(Unread::NotSpelled) => return Err(DbcRefusal::Text { line }),
            Err(Unread::NoMemory) => return Err(DbcRefusal::NoMemory),
        };
        match builder.add(alloc, statement) {
            Ok(()) => {}
            Err(NotAdded::Twice { line }) => return Err(DbcRefusal::Twice { line }),
            Err(NotAdded::NoMemory) => return Err(DbcRefusal::NoMemory),
        }
    }
    Ok(builder.finish())
}
