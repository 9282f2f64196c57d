//! Laws of databases, which stand over the definitions alone.

ghost use Rattle.std.specs.Prelude.{◌≡◌, ◌≢◌, ℕ, List};
ghost use Rattle.dbc_reader.specs.declared.message.DbcMessage.{DbcMessage};
ghost use Rattle.dbc_reader.specs.declared.refusal.DbcRefusal.{DbcRefusal as Refusal};
ghost use Rattle.dbc_reader.specs.declared.refusal.DbcRefusal.TheVariants as refusal;
ghost use Rattle.dbc_reader.specs.Database.{IsDatabase, IsDatabaseRefusal};

/// A text has one database, or it is refused for one reason in one line.
pub fn one_reading()
    ensures database { (text : List ℕ) (one other : List DbcMessage)
        → IsDatabase text one → IsDatabase text other → one ≡ other }
    ensures not_both { (text : List ℕ) (messages : List DbcMessage) (reason : Refusal)
        → IsDatabase text messages → IsDatabaseRefusal text reason → reason ≡ refusal.NoMemory }
    ensures refusal { (text : List ℕ) (one other : Refusal)
        → IsDatabaseRefusal text one → IsDatabaseRefusal text other
        → one ≢ refusal.NoMemory → other ≢ refusal.NoMemory → one ≡ other }
{}
