// Databases.

ghost use Rattle.std.specs.Prelude.{◌≡◌, map, nat_eq, find, option_and_then};
ghost use Rattle.std.specs.Option.{option_copied};
ghost use Rattle.std.specs.Str.{bytes_eq};
ghost use Rattle.dbc_reader.specs.Database.{with_mark};

use crate::message::DbcMessage;
use crate::seed::Seed;
use crate::signals::DbcSignal;
use dbc_statements::FloatMark;
use indexmap::IndexSet;
use std::marker::Model;

/// The messages of a database, in the order of the text, with tables of their names and
/// identifiers. Contracts see it as the list of messages.
#[derive(Debug, Drop)]
pub struct Database {
    messages: Vec<DbcMessage>,
    names: IndexSet<Vec<u8>, Seed>,
    ids: IndexSet<u32, Seed>,
    ghost by_name: { map (λ key. key.items) names.keys ≡ map (λ m. m.name) messages.items },
    ghost by_id: { ids.keys ≡ map (λ m. m.id) messages.items },
}

impl Model for Database {
    ghost use Rattle.std.specs.Prelude.{List};
    ghost use Rattle.dbc_reader.specs.declared.message.DbcMessage.{DbcMessage};

    ghost Value = { List DbcMessage };

    ghost view = { λ database. database.messages.items };
}

impl Database {
    /// These messages, with their tables.
    pub(crate) fn new(
        messages: Vec<DbcMessage>,
        names: IndexSet<Vec<u8>, Seed>,
        ids: IndexSet<u32, Seed>,
    ) -> Database
        requires by_name { map (λ key. key.items) names.keys ≡ map (λ m. m.name) messages.items }
        requires by_id { ids.keys ≡ map (λ m. m.id) messages.items }
        ensures { result ≡ messages.items }
    {
        Database {
            messages,
            names,
            ids,
        }
    }

    /// All messages, in order.
    pub fn messages(&self) -> &[DbcMessage]
        ensures { result.now ≡ self.now }
    {
        self.messages.as_slice()
    }

    /// The message of this name, or None where there is none. Takes time linear in the name, and
    /// constant in the number of messages but for names of one hash.
    pub fn message_by_name(&self, name: &[u8]) -> Option<&DbcMessage>
        ensures { option_copied result ≡ find (λ m. bytes_eq name.now m.name) self.now }
    {
        let place = self.names.get_index_of(name)?;
        self.messages.get(place)
    }

    /// The message with this identifier, in which bit 31 marks an extended one, or None where there
    /// is none. Takes constant time but for identifiers of one hash.
    pub fn message_by_id(&self, id: u32) -> Option<&DbcMessage>
        ensures { option_copied result ≡ find (λ m. nat_eq id m.id) self.now }
    {
        let place = self.ids.get_index_of(&id)?;
        self.messages.get(place)
    }

    /// The signal of this name in the message of that name, or None where there is no such message
    /// or no such signal. Takes time as both look-ups do.
    pub fn signal(&self, message: &[u8], name: &[u8]) -> Option<&DbcSignal>
        ensures { option_copied result ≡ option_and_then (λ m. find (λ s. bytes_eq name.now s.name) m.signals)
            (find (λ m. bytes_eq message.now m.name) self.now) }
    {
        self.message_by_name(message)?.signals.named(name)
    }

    /// Marks a signal as a float, if there is one of this name in a message with this identifier.
    pub(crate) fn mark_float(&mut self, mark: &FloatMark)
        ensures { self.new ≡ with_mark self.old mark.now }
    {
        if let Some(place) = self.ids.get_index_of(&mark.id) {
            if let Some(message) = self.messages.get_mut(place) {
                message.signals.mark_float(mark.name.bytes());
            }
        }
    }
}
