// What statements said so far.

ghost use Rattle.std.specs.Prelude.{◌≡◌};
ghost use Rattle.dbc_reader.specs.Database.{Said, has_owner, is_independent, messages_of, nothing_said};
ghost use Rattle.dbc_statements.specs.declared.statement.Statement.TheVariants as statement;
ghost use Rattle.dbc_reader.specs.Inside.Builder.{Adds, Agree, said_of};

use crate::database::Database;
use crate::message::DbcMessage;
use crate::owner::Owner;
use crate::refusal::NotAdded;
use crate::seed::Seed;
use crate::signals::{DbcSignal, Signals};
use dbc_statements::{FloatMark, Statement};
use indexmap::IndexSet;
use signal_codec::Layout;
use std::alloc::Global;
use texts::Text;

/// What statements said so far, with tables of the messages' names and identifiers.
#[derive(Drop)]
pub(crate) struct Builder {
    messages: Vec<DbcMessage>,
    names: IndexSet<Vec<u8>, Seed>,
    ids: IndexSet<u32, Seed>,
    owner: Owner,
    marks: Vec<FloatMark>,
    seed: Seed,
}

impl Builder {
    /// No statement yet.
    pub(crate) fn new(alloc: Global, seed: Seed) -> Builder
        ensures agree { Agree result }
        ensures nothing_said { said_of result ≡ nothing_said }
    {
        Builder {
            messages: Vec::new(alloc),
            names: IndexSet::with_hasher(alloc, seed),
            ids: IndexSet::with_hasher(alloc, seed),
            owner: Owner::Nobody,
            marks: Vec::new(alloc),
            seed,
        }
    }

    /// Whether a message stood before.
    pub(crate) fn has_owner(&self) -> bool
        ensures { result ≡ has_owner (said_of self.now).owner }
    {
        !matches!(self.owner, Owner::Nobody)
    }

    /// Adds a statement.
    pub(crate) fn add(&mut self, alloc: Global, st: Statement) -> Result<(), NotAdded>
        requires { Agree self.old }
        ensures { Adds (said_of self.old) st self.new result }
    {
        match st {
            Statement::Message {
                id,
                id_line,
                name,
                name_line,
                len,
            } => self.add_message(alloc, id, id_line, name, name_line, len),
            Statement::Signal { name, layout, line } => self.add_signal(alloc, name, layout, line),
            Statement::Float(mark) => {
                self.marks.push(mark)?;
                Ok(())
            }
            Statement::Other => Ok(()),
        }
    }

    /// Adds a message, or notes that it is dropped.
    fn add_message(
        &mut self,
        alloc: Global,
        id: u32,
        id_line: u32,
        name: Text,
        name_line: u32,
        len: u32,
    ) -> Result<(), NotAdded>
        requires { Agree self.old }
        ensures { Adds (said_of self.old) (statement.Message id id_line name name_line len) self.new result }
    {
        if is_independent(id, name.bytes()) {
            self.owner = Owner::Dropped;
            return Ok(());
        }
        if !self.ids.insert(id)? {
            return Err(NotAdded::Twice { line: id_line });
        }
        if !self.names.insert(Vec::from_slice(alloc, name.bytes())?)? {
            return Err(NotAdded::Twice { line: name_line });
        }
        self.messages.push(DbcMessage {
            id,
            name,
            len,
            signals: Signals::new(alloc, self.seed),
        })?;
        self.owner = Owner::LastMessage;
        Ok(())
    }

    /// Adds a signal to the last message, if it belongs to it.
    fn add_signal(
        &mut self,
        alloc: Global,
        name: Text,
        layout: Layout,
        line: u32,
    ) -> Result<(), NotAdded>
        requires { Agree self.old }
        ensures { Adds (said_of self.old) (statement.Signal name layout line) self.new result }
    {
        if !matches!(self.owner, Owner::LastMessage) {
            return Ok(());
        }
        let Some(last) = self.messages.last_mut() else {
            return Ok(());
        };
        let signal = DbcSignal {
            name,
            layout,
            float: false,
        };
        if last.signals.push(alloc, signal)? {
            Ok(())
        } else {
            Err(NotAdded::Twice { line })
        }
    }

    /// The database of all that was said.
    pub(crate) fn finish(self) -> Database
        requires { Agree self }
        ensures { result ≡ messages_of (said_of self) }
    {
        let Builder {
            messages,
            names,
            ids,
            marks,
            ..
        } = self;
        let mut database = Database::new(messages, names, ids);
        for mark in &marks {
            database.mark_float(mark);
        }
        database
    }
}

/// Whether this is the message that tools write to hold the signals of no message.
fn is_independent(id: u32, name: &[u8]) -> bool
    ensures { result ≡ is_independent id name.now }
{
    id == 0xC000_0000 && name == b"VECTOR__INDEPENDENT_SIG_MSG".as_slice()
}
