// The signals of a message.

ghost use Rattle.std.specs.Prelude.{◌≡◌, ◌∷◌, ◌++◌, [], map, not, find, IfOk, if◌then◌else◌};
ghost use Rattle.std.specs.List.{list_any};
ghost use Rattle.std.specs.Option.{option_copied};
ghost use Rattle.std.specs.Str.{bytes_eq};
ghost use Rattle.dbc_reader.specs.Database.{signal_names, with_float};

use crate::seed::Seed;
use indexmap::IndexSet;
use signal_codec::Layout;
use std::alloc::Global;
use std::marker::Model;
use texts::{NoMemory, Text};

/// A signal of a message.
#[derive(Debug, Drop)]
pub struct DbcSignal {
    /// Its name.
    pub name: Text,
    /// Where its bits lie in the payload, as the text says. It need not be usable.
    pub layout: Layout,
    /// Whether the text marks its value as a float of 32 or 64 bits.
    pub float: bool,
}

/// The signals of a message, in the order of the text, and a table of their names. Contracts see
/// them as the list.
#[derive(Debug, Drop)]
pub struct Signals {
    list: Vec<DbcSignal>,
    names: IndexSet<Vec<u8>, Seed>,
    ghost by_name: { map (λ key. key.items) names.keys ≡ map (λ signal. signal.name) list.items },
}

impl Model for Signals {
    ghost use Rattle.std.specs.Prelude.{List};
    ghost use Rattle.dbc_reader.specs.declared.signals.DbcSignal.{DbcSignal};

    ghost Value = { List DbcSignal };

    ghost view = { λ signals. signals.list.items };
}

impl Signals {
    /// No signals.
    pub(crate) fn new(alloc: Global, seed: Seed) -> Signals
        ensures { result ≡ [] }
    {
        Signals {
            list: Vec::new(alloc),
            names: IndexSet::with_hasher(alloc, seed),
        }
    }

    /// All signals, in order.
    pub fn as_slice(&self) -> &[DbcSignal]
        ensures { result.now ≡ self.now }
    {
        self.list.as_slice()
    }

    /// The signal of this name, or None where there is none. Takes time linear in the name, and
    /// constant in the number of signals but for names of one hash.
    pub fn named(&self, name: &[u8]) -> Option<&DbcSignal>
        ensures { option_copied result ≡ find (λ s. bytes_eq name.now s.name) self.now }
    {
        let place = self.names.get_index_of(name)?;
        self.list.get(place)
    }

    /// Puts a signal last and gives true, or leaves all as it is and gives false where its name is
    /// there.
    pub(crate) fn push(&mut self, alloc: Global, signal: DbcSignal) -> Result<bool, NoMemory>
        ensures added { IfOk result (λ added.
            added ≡ not (list_any (bytes_eq signal.name) (signal_names self.old))) }
        ensures signals { IfOk result (λ added.
            self.new ≡ (if added then self.old ++ signal ∷ [] else self.old)) }
    {
        let name = Vec::from_slice(alloc, signal.name.bytes())?;
        self.list.reserve(1)?;
        if !self.names.insert(name)? {
            return Ok(false);
        }
        self.list.push(signal)?;
        Ok(true)
    }

    /// Marks the signal of this name as a float, if there is one.
    pub(crate) fn mark_float(&mut self, name: &[u8])
        ensures { self.new ≡ with_float name.now self.old }
    {
        if let Some(place) = self.names.get_index_of(name) {
            if let Some(signal) = self.list.get_mut(place) {
                signal.float = true;
            }
        }
    }
}
