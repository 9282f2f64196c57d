// What the items of a scenario say so far.

ghost use Rattle.std.specs.Prelude.{◌≡◌, ◌==◌, ◌||◌, not, [], length, nat_lt, codes, unwrap_or, IfOk, OnOk};
ghost use Rattle.std.specs.List.{list_any};
ghost use Rattle.std.specs.Str.{bytes_eq};
ghost use Rattle.scenario.specs.Rule.{rule_by_kind, rule_of_node};
ghost use Rattle.scenario.specs.Item.{is_node_name};
ghost use Rattle.scenario.specs.Scenario.{AreByMoment};
ghost use Rattle.scenario.specs.Inside.Draft.{said_by, is_said, rule_behind, with_item, IsScenarioOf};

use crate::item::Item;
use crate::scenario::{Epoch, KeyItem, NodeItem, Scenario};
use crate::value::{is_file_name, is_interface, is_node_name};
use std::alloc::Global;
use std::marker::Model;
use texts::{NoMemory, Text};

/// How many nodes a scenario has at most.
const NODES: usize = 64;

/// How long a bit is where no item says it, in microseconds: 500,000 bits a second.
const DEFAULT_BIT: u32 = 2;

/// The end moment where no item says it, in microseconds.
const DEFAULT_END: u64 = 10_000_000;

/// The turn limit where no item says it.
const DEFAULT_TURNS: u64 = 100_000;

/// The interface where no item says it.
const DEFAULT_INTERFACE: &[u8] = b"can0";

/// What the items of a scenario say so far: None and nothing where no item has said it.
#[derive(Drop)]
pub(crate) struct Draft {
    is_started: bool,
    database: Option<Text>,
    nodes: Vec<NodeItem>,
    bit: Option<u32>,
    until: Option<u64>,
    turns: Option<u64>,
    epoch: Option<Epoch>,
    interface: Option<Text>,
    picks: Vec<u32>,
    keys: Vec<KeyItem>,
    replay: Option<Text>,
}

impl Model for Draft {
    ghost use Rattle.scenario.specs.Inside.Draft.{Said};

    ghost Value = { Said };

    ghost view = { λ draft. record {
      is_started = draft.is_started;
      database = draft.database;
      nodes = draft.nodes.items;
      bit = draft.bit;
      until = draft.until;
      turns = draft.turns;
      epoch = draft.epoch;
      interface = draft.interface;
      picks = draft.picks.items;
      keys = draft.keys.items;
      replay = draft.replay;
    } };
}

impl Draft {
    /// What no item says. Takes no memory.
    pub(crate) fn new(alloc: Global) -> Draft
        ensures { result ≡ said_by [] }
    {
        Draft {
            is_started: false,
            database: None,
            nodes: Vec::new(alloc),
            bit: None,
            until: None,
            turns: None,
            epoch: None,
            interface: None,
            picks: Vec::new(alloc),
            keys: Vec::new(alloc),
            replay: None,
        }
    }

    /// Whether `scenario 1` stood.
    pub(crate) fn is_started(&self) -> bool
        ensures { result ≡ self.now.is_started }
    {
        self.is_started
    }

    /// Whether a node stood.
    pub(crate) fn has_node(&self) -> bool
        ensures { result ≡ nat_lt 0 (length self.now.nodes) }
    {
        !self.nodes.is_empty()
    }

    /// The number of the least rule that the item breaks behind these, or None where it breaks none.
    pub(crate) fn rule_behind(&self, item: &Item) -> Option<u8>
        ensures { result ≡ rule_behind self.now item.now }
    {
        if !self.is_started && !matches!(item, Item::Scenario(true)) {
            return Some(1);
        }
        if self.is_said(item) {
            return Some(3);
        }
        self.rule_by_kind(item)
    }

    /// Whether the item is one that stands at most once, and stood.
    fn is_said(&self, item: &Item) -> bool
        ensures { result ≡ is_said self.now item.now }
    {
        match item {
            Item::Scenario(_) => self.is_started,
            Item::Database(_) => self.database.is_some(),
            Item::Bitrate(_) => self.bit.is_some(),
            Item::Until(_) => self.until.is_some(),
            Item::Turns(_) => self.turns.is_some(),
            Item::Epoch(_) => self.epoch.is_some(),
            Item::Interface(_) => self.interface.is_some(),
            Item::Replay(_) => self.replay.is_some(),
            Item::Node(_) | Item::Picks(_) | Item::Key(_) | Item::Unknown => false,
        }
    }

    /// The number of the least rule but S01 and S03 that the item breaks behind these.
    fn rule_by_kind(&self, item: &Item) -> Option<u8>
        ensures { result ≡ rule_by_kind self.now.nodes item.now }
    {
        match item {
            Item::Unknown => Some(2),
            Item::Node(node) => self.rule_of_node(node),
            Item::Bitrate(None) => Some(6),
            Item::Until(None) => Some(7),
            Item::Turns(None) => Some(8),
            Item::Epoch(None) => Some(9),
            Item::Interface(name) if !is_interface(name.bytes()) => Some(10),
            Item::Database(file) | Item::Replay(file) if !is_file_name(file.bytes()) => Some(10),
            Item::Picks(None) | Item::Key(None) => Some(11),
            _ => None,
        }
    }

    /// The number of the least rule from S04 on that a node breaks behind these.
    fn rule_of_node(&self, node: &NodeItem) -> Option<u8>
        ensures { result ≡ rule_of_node self.now.nodes node.now }
    {
        if self.refuses_name_of(node) {
            Some(4)
        } else if self.is_full() {
            Some(5)
        } else if !is_file_name(node.file.bytes()) {
            Some(10)
        } else {
            None
        }
    }

    /// Whether the node may not have its name behind these.
    fn refuses_name_of(&self, node: &NodeItem) -> bool
        ensures { result ≡ (not (is_node_name node.now.name)
            || list_any (λ other. bytes_eq node.now.name other.name) self.now.nodes) }
    {
        self.refuses_name(node.name.bytes())
    }

    /// Whether no further node may have this name.
    fn refuses_name(&self, name: &[u8]) -> bool
        ensures { result ≡ (not (is_node_name name.now)
            || list_any (λ node. bytes_eq name.now node.name) self.now.nodes) }
    {
        !is_node_name(name) || self.has_node_named(name)
    }

    /// Whether there are as many nodes as a scenario may have.
    fn is_full(&self) -> bool
        ensures { result ≡ (length self.now.nodes == 64) }
    {
        self.nodes.len() == NODES
    }

    /// Whether a node has this name.
    fn has_node_named(&self, name: &[u8]) -> bool
        ensures { result ≡ list_any (λ node. bytes_eq name.now node.name) self.now.nodes }
    {
        self.nodes.iter().any(
            |node: &NodeItem| -> bool
                ensures { result ≡ bytes_eq name.entry.now node.now.name }
            { name == node.name.bytes() },
        )
    }

    /// Adds what the item says. After a refusal the draft may only be dropped.
    pub(crate) fn add(&mut self, item: Item) -> Result<(), NoMemory>
        ensures { OnOk result (self.new ≡ with_item self.old item) }
    {
        match item {
            Item::Scenario(_) => self.is_started = true,
            Item::Database(file) => self.database = Some(file),
            Item::Node(node) => self.nodes.push(node)?,
            Item::Bitrate(bit) => self.bit = bit,
            Item::Until(until) => self.until = until,
            Item::Turns(turns) => self.turns = turns,
            Item::Epoch(epoch) => self.epoch = epoch,
            Item::Interface(name) => self.interface = Some(name),
            Item::Picks(Some(picks)) => self.picks.extend_from_slice(picks.as_slice())?,
            Item::Key(Some(key)) => self.keys.push(key)?,
            Item::Replay(file) => self.replay = Some(file),
            Item::Picks(None) | Item::Key(None) | Item::Unknown => {}
        }
        Ok(())
    }

    /// The scenario with the defaults of what was not said. Takes time n log n in the keys.
    pub(crate) fn into_scenario(self, alloc: Global) -> Result<Scenario, NoMemory>
        ensures { IfOk result (IsScenarioOf self) }
    {
        let Draft {
            is_started: _,
            database,
            nodes,
            bit,
            until,
            turns,
            epoch,
            interface,
            picks,
            mut keys,
            replay,
        } = self;
        order_by_moment(&mut keys)?;
        let interface = interface_or_default(alloc, interface)?;
        Ok(Scenario {
            database,
            nodes,
            bit: bit.unwrap_or(DEFAULT_BIT),
            until: until.unwrap_or(DEFAULT_END),
            turns: turns.unwrap_or(DEFAULT_TURNS),
            epoch: epoch.unwrap_or(Epoch::At(0)),
            interface,
            picks,
            keys,
            replay,
        })
    }
}

/// Orders the keys by moment; those of one moment stay in their order. After a refusal they stand as
/// they were.
fn order_by_moment(keys: &mut Vec<KeyItem>) -> Result<(), NoMemory>
    ensures { OnOk result (AreByMoment keys.old.items keys.new.items) }
{
    keys.sort_by_key(|key| key.at)?;
    Ok(())
}

/// The interface, or the one of a scenario that names none.
fn interface_or_default(alloc: Global, interface: Option<Text>) -> Result<Text, NoMemory>
    ensures { IfOk result (λ name. name ≡ unwrap_or interface (codes "can0")) }
{
    match interface {
        Some(name) => Ok(name),
        None => Text::make(alloc, DEFAULT_INTERFACE),
    }
}
