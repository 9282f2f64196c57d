// The table of the names of declared variables.

ghost use Rattle.std.specs.Prelude.{◌≡◌, IfOk};
ghost use Rattle.sys_vars.specs.Name.{is_declared};

use crate::item::SysItem;
use std::alloc::Global;
use std::collections::BTreeSet;
use std::marker::Model;
use texts::NoMemory;

/// Declared variables, with their names in order. They are kept in order and not hashed, since who writes
/// a scenario chooses them. Contracts see the variables.
#[derive(Drop)]
pub(crate) struct Declared<'i> {
    items: &'i [SysItem],
    names: BTreeSet<(&'i [u8], &'i [u8])>,
}

impl<'i> Model for Declared<'i> {
    ghost use Rattle.std.specs.Prelude.{◌≡◌, List, ℕ};
    ghost use Rattle.sys_vars.specs.declared.item.SysItem.{SysItem};
    ghost use Rattle.sys_vars.specs.Name.{is_declared};
    ghost use Rattle.sys_vars.specs.Inside.Declared.{has};

    ghost Value = { List SysItem };

    ghost view = { λ declared. declared.items.now };

    ghost invariant = { λ declared. (space name : List ℕ) →
        has declared.names space name ≡ is_declared declared.items.now space name };
}

impl<'i> Declared<'i> {
    /// These variables. Takes time n log n and memory linear in their number.
    pub(crate) fn of(alloc: Global, items: &'i [SysItem]) -> Result<Declared<'i>, NoMemory>
        ensures { IfOk result (λ declared. declared ≡ items.now) }
    {
        let mut names = BTreeSet::new(alloc);
        for item in items {
            names.insert((item.space.bytes(), item.name.bytes()))?;
        }
        Ok(Declared { items, names })
    }

    /// Whether there is a variable of this space and this name. Takes time logarithmic in their number.
    pub(crate) fn has(&self, space: &'i [u8], name: &'i [u8]) -> bool
        ensures { result ≡ is_declared self.now space.now name.now }
    {
        self.names.contains(&(space, name))
    }
}
