// Files in memory, which fail where they are told to.

ghost use Rattle.std.specs.Prelude.{◌≡◌, ◌+◌, ◌-◌, ◌^◌, ℕ, ◌↔◌, ◌≤◌, min, map, List, Contains, IfOk, IfSome, IsErrOf, vec_len, if◌then◌else◌};
ghost use Rattle.std.specs.Option.{option_map};
ghost use Rattle.texts.specs.Fault.{HasRisen, raised};
ghost use Rattle.sim_outside.specs.Files.{AgreesWith};
ghost use Rattle.sim_outside.specs.MemFiles.{held_in};

use crate::files::{FileRefusal, Files};
use std::alloc::Global;
use std::marker::Model;
use texts::Text;

/// Files in memory. They tell what they hold.
#[derive(Debug, Drop)]
pub struct MemFiles {
    entries: Vec<(Text, Vec<u8>)>,
    failing: Vec<u64>,
    next_call: u64,
    faults: u64,
}

impl Model for MemFiles {
    ghost use Rattle.std.specs.Prelude.{map};
    ghost use Rattle.sim_outside.specs.MemFiles.{FilesInMemory};

    ghost Value = { FilesInMemory };

    ghost view = { λ files. record {
      entries = map (λ entry. (entry.0, entry.1.items)) files.entries.items;
      failing = files.failing.items;
      next_call = files.next_call;
      faults = files.faults;
    } };
}

impl MemFiles {
    /// Files with these names and bytes; of two entries of one name the first is held. The calls of
    /// `read` with the listed numbers fail, counted from 1. No fault is counted yet.
    pub fn new(entries: Vec<(Text, Vec<u8>)>, failing: Vec<u64>) -> MemFiles
        ensures { result ≡ record {
          entries = map (λ entry. (entry.0, entry.1.items)) entries.items;
          failing = failing.items;
          next_call = 1;
          faults = 0;
        } }
    {
        MemFiles {
            entries,
            failing,
            next_call: 1,
            faults: 0,
        }
    }
}

impl Files for MemFiles {
    ghost use Rattle.std.specs.Prelude.{Some};
    ghost use Rattle.sim_outside.specs.MemFiles.{held_in};

    ghost held = { λ files. Some (held_in files.entries) };

    ghost faults = { λ files. files.faults };

    ghost reads = { λ files. files.next_call };

    fn read(&mut self, alloc: Global, name: &Text, limit: usize) -> Result<Vec<u8>, FileRefusal>
        ensures told { IfSome (Some (held_in self.old.entries))
            (λ contents. AgreesWith contents name.now limit result) }
        ensures within_limit { IfOk result (λ bytes. vec_len bytes ≤ limit) }
        ensures failed { IsErrOf result FileRefusal.Failed → HasRisen self.old.faults self.new.faults }
        ensures faults_stay { self.old.faults ≤ self.new.faults }
        ensures contents_stay { Some (held_in self.new.entries) ≡ Some (held_in self.old.entries) }
        ensures asked { self.new.next_call ≡ raised self.old.next_call }

        // It fails at the listed calls and nowhere else, and only there its faults rise.
        ensures listed { IsErrOf result FileRefusal.Failed ↔ Contains self.old.failing self.old.next_call }
        ensures counted { IsErrOf result FileRefusal.Failed → self.new.faults ≡ raised self.old.faults }
        ensures uncounted { ¬ IsErrOf result FileRefusal.Failed → self.new.faults ≡ self.old.faults }
        ensures next { self.new ≡ record self.old {
          next_call = raised self.old.next_call;
          faults = self.new.faults;
        } }
    {
        let call = self.next_call;
        self.next_call = call.saturating_add(1);
        if self.failing.contains(&call) {
            self.faults = self.faults.saturating_add(1);
            return Err(FileRefusal::Failed);
        }
        let Some(bytes) = find(&self.entries, name.bytes()) else {
            return Err(FileRefusal::Missing);
        };
        if bytes.len() > limit {
            return Err(FileRefusal::TooLong);
        }
        Vec::from_slice(alloc, bytes).map_err(|_| FileRefusal::NoMemory)
    }
}

/// The bytes of the first entry of a name.
fn find<'a>(entries: &'a [(Text, Vec<u8>)], name: &[u8]) -> Option<&'a [u8]>
    ensures { option_map (λ bytes. bytes.now) result
        ≡ held_in (map (λ entry. (entry.0, entry.1.items)) entries.now) name.now }
{
    for (key, bytes) in entries {
        if key.bytes() == name {
            return Some(bytes.as_slice());
        }
    }
    None
}
