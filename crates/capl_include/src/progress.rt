// How far an expansion has come.

ghost use Rattle.std.specs.Prelude.{◌≡◌, ◌+◌, ◌++◌, ◌∷◌, ◌^◌, ◌<◌, [], OnOk, OnErr, length, nat_le};
ghost use Rattle.capl_include.specs.Expansion.{Expansion, nothing_met, file_limit};
ghost use Rattle.capl_include.specs.Inside.Step.{has_met};

use crate::expanded::{Expanded, SourceFile};
use crate::refusal::ExpandRefusal;
use capl_lexer::Token;
use items::Items;
use std::alloc::Global;
use std::marker::Model;
use texts::{NoMemory, Text};

/// The most files that a program may have.
const FILE_LIMIT: usize = 32;

/// How far an expansion has come.
#[derive(Debug, Drop)]
pub(crate) struct Progress {
    /// The names of the files met so far, in the order of meeting.
    met: Vec<Text>,
    /// How many tokens these files have.
    count: usize,
    /// The files whose visits have ended, in that order.
    files: Vec<SourceFile>,
}

impl Model for Progress {
    ghost use Rattle.capl_include.specs.Expansion.{Expansion};

    ghost Value = { Expansion };

    ghost view = { λ progress. record {
      met = progress.met.items;
      count = progress.count;
      files = progress.files.items;
    } };
}

impl Progress {
    /// Nothing is met yet.
    pub(crate) fn new(alloc: Global) -> Progress
        ensures { result ≡ nothing_met }
    {
        Progress {
            met: Vec::new(alloc),
            count: 0,
            files: Vec::new(alloc),
        }
    }

    /// Whether as many files were met as a program may have.
    pub(crate) fn is_full(&self) -> bool
        ensures { result ≡ nat_le file_limit (length self.now.met) }
    {
        self.met.len() >= FILE_LIMIT
    }

    /// How many tokens the files met so far have.
    pub(crate) fn count(&self) -> usize
        ensures { result ≡ self.now.count }
    {
        self.count
    }

    /// Whether a file of this name was met.
    pub(crate) fn has_met(&self, name: &[u8]) -> bool
        ensures { result ≡ has_met self.now.met name.now }
    {
        self.met.iter().any(|other| other.bytes() == name)
    }

    /// Meets the file of this name with so many tokens, which are a sum below 2^32 with those before.
    pub(crate) fn meet(
        &mut self,
        alloc: Global,
        name: &Text,
        tokens: usize,
    ) -> Result<(), ExpandRefusal>
        requires { self.old.count + tokens < 2 ^ 32 }
        ensures met { OnOk result (self.new ≡ record {
          met = self.old.met ++ name.now ∷ [];
          count = self.old.count + tokens;
          files = self.old.files;
        }) }
        ensures memory { OnErr result (result ≡ Err ExpandRefusal.NoMemory) }
    {
        self.met.push(Text::make(alloc, name.bytes())?)?;
        self.count += tokens;
        Ok(())
    }

    /// Appends the file whose visit ends.
    pub(crate) fn append(&mut self, file: SourceFile) -> Result<(), ExpandRefusal>
        ensures appended { OnOk result (self.new ≡ record {
          met = self.old.met;
          count = self.old.count;
          files = self.old.files ++ file ∷ [];
        }) }
        ensures memory { OnErr result (result ≡ Err ExpandRefusal.NoMemory) }
    {
        self.files.push(file)?;
        Ok(())
    }

    /// The files that were appended.
    pub(crate) fn into_expanded(self) -> Expanded
        ensures { result.files ≡ self.files }
    {
        let Progress {
            met: _,
            count: _,
            files,
        } = self;
        Expanded {
            files: Items::from_list(files),
        }
    }
}
