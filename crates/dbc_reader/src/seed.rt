// The hash of the tables.

ghost use Rattle.std.specs.Prelude.{fold};
ghost use Rattle.std.specs.Hash as fed;
ghost use Rattle.std.specs.Hash.DefaultHasher as sip;

use std::hash::{BuildHasher, DefaultHasher, Hasher};

/// The hash of a text's tables: SipHash, begun with a number that hangs on the whole text. Each
/// change of a name changes the hash of all, so names that fall into one place of a table cannot be
/// looked for one after another.
#[derive(Clone, Copy, Debug)]
pub(crate) struct Seed {
    number: u64,
}

impl Seed {
    /// The seed of a text. Takes time linear in the text.
    pub(crate) fn of(text: &[u8]) -> Seed {
        let mut hasher = DefaultHasher::new();
        hasher.write(text);
        Seed {
            number: hasher.finish(),
        }
    }
}

impl BuildHasher for Seed {
    type Hasher = DefaultHasher;

    ghost build_hasher = { λ seed. fold sip.write sip.initial (fed.u64 seed.number) };

    fn build_hasher(&self) -> DefaultHasher {
        let mut hasher = DefaultHasher::new();
        hasher.write_u64(self.number);
        hasher
    }
}
