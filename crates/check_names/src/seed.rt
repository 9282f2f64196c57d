// The hash of the tables.

use crate::function::DeclaredFunction;
use crate::hasher::NameHasher;
use crate::variable::Declared;
use std::hash::{BuildHasher, DefaultHasher, FoldHasher, Hasher};

/// The hash of a program's tables, begun with numbers that hang on all its names, by SipHash. Each change
/// of a name changes the hash of all, so names that fall into one place of a table cannot be looked for
/// one after another.
#[derive(Clone, Copy)]
pub(crate) struct Seed {
    /// What each hash begins as: it has taken a number, and its secret is another one.
    begun: NameHasher,
}

impl Seed {
    /// The seed of these variables and functions. Takes time linear in their names.
    pub(crate) fn of(variables: &[Declared], functions: &[DeclaredFunction]) -> Seed {
        let mut hasher = DefaultHasher::new();
        for variable in variables {
            hasher.write(variable.name());
            hasher.write_u8(0);
        }
        for function in functions {
            hasher.write(function.name.bytes());
            hasher.write_u8(0);
        }
        let mut folded = FoldHasher::default();
        folded.write_u64(hasher.finish());
        hasher.write_u8(0);
        // An odd factor loses no bit of what it multiplies.
        let secret = hasher.finish() | 1;
        Seed {
            begun: NameHasher { folded, secret },
        }
    }
}

impl BuildHasher for Seed {
    type Hasher = NameHasher;

    ghost build_hasher = { λ seed. seed.begun };

    fn build_hasher(&self) -> NameHasher {
        self.begun
    }
}
