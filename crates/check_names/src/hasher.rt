// The hash of names.

ghost use Rattle.std.specs.Prelude.{◌≡◌};
ghost use Rattle.std.specs.Hash.FoldHasher.{folded_multiply};

use std::hash::{FoldHasher, Hasher};

/// The hash of a name: the kit's fast one, which multiplies and folds, multiplied by a secret and folded once
/// more. Without the secret nobody can tell which names fall into one place of a table.
#[derive(Clone, Copy)]
pub(crate) struct NameHasher {
    /// What the bytes come to.
    pub(crate) folded: FoldHasher,
    /// What that is multiplied by.
    pub(crate) secret: u64,
}

impl Hasher for NameHasher {
    ghost use Rattle.check_names.specs.Inside.Hash.{finished, written};

    ghost write = { written };

    ghost finish = { finished };

    fn finish(&self) -> u64 {
        folded_product(self.folded.finish(), self.secret)
    }

    fn write(&mut self, bytes: &[u8]) {
        self.folded.write(bytes);
    }
}

/// The two halves of a product's 128 bits, joined by xor.
fn folded_product(a: u64, b: u64) -> u64
    ensures { result ≡ folded_multiply a b }
{
    let product = a as u128 * b as u128;
    (product & 0xFFFF_FFFF_FFFF_FFFF) as u64 ^ (product >> 64) as u64
}
