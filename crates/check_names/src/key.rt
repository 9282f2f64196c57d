// Names as keys of tables.

ghost use Rattle.std.specs.Prelude.{◌∷◌, []};
ghost use Rattle.std.specs.Cmp.{on_equiv, partial_equiv_from_equiv};
ghost use Rattle.std.specs.Cmp.Lexicographic.{bytes_decides, nat_list_eq_equiv};
ghost use Rattle.std.specs.Str.{bytes_eq};
ghost use Rattle.std.proofs.Common.{ap};

use std::hash::{Hash, Hasher};

/// A name of the program as a key of a table. Its bytes are hashed at once, and not one by one.
#[derive(Clone, Copy)]
pub(crate) struct Key<'p> {
    /// The name.
    pub(crate) bytes: &'p [u8],
}

impl PartialEq for Key<'_> {
    ghost eq = { λ a b. bytes_eq a.bytes.now b.bytes.now };

    ghost laws = { partial_equiv_from_equiv (on_equiv (λ key. key.bytes.now) nat_list_eq_equiv) };

    fn eq(&self, other: &Self) -> bool {
        self.bytes == other.bytes
    }
}

impl Eq for Key<'_> {
    ghost laws = { on_equiv (λ key. key.bytes.now) nat_list_eq_equiv };
}

impl Hash for Key<'_> {
    ghost hash_input = { λ key. key.bytes.now ∷ [] };

    ghost respects_eq = { λ a b same.
        ap (λ bytes. bytes ∷ []) ((bytes_decides a.bytes.now b.bytes.now).0 same) };

    fn hash<H: Hasher>(&self, state: &mut H) {
        state.write(self.bytes);
    }
}
