//! What the definitions of the contracts mean. The functions do nothing: each contract is a theorem.

ghost use Rattle.std.specs.Prelude.{◌≡◌, ◌^◌, ℤ};
ghost use Rattle.int_kinds.specs.Congruent.{Congruent};
ghost use Rattle.int_kinds.specs.Kind.{Holds, width, wrap};

use crate::kinds::Kind;

/// `wrap` gives the one number of the kind that is congruent to `n` modulo 2 to the kind's width.
pub const fn wrapped_is_unique(k: Kind)
    ensures held { (n : ℤ) → Holds k (wrap k n) }
    ensures congruent { (n : ℤ) → Congruent (2 ^ width k) (wrap k n) n }
    ensures only { (m n : ℤ) → Holds k m → Congruent (2 ^ width k) m n → m ≡ wrap k n }
{}
