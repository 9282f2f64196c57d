//! Laws of texts. Each call does nothing: its contract is the law.

ghost use Rattle.std.specs.Prelude.{◌≡◌, List, ℕ};
ghost use Rattle.bytecode.specs.declared.code.Code.{Code};
ghost use Rattle.bytecode.specs.Failure.{FailsFirstAt};
ghost use Rattle.bytecode.specs.Verified.{IsVerified};
ghost use Rattle.object_file.specs.Object.{IsTextOf};

use crate::object::complete;

/// Bytes are the text of one code at most, so what is stored is loaded as the same code.
pub fn one_code()
    ensures { (bytes : List ℕ) (code other : Code) →
        IsTextOf code bytes → IsTextOf other bytes → other ≡ code }
{
    complete();
}

/// No rule fails of code whose text is that of verified code.
pub fn no_rule_fails()
    ensures { (bytes : List ℕ) (code other : Code) (place : ℕ) →
        IsVerified code → IsTextOf code bytes → IsTextOf other bytes → ¬ (FailsFirstAt other place) }
{
    complete();
}
