//! What holds of the code of a sound typed program. Each call does nothing: its contract is the law.

ghost use Rattle.std.specs.Prelude.{ℕ, ◌≤◌};
ghost use Rattle.bytecode.specs.declared.code.Code.{Code};
ghost use Rattle.bytecode.specs.Failure.{FailsFirstAt};
ghost use Rattle.bytecode.specs.Verified.{IsShortCode, IsVerified};
ghost use Rattle.typed_tree.specs.declared.program.Typed.{Typed};
ghost use Rattle.typed_tree.specs.Size.{size};
ghost use Rattle.typed_tree.specs.Sound.{IsSound};
ghost use Rattle.code_listing.specs.Program.{IsCodeOf};

/// The code of a sound typed program of at most 1,000,000 instructions keeps every rule of the
/// verifier, so that there is no place at which the verifier could refuse it. No list in it is too
/// long for the verifier.
pub fn code_is_verified()
    ensures verified { (typed : Typed) (code : Code) → IsSound typed → size typed ≤ 1000000 →
        IsCodeOf typed code → IsVerified code }
    ensures accepted { (typed : Typed) (code : Code) → IsSound typed → size typed ≤ 1000000 →
        IsCodeOf typed code → (place : ℕ) → ¬ (FailsFirstAt code place) }
    ensures short { (typed : Typed) (code : Code) → IsSound typed → size typed ≤ 1000000 →
        IsCodeOf typed code → IsShortCode code }
{}
