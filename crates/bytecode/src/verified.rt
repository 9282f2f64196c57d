// Verified code, and the verifier.

ghost use Rattle.std.specs.Prelude.{◌≡◌, IfErr, IfOk};
ghost use Rattle.bytecode.specs.Refusal.{IsRefusalOf};
ghost use Rattle.bytecode.specs.Verified.{IsShortCode, IsVerified};

use crate::code::Code;
use crate::failure::first_failure;
use crate::refusal::VerifyRefusal;
use std::alloc::Global;
use std::marker::Model;
use texts::NoMemory;

/// Code that keeps every rule of the verifier. Only [`verify`] makes it.
///
/// Contracts see it as its code.
#[derive(Debug, Drop)]
pub struct Verified {
    code: Code,
}

impl Model for Verified {
    ghost use Rattle.bytecode.specs.declared.code.Code.{Code};

    ghost Value = { Code };

    ghost use Rattle.bytecode.specs.Verified.{IsShortCode, IsVerified};

    ghost view = { λ verified. verified.code };

    ghost invariant = { λ verified. IsVerified verified.code × IsShortCode verified.code };
}

impl Verified {
    /// The code.
    pub fn code(&self) -> &Code
        ensures same { result.now ≡ self.now }
        ensures verified { IsVerified result.now }
        ensures short { IsShortCode result.now }
    {
        &self.code
    }
}

/// Takes code that keeps every rule of the verifier, and gives any other back with the first place
/// whose rule fails.
///
/// Takes time linear in the code, but for sorting the selectors and the timers of its handlers, and
/// memory linear in these and, where it has formats, in its cells.
pub fn verify(alloc: Global, code: Code) -> Result<Verified, VerifyRefusal>
    requires { IsShortCode code }
    ensures same { IfOk result (λ verified. verified ≡ code) }
    ensures verified { IfOk result IsVerified }
    ensures short { IfOk result IsShortCode }
    ensures unverified { IfErr result (IsRefusalOf code) }
{
    match first_failure(alloc, &code)? {
        Some(place) => Err(VerifyRefusal::Unverified { place, code }),
        None => Ok(Verified { code }),
    }
}
