// Code that is stored and loaded.

ghost use Rattle.std.specs.Prelude.{ℕ, IfOk, IsErrOf};
ghost use Rattle.bytecode.specs.declared.code.Code as declared;
ghost use Rattle.bytecode.specs.Failure.{FailsFirstAt};
ghost use Rattle.bytecode.specs.Verified.{IsVerified};
ghost use Rattle.object_file.specs.Object.{HasNoCode, HasNoText, IsTextOf};
ghost use Rattle.object_file.specs.declared.refusal.LoadRefusal as refusal;

use crate::object::{code_of, text_of};
use crate::refusal::{LoadRefusal, StoreRefusal};
use crate::stored::ReadRefusal;
use crate::table::are_kept;
use bytecode::{Verified, VerifyRefusal, verify};
use std::alloc::Global;

/// The text of the code. Takes time and memory linear in it.
///
/// It is too long only where the code has no text: where a format, or a text among its arguments, has
/// 2^32 bytes or more, which its line need not have.
pub fn store(alloc: Global, verified: &Verified) -> Result<Vec<u8>, StoreRefusal>
    ensures text { IfOk result (λ bytes. IsTextOf verified.now bytes.items) }
    ensures long { IsErrOf result StoreRefusal.TooLong → HasNoText verified.now }
{
    let code = verified.code();
    if !are_kept(code.formats.as_slice()) {
        return Err(StoreRefusal::TooLong);
    }
    Ok(text_of(alloc, code)?)
}

/// The code of a text, where it is verified. It is bad exactly where no code has this text, and not
/// verified exactly where the code that has it breaks a rule of the verifier; then the first place is
/// told whose rule fails.
///
/// Takes memory linear in the text, whatever its counts say, and time linear in it, but for sorting the
/// selectors and the timers of the event procedures.
pub fn load(alloc: Global, bytes: &[u8]) -> Result<Verified, LoadRefusal>
    ensures text { IfOk result (λ verified. IsTextOf verified bytes.now) }
    ensures verified { IfOk result IsVerified }
    ensures bad { IsErrOf result refusal.LoadRefusal.Bad → HasNoCode bytes.now }
    ensures unverified { (place : ℕ) → IsErrOf result (refusal.LoadRefusal.Unverified place) →
        (code : declared.Code) × IsTextOf code bytes.now × FailsFirstAt code place }
{
    let code = match code_of(alloc, bytes) {
        Ok(code) => code,
        Err(ReadRefusal::Bad) => return Err(LoadRefusal::Bad),
        Err(ReadRefusal::NoMemory) => return Err(LoadRefusal::NoMemory),
    };
    match verify(alloc, code) {
        Ok(verified) => Ok(verified),
        Err(VerifyRefusal::Unverified { place, .. }) => Err(LoadRefusal::Unverified { place }),
        Err(VerifyRefusal::NoMemory) => Err(LoadRefusal::NoMemory),
    }
}
