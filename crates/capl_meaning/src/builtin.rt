// The functions of the language.

ghost use Rattle.std.specs.Prelude.{◌≡◌, is_some};
ghost use Rattle.capl_meaning.specs.Names.{builtin_named};

/// A function that each program has.
#[derive(Clone, Copy, Debug, PartialEq, Eq)]
pub enum Builtin {
    /// `output(m)`
    Output,
    /// `write("FORMAT", ..)`
    Write,
    /// `setTimer(t, n)`
    SetTimer,
    /// `setTimerCyclic(t, n)`
    SetTimerCyclic,
    /// `cancelTimer(t)`
    CancelTimer,
    /// `stop()`
    Stop,
    /// `isTimerActive(t)`
    IsTimerActive,
    /// `timeNow()`
    TimeNow,
    /// `elCount(a)`
    ElCount,
}

/// The function of the language of this name, or None where there is none.
pub fn builtin_named(name: &[u8]) -> Option<Builtin>
    ensures { result ≡ builtin_named name.now }
{
    if name == b"output".as_slice() {
        Some(Builtin::Output)
    } else if name == b"write".as_slice() {
        Some(Builtin::Write)
    } else if name == b"setTimer".as_slice() {
        Some(Builtin::SetTimer)
    } else if name == b"setTimerCyclic".as_slice() {
        Some(Builtin::SetTimerCyclic)
    } else if name == b"cancelTimer".as_slice() {
        Some(Builtin::CancelTimer)
    } else if name == b"stop".as_slice() {
        Some(Builtin::Stop)
    } else if name == b"isTimerActive".as_slice() {
        Some(Builtin::IsTimerActive)
    } else if name == b"timeNow".as_slice() {
        Some(Builtin::TimeNow)
    } else if name == b"elCount".as_slice() {
        Some(Builtin::ElCount)
    } else {
        None
    }
}

/// Whether a function of the language has this name.
pub fn is_builtin(name: &[u8]) -> bool
    ensures { result ≡ is_some (builtin_named name.now) }
{
    builtin_named(name).is_some()
}
