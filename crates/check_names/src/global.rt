// What the globals of names are.

ghost use Rattle.std.specs.Prelude.{◌≡◌, false, slice_get};
ghost use Rattle.std.specs.Option.{option_map_or};
ghost use Rattle.capl_meaning.specs.Names.{global};
ghost use Rattle.capl_meaning.specs.ProcedureRules.{names_timer};
ghost use Rattle.capl_meaning.specs.Variable.{is_timer};
ghost use Rattle.check_names.specs.Variable.{is_misfit};

use crate::names::Names;

/// Whether the variable of a number is a timer.
fn is_timer(names: &Names, number: u32) -> bool
    ensures { result ≡ option_map_or (λ v. is_timer v.form) (slice_get names.now.variables number) false }
{
    match names.variables().get(number as usize) {
        None => false,
        Some(variable) => variable.is_timer(),
    }
}

/// Whether the variable of a number is an array of messages or timers.
fn is_misfit(names: &Names, number: u32) -> bool
    ensures { result ≡ option_map_or (λ v. is_misfit v.form) (slice_get names.now.variables number) false }
{
    match names.variables().get(number as usize) {
        None => false,
        Some(variable) => variable.is_misfit(),
    }
}

/// Whether the global of this name is a timer.
pub(crate) fn names_timer(names: &Names, name: &[u8]) -> bool
    ensures { result ≡ names_timer names.now name.now }
{
    match names.global(name) {
        None => false,
        Some(number) => is_timer(names, number),
    }
}

/// Whether the global of this name is an array of messages or timers.
pub(crate) fn names_misfit(names: &Names, name: &[u8]) -> bool
    ensures { result ≡ option_map_or (λ v. is_misfit v.form) (global names.now name.now) false }
{
    match names.global(name) {
        None => false,
        Some(number) => is_misfit(names, number),
    }
}
