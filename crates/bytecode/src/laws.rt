//! Laws of runs. Each call does nothing: its contract is the law.

ghost use Rattle.std.specs.Prelude.{ℕ, Bool};
ghost use Rattle.bytecode.specs.declared.code.Code.{Code};
ghost use Rattle.bytecode.specs.Laws.{HasOneEnd, KeepsEffects, RunsToItsEnd, StepsInCode};
ghost use Rattle.bytecode.specs.Machine.{Machine};
ghost use Rattle.bytecode.specs.Runs.{IsStartOf, Reaches};
ghost use Rattle.bytecode.specs.Step.{step};
ghost use Rattle.bytecode.specs.Verified.{IsVerified};

/// A run of any code has one end: where two numbers of steps end, the outcome and the state are the
/// same.
pub fn a_run_has_one_end()
    ensures { (code : Code) (closed : Bool) (moment : ℕ) (start : Machine) →
        HasOneEnd code closed moment start }
{}

/// The effects of each state that a run of any code comes to are the first ones of its end.
pub fn a_run_keeps_its_effects()
    ensures { (code : Code) (closed : Bool) (moment : ℕ) (start : Machine) →
        KeepsEffects code closed moment start }
{}

/// A run of verified code that begins at a handler, with cells that their kinds hold, is never stuck
/// and ends.
pub fn verified_code_runs_to_its_end()
    ensures { (code : Code) (handler : ℕ) (start : Machine) →
        IsVerified code → IsStartOf code handler start → RunsToItsEnd code start }
{}

/// Each step of such a run goes to a later place of its function, or enters an earlier function and
/// takes a turn, or leaves a function, or takes a turn, or it ends the run.
pub fn each_step_of_verified_code()
    ensures { (code : Code) (handler : ℕ) (start m : Machine) (closed : Bool) (moment : ℕ) →
        IsVerified code → IsStartOf code handler start → Reaches code closed moment start m →
        StepsInCode code m (step code closed moment m) }
{}
