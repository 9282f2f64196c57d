//! Laws of all inputs. Each call does nothing: its contract is the law.

ghost use Rattle.std.specs.Prelude.{◌≡◌, ◌⊎◌, ℕ, List};
ghost use Rattle.capl_include.specs.Expansion.{Contents};
ghost use Rattle.sim_answers.specs.Cases.{FindsAccepted, FindsBlame};
ghost use Rattle.sim_run.specs.Answer.{IsAnswer};
ghost use Rattle.sim_run.specs.Command.{IsNoCommand};
ghost use Rattle.sim_run.specs.declared.status.Status.{Status};
ghost use Rattle.stack_vm.specs.declared.meter.MeterRow.{MeterRow};

use sim_inputs::laws::one_reading;
use sim_run::laws::{accepted_inputs_have_an_answer, one_answer};

/// For any words and any contents exactly one of these holds: the words are no command, they find inputs
/// that are accepted, or they find a first blame.
pub fn one_of_three_holds()
    ensures one { (contents : Contents) (words : List (List ℕ)) →
        IsNoCommand words ⊎ FindsAccepted contents words ⊎ FindsBlame contents words }
    ensures not_accepted { (contents : Contents) (words : List (List ℕ)) →
        IsNoCommand words → FindsAccepted contents words → ⊥ }
    ensures not_blamed { (contents : Contents) (words : List (List ℕ)) →
        IsNoCommand words → FindsBlame contents words → ⊥ }
    ensures not_both { (contents : Contents) (words : List (List ℕ)) →
        FindsAccepted contents words → FindsBlame contents words → ⊥ }
{
    one_reading();
}

/// Any words have an answer over any contents, and no other: its status, its bytes and its rows.
pub fn each_input_has_one_answer()
    ensures some { (contents : Contents) (words : List (List ℕ)) →
        (status : Status) × (bytes : List ℕ) × (rows : List MeterRow)
        × IsAnswer contents words status bytes rows }
    ensures no_other { (contents : Contents) (words : List (List ℕ)) (status other : Status)
        (bytes more : List ℕ) (rows others : List MeterRow) → IsAnswer contents words status bytes rows →
        IsAnswer contents words other more others → (status ≡ other) × (bytes ≡ more) × (rows ≡ others) }
{
    one_answer();
    accepted_inputs_have_an_answer();
}

/// A command whose inputs have no first blame has an answer of status 0, so `simulate` gives it where neither
/// a read nor a write fails and there is memory.
pub fn commands_without_a_blame_have_a_whole_answer()
    ensures { (contents : Contents) (words : List (List ℕ)) →
        (IsNoCommand words → ⊥) → (FindsBlame contents words → ⊥) →
        (bytes : List ℕ) × (rows : List MeterRow) × IsAnswer contents words Status.Done bytes rows }
{
    accepted_inputs_have_an_answer();
}
