//! The laws of the code of typed programs. Each call does nothing: its contract is the law.

ghost use Rattle.std.specs.Prelude.{◌≡◌, ℕ, List, [], ◌∷◌, Some, length, replicate, slice_get, pos};
ghost use Rattle.bytecode.specs.declared.code.Code.{Code};
ghost use Rattle.code_meaning.specs.Ending.{DoesWhatItMeans, HasOneMember, IsEndingOf};
ghost use Rattle.code_meaning.specs.Example.{byte_cell, byte_sum, call_and_trap, empty_function, ending_after, endless_loop, ends_with, falling_groups, single_round, skipping_loop};
ghost use Rattle.code_meaning.specs.OnHost.{EndsOnHost, IsRefusedOnHost, meant_on};
ghost use Rattle.code_meaning.specs.Statement.{IsSetForStatements, RunsAsStatement};
ghost use Rattle.stack_vm.specs.Memory.{MemoryState};
ghost use Rattle.stack_vm.specs.Runs.{IsRunRefused, Runs};
ghost use Rattle.stack_vm.specs.declared.meter.MeterRow.{MeterRow};
ghost use Rattle.code_listing.specs.Example.{long_cells};
ghost use Rattle.code_listing.specs.Program.{IsCodeOf};
ghost use Rattle.typed_tree.specs.Expression.{Setting};
ghost use Rattle.typed_tree.specs.Memory.{Memory};
ghost use Rattle.typed_tree.specs.Program.{calls_of};
ghost use Rattle.typed_tree.specs.Sound.{IsSound};
ghost use Rattle.typed_tree.specs.SoundStatement.{Around, IsSoundStmt};
ghost use Rattle.typed_tree.specs.declared.program.THandler.{THandler};
ghost use Rattle.typed_tree.specs.declared.program.Typed.{Typed};
ghost use Rattle.typed_tree.specs.declared.statement.TStmt.{TStmt};
ghost use Rattle.run_effects.specs.declared.outcome.Outcome.{Outcome};
ghost use Rattle.run_effects.specs.declared.outcome.Outcome.TheVariants as Outcome;
ghost use Rattle.run_effects.specs.declared.outcome.TrapKind.TheVariants as TrapKind;
ghost use Rattle.control_flow.specs.Control.{Calls};

use vm_host::Host;

/// The code of a sound statement does what the statement means, in every code that has its listing at
/// its place, that has the sound program's cells, timers and formats, and in which each function of a
/// smaller number does what its calls mean.
///
/// From any stack, open calls and fit world, the run comes to the end of the listing, to the place of
/// `break` or that of `continue`, with the stack and the open calls as they were, or to where the
/// procedure returns to, with its number on top where it gives one, or it is done where no call is
/// open, or it is trapped or cut: each where the statement does so, and in the same world.
pub fn statements_do_what_they_mean()
    ensures { (code : Code) (s : Setting) (call : Calls Memory) (most : ℕ) (around : Around)
        (statement : TStmt) → IsSound s.typed → IsSetForStatements code s call most around.number →
        IsSoundStmt s.typed around statement →
        RunsAsStatement code s call most around.gives statement }
{}

/// The code of a sound program is set for the statements of its procedures: it has the program's
/// cells, timers and formats, and the code of each function does what its calls mean.
pub fn calls_do_what_they_mean()
    ensures { (code : Code) (s : Setting) (n : ℕ) → IsSound s.typed → IsCodeOf s.typed code →
        IsSetForStatements code s (calls_of s n) n (length s.typed.functions) }
{}

/// The code of a sound program does what the program means.
///
/// From any state in which an event procedure begins, its run ends, and only as the typed tree says:
/// with its cells, its active timers, its effects in order, the turns that it took, and done,
/// trapped for the same cause or cut.
pub fn code_means_its_tree()
    ensures { (typed : Typed) (code : Code) → IsSound typed → IsCodeOf typed code →
        DoesWhatItMeans typed code }
{}

/// Where the machine has run an event procedure of this code in a memory and on a host, they stand
/// as the typed tree says: the memory has the cells, the host the timers and the effects in order,
/// and the meter one run more with the turns that it took. Where the run was refused, the effects
/// that the host took are the first ones that the tree says, and the one that was refused is the next.
pub fn machine_runs_its_tree<H: Host>()
    ensures runs { (typed : Typed) (code : Code) → IsSound typed → IsCodeOf typed code →
        (number turns row : ℕ) (handler : THandler) → slice_get typed.handlers number ≡ Some handler →
        (memory memory_after : MemoryState) (before after : H) (meter meter_after : List MeterRow)
        (outcome : Outcome) →
        Runs H.meaning code number turns row memory before meter outcome memory_after after meter_after →
        EndsOnHost H.meaning (meant_on H.meaning typed handler turns memory before)
        row before meter outcome memory_after after meter_after }
    ensures refused { (typed : Typed) (code : Code) → IsSound typed → IsCodeOf typed code →
        (number turns : ℕ) (handler : THandler) → slice_get typed.handlers number ≡ Some handler →
        (memory : MemoryState) (before after : H) →
        IsRunRefused H.meaning code number turns memory before after →
        IsRefusedOnHost H.meaning (meant_on H.meaning typed handler turns memory before) before after }
{}

/// A typed event procedure has one ending, and no other, from each memory, with each number of turns,
/// after the measurement has ended or not and at each moment.
pub fn each_procedure_has_one_ending()
    ensures { (s : Setting) (handler : THandler) (turns : ℕ) (memory : Memory) →
        HasOneMember (IsEndingOf s handler turns memory) }
{}

/// Six short procedures end as they do when they are worked out by hand.
///
/// 1 added to a byte that holds 255 gives 0. A loop without an end takes each turn and is cut. A
/// `for` does its third part after a `continue`. A `do` takes a turn before its test. A group of a
/// `switch` runs into the next one. A call takes a turn and gives 0 where its function reaches its
/// end, and a zero divisor is a trap that keeps what was stored before.
pub fn worked_procedures_end_so()
    ensures byte { ending_after byte_cell byte_sum 9 (pos 255 ∷ []) ≡ ends_with (pos 0 ∷ []) 0 Outcome.Done }
    ensures endless { ending_after long_cells endless_loop 3 (replicate 5 (pos 0)) ≡
        ends_with (replicate 5 (pos 0)) 3 Outcome.Cut }
    ensures skipping { ending_after long_cells skipping_loop 9 (replicate 5 (pos 0)) ≡
        ends_with (pos 5 ∷ pos 8 ∷ replicate 3 (pos 0)) 5 Outcome.Done }
    ensures single { ending_after long_cells single_round 9 (replicate 5 (pos 0)) ≡
        ends_with (pos 1 ∷ replicate 4 (pos 0)) 1 Outcome.Done }
    ensures falling { ending_after long_cells falling_groups 9 (replicate 5 (pos 0)) ≡
        ends_with (pos 110 ∷ replicate 4 (pos 0)) 0 Outcome.Done }
    ensures trapped { ending_after empty_function call_and_trap 9 (replicate 5 (pos 0)) ≡
        ends_with (pos 7 ∷ replicate 4 (pos 0)) 1 (Outcome.Trapped TrapKind.ZeroDivisor) }
{}
