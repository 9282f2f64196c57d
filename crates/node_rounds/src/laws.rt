//! Laws of the tasks of a round. Each call does nothing: its contract is the law.

ghost use Rattle.std.specs.Prelude.{ℕ, List, Option};
ghost use Rattle.timer_queue.specs.Timers.{IsTimers};
ghost use Rattle.node_rounds.specs.declared.round.Round.{Round};
ghost use Rattle.node_rounds.specs.declared.round.Seen.{Seen};
ghost use Rattle.node_rounds.specs.Follows.{NodesAlike, RunsFollow};
ghost use Rattle.node_rounds.specs.Reaction.{MovesTimers, NodeState, Runner, reaction_of};
ghost use Rattle.node_rounds.specs.Round.{IsPart, Task};

/// Two ways to run procedures, of which the second follows the first. A type without a value has the
/// meanings.
pub trait RunnerPair {
    /// The memories of the first.
    ghost First: { Type 0 };

    /// The memories of the second.
    ghost Second: { Type 0 };

    /// How the procedures of the first run.
    ghost first: { Runner First };

    /// How the procedures of the second run.
    ghost second: { Runner Second };

    /// Which memories stand for each other.
    ghost related: { First → Second → Type 0 };

    /// Where a run of the first for what its procedure reacts to ends, one of the second ends alike.
    ghost follows: { RunsFollow related first second };
}

/// Nodes that are alike have the same tasks in a round, and are alike after it.
pub fn equal_parts<P: RunnerPair>()
    ensures { (round : Round) (now : ℕ) (seen : Option Seen) (keys : List ℕ)
        (s : NodeState P.First) (t : NodeState P.Second) (tasks : List Task) (after : NodeState P.First) →
        NodesAlike P.related s t → IsPart (reaction_of P.first) round now seen keys s tasks after →
        (end : NodeState P.Second) × IsPart (reaction_of P.second) round now seen keys t tasks end
        × NodesAlike P.related after end }
{}

/// A task leaves each timer as it was or sets it to be due later, and never leaves a timer that was due
/// as it was.
pub fn timers_move_on<P: RunnerPair>()
    ensures { MovesTimers (reaction_of P.first) (λ (s : NodeState P.First). IsTimers s.timers) }
{}
