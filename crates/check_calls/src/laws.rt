//! Laws of the order of functions. A call does nothing: its contract is the law.

ghost use Rattle.std.specs.Prelude.{ℕ};
ghost use Rattle.capl_meaning.specs.Names.{Names};
ghost use Rattle.typed_source.specs.Program.{IsGoodOrder};
ghost use Rattle.check_calls.specs.declared.calls.Calls.{Calls};
ghost use Rattle.check_calls.specs.Calls.{AreCallsOf, GoForward, order_of};

/// Where no function that is called reaches the one that calls it, each function stands behind those that it
/// calls in the order that the calls of a program have.
pub fn orders_are_good()
    ensures { (names : Names) (calls : Calls) → AreCallsOf names calls → GoForward names →
        IsGoodOrder names (order_of calls) }
{}
