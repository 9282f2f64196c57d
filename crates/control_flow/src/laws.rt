//! Laws of loops, over any memory. Each call does nothing: its contract is the law.

ghost use Rattle.std.specs.Prelude.{◌≡◌, ℕ, ◌<◌, ◌≤◌};
ghost use Rattle.control_flow.specs.World.{World};
ghost use Rattle.control_flow.specs.Control.{Computes, Does, deciding, do_loop, followed_by, for_loop, loop, nothing, round, while_loop};
ghost use Rattle.control_flow.specs.Turns.{AddsNoTurns};

/// What a loop does is the same for each number, at which its recursion begins, that is greater than
/// the turns that are left.
pub fn turns_left_are_enough<M>()
    ensures { (test : Computes M) (body step : Does M) →
        AddsNoTurns test → AddsNoTurns body → AddsNoTurns step →
        (k n : ℕ) (w : World M) → w.turns < k → w.turns < n →
        loop k test body step w ≡ loop n test body step w }
{}

/// `while` tests, and where that is not 0 does a round and is done again. `do` does a round, and then
/// what `while` does. `for` does its first part; without one it tests, and where that is not 0 does
/// a round and its third part and is done again.
pub fn loops_unroll<M>()
    ensures tests_first { (test : Computes M) (body : Does M) → AddsNoTurns test → AddsNoTurns body →
        (n : ℕ) (w : World M) → w.turns ≤ n →
        while_loop n test body w ≡ deciding (test w) (round body (while_loop n test body)) nothing }
    ensures tests_last { (test : Computes M) (body : Does M) → AddsNoTurns test → AddsNoTurns body →
        (n : ℕ) (w : World M) → w.turns ≤ n →
        do_loop n body test w ≡ round body (while_loop n test body) w }
    ensures begins { (init : Does M) (test : Computes M) (step body : Does M) (n : ℕ) (w : World M) →
        for_loop n init test step body w ≡ followed_by init (for_loop n nothing test step body) w }
    ensures steps { (test : Computes M) (step body : Does M) →
        AddsNoTurns test → AddsNoTurns step → AddsNoTurns body →
        (n : ℕ) (w : World M) → w.turns ≤ n →
        for_loop n nothing test step body w ≡
        deciding (test w) (round body (followed_by step (for_loop n nothing test step body))) nothing }
{}
