//! Laws of the meaning of sources. Each call does nothing: its contract is the law.

ghost use Rattle.std.specs.Prelude.{◌≡◌, ℕ, ◌≤◌, Bool, List, []};
ghost use Rattle.run_effects.specs.declared.outcome.Outcome.TheVariants.{Cut};
ghost use Rattle.control_flow.specs.World.{World, Fails};
ghost use Rattle.control_flow.specs.Turns.{LeavesAtMost};
ghost use Rattle.capl_tree.specs.declared.expr.Expr.{Expr};
ghost use Rattle.capl_tree.specs.declared.statement.Stmt.{Stmt};
ghost use Rattle.capl_meaning.specs.Store.{This};
ghost use Rattle.capl_meaning.specs.Expression.{Memory, Setting, spot_of, value_of};
ghost use Rattle.capl_meaning.specs.Statement.{alone_of, stmt_of, Handler, calls_of, ending, ending_of, runs};

/// No expression, as a number, as a place or alone, no statement, no body of a procedure and no call has
/// more turns left at its end than at its beginning. `s` is the setting in which it stands, perhaps a
/// function's, and `run` that of the run whose calls it makes.
pub fn no_turns_are_added()
    ensures numbers { (s run : Setting) (n : ℕ) (e : Expr) (w : World Memory) →
        LeavesAtMost w.turns (value_of s (calls_of run n) e w) }
    ensures places { (s run : Setting) (n : ℕ) (e : Expr) (w : World Memory) →
        LeavesAtMost w.turns (spot_of s (calls_of run n) e w) }
    ensures alone { (s run : Setting) (n : ℕ) (e : Expr) (w : World Memory) →
        LeavesAtMost w.turns (alone_of s (calls_of run n) e w) }
    ensures statements { (s run : Setting) (n : ℕ) (statement : Stmt) (w : World Memory) →
        LeavesAtMost w.turns (stmt_of s (calls_of run n) n statement w) }
    ensures bodies { (s run : Setting) (n : ℕ) (body : List Stmt) (w : World Memory) →
        LeavesAtMost w.turns (runs s (calls_of run n) n body w) }
    ensures calls { (run : Setting) (n f : ℕ) (w : World Memory) →
        LeavesAtMost w.turns (calls_of run n f w) }
{}

/// What each of these does is the same for each number, at which the recursion on turns begins, that is
/// not less than the turns that are left; and so is how an event procedure ends.
pub fn turns_left_are_enough()
    ensures numbers { (s run : Setting) (n : ℕ) (e : Expr) (w : World Memory) → w.turns ≤ n →
        value_of s (calls_of run n) e w ≡ value_of s (calls_of run w.turns) e w }
    ensures places { (s run : Setting) (n : ℕ) (e : Expr) (w : World Memory) → w.turns ≤ n →
        spot_of s (calls_of run n) e w ≡ spot_of s (calls_of run w.turns) e w }
    ensures alone { (s run : Setting) (n : ℕ) (e : Expr) (w : World Memory) → w.turns ≤ n →
        alone_of s (calls_of run n) e w ≡ alone_of s (calls_of run w.turns) e w }
    ensures statements { (s run : Setting) (n : ℕ) (statement : Stmt) (w : World Memory) → w.turns ≤ n →
        stmt_of s (calls_of run n) n statement w ≡ stmt_of s (calls_of run w.turns) w.turns statement w }
    ensures bodies { (s run : Setting) (n : ℕ) (body : List Stmt) (w : World Memory) → w.turns ≤ n →
        runs s (calls_of run n) n body w ≡ runs s (calls_of run w.turns) w.turns body w }
    ensures calls { (run : Setting) (n f : ℕ) (w : World Memory) → w.turns ≤ n →
        calls_of run n f w ≡ calls_of run w.turns f w }
    ensures event_procedures { (handler : Handler) (this : This) (closed : Bool) (moment turns n : ℕ)
        (memory : Memory) → turns ≤ n →
        let s : Setting = record { scope = handler.scope; this = this; closed = closed; moment = moment } in
        ending turns (runs s (calls_of s n) n handler.body
        (record { memory = memory; turns = turns; effects = [] })) ≡
        ending_of handler this closed moment turns memory }
{}

/// Where one of these is cut, no turn is left, whatever the number at which the recursion on turns begins
/// that is not less than the turns that are left; so an event procedure that is cut took all its turns.
pub fn cuts_leave_no_turn()
    ensures numbers { (s run : Setting) (n : ℕ) (e : Expr) (w after : World Memory) → w.turns ≤ n →
        value_of s (calls_of run n) e w ≡ Fails Cut after → after.turns ≡ 0 }
    ensures places { (s run : Setting) (n : ℕ) (e : Expr) (w after : World Memory) → w.turns ≤ n →
        spot_of s (calls_of run n) e w ≡ Fails Cut after → after.turns ≡ 0 }
    ensures alone { (s run : Setting) (n : ℕ) (e : Expr) (w after : World Memory) → w.turns ≤ n →
        alone_of s (calls_of run n) e w ≡ Fails Cut after → after.turns ≡ 0 }
    ensures statements { (s run : Setting) (n : ℕ) (statement : Stmt) (w after : World Memory) →
        w.turns ≤ n → stmt_of s (calls_of run n) n statement w ≡ Fails Cut after → after.turns ≡ 0 }
    ensures bodies { (s run : Setting) (n : ℕ) (body : List Stmt) (w after : World Memory) →
        w.turns ≤ n → runs s (calls_of run n) n body w ≡ Fails Cut after → after.turns ≡ 0 }
    ensures calls { (run : Setting) (n f : ℕ) (w after : World Memory) → w.turns ≤ n →
        calls_of run n f w ≡ Fails Cut after → after.turns ≡ 0 }
    ensures event_procedures { (handler : Handler) (this : This) (closed : Bool) (moment turns : ℕ)
        (memory : Memory) → (ending_of handler this closed moment turns memory).outcome ≡ Cut →
        (ending_of handler this closed moment turns memory).turns_taken ≡ turns }
{}
