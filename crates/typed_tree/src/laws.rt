//! Laws of the meaning of typed trees. Each call does nothing: its contract is the law.

ghost use Rattle.std.specs.Prelude.{◌≡◌, ℕ, ◌≤◌};
ghost use Rattle.control_flow.specs.World.{World};
ghost use Rattle.control_flow.specs.Turns.{LeavesAtMost};
ghost use Rattle.typed_tree.specs.declared.statement.TStmt.{TStmt};
ghost use Rattle.typed_tree.specs.Expression.{Setting};
ghost use Rattle.typed_tree.specs.Memory.{Memory};
ghost use Rattle.typed_tree.specs.Program.{calls_of};
ghost use Rattle.typed_tree.specs.Statement.{stmt_of};

/// No statement and no call has more turns left at its end than at its beginning.
pub fn no_turns_are_added()
    ensures statements { (s : Setting) (n : ℕ) (statement : TStmt) (w : World Memory) →
        LeavesAtMost w.turns (stmt_of s (calls_of s n) n statement w) }
    ensures calls { (s : Setting) (n f : ℕ) (w : World Memory) → LeavesAtMost w.turns (calls_of s n f w) }
{}

/// What a statement or a call does is the same for each number, at which the recursion on turns
/// begins, that is not less than the turns that are left.
pub fn turns_left_are_enough()
    ensures statements { (s : Setting) (n : ℕ) (statement : TStmt) (w : World Memory) → w.turns ≤ n →
        stmt_of s (calls_of s n) n statement w ≡ stmt_of s (calls_of s w.turns) w.turns statement w }
    ensures calls { (s : Setting) (n f : ℕ) (w : World Memory) → w.turns ≤ n →
        calls_of s n f w ≡ calls_of s w.turns f w }
{}
