//! Laws of the code of typed programs. Each call does nothing: its contract is the law.

ghost use Rattle.std.specs.Prelude.{◌≡◌, ℕ, Bool, length};
ghost use Rattle.bytecode.specs.declared.code.Code.{Code};
ghost use Rattle.control_flow.specs.Control.{Calls};
ghost use Rattle.typed_tree.specs.declared.expression.TExpr.{TExpr};
ghost use Rattle.typed_tree.specs.declared.program.Typed.{Typed};
ghost use Rattle.typed_tree.specs.declared.statement.TStmt.{TStmt};
ghost use Rattle.typed_tree.specs.Expression.{Setting};
ghost use Rattle.typed_tree.specs.Memory.{Memory};
ghost use Rattle.typed_tree.specs.Size.{size, stmt_size, test_size, value_size};
ghost use Rattle.typed_tree.specs.Sound.{IsSound};
ghost use Rattle.typed_tree.specs.SoundExpression.{IsSoundAlone, IsSoundExpr};
ghost use Rattle.code_listing.specs.Example.{falling_switch, falling_switch_listing, long_cells, no_exits, summing_listing, summing_loop, three_arms, three_arms_listing};
ghost use Rattle.code_listing.specs.Exit.{Exit, own_truth};
ghost use Rattle.code_listing.specs.Expression.{test_code, value_code};
ghost use Rattle.code_listing.specs.Program.{program_code};
ghost use Rattle.code_listing.specs.Runs.{IsSetFor, RunsAlone, RunsAsTest, RunsAsValue};
ghost use Rattle.code_listing.specs.Statement.{Exits, stmt_code};

/// The code of a program has as many instructions as its size says, and so has the code of each part.
pub fn code_has_its_size()
    ensures program { (typed : Typed) → length (program_code typed) ≡ size typed }
    ensures statements { (typed : Typed) (exits : Exits) (s : TStmt) (place : ℕ) →
        length (stmt_code typed exits s place) ≡ stmt_size typed s }
    ensures values { (typed : Typed) (e : TExpr) (place depth : ℕ) →
        length (value_code typed e place depth) ≡ value_size typed e }
    ensures tests { (typed : Typed) (when : Bool) (exit : Exit) (e : TExpr) (place depth : ℕ) →
        length (test_code typed when exit e place depth) ≡ test_size typed when (own_truth exit) e }
{}

/// The code of a sound expression does what the expression means, in every code that has its listing
/// at its place, that has the sound program's cells and timers, and in which each function of a
/// smaller number does what its calls mean: from any stack, open calls and fit world, the run comes
/// to the end of the listing with the expression's number on top and all below as it was, or it is
/// trapped or cut where the expression is. As a test it goes where the number says; as a statement,
/// which may be a call that gives nothing, it leaves nothing.
pub fn expressions_do_what_they_mean()
    ensures values { (code : Code) (s : Setting) (call : Calls Memory) (most number : ℕ) (e : TExpr) →
        IsSound s.typed → IsSetFor code s call most number → IsSoundExpr s.typed number e →
        RunsAsValue code s call most e }
    ensures tests { (code : Code) (s : Setting) (call : Calls Memory) (most number : ℕ) (e : TExpr) →
        IsSound s.typed → IsSetFor code s call most number → IsSoundExpr s.typed number e →
        RunsAsTest code s call most e }
    ensures alone { (code : Code) (s : Setting) (call : Calls Memory) (most number : ℕ) (e : TExpr) →
        IsSound s.typed → IsSetFor code s call most number → IsSoundAlone s.typed number e →
        RunsAlone code s call most e }
{}

/// The code of a loop, of an `if` and of a `switch`, instruction by instruction.
pub fn examples_have_their_listings()
    ensures counting_loop { stmt_code long_cells no_exits summing_loop 0 ≡ summing_listing }
    ensures arms { stmt_code long_cells no_exits three_arms 0 ≡ three_arms_listing }
    ensures groups { stmt_code long_cells no_exits falling_switch 0 ≡ falling_switch_listing }
{}
