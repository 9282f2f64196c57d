// What decides which instructions are made of a statement, read from its tree alone.

ghost use Rattle.std.specs.Prelude.{◌≡◌, ◌≤◌, None, length, take};
ghost use Rattle.typed_tree.specs.Shape.{is_break};
ghost use Rattle.typed_tree.specs.Statement.{same_label};
ghost use Rattle.std.specs.List.{list_any};
ghost use Rattle.code_size.specs.Rows.{kept_if};

use typed_tree::TStmt;

/// Whether a statement is `break`.
fn is_break(s: &TStmt) -> bool
    ensures { result ≡ is_break s.now }
{
    match s {
        TStmt::Break => true,
        TStmt::Empty
        | TStmt::Block(_)
        | TStmt::If { .. }
        | TStmt::While { .. }
        | TStmt::Do { .. }
        | TStmt::For { .. }
        | TStmt::Switch { .. }
        | TStmt::Continue
        | TStmt::Return { .. }
        | TStmt::Eval(_)
        | TStmt::Write { .. }
        | TStmt::Send { .. }
        | TStmt::Copy { .. }
        | TStmt::Halt
        | TStmt::Set { .. }
        | TStmt::Cancel { .. } => false,
    }
}

/// How many statements of a group of a `switch` have code. In the last group a `break` at the end has
/// none, since it has nothing to jump over.
pub fn kept_len(all: &[TStmt], last: bool) -> usize
    ensures within { result ≤ length all.now }
    ensures kept { take result all.now ≡ kept_if last all.now }
{
    if !last {
        return all.len();
    }
    match all.last() {
        None => 0,
        Some(end) => {
            if is_break(end) {
                all.len() - 1
            } else {
                all.len()
            }
        }
    }
}

/// Whether `default` is among labels.
pub(crate) fn has_default(labels: &[Option<i128>]) -> bool
    ensures { result ≡ list_any (same_label None) labels.now }
{
    labels.iter().any(|label| label.is_none())
}
