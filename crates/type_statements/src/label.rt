// The labels of a `switch`.

ghost use Rattle.std.specs.Prelude.{◌≡◌, IfOk, filter_map};
ghost use Rattle.capl_meaning.specs.StatementRules.{label_of};
ghost use Rattle.check_sorts.specs.Scope.{scope_in};
ghost use Rattle.type_alone.specs.Tables.{AreTables};

use capl_tree::Label;
use check_sorts::Scope;
use int_kinds::{Kind, wrap};
use items::Items;
use std::alloc::Global;
use texts::NoMemory;
use type_alone::StatementTables;

/// A label in a kind: None where it is no constant, and no number for `default`.
fn make_label(
    scope: Scope,
    tables: &StatementTables,
    kind: Kind,
    label: &Label,
) -> Option<Option<i128>>
    requires { AreTables scope.names.now tables.now }
    ensures { result ≡ label_of (scope_in scope.entry) kind label.now.at label.now.value }
{
    let Some(value) = &label.value else {
        return Some(None);
    };
    match tables.constants.constant_at(scope, label.at, value) {
        None => None,
        Some(n) => Some(Some(wrap(kind, n))),
    }
}

/// The labels of a group in a kind.
pub(crate) fn make_labels(
    alloc: Global,
    scope: Scope,
    tables: &StatementTables,
    kind: Kind,
    labels: &[Label],
) -> Result<Items<Option<i128>>, NoMemory>
    requires { AreTables scope.names.now tables.now }
    ensures { IfOk result (λ all. all
        ≡ filter_map (λ label. label_of (scope_in scope.entry) kind label.at label.value) labels.now) }
{
    let mut all = Vec::new(alloc);
    for label in labels {
        if let Some(number) = make_label(scope, tables, kind, label) {
            all.push(number)?;
        }
    }
    Ok(Items::from_list(all))
}
