// What statements are made by.

use check_sorts::Constants;
use type_expressions::TreeTables;

/// What the trees of a program's statements are made by.
#[derive(Clone, Copy)]
pub struct StatementTables<'t> {
    /// What expressions are made by.
    pub trees: TreeTables<'t>,
    /// The constants of the program.
    pub constants: &'t Constants,
}
