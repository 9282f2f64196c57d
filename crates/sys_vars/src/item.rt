// System variables as a scenario declares them.

use texts::Text;

/// A system variable and its first value.
#[derive(Debug, Drop)]
pub struct SysItem {
    /// The name of its space.
    pub space: Text,
    /// Its name in the space.
    pub name: Text,
    /// Its first value.
    pub value: i128,
}
