//! System variables: longs that all nodes share, which a source names as `@SPACE::NAME`.
//!
//! A program knows nothing of them once its files are lowered: [`lower`] puts a plain name in the place of
//! each use and of each `on sysvar`, and [`prelude`] gives a block that declares these names before the
//! program's own, each variable as a `long` and for each a hidden timer. So a variable is a cell of each
//! node like any other, and its procedures are those of a timer. [`SysTable`] has the values that the nodes
//! share, and takes notes of what they become when a round ends.
//!
//! Variables of other kinds would change `SysItem`, the declarations of specs/Prelude.antt and `Shared` of
//! specs/Table.antt; deeper name spaces would change `path` of specs/Lowering.antt and the names of
//! specs/Name.antt.
#![tactic(auto)]

pub use declaring::prelude;
pub use item::SysItem;
pub use lowering::lower;
pub use table::SysTable;

mod copying;
mod declared;
mod declaring;
mod item;
mod lowering;
mod names;
mod naming;
mod table;
