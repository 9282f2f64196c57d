// The signals that a message has by its declaration.

use dbc_reader::DbcMessage;

/// The signals that a message has by its declaration.
#[derive(Clone, Copy)]
pub enum DeclaredSignals<'p> {
    /// It is not declared by name.
    Unnamed,
    /// It is declared by the name of a message, which the database has or not.
    Named(Option<&'p DbcMessage>),
}
