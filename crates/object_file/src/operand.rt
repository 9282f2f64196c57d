// What stands behind the number of an instruction.

/// What stands behind the number of an instruction. A place is a cell, a place of the code or an entry
/// of a table.
#[derive(Clone, Copy)]
pub(crate) enum Operands {
    /// Nothing.
    Nothing,
    /// A number of 128 bits.
    Number,
    /// A place.
    Place,
    /// A kind.
    Kind,
    /// Two of them.
    Two(Pair),
}

/// Two things behind the number of an instruction.
#[derive(Clone, Copy)]
pub(crate) enum Pair {
    /// Two places.
    Places,
    /// A kind and a message.
    KindAndPlace,
    /// A layout and a message.
    LayoutAndPlace,
    /// A field and a message.
    FieldAndPlace,
    /// An operator and a kind.
    Operation,
    /// A number of 128 bits and a place.
    NumberAndPlace,
    /// A place and a truth value.
    PlaceAndTruth,
}
