// Expressions.

use int_kinds::{BinOp, Kind, UnOp};
use items::{Boxed, Items};
use signal_codec::Layout;

/// Where a number stands that can be read and stored.
///
/// What is stored is wrapped to the place's kind, or brought to its range by the place's write rule.
#[derive(Drop)]
#[cycle(expression)]
pub enum Place {
    /// One cell: a number variable, or the direction or time of a message.
    Cell {
        /// The cell.
        slot: u32,
    },
    /// An element of an array.
    Elem {
        /// The array's first cell.
        base: u32,
        /// How many cells the array has.
        len: u32,
        /// Which of them, from 0 on. An index outside is a trap.
        index: Boxed<TExpr>,
    },
    /// A field of a message that is stored by a write rule.
    Set {
        /// The message's first cell.
        msg: u32,
        /// 0 for the identifier, 1 for the length, 2 for the remote bit and 3 for the channel.
        field: u8,
    },
    /// Payload bytes of a message as one number, the least significant byte first.
    Bytes {
        /// The message's first cell.
        msg: u32,
        /// The number's kind, which says how many bytes it has.
        kind: Kind,
        /// The first byte, from 0 on. An index from which on there are too few bytes is a trap.
        index: Boxed<TExpr>,
    },
    /// A signal of a message.
    Signal {
        /// The message's first cell.
        msg: u32,
        /// Where the signal lies in the payload.
        layout: Layout,
    },
}

/// An expression: it gives a number, and may change the world before.
///
/// Operands are evaluated from left to right.
#[derive(Drop)]
#[cycle(expression)]
pub enum TExpr {
    /// A number.
    Const(i128),
    /// The number at a place.
    Load(Place),
    /// Stores a number: the place is evaluated first, with the check of its index. Gives what the
    /// place then holds.
    Store {
        /// Where.
        place: Place,
        /// What.
        value: Boxed<TExpr>,
    },
    /// Stores what an operator makes of the number at a place, which is read before the right
    /// operand is evaluated. Gives what the place then holds.
    Update {
        /// The operator.
        op: BinOp,
        /// The kind in which it works.
        kind: Kind,
        /// The kind to which its result is wrapped before it is stored.
        back: Kind,
        /// The left operand, and where the result is stored.
        place: Place,
        /// The right operand.
        value: Boxed<TExpr>,
    },
    /// Adds 1 to the number at a place, or takes 1 from it.
    Bump {
        /// The place.
        place: Place,
        /// The kind in which this is done.
        kind: Kind,
        /// Whether 1 is added.
        up: bool,
        /// Whether it gives the number as it was before, in place of what the place then holds.
        post: bool,
    },
    /// A prefix operator, which is not `++` or `--`.
    Unary {
        /// The operator.
        op: UnOp,
        /// The kind in which it works; `!` asks for none.
        kind: Kind,
        /// The operand.
        inner: Boxed<TExpr>,
    },
    /// A binary operator, which is not `||` or `&&`. A zero divisor is a trap, once both operands are
    /// evaluated.
    Binary {
        /// The operator.
        op: BinOp,
        /// The kind in which it works.
        kind: Kind,
        /// The left operand.
        left: Boxed<TExpr>,
        /// The right operand.
        right: Boxed<TExpr>,
    },
    /// `&&`: 1 where both operands are not 0, and 0 otherwise. The right one is evaluated only where
    /// the left one is not 0.
    Both {
        /// The left operand.
        left: Boxed<TExpr>,
        /// The right operand.
        right: Boxed<TExpr>,
    },
    /// `||`: 1 where an operand is not 0, and 0 otherwise. The right one is evaluated only where the
    /// left one is 0.
    Either {
        /// The left operand.
        left: Boxed<TExpr>,
        /// The right operand.
        right: Boxed<TExpr>,
    },
    /// `?:`, which evaluates one of two expressions.
    Cond {
        /// What decides.
        test: Boxed<TExpr>,
        /// What is evaluated where the test is not 0.
        yes: Boxed<TExpr>,
        /// What is evaluated where it is 0.
        no: Boxed<TExpr>,
    },
    /// A number wrapped to a kind.
    Convert {
        /// The kind.
        kind: Kind,
        /// The number.
        inner: Boxed<TExpr>,
    },
    /// A call of a function: the arguments are evaluated, then stored in the parameters, then a turn
    /// is taken and the body runs. Gives what it returns, and 0 where it reaches its end.
    Call {
        /// The function's number.
        function: u32,
        /// The arguments, one for each parameter.
        args: Items<TExpr>,
    },
    /// 1 where a timer is active, and 0 otherwise.
    Active {
        /// The timer's number.
        timer: u32,
    },
    /// The present moment in units of ten microseconds, as a dword.
    Now,
}
