// The exit of a test.

ghost use Rattle.std.specs.Prelude.{◌≡◌};
ghost use Rattle.code_listing.specs.Exit.{exit_instr, own_truth};
ghost use Rattle.gen_expr.specs.Exit.{exit_of};

use bytecode::Instr;

/// Where a test goes for one of the two truths, while it goes on to its end for the other.
#[derive(Clone, Copy, PartialEq, Eq)]
pub enum Exit {
    /// Forward to a place, by `Zero`, which goes there where a number is 0.
    Forward(u32),
    /// Back to a place, by `Back`, which takes a turn and goes there where a number is not 0.
    Backward(u32),
}

/// The truth for which the exit's own instruction goes there.
pub(crate) fn own_truth(exit: Exit) -> bool
    ensures { result ≡ own_truth (exit_of exit) }
{
    match exit {
        Exit::Forward(_) => false,
        Exit::Backward(_) => true,
    }
}

/// The instruction of an exit.
pub(crate) fn exit_instr(exit: Exit) -> Instr
    ensures { result ≡ exit_instr (exit_of exit) }
{
    match exit {
        Exit::Forward(target) => Instr::Zero(target),
        Exit::Backward(target) => Instr::Back(target),
    }
}
