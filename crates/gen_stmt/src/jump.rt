// Jumps over code, whose size is known before it is there.

ghost use Rattle.std.specs.Prelude.{◌≡◌, ◌+◌, ◌<◌, ◌^◌, ◌++◌, length, OnOk};
ghost use Rattle.typed_tree.specs.Size.{jump_size};
ghost use Rattle.code_listing.specs.Listing.{jump_code};

use bytecode::Instr;
use gen_expr::Emitter;
use texts::NoMemory;

/// The size of a jump over so many instructions: there is none over nothing.
pub(crate) fn jump_size(over: u32) -> u32
    ensures { result ≡ jump_size over }
{
    u32::from(over != 0)
}

/// Appends a jump over so many instructions, and none where there is nothing to jump over.
pub(crate) fn add_jump(over: u32, into: &mut Emitter) -> Result<(), NoMemory>
    requires { length into.old + (jump_size over + over) < 2 ^ 32 }
    ensures grows { OnOk result (length into.new ≡ length into.old + jump_size over) }
    ensures code { OnOk result (into.new ≡ into.old ++ jump_code over (length into.old)) }
{
    if over != 0 {
        into.add(Instr::Jump(into.place() + 1 + over), 0)?;
    }
    Ok(())
}
