// The code so far.

ghost use Rattle.std.specs.Prelude.{◌≡◌, ℕ, ◌+◌, ◌<◌, ◌^◌, [], ◌∷◌, ◌++◌, length, map, slice_set, slice_get, Some, IsSomeAnd, OnOk, OnErr};
ghost use Rattle.bytecode.specs.declared.instr.Instr.{Instr};
ghost use Rattle.gen_expr.specs.Target.{HasTarget, aimed};

use bytecode::Instr;
use std::alloc::Global;
use std::marker::Model;
use texts::NoMemory;

/// Instructions in order, each with its depth: the number of values of its function that are on the
/// stack when it is reached.
///
/// Contracts see it as its listing.
#[derive(Drop)]
pub struct Emitter {
    instrs: Vec<Instr>,
    depths: Vec<u32>,
}

impl Model for Emitter {
    ghost use Rattle.std.specs.Prelude.{◌≡◌, ℕ, List, length, zip};
    ghost use Rattle.bytecode.specs.declared.instr.Instr.{Instr};

    ghost Value = { List (Instr × ℕ) };

    ghost view = { λ emitter. zip emitter.instrs.items emitter.depths.items };

    ghost invariant = { λ emitter. length emitter.depths.items ≡ length emitter.instrs.items };
}

impl Emitter {
    /// No instructions. Takes no memory.
    pub fn new(alloc: Global) -> Emitter
        ensures { result ≡ [] }
    {
        Emitter {
            instrs: Vec::new(alloc),
            depths: Vec::new(alloc),
        }
    }

    /// Makes room for so many more instructions.
    pub fn reserve(&mut self, more: usize) -> Result<(), NoMemory>
        ensures { self.new ≡ self.old }
    {
        self.instrs.reserve(more)?;
        self.depths.reserve(more)?;
        Ok(())
    }

    /// Appends an instruction with its depth. After an error it holds what it held.
    pub fn add(&mut self, instr: Instr, depth: u32) -> Result<(), NoMemory>
        ensures grows { OnOk result (length self.new ≡ length self.old + 1) }
        ensures code { OnOk result (self.new ≡ self.old ++ (instr, depth) ∷ []) }
        ensures same { OnErr result (self.new ≡ self.old) }
    {
        self.instrs.push(instr)?;
        match self.depths.push(depth) {
            Ok(()) => Ok(()),
            Err(error) => {
                let _ = self.instrs.pop();
                Err(NoMemory::from(error))
            }
        }
    }

    /// Sets the target of the `Jump`, `Zero`, `Case` or `Back` at a place, and nothing else.
    pub fn aim(&mut self, place: u32, target: u32)
        requires { IsSomeAnd (slice_get self.old place) (λ x. HasTarget x.0) }
        ensures { (instr : Instr) (depth : ℕ) → slice_get self.old place ≡ Some (instr, depth)
            → self.new ≡ slice_set self.old place (aimed target instr, depth) }
    {
        let place = place as usize;
        self.instrs[place] = aimed(self.instrs[place], target);
    }

    /// The place of the next instruction: how many there are.
    pub fn place(&self) -> u32
        requires { length self.now < 2 ^ 32 }
        ensures { result ≡ length self.now }
    {
        self.instrs.len() as u32
    }

    /// The instructions, in order.
    pub fn instrs(&self) -> &[Instr]
        ensures { result.now ≡ map (λ x. x.0) self.now }
    {
        self.instrs.as_slice()
    }

    /// The depths of the instructions, in order.
    pub fn depths(&self) -> &[u32]
        ensures { result.now ≡ map (λ x. x.1) self.now }
    {
        self.depths.as_slice()
    }

    /// The instructions and their depths, taken out.
    pub fn take(self) -> (Vec<Instr>, Vec<u32>)
        ensures instrs { result.0.items ≡ map (λ x. x.0) self }
        ensures depths { result.1.items ≡ map (λ x. x.1) self }
    {
        let Emitter { instrs, depths } = self;
        (instrs, depths)
    }
}

/// The instruction with another target.
fn aimed(instr: Instr, target: u32) -> Instr
    ensures { result ≡ aimed target instr }
{
    match instr {
        Instr::Jump(_) => Instr::Jump(target),
        Instr::Zero(_) => Instr::Zero(target),
        Instr::Case(_, label) => Instr::Case(target, label),
        Instr::Back(_) => Instr::Back(target),
        other => other,
    }
}
