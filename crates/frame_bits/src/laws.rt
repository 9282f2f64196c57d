//! Laws of the definitions. Each call does nothing: its contract is the law.

ghost use Rattle.std.specs.Prelude.{Bool, List};
ghost use Rattle.frame_bits.specs.Length.{HasOneStuffing};

/// Every list of bits has exactly one stuffing.
pub fn one_stuffing()
    ensures { (b : List Bool) → HasOneStuffing b }
{}
