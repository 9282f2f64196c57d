//! Laws of the two keys. Each call does nothing: its contract is the law.

ghost use Rattle.can_frame.specs.declared.Ident.{Ident};
ghost use Rattle.can_frame.specs.Frame.{FrameFields, KeysOrderFields, NamesIdents};

/// Arbitration keys order frames as their arbitration fields do as lists of bits: the key is less
/// exactly where the field has the dominant bit at the first difference, and equal exactly where
/// the fields are equal.
pub fn arb_key_orders()
    ensures { (f g : FrameFields) → KeysOrderFields f g }
{}

/// Of identifiers in range, equal ones alone have equal selection keys.
pub fn sel_key_names()
    ensures { (a b : Ident) → NamesIdents a b }
{}
