// The extents that were noted before the code is made, of which the last is taken first.

ghost use Rattle.std.specs.Prelude.{◌≡◌, ◌<◌, ◌≤◌, ◌^◌, [], ◌∷◌, ◌++◌, List, ℕ, length};
ghost use Rattle.code_size.specs.declared.extent.Extent.{Extent};
ghost use Rattle.code_size.specs.Notes.{group_notes};

use code_size::Extent;

/// Takes the extent that stands last.
pub(crate) fn take(notes: &mut Vec<Extent>) -> Extent
    requires { 0 < length notes.old.items }
    ensures { notes.old.items ≡ notes.new.items ++ result ∷ [] }
{
    match notes.pop() {
        Some(extent) => extent,
        // Something was noted.
        None => unreachable!(),
    }
}

/// Takes the size that stands last, as a number of places.
pub(crate) fn take_size(notes: &mut Vec<Extent>) -> u32
    requires { (rest : List Extent) × (extent : Extent) × (notes.old.items ≡ rest ++ extent ∷ [])
        × (extent.size < 2 ^ 32) }
    ensures { (rest : List Extent) (extent : Extent) → notes.old.items ≡ rest ++ extent ∷ []
        → (result ≡ extent.size) × (notes.new.items ≡ rest) }
{
    take(notes).size as u32
}

/// Takes what is noted of a group of a `switch` behind its statements.
pub(crate) fn take_group(notes: &mut Vec<Extent>)
    requires { (rest : List Extent) × (inside : List Extent) × (size : ℕ)
        × (notes.old.items ≡ rest ++ group_notes inside size) }
    ensures { (rest : List Extent) (inside : List Extent) (size : ℕ)
        → notes.old.items ≡ rest ++ group_notes inside size → notes.new.items ≡ rest ++ inside }
{
    let left = notes.len() - 2;
    notes.truncate(left);
}

/// The size of the group of a `switch` whose notes stand last, and how many notes stand before them.
pub(crate) fn last_group(notes: &[Extent]) -> (u32, usize)
    requires { (rest : List Extent) × (inside : List Extent) × (size : ℕ)
        × (notes.now ≡ rest ++ group_notes inside size) × (size < 2 ^ 32) }
    ensures { (rest : List Extent) (inside : List Extent) (size : ℕ)
        → notes.now ≡ rest ++ group_notes inside size → size < 2 ^ 32
        → (result.0 ≡ size) × (result.1 ≡ length rest) }
{
    let own = notes.len() - 1;
    let count = notes[own - 1].size as usize;
    (notes[own].size as u32, own - 1 - count)
}
