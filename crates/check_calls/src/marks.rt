// Marks of functions: which are reached from the roots of their components, and which reach them. What
// is marked is proved, and that enough is marked is not.

ghost use Rattle.std.specs.Prelude.{◌≡◌, ℕ, IfOk, Some, slice_get, slice_index, true};
ghost use Rattle.check_calls.specs.Graph.{AreReached, AreReaching, Has, rows_of};
ghost use Rattle.check_calls.specs.Inside.Marks.{IsMarked};

use crate::ranks::number_at;
use std::alloc::Global;
use texts::NoMemory;

/// The mark at an index, or false past the end.
pub(crate) fn mark_at(marks: &[bool], index: usize) -> bool
    ensures { result ≡ true → slice_get marks.now index ≡ Some true }
{
    if index < marks.len() {
        marks[index]
    } else {
        false
    }
}

/// Marks a place.
fn mark(place: u32, marks: &mut Vec<bool>)
    ensures { IsMarked marks.old.items marks.new.items (λ other. other ≡ place) }
{
    let at = place as usize;
    if at < marks.len() {
        marks[at] = true;
    }
}

/// Marks those of some places that have this root.
fn mark_all(roots: &[u32], root: u32, places: &[u32], marks: &mut Vec<bool>)
    ensures { IsMarked marks.old.items marks.new.items
        (λ other. Has places.now other × (slice_index roots.now other ≡ root)) }
{
    for place in places {
        if number_at(roots, *place as usize) == root {
            mark(*place, marks);
        }
    }
}

/// Whether one of some places has this root and is marked.
fn has_marked(roots: &[u32], root: u32, places: &[u32], marks: &[bool]) -> bool
    ensures { result ≡ true → (place : ℕ) × Has places.now place × (slice_index roots.now place ≡ root)
        × (slice_get marks.now place ≡ Some true) }
{
    for place in places {
        let at = *place as usize;
        if number_at(roots, at) == root && mark_at(marks, at) {
            return true;
        }
    }
    false
}

/// Marks a place if it is a root and, if it is marked, what it leads to in its component.
fn mark_reached(rows: &[Vec<u32>], roots: &[u32], place: u32, marks: &mut Vec<bool>)
    ensures { AreReached (rows_of rows.now) roots.now marks.old.items →
        AreReached (rows_of rows.now) roots.now marks.new.items }
{
    let at = place as usize;
    let root = number_at(roots, at);
    if root == place {
        mark(place, marks);
    }
    if at < rows.len() && mark_at(marks.as_slice(), at) {
        mark_all(roots, root, rows[at].as_slice(), marks);
    }
}

/// Marks a place if it is a root, or leads to what is marked in its component.
fn mark_reaching(rows: &[Vec<u32>], roots: &[u32], place: u32, marks: &mut Vec<bool>)
    ensures { AreReaching (rows_of rows.now) roots.now marks.old.items →
        AreReaching (rows_of rows.now) roots.now marks.new.items }
{
    let at = place as usize;
    let root = number_at(roots, at);
    if root == place {
        mark(place, marks);
    }
    if at < rows.len() && has_marked(roots, root, rows[at].as_slice(), marks.as_slice()) {
        mark(place, marks);
    }
}

/// Marks of places that are reached from their roots. The order is gone through from its end, so all are
/// marked where each place but a root stands in it before one of its component that leads to it. Takes
/// time and memory linear in the rows and the order.
pub(crate) fn marks_reached(
    alloc: Global,
    rows: &[Vec<u32>],
    roots: &[u32],
    order: &[u32],
) -> Result<Vec<bool>, NoMemory>
    ensures { IfOk result (λ marks. AreReached (rows_of rows.now) roots.now marks.items) }
{
    let mut marks = vec![in alloc; false; rows.len()]?;
    for place in order.iter().rev() {
        mark_reached(rows, roots, *place, &mut marks);
    }
    Ok(marks)
}

/// Marks of places that reach their roots. The order is gone through from its end, so all are marked
/// where each place but a root stands in it before one of its component that it leads to. Takes time and
/// memory linear in the rows and the order.
pub(crate) fn marks_reaching(
    alloc: Global,
    rows: &[Vec<u32>],
    roots: &[u32],
    order: &[u32],
) -> Result<Vec<bool>, NoMemory>
    ensures { IfOk result (λ marks. AreReaching (rows_of rows.now) roots.now marks.items) }
{
    let mut marks = vec![in alloc; false; rows.len()]?;
    for place in order.iter().rev() {
        mark_reaching(rows, roots, *place, &mut marks);
    }
    Ok(marks)
}
