// A list of requests as a heap: none goes before the one above it.

ghost use Rattle.std.specs.Prelude.{◌≡◌, ◌+◌, ◌-◌, ◌*◌, ◌<◌, ◌≤◌, ◌∷◌, length, vec_len, vec_capacity, IfSome, IfNone};
ghost use Rattle.std.specs.List.{filter};
ghost use Rattle.std.specs.List.Sorted.{IsPermutation};
ghost use Rattle.bus_heap.specs.Inside.Heap.{IsHeap, IsHeapUpTo, IsHeapFrom, IsHeapBehind, IsFirstBelow, IsTakenFirst, is_of_other};

use can_bus::{Waiting, goes_before};

/// Adds the request to a heap that has room for it.
pub(crate) fn add_within(heap: &mut Vec<Waiting>, request: Waiting)
    requires heap { IsHeap heap.old.items }
    requires room { vec_len heap.old < vec_capacity heap.old }
    ensures heap { IsHeap heap.new.items }
    ensures members { IsPermutation (request ∷ heap.old.items) heap.new.items }
    ensures room { vec_capacity heap.old ≤ vec_capacity heap.new }
{
    heap.push(request).unwrap();
    sift_up(heap);
}

/// Lets the last request rise to its place, where those before it are a heap.
fn sift_up(heap: &mut [Waiting])
    requires { IsHeapUpTo (length heap.old - 1) heap.old }
    ensures same { IsPermutation heap.old heap.new }
    ensures order { IsHeap heap.new }
{
    let mut place = heap.len().saturating_sub(1);
    while place > 0 {
        let above = (place - 1) / 2;
        if !goes_before(&heap[place], &heap[above]) {
            return;
        }
        heap.swap(place, above);
        place = above;
    }
}

/// Lets the request at this place sink, where those behind it are in the order of a heap.
fn sift_down(heap: &mut [Waiting], start: usize)
    requires start { start ≤ length heap.old }
    requires behind { IsHeapBehind start heap.old }
    ensures same { IsPermutation heap.old heap.new }
    ensures order { IsHeapFrom start heap.new }
{
    let mut place = start;
    while let Some(below) = first_below(heap, place) {
        if !goes_before(&heap[below], &heap[place]) {
            return;
        }
        heap.swap(place, below);
        place = below;
    }
}

/// Of the two places below this one, as far as there are requests, the one whose request goes first.
fn first_below(heap: &[Waiting], place: usize) -> Option<usize>
    requires { place ≤ length heap.now }
    ensures some { IfSome result (IsFirstBelow heap.now place) }
    ensures none { IfNone result (length heap.now ≤ 2 * place + 1) }
{
    let below = 2 * place + 1;
    if below >= heap.len() {
        return None;
    }
    let next = below + 1;
    if next < heap.len() && goes_before(&heap[next], &heap[below]) {
        return Some(next);
    }
    Some(below)
}

/// Takes the request that goes first out of the heap.
pub(crate) fn take_first(heap: &mut Vec<Waiting>) -> Waiting
    requires some { 0 < length heap.old.items }
    requires heap { IsHeap heap.old.items }
    ensures taken { IsTakenFirst heap.old.items heap.new.items result }
    ensures room { vec_capacity heap.new ≡ vec_capacity heap.old }
{
    let first = heap.swap_remove(0);
    sift_down(heap, 0);
    first
}

/// Drops the requests of the node, in time linear in the number of all.
pub(crate) fn drop_node(heap: &mut Vec<Waiting>, node: u32)
    ensures heap { IsHeap heap.new.items }
    ensures members { IsPermutation (filter (is_of_other node) heap.old.items) heap.new.items }
    ensures room { vec_capacity heap.new ≡ vec_capacity heap.old }
{
    heap.retain(|request| request.node != node);
    order_heap(heap);
}

/// Brings the requests into the order of a heap, in time linear in their number.
fn order_heap(heap: &mut [Waiting])
    ensures same { IsPermutation heap.old heap.new }
    ensures order { IsHeap heap.new }
{
    let mut place = heap.len() / 2;
    while place > 0 {
        place -= 1;
        sift_down(heap, place);
    }
}
