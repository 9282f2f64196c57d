// Moments of which the least, and the first up to a limit, are found at once.

ghost use Rattle.std.specs.Prelude.{◌≡◌, ◌+◌, ◌-◌, ◌*◌, ◌^◌, ◌<◌, ◌≤◌, length, drop, replicate, slice_index, slice_set, All, IfOk, IfSome, IfNone};
ghost use Rattle.timer_queue.specs.Inside.Minima.{IsTree, IsLesserOfTwo, IsFirstBelow, IsFirstFrom, IsFirstUpTo, IsLeast};

use std::alloc::Global;
use std::marker::Model;
use texts::NoMemory;

/// The moment in a place that has none.
pub(crate) const NEVER: u64 = u64::MAX;

/// A list of moments of fixed length, a power of two. Contracts see the list.
///
/// The moments are the leaves of a whole binary tree, which stands in one list from place 1 on. The
/// two places below a place are at twice its number and behind that, and it holds the lesser of them.
///
/// Places with moments up to one limit mostly stand one behind the other, and each is looked for once the
/// one before it has a later moment. So the last one that was found is kept, and the search begins there.
#[derive(Drop)]
pub(crate) struct Minima {
    nodes: Vec<u64>,
    leaves: usize,
    levels: u32,
    /// A place: the moment at each place before it is above `limit`.
    front: usize,
    limit: u64,
}

impl Model for Minima {
    ghost use Rattle.std.specs.Prelude.{ℕ, List};

    ghost Value = { List ℕ };

    ghost use Rattle.timer_queue.specs.Inside.Minima.{leaves_of, IsMinima};

    ghost view = { leaves_of };

    ghost invariant = { IsMinima };
}

impl Minima {
    /// At least so many places without a moment. Takes time and memory linear in their number.
    pub(crate) fn make(alloc: Global, count: usize) -> Result<Minima, NoMemory>
        requires { count ≤ 2 ^ 40 }
        ensures room { IfOk result (λ moments. count ≤ length moments) }
        ensures never { IfOk result (λ moments. moments ≡ replicate (length moments) NEVER) }
    {
        let leaves = count.next_power_of_two();
        let nodes = vec![in alloc; NEVER; 2 * leaves]?;
        Ok(Minima {
            nodes,
            leaves,
            levels: leaves.ilog2(),
            front: 0,
            limit: 0,
        })
    }

    /// Puts a moment into a place. Takes time logarithmic in the number of places.
    pub(crate) fn set(&mut self, place: usize, moment: u64)
        requires { place < length self.old }
        ensures set { self.new ≡ slice_set self.old place moment }
        ensures in_range { moment ≤ NEVER }
    {
        set_leaf(&mut self.nodes, self.leaves, place, moment);
        self.front = front_after(self.front, self.limit, place, moment);
    }

    /// The least of the moments.
    pub(crate) fn least(&self) -> u64
        ensures { IsLeast self.now result }
    {
        self.nodes[1]
    }

    /// The place of the first moment of at most the limit, or `None` where there is none. Takes constant
    /// time where the place is the last one that was found for this limit or the one behind that, and
    /// time logarithmic in the number of places else.
    pub(crate) fn first_up_to(&mut self, limit: u64) -> Option<usize>
        ensures same { self.new ≡ self.old }
        ensures some { IfSome result (IsFirstUpTo self.old limit) }
        ensures none { IfNone result (All (λ moment. limit < moment) self.old) }
    {
        let place = match self.near_front(limit) {
            Some(place) => place,
            None => self.from_top(limit)?,
        };
        self.front = place;
        self.limit = limit;
        Some(place)
    }

    /// The place of the first moment of at most the limit, if it is seen at the front or right behind it.
    /// No clause says when it is: where it is not, it is found from the top.
    fn near_front(&self, limit: u64) -> Option<usize>
        ensures { IfSome result (IsFirstUpTo self.now limit) }
    {
        if limit > self.limit {
            return None;
        }
        let node = first_of_two(&self.nodes, self.leaves + self.front, limit)?;
        Some(node - self.leaves)
    }

    /// The place of the first moment of at most the limit, or `None` where there is none. Takes time
    /// logarithmic in the number of places.
    fn from_top(&self, limit: u64) -> Option<usize>
        ensures some { IfSome result (IsFirstUpTo self.now limit) }
        ensures none { IfNone result (All (λ moment. limit < moment) self.now) }
    {
        if self.nodes[1] > limit {
            return None;
        }
        let node = first_leaf(&self.nodes, self.leaves, self.levels, limit);
        Some(node - self.leaves)
    }
}

/// The front after a place got a moment: that place, where it comes before and the moment is up to the limit.
fn front_after(front: usize, limit: u64, place: usize, moment: u64) -> usize
    ensures no_later { result ≤ front }
    ensures passed { place < result → limit < moment }
{
    if place < front && moment <= limit {
        place
    } else {
        front
    }
}

/// Of a node and the one behind it the first that is of at most the limit, or `None` where neither is.
fn first_of_two(nodes: &[u64], node: usize, limit: u64) -> Option<usize>
    requires { node < length nodes.now }
    ensures some { IfSome result (IsFirstFrom nodes.now node limit) }
    ensures none { IfNone result (limit < slice_index nodes.now node) }
{
    if nodes[node] <= limit {
        return Some(node);
    }
    let next = node + 1;
    if next < nodes.len() && nodes[next] <= limit {
        return Some(next);
    }
    None
}

/// Puts a moment into a leaf, and the lesser of two into each node above it, up to the first that has it.
fn set_leaf(nodes: &mut [u64], leaves: usize, place: usize, moment: u64)
    requires size { length nodes.old ≡ 2 * leaves }
    requires within { place < leaves }
    requires tree { IsTree nodes.old leaves }
    ensures set { drop leaves nodes.new ≡ slice_set (drop leaves nodes.old) place moment }
    ensures tree { IsTree nodes.new leaves }
{
    let mut node = leaves + place;
    nodes[node] = moment;
    while node > 1 {
        node /= 2;
        let lesser = nodes[2 * node].min(nodes[2 * node + 1]);
        if nodes[node] == lesser {
            return;
        }
        nodes[node] = lesser;
    }
}

/// The first leaf of at most the limit, which the first node does not exceed.
fn first_leaf(nodes: &[u64], leaves: usize, levels: u32, limit: u64) -> usize
    requires levels { leaves ≡ 2 ^ levels }
    requires size { length nodes.now ≡ 2 * leaves }
    requires tree { IsTree nodes.now leaves }
    requires reached { slice_index nodes.now 1 ≤ limit }
    ensures leaf { leaves ≤ result }
    ensures first { IsFirstUpTo (drop leaves nodes.now) limit (result - leaves) }
{
    let mut node = 1;
    for _ in 0..levels {
        node = first_below(nodes, node, limit);
    }
    node
}

/// Of the two nodes below one of at most the limit, the first that is of at most the limit.
fn first_below(nodes: &[u64], node: usize, limit: u64) -> usize
    requires within { 2 * node + 1 < length nodes.now }
    requires lesser { IsLesserOfTwo nodes.now node }
    requires reached { slice_index nodes.now node ≤ limit }
    ensures { IsFirstBelow nodes.now node limit result }
{
    let below = 2 * node;
    if nodes[below] <= limit {
        below
    } else {
        below + 1
    }
}
