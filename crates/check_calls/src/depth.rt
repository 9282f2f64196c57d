// Depth-first orders of functions, and the components of their calls.

ghost use Rattle.std.specs.Prelude.{◌≡◌, ◌⊎◌, ◌≤◌, ◌<◌, ◌+◌, ◌^◌, ℕ, List, [], IfOk, IfSome, OnOk, MatchOption, Some, length, slice_get, true, false};
ghost use Rattle.check_calls.specs.Graph.{AreApart, Has, StandBehind, rows_of};
ghost use Rattle.check_calls.specs.Inside.Walk.{GoesOn, IsCall, IsEntered, KeepsEntered, WasEntered, calls_at, steps_of};

use std::alloc::Global;
use texts::NoMemory;

/// A depth-first walk over the calls of a program, without a recursion of its own.
#[derive(Drop)]
struct Walk {
    /// For each function whether it was entered.
    entered: Vec<bool>,
    /// The functions that are entered and not left, each with the number of its next call.
    stack: Vec<(u32, usize)>,
    /// The functions that were left, in order.
    left: Vec<u32>,
}

impl Walk {
    /// A walk that has entered none of so many functions.
    fn new(alloc: Global, count: usize) -> Result<Walk, NoMemory>
        ensures walks { (rows : List (List ℕ)) → length rows ≡ count → IfOk result (GoesOn rows) }
        ensures closed { IfOk result (λ walk. walk.stack.items ≡ []) }
    {
        Ok(Walk {
            entered: vec![in alloc; false; count]?,
            stack: Vec::new(alloc),
            left: Vec::new(alloc),
        })
    }

    /// Enters a function, if it was not entered before.
    fn enter(&mut self, function: u32) -> Result<(), NoMemory>
        ensures { OnOk result
            (WasEntered self.old self.new function ⊎ IsEntered self.old self.new function) }
    {
        let at = function as usize;
        if at < self.entered.len() && !self.entered[at] {
            self.entered[at] = true;
            self.stack.push((function, 0))?;
        }
        Ok(())
    }

    /// Follows the next call of the last function that is open, or leaves it where there is none. False
    /// where no function is open.
    fn step(&mut self, rows: &[Vec<u32>]) -> Result<bool, NoMemory>
        ensures walks { OnOk result
            (GoesOn (rows_of rows.now) self.old → GoesOn (rows_of rows.now) self.new) }
        ensures kept { OnOk result (KeepsEntered self.old self.new) }
        ensures closed { IfOk result (λ more. more ≡ false → self.new.stack.items ≡ []) }
        ensures falls { IfOk result (λ more. more ≡ true →
            steps_of (rows_of rows.now) self.new < steps_of (rows_of rows.now) self.old) }
    {
        let Some((function, call)) = self.stack.pop() else {
            return Ok(false);
        };
        match next_call(rows, function, call) {
            Some(next) => {
                self.stack.push((function, call + 1))?;
                self.enter(next)?;
            }
            None => self.left.push(function)?,
        }
        Ok(true)
    }

    /// Enters a function, and all that it reaches and that was not entered before.
    fn follow(&mut self, rows: &[Vec<u32>], function: u32) -> Result<(), NoMemory>
        ensures walks { OnOk result (GoesOn (rows_of rows.now) self.old → self.old.stack.items ≡ [] →
            GoesOn (rows_of rows.now) self.new) }
        ensures closed { OnOk result (self.new.stack.items ≡ []) }
        ensures kept { OnOk result (KeepsEntered self.old self.new) }
        ensures entered { OnOk result (function < length self.old.entered.items →
            slice_get self.new.entered.items function ≡ Some true) }
    {
        self.enter(function)?;
        'steps: while self.step(rows)? {}
        Ok(())
    }
}

/// The function that a call of a function is of, by the call's number, if there are so many.
fn next_call(rows: &[Vec<u32>], function: u32, call: usize) -> Option<u32>
    ensures of { MatchOption result (calls_at (rows_of rows.now) function ≤ call)
        (IsCall (rows_of rows.now) function call) }
    ensures small { IfSome result (λ next. call + 1 < 2 ^ 64) }
{
    let function = function as usize;
    if function >= rows.len() {
        return None;
    }
    let row = rows[function].as_slice();
    if call < row.len() {
        Some(row[call])
    } else {
        None
    }
}

/// Functions in an order in which each stands behind those that it calls, but for those that reach it.
/// Takes time and memory linear in the rows.
pub(crate) fn depth_first(
    alloc: Global,
    count: u32,
    rows: &[Vec<u32>],
) -> Result<Vec<u32>, NoMemory>
    requires { count ≡ length rows.now }
    ensures each { IfOk result (λ order. (place : ℕ) → place < count → Has order.items place) }
    ensures apart { IfOk result (λ order. AreApart order.items) }
    ensures within { IfOk result (λ order.
        (k place : ℕ) → slice_get order.items k ≡ Some place → place < count) }
    ensures behind { IfOk result (λ order. StandBehind (rows_of rows.now) order.items) }
{
    let mut walk = Walk::new(alloc, rows.len())?;
    for function in 0..count {
        walk.follow(rows, function)?;
    }
    Ok(walk.left)
}

/// The root of each function's component, and the functions in an order.
#[derive(Drop)]
pub(crate) struct RootedOrder {
    /// For each function the root of its component.
    pub(crate) roots: Vec<u32>,
    /// The functions, each before the one of its component by which it reaches the root.
    pub(crate) left: Vec<u32>,
}

/// Adds a caller to the functions that it calls.
fn add_caller(caller: u32, row: &[u32], callers: &mut Vec<Vec<u32>>) -> Result<(), NoMemory> {
    for function in row {
        if let Some(known) = callers.get_mut(*function as usize) {
            known.push(caller)?;
        }
    }
    Ok(())
}

/// The functions by which each function is called. Takes time and memory linear in the rows.
fn callers_of(alloc: Global, rows: &[Vec<u32>]) -> Result<Vec<Vec<u32>>, NoMemory>
    requires { length rows.now < 2 ^ 32 }
{
    let count = rows.len() as u32;
    let mut callers = Vec::new(alloc);
    for _ in 0..count {
        callers.push(Vec::new(alloc))?;
    }
    for caller in 0..count {
        add_caller(caller, rows[caller as usize].as_slice(), &mut callers)?;
    }
    Ok(callers)
}

/// Gives a root to the functions from an index on.
fn give_root(root: u32, functions: &[u32], first: usize, roots: &mut Vec<u32>) {
    for i in first..functions.len() {
        let at = functions[i] as usize;
        if at < roots.len() {
            roots[at] = root;
        }
    }
}

/// The roots of the components of the calls in these rows, where the functions are given in the order
/// of a depth-first walk over them. The second walk goes from callees to callers, from the last function
/// of that order on: what it enters from a function is that function's component (Kosaraju). Nothing is
/// claimed of it here: what takes it looks at each function and each call. Takes time and memory linear
/// in the rows.
pub(crate) fn component_roots(
    alloc: Global,
    rows: &[Vec<u32>],
    order: &[u32],
) -> Result<RootedOrder, NoMemory>
    requires { length rows.now < 2 ^ 32 }
{
    let callers = callers_of(alloc, rows)?;
    let mut walk = Walk::new(alloc, rows.len())?;
    let mut roots = vec![in alloc; 0u32; rows.len()]?;
    for root in order.iter().rev() {
        let first = walk.left.len();
        walk.follow(callers.as_slice(), *root)?;
        give_root(*root, walk.left.as_slice(), first, &mut roots);
    }
    Ok(RootedOrder {
        roots,
        left: walk.left,
    })
}
