// The calls of a program.

ghost use Rattle.std.specs.Prelude.{◌≡◌, ℕ, IfOk, MatchOption, Some, slice_get};
ghost use Rattle.capl_meaning.specs.Names.{Function, Names, Scope};
ghost use Rattle.capl_meaning.specs.Sort.{is_recursive};
ghost use Rattle.typed_source.specs.Expression.{place_in};
ghost use Rattle.check_calls.specs.Calls.{AreCallsOf, indices_of, order_of};

use crate::components::Components;
use crate::depth::depth_first;
use crate::ranks::number_at;
use crate::rows::{callees_of_all, count_of, is_among, numbers_at, numbers_of_all, stand_at};
use crate::search::reached_from;
use check_names::Names;
use std::alloc::Global;
use texts::NoMemory;

/// Which functions of a program call which, and an order of the functions.
#[derive(Drop)]
pub struct Calls {
    /// The numbers of the functions' procedures, in this order.
    order: Vec<u32>,
    /// The functions in this order, each by its place among the functions of the program.
    indices: Vec<u32>,
    /// Where each function of the program stands in this order.
    places: Vec<u32>,
    /// The numbers of the functions' procedures, in program order.
    numbers: Vec<u32>,
    /// What each function calls, by places among the functions of the program.
    callees: Vec<Vec<u32>>,
    /// The components of the calls.
    components: Components,
}

impl Calls {
    /// The calls of a program. Takes time and memory linear in the program.
    pub fn build(alloc: Global, names: &Names) -> Result<Calls, NoMemory>
        ensures { IfOk result (AreCallsOf names.now) }
    {
        names.functions_rise();
        let numbers = numbers_of_all(alloc, names)?;
        let count = count_of(numbers.as_slice());
        let callees = callees_of_all(alloc, names)?;
        let indices = depth_first(alloc, count, callees.as_slice())?;
        let places = stand_at(alloc, count, indices.as_slice())?;
        let order = numbers_at(alloc, numbers.as_slice(), indices.as_slice())?;
        let components = Components::build(
            alloc,
            callees.as_slice(),
            indices.as_slice(),
            places.as_slice(),
        )?;
        Ok(Calls {
            order,
            indices,
            places,
            numbers,
            callees,
            components,
        })
    }

    /// The functions in order, by the numbers of their procedures: each function of the program once. A
    /// function stands behind those that it calls, where no calls go round.
    pub fn order(&self) -> &[u32]
        ensures { result.now ≡ order_of self.now }
    {
        self.order.as_slice()
    }

    /// The functions in the same order, each by its place among the functions of the program.
    pub fn indices(&self) -> &[u32]
        ensures { result.now ≡ indices_of self.now }
    {
        self.indices.as_slice()
    }

    /// Where a function stands in the order, by its place among the functions of the program.
    pub fn place(&self, function: u32) -> u32
        ensures { (names : Names) (f : Function) → AreCallsOf names self.now →
            slice_get names.functions function ≡ Some f →
            place_in (order_of self.now) f.number ≡ Some result }
    {
        number_at(self.places.as_slice(), function as usize)
    }

    /// Whether a call is recursive that stands in the procedure of this number, and is of the function
    /// of this place among the functions of the program: whether that function reaches the procedure.
    /// Takes constant time where the call stands in the program, but for the look-up of the number: the
    /// function is then ranked below the procedure's, or of the same component, or the procedure is none
    /// that can be called. Any other call is answered by a search, linear in the calls of the program.
    pub fn is_recursive(&self, alloc: Global, owner: u32, function: u32) -> Result<bool, NoMemory>
        ensures { (s : Scope) (f : Function) → AreCallsOf s.names self.now → s.owner ≡ owner →
            slice_get s.names.functions function ≡ Some f →
            IfOk result (λ answer. answer ≡ is_recursive s f) }
    {
        let Some(caller) = self.place_numbered(owner) else {
            return Ok(false);
        };
        if self.components.is_below(function as usize, caller) {
            return Ok(false);
        }
        if self.components.are_joined(function as usize, caller) {
            return Ok(true);
        }
        let found = reached_from(alloc, self.callees.as_slice(), function)?;
        Ok(is_among(self.numbers.as_slice(), found.as_slice(), owner))
    }

    /// The place, among the functions of the program, of the function of this number, if there is one.
    /// Takes time logarithmic in the functions.
    fn place_numbered(&self, number: u32) -> Option<usize>
        ensures { (names : Names) → AreCallsOf names self.now →
            MatchOption result ((k : ℕ) → slice_get self.now.numbers.items k ≡ Some number → ⊥)
            (λ place. slice_get self.now.numbers.items place ≡ Some number) }
    {
        match self.numbers.binary_search(&number) {
            Ok(place) => Some(place),
            Err(_) => None,
        }
    }
}
