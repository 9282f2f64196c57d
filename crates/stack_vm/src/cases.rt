// The runs of neighbouring Cases, and the index in which their labels are searched.

ghost use Rattle.std.specs.Prelude.{◌≡◌, ◌+◌, ◌^◌, ◌<◌, ◌≤◌, ℕ, ℤ, length, IfNone, IfOk, IfSome, IsTrue};
ghost use Rattle.std.specs.List.{Contains};
ghost use Rattle.bytecode.specs.declared.code.Code.{Code};
ghost use Rattle.bytecode.specs.declared.instr.Instr.TheVariants.{Case};
ghost use Rattle.bytecode.specs.Verified.{IsVerified};
ghost use Rattle.stack_vm.specs.Cases.{AreCasesFrom, AreInOrder, HasOtherLabel, HaveOtherLabels, IsFirstWith, IsIndexOf, IsRunFrom};
ghost use Rattle.stack_vm.specs.Inside.Step.{IsReady, Passes, top_of};

use crate::state::State;
use bytecode::{Code, Instr};
use int_kinds::is_equal;
use items::Items;
use std::alloc::Global;
use texts::NoMemory;

/// A run of so many Cases or more is searched in an index.
const LONG: usize = 32;

/// For each place the Cases of the long run that begins there, in the order of their labels, or
/// none. Each is given by its label and its place.
///
/// Takes the time that a sort of all Cases takes, and memory linear in the code. Where no run is
/// long, it has no place, and takes no memory.
pub(crate) fn case_index(
    alloc: Global,
    code: &Code,
) -> Result<Items<Items<(i128, usize)>>, NoMemory>
    requires { IsVerified code.now }
    ensures { IfOk result (IsIndexOf code.now) }
{
    let mut index = Vec::new(alloc);
    let instrs = code.instrs.as_slice();
    if has_long_run(instrs) {
        for place in 0..instrs.len() {
            index.push(run_from(alloc, code, place)?)?;
        }
    }
    Ok(Items::from_list(index))
}

/// Whether a run is long.
fn has_long_run(instrs: &[Instr]) -> bool {
    for place in 0..instrs.len() {
        if begins_long_run(instrs, place) {
            return true;
        }
    }
    false
}

/// Whether a long run begins at a place.
fn begins_long_run(instrs: &[Instr], place: usize) -> bool
    requires { place < length instrs.now }
{
    if place > 0 && is_case(&instrs[place - 1]) || instrs.len() - place < LONG {
        return false;
    }
    for instr in &instrs[place..place + LONG] {
        if !is_case(instr) {
            return false;
        }
    }
    true
}

/// Whether an instruction is a Case.
fn is_case(instr: &Instr) -> bool {
    matches!(*instr, Instr::Case(..))
}

/// The Cases of the long run that begins at a place, in the order of their labels, or none.
fn run_from(alloc: Global, code: &Code, start: usize) -> Result<Items<(i128, usize)>, NoMemory>
    requires verified { IsVerified code.now }
    requires inside { start < length code.now.instrs }
    ensures { IfOk result (IsRunFrom code.now start) }
{
    if !begins_long_run(code.instrs.as_slice(), start) {
        return Ok(Items::new(alloc));
    }
    let mut cases = cases_from(alloc, code, start)?;
    cases.sort()?;
    Ok(Items::from_list(cases))
}

/// The Cases from a place up to the first other instruction, each by its label and its place.
fn cases_from(alloc: Global, code: &Code, start: usize) -> Result<Vec<(i128, usize)>, NoMemory>
    requires verified { IsVerified code.now }
    ensures { IfOk result (λ cases. AreCasesFrom code.now start cases.items) }
{
    let instrs = code.instrs.as_slice();
    let mut cases = Vec::new(alloc);
    for place in start..instrs.len() {
        let Instr::Case(_, label) = instrs[place] else {
            break;
        };
        cases.push((label, place))?;
    }
    Ok(cases)
}

/// Whether the index has a long run that begins at a place.
#[inline(always)]
pub(crate) fn has_run(index: &Items<Items<(i128, usize)>>, place: usize) -> bool {
    match index.as_slice().get(place) {
        Some(cases) => !cases.is_empty(),
        None => false,
    }
}

/// Passes over a Case whose label is not the top and, where a long run begins there, over all such
/// Cases behind it.
///
/// Takes time logarithmic in the length of the run, and no memory.
#[cold]
#[inline(never)]
pub(crate) fn pass_run(state: &mut State, index: &Items<Items<(i128, usize)>>)
    requires ready { (code : Code) × (label : ℤ) × (target : ℕ) × IsReady code (Case target label) state.old }
    requires index { (code : Code) × IsIndexOf code index.now }
    ensures { (code : Code) → IsIndexOf code index.now →
        HasOtherLabel code (top_of state.old) state.old.place → Passes code state.old state.new }
{
    let place = state.place();
    let far = passed_to(index, place, state.top());
    if far > place {
        state.jump(far, 0);
    } else {
        state.go_on();
    }
}

/// Up to where the Cases of the long run that begins at a place have other labels than this number:
/// this place where none begins there.
fn passed_to(index: &Items<Items<(i128, usize)>>, place: usize, n: i128) -> usize
    requires { (code : Code) × IsIndexOf code index.now }
    ensures { (code : Code) → IsIndexOf code index.now → HaveOtherLabels code n place result }
{
    let lists = index.as_slice();
    let Some(cases) = lists.get(place) else {
        return place;
    };
    match first_with(cases.as_slice(), n) {
        Some(first) => first,
        None => place + cases.len(),
    }
}

/// The first place of a Case with this label.
fn first_with(cases: &[(i128, usize)], label: i128) -> Option<usize>
    requires { AreInOrder cases.now }
    ensures found { IfSome result (IsFirstWith label cases.now) }
    ensures none { IfNone result ((place : ℕ) → ¬ (Contains cases.now (label, place))) }
{
    let at = cases.partition_point(|case| case.0 < label);
    if at < cases.len() && is_equal(cases[at].0, label) {
        Some(cases[at].1)
    } else {
        None
    }
}
