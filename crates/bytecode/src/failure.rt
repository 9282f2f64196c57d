// The first place whose rule fails.

ghost use Rattle.std.specs.Prelude.{◌≡◌, ◌↔◌, ◌<◌, ℕ, length, drop, slice_get, IsTrue, MatchOption, IfOk, Some};
ghost use Rattle.bytecode.specs.Failure.{FailsFirstAt};
ghost use Rattle.bytecode.specs.Verified.{Cover, IsLaidOut, IsShortCode, IsVerified, KeepsAllRules, KeepsRuleAt};
ghost use Rattle.bytecode.specs.Inside.Failure.{FailsFirstIn, FailsFirstOfAll, KeepsRulesOf};
ghost use Rattle.bytecode.specs.Tables.{KeepsTables};

use crate::code::{Code, Fun};
use crate::rule::keeps_rule;
use crate::tables::keeps_tables;
use std::alloc::Global;
use texts::NoMemory;

/// The first place whose rule fails, or `None` where every rule holds.
pub(crate) fn first_failure(alloc: Global, code: &Code) -> Result<Option<u32>, NoMemory>
    requires { IsShortCode code.now }
    ensures { IfOk result (λ place. MatchOption place (IsVerified code.now) (FailsFirstAt code.now)) }
{
    let end = code.instrs.len() as u32;
    if !is_laid_out(code) {
        return Ok(Some(end));
    }
    if let Some(place) = first_broken(code) {
        return Ok(Some(place));
    }
    if keeps_tables(alloc, code)? {
        Ok(None)
    } else {
        Ok(Some(end))
    }
}

/// Whether the functions cover the instructions, and there are as many depths.
fn is_laid_out(code: &Code) -> bool
    ensures { IsTrue result ↔ IsLaidOut code.now }
{
    covers(code.functions.as_slice(), code.instrs.len()) && code.depths.len() == code.instrs.len()
}

/// Whether the functions cover so many places from 0 on, in order and without a gap, and none of
/// them is empty.
fn covers(functions: &[Fun], places: usize) -> bool
    ensures { IsTrue result ↔ Cover 0 functions.now places }
{
    let mut from = 0;
    for function in functions {
        if function.start != from || function.end <= from {
            return false;
        }
        from = function.end;
    }
    from as usize == places
}

/// The first place that breaks its rule.
fn first_broken(code: &Code) -> Option<u32>
    requires { IsLaidOut code.now }
    ensures { MatchOption result (KeepsAllRules code.now) (FailsFirstOfAll code.now) }
{
    for (number, function) in code.functions.as_slice().iter().enumerate() {
        if let Some(place) = first_broken_of(code, number, *function) {
            return Some(place);
        }
    }
    None
}

/// The first place of a function that breaks its rule.
fn first_broken_of(code: &Code, number: usize, function: Fun) -> Option<u32>
    requires laid_out { IsLaidOut code.now }
    requires is_there { slice_get code.now.functions number ≡ Some function }
    ensures { MatchOption result
        (KeepsRulesOf code.now number function)
        (FailsFirstIn code.now number function) }
{
    let instrs = code.instrs.as_slice();
    let depths = code.depths.as_slice();
    for place in function.start..function.end {
        let instr = instrs[place as usize];
        let depth = depths[place as usize];
        if !keeps_rule(code, number, function, place, instr, depth) {
            return Some(place);
        }
    }
    None
}
