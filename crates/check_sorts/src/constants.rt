// The constants of a program.

ghost use Rattle.std.specs.Prelude.{◌≡◌, ◌++◌, List, IfOk, IfSome, OnOk, map, slice_get};
ghost use Rattle.std.specs.Option.{option_copied, option_map_or};
ghost use Rattle.int_kinds.specs.Kind.{IsNumber};
ghost use Rattle.capl_meaning.specs.Constant.{Constant, array_length, constant, constant_at, elements_of, first_number, length_at, length_by};
ghost use Rattle.check_names.specs.Variable.{variable_in};
ghost use Rattle.check_sorts.specs.Constant.{AreConstantsOf, AreNumbers, AreValues, HasValuesOf, constant_of, fixed_kind, held};
ghost use Rattle.check_sorts.specs.Form.{form_in};
ghost use Rattle.check_sorts.specs.Scope.{scope_in};

use crate::form::{Form, declared_form};
use crate::scope::Scope;
use crate::values::{Known, ValueTable};
use capl_tree::{Expr, Init};
use check_names::{Declared, Names};
use int_kinds::{Kind, wrap};
use std::alloc::Global;
use texts::NoMemory;

/// The values of a program's const integers, and how many elements its arrays have.
#[derive(Drop)]
pub struct Constants {
    values: ValueTable,
    lengths: Vec<u32>,
}

/// The kind of a const integer; None of other variables.
fn fixed_kind(form: Form) -> Option<Kind>
    ensures { result ≡ fixed_kind (form_in form.entry) }
{
    match form {
        Form::Number { kind, fixed: true } => Some(kind),
        _ => None,
    }
}

/// The value of a constant, by all const integers of a table.
fn constant_among(table: &ValueTable, scope: &Scope, e: &Expr) -> Option<i128>
    requires { AreNumbers (held table.now) }
    ensures same { (known : List Constant) → AreValues (held table.now) known →
        result ≡ constant known (scope_in scope.now) e.now }
    ensures number { IfSome result IsNumber }
{
    let known = Known {
        table,
        before: None,
    };
    match known.evaluate(scope, e) {
        None => None,
        Some(found) => found.value,
    }
}

/// The value of a constant, by the const integers of a table that are declared before a token.
fn constant_before(table: &ValueTable, scope: &Scope, token: u32, e: &Expr) -> Option<i128>
    requires { HasValuesOf scope.now.names.now table.now }
    ensures same { result ≡ constant_at (scope_in scope.now) token e.now }
    ensures number { IfSome result IsNumber }
{
    let known = Known {
        table,
        before: Some((scope.file, token)),
    };
    match known.evaluate(scope, e) {
        None => None,
        Some(found) => found.value,
    }
}

/// The first value of a number variable: its constant, wrapped to its kind, and 0 where there is none.
fn first_number(table: &ValueTable, scope: &Scope, kind: Kind, init: Option<&Init>) -> i128
    requires { AreNumbers (held table.now) }
    ensures { (known : List Constant) → AreValues (held table.now) known →
        result ≡ first_number known (scope_in scope.now) kind (option_copied init.entry) }
{
    match init {
        Some(Init::One(e)) => match constant_among(table, scope, e) {
            None => 0,
            Some(n) => wrap(kind, n),
        },
        _ => 0,
    }
}

/// Notes the value of a variable, if it is a const integer.
fn note_constant(names: &Names, declared: &Declared, table: &mut ValueTable) -> Result<(), NoMemory>
    requires { AreNumbers (held table.old) }
    ensures values { (known : List Constant) → AreValues (held table.old) known →
        OnOk result (AreValues (held table.new)
        (known ++ constant_of names.now known (variable_in names.now.base declared.now))) }
    ensures numbers { (known : List Constant) → AreValues (held table.old) known →
        OnOk result (AreNumbers (held table.new)) }
{
    match fixed_kind(declared_form(names, declared)) {
        None => Ok(()),
        Some(kind) => {
            let scope = Scope::of_declared(names, declared);
            let value = first_number(table, &scope, kind, declared.init());
            table.note(declared.place.file, declared.token(), value)?;
            Ok(())
        }
    }
}

/// The values of a program's const integers.
fn values_of(alloc: Global, names: &Names) -> Result<ValueTable, NoMemory>
    ensures { IfOk result (HasValuesOf names.now) }
{
    let mut table = ValueTable::new(alloc);
    for declared in names.variables() {
        note_constant(names, declared, &mut table)?;
    }
    Ok(table)
}

/// The number of elements of an array of this size.
fn array_length(n: i128) -> Option<u32>
    ensures { result ≡ array_length n }
{
    if 1 <= n && n <= 1_000_000 {
        Some(n as u32)
    } else {
        None
    }
}

/// How many elements an array has whose name is declared at a token, by its size.
fn length_before(table: &ValueTable, scope: &Scope, token: u32, size: &Expr) -> Option<u32>
    requires { HasValuesOf scope.now.names.now table.now }
    ensures { result ≡ length_at (scope_in scope.now) token size.now }
{
    match constant_before(table, scope, token, size) {
        None => None,
        Some(n) => array_length(n),
    }
}

/// How many elements a variable of a form has: 0 where it is no array or its size is none.
fn length_by(table: &ValueTable, scope: &Scope, token: u32, form: Form) -> u32
    requires { HasValuesOf scope.now.names.now table.now }
    ensures { result ≡ length_by (scope_in scope.now) token (form_in form.entry) }
{
    match form {
        Form::Array { size, .. } => match length_before(table, scope, token, size) {
            None => 0,
            Some(length) => length,
        },
        Form::Number { .. } | Form::Message(_) | Form::Timer(_) | Form::Misfit => 0,
    }
}

/// How many elements a declared variable has.
fn length_of(table: &ValueTable, names: &Names, declared: &Declared) -> u32
    requires { HasValuesOf names.now table.now }
    ensures { result ≡ elements_of names.now (variable_in names.now.base declared.now) }
{
    let scope = Scope::of_declared(names, declared);
    length_by(
        table,
        &scope,
        declared.token(),
        declared_form(names, declared),
    )
}

/// How many elements each variable has.
fn lengths_of(alloc: Global, table: &ValueTable, names: &Names) -> Result<Vec<u32>, NoMemory>
    requires { HasValuesOf names.now table.now }
    ensures { IfOk result (λ all. all.items ≡ map (elements_of names.now) names.now.variables) }
{
    let mut all = Vec::new(alloc);
    for declared in names.variables() {
        all.push(length_of(table, names, declared))?;
    }
    Ok(all)
}

impl Constants {
    /// The constants of a program. Takes time n log n in the initialisers of its const integers and the
    /// sizes of its arrays, but for names of one hash, and memory linear in the number of its variables.
    pub fn build(alloc: Global, names: &Names) -> Result<Constants, NoMemory>
        ensures { IfOk result (AreConstantsOf names.now) }
    {
        let values = values_of(alloc, names)?;
        let lengths = lengths_of(alloc, &values, names)?;
        Ok(Constants { values, lengths })
    }

    /// The value of a constant, by the const integers that are declared before a token; None where the
    /// expression is no constant or divides by zero. Takes time linear in it, for each name in it also
    /// logarithmic in the const integers, and no memory.
    pub fn constant_at(&self, scope: Scope, token: u32, e: &Expr) -> Option<i128>
        requires { AreConstantsOf scope.names.now self.now }
        ensures same { result ≡ constant_at (scope_in scope.entry) token e.now }
        ensures number { IfSome result IsNumber }
    {
        constant_before(&self.values, &scope, token, e)
    }

    /// How many elements an array has whose name is declared at a token, by its size; None where that is
    /// none.
    pub fn length_at(&self, scope: Scope, token: u32, size: &Expr) -> Option<u32>
        requires { AreConstantsOf scope.names.now self.now }
        ensures { result ≡ length_at (scope_in scope.entry) token size.now }
    {
        length_before(&self.values, &scope, token, size)
    }

    /// How many elements the variable of a number has: 0 where it is no array or its size is none.
    pub fn elements(&self, names: &Names, number: u32) -> u32
        requires { AreConstantsOf names.now self.now }
        ensures { result ≡ option_map_or (elements_of names.now) (slice_get names.now.variables number) 0 }
    {
        match self.lengths.get(number as usize) {
            None => 0,
            Some(length) => *length,
        }
    }
}
