// Where a part of a program stands, and what names and calls are there.

ghost use Rattle.std.specs.Prelude.{◌≡◌, MatchOption, None, slice_get, [], ◌∷◌, map};
ghost use Rattle.std.specs.Option.{option_and_then};
ghost use Rattle.capl_meaning.specs.Constant.{scope_of};
ghost use Rattle.capl_meaning.specs.Names.{callee, inside, kind_given, means, outside, signals_of_selectors, this_form};
ghost use Rattle.check_names.specs.Variable.{variable_in};
ghost use Rattle.check_sorts.specs.Form.{signals_in};
ghost use Rattle.check_sorts.specs.Scope.{IsMeaning, callee_in, scope_in, this_in};

use crate::form::{Form, form_of};
use crate::signals::DeclaredSignals;
use capl_meaning::{Builtin, builtin_named};
use capl_tree::{Head, Sel, SelWhat};
use check_names::{Declared, Names};
use int_kinds::Kind;

/// What `this` is in a procedure.
#[derive(Clone, Copy)]
pub enum ThisForm<'p> {
    /// Nothing.
    NoThis,
    /// A frame, with the signals of its message where the procedure is for one name alone.
    Frame(DeclaredSignals<'p>),
    /// A key.
    Key,
}

/// Where a part of a program stands.
#[derive(Clone, Copy)]
pub struct Scope<'a, 'p> {
    /// What the program declares.
    pub names: &'a Names<'p>,
    /// The number of the procedure, 0 being outside of procedures.
    pub owner: u32,
    /// The number of the file.
    pub file: u32,
    /// What `this` is.
    pub this: ThisForm<'p>,
    /// The kind that the procedure gives, if it gives one.
    pub gives: Option<Kind>,
}

/// A variable that a name means.
#[derive(Clone, Copy)]
pub struct Meaning<'p> {
    /// Its number among the variables of the program.
    pub number: u32,
    /// What it is.
    pub form: Form<'p>,
}

/// What a call is of.
#[derive(Clone, Copy, Debug, PartialEq, Eq)]
pub enum Callee {
    /// A function of the language.
    Language(Builtin),
    /// The function of this number among the functions of the program.
    Program(u32),
    /// Nothing.
    Unknown,
}

/// The signals that `this` has for one selector, on whichever channel: those of a name.
fn signals_of_selection<'p>(names: &Names<'p>, what: &SelWhat) -> DeclaredSignals<'p>
    ensures { signals_in result ≡ signals_of_selectors names.now.base (what.now ∷ []) }
{
    match what {
        SelWhat::Name { name, .. } => DeclaredSignals::Named(names.message(name.bytes())),
        SelWhat::Any { .. } | SelWhat::Ids { .. } => DeclaredSignals::Unnamed,
    }
}

/// The signals that `this` has for these selectors: those of one name alone.
fn signals_of_selectors<'p>(names: &Names<'p>, selectors: &[Sel]) -> DeclaredSignals<'p>
    ensures { signals_in result ≡
        signals_of_selectors names.now.base (map (λ one. one.what) selectors.now) }
{
    match selectors {
        [one] => signals_of_selection(names, &one.what),
        _ => DeclaredSignals::Unnamed,
    }
}

/// What `this` is in a procedure with this head.
fn this_form<'p>(names: &Names<'p>, head: &Head) -> ThisForm<'p>
    ensures { this_in result ≡ this_form names.now.base head.now }
{
    match head {
        Head::Message(selectors) => {
            ThisForm::Frame(signals_of_selectors(names, selectors.as_slice()))
        }
        Head::Key { .. } => ThisForm::Key,
        Head::PreStart | Head::Start | Head::Stop | Head::Timer { .. } | Head::Function { .. } =>
            ThisForm::NoThis,
    }
}

/// The kind that a procedure with this head gives, if it gives one.
fn kind_given(head: &Head) -> Option<Kind>
    ensures { result ≡ kind_given head.now }
{
    match head {
        Head::Function { kind, .. } => *kind,
        Head::PreStart
        | Head::Start
        | Head::Stop
        | Head::Message(_)
        | Head::Timer { .. }
        | Head::Key { .. } => None,
    }
}

impl<'a, 'p> Scope<'a, 'p> {
    /// Outside of procedures, in a file.
    pub fn outside(names: &'a Names<'p>, file: u32) -> Scope<'a, 'p>
        ensures { scope_in result ≡ outside names.now file }
    {
        Scope {
            names,
            owner: 0,
            file,
            this: ThisForm::NoThis,
            gives: None,
        }
    }

    /// In a procedure, by its number, file and head.
    pub fn inside(names: &'a Names<'p>, number: u32, file: u32, head: &Head) -> Scope<'a, 'p>
        ensures { scope_in result ≡ inside names.now number file head.now }
    {
        Scope {
            names,
            owner: number,
            file,
            this: this_form(names, head),
            gives: kind_given(head),
        }
    }

    /// Where a variable is declared.
    #[tactic(auto, using(crate::proofs::EvaluationLemmas::declared))]
    pub fn of_declared(names: &'a Names<'p>, declared: &Declared) -> Scope<'a, 'p>
        ensures names { result.names.now ≡ names.now }
        ensures scope { scope_in result ≡
            scope_of names.now (variable_in names.now.base declared.now) }
    {
        Scope {
            names,
            owner: declared.place.owner,
            file: declared.place.file,
            this: ThisForm::NoThis,
            gives: None,
        }
    }

    /// The variable that a name means at a token, or None where it means none.
    pub fn meaning(&self, name: &[u8], token: u32) -> Option<Meaning<'p>>
        ensures { MatchOption result (means (scope_in self.now) name.now token ≡ None)
            (IsMeaning self.now.names.now (means (scope_in self.now) name.now token)) }
    {
        let Some(number) = self.names.means(self.owner, name, token) else {
            return None;
        };
        if number as usize >= self.names.variables().len() {
            return None;
        }
        let form = form_of(self.names, number);
        Some(Meaning { number, form })
    }

    /// The number of the variable that a name means at a token, or None where it means none.
    pub fn variable(&self, name: &[u8], token: u32) -> Option<u32>
        ensures { option_and_then (slice_get self.now.names.now.variables) result
            ≡ means (scope_in self.now) name.now token }
    {
        self.names.means(self.owner, name, token)
    }

    /// What a call of a name is of.
    pub fn callee(&self, name: &[u8]) -> Callee
        ensures { callee_in self.now.names.now result ≡ callee self.now.names.now name.now }
    {
        if let Some(builtin) = builtin_named(name) {
            return Callee::Language(builtin);
        }
        match self.names.function(name) {
            Some(number) => Callee::Program(number),
            None => Callee::Unknown,
        }
    }
}
