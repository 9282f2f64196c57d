// The walk over a constant expression.

ghost use Rattle.std.specs.Prelude.{◌≡◌, [], Some, slice_get};
ghost use Rattle.std.specs.Option.{option_map};
ghost use Rattle.capl_meaning.specs.Names.{means};
ghost use Rattle.capl_meaning.specs.Variable.{Variable};
ghost use Rattle.check_sorts.specs.Constant.{AreNumbers, HasNumber, evaluated, known_at, name_by, place_of};
ghost use Rattle.check_sorts.specs.Form.{form_in};
ghost use Rattle.check_sorts.specs.Scope.{scope_in};

use crate::evaluation::{Evaluated, of_binary, of_cast, of_choice, of_number, of_prefix, of_word};
use crate::scope::{Meaning, Scope};
use crate::sort::sort_of_form;
use crate::values::Known;
use capl_meaning::Sort;
use capl_tree::Expr;
use check_names::Names;
use int_kinds::Kind;

/// The file and the token at which the name of a variable stands.
#[tactic(auto, using(crate::proofs::EvaluationLemmas::declared_place))]
pub(crate) fn place_of(names: &Names, number: u32) -> Option<(u32, u32)>
    ensures { result ≡ option_map place_of (slice_get names.now.variables number) }
{
    match names.variables().get(number as usize) {
        None => None,
        Some(declared) => Some((declared.place.file, declared.token())),
    }
}

impl<'c> Known<'c> {
    /// A variable that a name means.
    fn of_variable(&self, names: &Names, meaning: Meaning) -> Option<Evaluated>
        requires { AreNumbers (known_at self.now) }
        ensures same { (v : Variable) → slice_get names.now.variables meaning.entry.number ≡ Some v →
            form_in meaning.entry.form ≡ v.form → result ≡ name_by (known_at self.now) [] (Some v) }
        ensures number { HasNumber result }
    {
        let Some((file, token)) = place_of(names, meaning.number) else {
            return None;
        };
        match self.value(file, token) {
            None => None,
            Some(n) => Some(Evaluated {
                sort: sort_of_form(meaning.form),
                value: Some(n),
            }),
        }
    }

    /// A name at a token.
    fn of_name(&self, scope: &Scope, name: &[u8], token: u32) -> Option<Evaluated>
        requires { AreNumbers (known_at self.now) }
        ensures same { result
            ≡ name_by (known_at self.now) name.now (means (scope_in scope.now) name.now token) }
        ensures number { HasNumber result }
    {
        match scope.meaning(name, token) {
            None => of_word(name),
            Some(meaning) => self.of_variable(scope.names, meaning),
        }
    }

    /// An expression, or None where it is no constant. Takes time linear in it, for each name in it also
    /// logarithmic in the values, and no memory.
    pub(crate) fn evaluate(&self, scope: &Scope, e: &Expr) -> Option<Evaluated>
        requires { AreNumbers (known_at self.now) }
        ensures same { result ≡ evaluated (known_at self.now) (scope_in scope.now) e.now }
        ensures number { HasNumber result }
    {
        match e {
            Expr::Num { value, ext, .. } => of_number(*value, *ext),
            Expr::Char { value, .. } => Some(Evaluated {
                sort: Sort::Number(Kind::Char),
                value: Some(*value as i128),
            }),
            Expr::Name { name, at } => self.of_name(scope, name.bytes(), *at),
            Expr::Paren { inner, .. } => self.evaluate(scope, inner.get()),
            Expr::Cast { kind, inner, .. } => of_cast(*kind, self.evaluate(scope, inner.get())),
            Expr::Unary { op, inner, .. } => of_prefix(*op, self.evaluate(scope, inner.get())),
            Expr::Binary {
                op,
                left,
                right,
                ..
            } => {
                let left = self.evaluate(scope, left.get());
                let right = self.evaluate(scope, right.get());
                of_binary(*op, left, right)
            }
            Expr::Cond { test, yes, no, .. } => {
                let test = self.evaluate(scope, test.get());
                let yes = self.evaluate(scope, yes.get());
                let no = self.evaluate(scope, no.get());
                of_choice(test, yes, no)
            }
            Expr::Str { .. }
            | Expr::This { .. }
            | Expr::Call { .. }
            | Expr::Index { .. }
            | Expr::Member { .. }
            | Expr::Post { .. }
            | Expr::Assign { .. } => None,
        }
    }
}
