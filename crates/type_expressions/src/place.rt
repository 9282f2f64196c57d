// Places of numbers: those of names, of elements of arrays and of parts of messages.

ghost use Rattle.std.specs.Prelude.{◌≡◌, ◌+◌, ◌<◌, ◌^◌, pos, MatchOption, None, Option, Some};
ghost use Rattle.std.specs.Option.{option_map_or};
ghost use Rattle.capl_tree.specs.declared.expr.Expr.TheVariants.{Name};
ghost use Rattle.capl_meaning.specs.Message as meant;
ghost use Rattle.capl_meaning.specs.Message.{array_in, member_named, signals_of};
ghost use Rattle.capl_meaning.specs.Names.{Names, direction, means};
ghost use Rattle.capl_meaning.specs.Sort.{number_from, sort_of_element, sort_of_member, sort_of_name};
ghost use Rattle.capl_meaning.specs.Variable.{Variable};
ghost use Rattle.typed_laws.specs.Laid.{message_slot};
ghost use Rattle.typed_tree.specs.declared.expression.TExpr.TheVariants.{Const};
ghost use Rattle.typed_tree.specs.Forms.{Bytes};
ghost use Rattle.typed_source.specs.Expression.{of_name, place_of_element, place_of_field, place_of_member, place_of_name};
ghost use Rattle.check_sorts.specs.Form.{signals_in};
ghost use Rattle.check_sorts.specs.Message.{ArePlaces, held_in, member_in};
ghost use Rattle.check_sorts.specs.Scope.{IsMeaning, scope_in};
ghost use Rattle.type_expressions.specs.declared.made.Shape.TheVariants as shape;
ghost use Rattle.type_expressions.specs.Made.{AreTreeTables, place_in, value_in};

use crate::made::{Part, Shape, Target, TreeTables, Walked};
use capl_meaning::{MessageField, Sort};
use capl_tree::Expr;
use check_sorts::{
    DeclaredSignals, Form, Held, Meaning, Member, Scope, direction, member_named, number_from,
    places_of_meaning, sort_of_element, sort_of_form, sort_of_member,
};
use int_kinds::Kind;
use typed_tree::{Place, TExpr};

/// The place of a variable that a name means, where it is a number.
fn place_of_name(tables: &TreeTables, meaning: Meaning) -> Option<Place>
    ensures { (names : Names) (means : Option Variable) → AreTreeTables names tables.now →
        IsMeaning names means meaning.entry → result ≡ place_of_name names means }
{
    match meaning.form {
        Form::Number { .. } => Some(Place::Cell {
            slot: tables.layout.slot(meaning.number),
        }),
        Form::Array { .. } | Form::Message(_) | Form::Timer(_) | Form::Misfit => None,
    }
}

/// A name that means no variable.
fn unknown_name(name: &[u8]) -> Walked
    ensures value { value_in result.shape ≡ Const (option_map_or pos (direction name.now) (pos 0)) }
    ensures place { place_in result.shape ≡ None }
    ensures sort { result.sort ≡ sort_of_name name.now None }
{
    match direction(name) {
        None => Walked {
            shape: Shape::Value(TExpr::Const(0)),
            sort: Sort::Bad,
        },
        Some(number) => Walked {
            shape: Shape::Value(TExpr::Const(i128::from(number))),
            sort: Sort::Number(Kind::Long),
        },
    }
}

/// A name at a token, by what it means there.
fn name_by_meaning(
    scope: Scope,
    tables: &TreeTables,
    name: &[u8],
    at: u32,
    meaning: Option<Meaning>,
) -> Walked
    requires tables { AreTreeTables scope.names.now tables.now }
    requires meaning { let means = means (scope_in scope) name.now at in
        MatchOption meaning (means ≡ None) (IsMeaning scope.names.now means) }
    ensures value { let s = scope_in scope.entry in
        value_in result.shape ≡ of_name s.names name.now (means s name.now at) }
    ensures place { let s = scope_in scope.entry in
        place_in result.shape ≡ place_of_name s.names (means s name.now at) }
    ensures sort { result.sort ≡ sort_of_name name.now (means (scope_in scope.entry) name.now at) }
{
    match meaning {
        None => unknown_name(name),
        Some(meaning) => Walked {
            shape: Shape::Place(place_of_name(tables, meaning)),
            sort: sort_of_form(meaning.form),
        },
    }
}

/// A name at a token.
pub(crate) fn name(scope: Scope, tables: &TreeTables, name: &[u8], at: u32) -> Walked
    requires { AreTreeTables scope.names.now tables.now }
    ensures value { let s = scope_in scope.entry in
        value_in result.shape ≡ of_name s.names name.now (means s name.now at) }
    ensures place { let s = scope_in scope.entry in
        place_in result.shape ≡ place_of_name s.names (means s name.now at) }
    ensures sort { result.sort ≡ sort_of_name name.now (means (scope_in scope.entry) name.now at) }
{
    let meaning = scope.meaning(name, at);
    name_by_meaning(scope, tables, name, at, meaning)
}

/// A name at a token, with what it can be assigned.
pub(crate) fn named(scope: Scope, tables: &TreeTables, name: &[u8], at: u32) -> Target
    requires { AreTreeTables scope.names.now tables.now }
    ensures value { let s = scope_in scope.entry in
        value_in result.walked.shape ≡ of_name s.names name.now (means s name.now at) }
    ensures place { let s = scope_in scope.entry in
        place_in result.walked.shape ≡ place_of_name s.names (means s name.now at) }
    ensures sort { result.walked.sort ≡ sort_of_name name.now (means (scope_in scope.entry) name.now at) }
    ensures places { ArePlaces (scope_in scope.entry) (Name name.now at) result.places }
{
    let meaning = scope.meaning(name, at);
    let walked = name_by_meaning(scope, tables, name, at, meaning);
    Target {
        walked,
        places: places_of_meaning(meaning),
    }
}

/// An element of what an expression of a sort names, if that is an array.
pub(crate) fn element(
    scope: Scope,
    tables: &TreeTables,
    base: &Expr,
    sort: Sort,
    index: Part,
) -> Walked
    requires { AreTreeTables scope.names.now tables.now }
    ensures { let s = scope_in scope.entry in result ≡ record {
      shape = shape.Place (place_of_element s.names (array_in s base.now) index.tree);
      sort = sort_of_element sort index.sort;
    } }
{
    let sort = sort_of_element(sort, index.sort);
    let place = match scope.array_in(base) {
        None => None,
        Some(number) => Some(Place::Elem {
            base: tables.layout.slot(number),
            len: tables.layout.elements(number),
            index: index.tree,
        }),
    };
    Walked {
        shape: Shape::Place(place),
        sort,
    }
}

/// The first cell of a message.
pub fn message_slot(tables: &TreeTables, held: Held) -> u32
    ensures { (names : Names) (message : meant.Held) → AreTreeTables names tables.now →
        held_in names held.entry ≡ Some message → result ≡ message_slot names message }
{
    match held {
        Held::Frame(_) => 0,
        Held::Variable { number, .. } => tables.layout.slot(number),
    }
}

/// The signals of a message.
fn signals_of(held: Held<'_>) -> DeclaredSignals<'_>
    ensures { (names : Names) (message : meant.Held) → held_in names held.entry ≡ Some message →
        signals_in result ≡ signals_of message }
{
    match held {
        Held::Frame(signals) | Held::Variable { signals, .. } => signals,
    }
}

/// The place of a field of the message at a cell.
fn place_of_field(at: u32, field: MessageField) -> Place
    requires { at + 5 < 2 ^ 32 }
    ensures { result ≡ place_of_field at field }
{
    match field {
        MessageField::Id => Place::Set { msg: at, field: 0 },
        MessageField::Dlc => Place::Set { msg: at, field: 1 },
        MessageField::Rtr => Place::Set { msg: at, field: 2 },
        MessageField::Can => Place::Set { msg: at, field: 3 },
        MessageField::Dir => Place::Cell { slot: at + 4 },
        MessageField::Time => Place::Cell { slot: at + 5 },
    }
}

/// The place of a member of the message at a cell, if it is a field or a signal that can be used.
fn place_of_member(at: u32, member: Member) -> Option<Place>
    requires { at + 5 < 2 ^ 32 }
    ensures { result ≡ place_of_member at (member_in member) }
{
    match member {
        Member::Field(field) => Some(place_of_field(at, field)),
        Member::Signal(layout) => Some(Place::Signal { msg: at, layout }),
        Member::Unusable | Member::Unknown { .. } => None,
    }
}

/// A member of a message, by its name.
pub(crate) fn member(tables: &TreeTables, held: Held, name: &[u8]) -> Walked
    requires { (names : Names) × (message : meant.Held) × AreTreeTables names tables.now
        × (held_in names held ≡ Some message) }
    ensures { (names : Names) (message : meant.Held) → AreTreeTables names tables.now →
        held_in names held.entry ≡ Some message → result ≡ record {
          shape = shape.Place
              (place_of_member (message_slot names message) (member_named (signals_of message) name.now));
          sort = sort_of_member (member_named (signals_of message) name.now);
        } }
{
    let member = member_named(signals_of(held), name);
    let place = place_of_member(message_slot(tables, held), member);
    Walked {
        shape: Shape::Place(place),
        sort: sort_of_member(member),
    }
}

/// Payload bytes of a message as a number of a kind.
pub(crate) fn payload(tables: &TreeTables, held: Held, kind: Kind, index: Part) -> Walked
    ensures { (names : Names) (message : meant.Held) → AreTreeTables names tables.now →
        held_in names held.entry ≡ Some message → result ≡ record {
          shape = shape.Place (Some (Bytes (message_slot names message) kind index.tree));
          sort = number_from index.sort kind;
        } }
{
    let sort = number_from(index.sort, kind);
    let place = Place::Bytes {
        msg: message_slot(tables, held),
        kind,
        index: index.tree,
    };
    Walked {
        shape: Shape::Place(Some(place)),
        sort,
    }
}
