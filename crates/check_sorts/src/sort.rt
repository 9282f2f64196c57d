// Of which sort an expression is, from the sorts of its parts.

ghost use Rattle.std.specs.Prelude.{◌≡◌, ◌-◌, ◌^◌, None, neg_ℤ, pos};
ghost use Rattle.capl_meaning.specs.Message.{first_kind, kind_of_field, kind_of_signal};
ghost use Rattle.capl_meaning.specs.Names.{means};
ghost use Rattle.capl_meaning.specs.Sort.{given_kind, is_bad, is_number, kind_in, number_from, sort_given, sort_of_assignment, sort_of_binary, sort_of_choice, sort_of_direction, sort_of_element, sort_of_form, sort_of_member, sort_of_name, sort_of_number, sort_of_prefix, sort_of_step, sort_of_this, working_kind};
ghost use Rattle.check_sorts.specs.Form.{form_in};
ghost use Rattle.check_sorts.specs.Message.{member_in};
ghost use Rattle.check_sorts.specs.Scope.{scope_in, this_in};

use crate::form::Form;
use crate::message::Member;
use crate::scope::{Scope, ThisForm};
use crate::words::direction;
use capl_meaning::{MessageField, Sort};
use int_kinds::{BinOp, Kind, UnOp, join};
use signal_codec::Layout;

/// Whether a sort is a number.
pub fn is_number(sort: Sort) -> bool
    ensures { result ≡ is_number sort }
{
    matches!(sort, Sort::Number(_))
}

/// Whether a sort is bad.
pub fn is_bad(sort: Sort) -> bool
    ensures { result ≡ is_bad sort }
{
    matches!(sort, Sort::Bad)
}

/// The kind of a number; long for an expression of another sort, which has none.
pub fn kind_in(sort: Sort) -> Kind
    ensures { result ≡ kind_in sort }
{
    match sort {
        Sort::Number(kind) => kind,
        _ => Kind::Long,
    }
}

/// The first of long, dword, int64, qword that has a number.
fn kind_of_number(n: u64) -> Kind
    ensures { result ≡ first_kind (pos n) (pos n) }
{
    if n < 1 << 31 {
        Kind::Long
    } else if n < 1 << 32 {
        Kind::Dword
    } else if n < 1 << 63 {
        Kind::Int64
    } else {
        Kind::Qword
    }
}

/// A number in the source.
pub fn sort_of_number(value: Option<u64>, extended: bool) -> Sort
    ensures { result ≡ sort_of_number value extended }
{
    match value {
        None => Sort::Bad,
        Some(n) if !extended => Sort::Number(kind_of_number(n)),
        Some(n) if n <= 0x1FFF_FFFF => Sort::Number(Kind::Dword),
        Some(_) => Sort::Bad,
    }
}

/// `this`.
pub fn sort_of_this(this: ThisForm) -> Sort
    ensures { result ≡ sort_of_this (this_in this.entry) }
{
    match this {
        ThisForm::NoThis => Sort::Bad,
        ThisForm::Frame(_) => Sort::Message,
        ThisForm::Key => Sort::Number(Kind::Char),
    }
}

/// A variable.
pub fn sort_of_form(form: Form) -> Sort
    ensures { result ≡ sort_of_form (form_in form.entry) }
{
    match form {
        Form::Number { kind, .. } => Sort::Number(kind),
        Form::Array { kind, .. } => Sort::Array(kind),
        Form::Message(_) => Sort::Message,
        Form::Timer(_) => Sort::Timer,
        Form::Misfit => Sort::Bad,
    }
}

/// A name that is that of no variable.
fn sort_of_word(name: &[u8]) -> Sort
    ensures { result ≡ sort_of_name name.now None }
{
    match direction(name) {
        None => Sort::Bad,
        Some(_) => Sort::Number(Kind::Long),
    }
}

impl<'a, 'p> Scope<'a, 'p> {
    /// A name at a token, by what it means there.
    pub fn sort_of_name(&self, name: &[u8], token: u32) -> Sort
        ensures { result ≡ sort_of_name name.now (means (scope_in self.now) name.now token) }
    {
        match self.meaning(name, token) {
            None => sort_of_word(name),
            Some(meaning) => sort_of_form(meaning.form),
        }
    }
}

/// An element of an array.
pub fn sort_of_element(base: Sort, index: Sort) -> Sort
    ensures { result ≡ sort_of_element base index }
{
    match (base, index) {
        (Sort::Array(kind), Sort::Number(_)) => Sort::Number(kind),
        _ => Sort::Bad,
    }
}

/// A number of a kind where a number stands.
pub fn number_from(sort: Sort, kind: Kind) -> Sort
    ensures { result ≡ number_from sort kind }
{
    match sort {
        Sort::Number(_) => Sort::Number(kind),
        _ => Sort::Bad,
    }
}

/// The kind in which a binary operator works: the join of both kinds, and for a shift that of the left
/// with itself.
pub fn working_kind(op: BinOp, left: Kind, right: Kind) -> Kind
    ensures { result ≡ working_kind op left right }
{
    match op {
        BinOp::Shl | BinOp::Shr => join(left, left),
        _ => join(left, right),
    }
}

/// The kind of what a binary operator gives: long of comparisons, `&&` and `||`, else the kind in which
/// it works.
pub fn given_kind(op: BinOp, left: Kind, right: Kind) -> Kind
    ensures { result ≡ given_kind op left right }
{
    match op {
        BinOp::OrElse
        | BinOp::AndAlso
        | BinOp::Equal
        | BinOp::NotEqual
        | BinOp::Less
        | BinOp::LessEqual
        | BinOp::Greater
        | BinOp::GreaterEqual => Kind::Long,
        _ => working_kind(op, left, right),
    }
}

/// A binary operator.
pub fn sort_of_binary(op: BinOp, left: Sort, right: Sort) -> Sort
    ensures { result ≡ sort_of_binary op left right }
{
    match (left, right) {
        (Sort::Number(left), Sort::Number(right)) => Sort::Number(given_kind(op, left, right)),
        _ => Sort::Bad,
    }
}

/// `++` or `--` of what is a place of a number or not.
pub fn sort_of_step(is_place: bool, place: Sort) -> Sort
    ensures { result ≡ sort_of_step is_place place }
{
    if is_place { place } else { Sort::Bad }
}

/// A prefix operator; `is_place` says whether the operand is a place of a number.
pub fn sort_of_prefix(op: UnOp, is_place: bool, operand: Sort) -> Sort
    ensures { result ≡ sort_of_prefix op is_place operand }
{
    match op {
        UnOp::Up | UnOp::Down => sort_of_step(is_place, operand),
        UnOp::Not => number_from(operand, Kind::Long),
        UnOp::Minus | UnOp::Plus | UnOp::Inv => {
            let kind = kind_in(operand);
            number_from(operand, join(kind, kind))
        }
    }
}

/// `?:`.
pub fn sort_of_choice(test: Sort, yes: Sort, no: Sort) -> Sort
    ensures { result ≡ sort_of_choice test yes no }
{
    match (test, yes, no) {
        (Sort::Number(_), Sort::Number(yes), Sort::Number(no)) => Sort::Number(join(yes, no)),
        _ => Sort::Bad,
    }
}

/// An assignment, to what is a place of a number or not, and a message variable or not.
pub fn sort_of_assignment(
    op: Option<BinOp>,
    is_place: bool,
    is_message: bool,
    left: Sort,
    right: Sort,
) -> Sort
    ensures { result ≡ sort_of_assignment op is_place is_message left right }
{
    match (left, right) {
        (Sort::Message, Sort::Message) if op.is_none() && is_message => Sort::Nothing,
        (Sort::Number(kind), Sort::Number(_)) if is_place => Sort::Number(kind),
        _ => Sort::Bad,
    }
}

/// The kind of a field.
pub fn kind_of_field(field: MessageField) -> Kind
    ensures { result ≡ kind_of_field field }
{
    match field {
        MessageField::Id | MessageField::Time => Kind::Dword,
        MessageField::Dlc | MessageField::Rtr | MessageField::Dir => Kind::Byte,
        MessageField::Can => Kind::Word,
    }
}

/// The first of long, dword, int64, qword that has all numbers of so many bits.
fn kind_of_natural(bits: u16) -> Kind
    ensures { result ≡ first_kind (pos 0) (pos (2 ^ bits - 1)) }
{
    if bits < 32 {
        Kind::Long
    } else if bits == 32 {
        Kind::Dword
    } else if bits < 64 {
        Kind::Int64
    } else {
        Kind::Qword
    }
}

/// The same of numbers in two's complement.
fn kind_of_integer(bits: u16) -> Kind
    ensures { result ≡ first_kind (neg_ℤ (pos (2 ^ (bits - 1)))) (pos (2 ^ (bits - 1) - 1)) }
{
    if bits < 33 {
        Kind::Long
    } else if bits < 65 {
        Kind::Int64
    } else {
        Kind::Qword
    }
}

/// The kind of a signal: the first of long, dword, int64, qword that has all its numbers.
pub fn kind_of_signal(layout: Layout) -> Kind
    ensures { result ≡ kind_of_signal layout }
{
    if layout.signed {
        kind_of_integer(layout.len)
    } else {
        kind_of_natural(layout.len)
    }
}

/// A member of a message.
pub fn sort_of_member(member: Member) -> Sort
    ensures { result ≡ sort_of_member (member_in member) }
{
    match member {
        Member::Field(field) => Sort::Number(kind_of_field(field)),
        Member::Signal(layout) => Sort::Number(kind_of_signal(layout)),
        Member::Unusable | Member::Unknown { .. } => Sort::Bad,
    }
}

/// What a function gives: a number of its kind, or nothing.
pub fn sort_given(gives: Option<Kind>) -> Sort
    ensures { result ≡ sort_given gives }
{
    match gives {
        None => Sort::Nothing,
        Some(kind) => Sort::Number(kind),
    }
}
