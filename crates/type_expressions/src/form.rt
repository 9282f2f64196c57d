// What forms of expressions are, by what their parts are.

ghost use Rattle.std.specs.Prelude.{◌≡◌, pos, IfOk, None};
ghost use Rattle.std.specs.Option.{option_map_or};
ghost use Rattle.int_kinds.specs.declared.kinds.Kind.TheVariants as kind;
ghost use Rattle.int_kinds.specs.Kind.{join};
ghost use Rattle.typed_tree.specs.declared.expression.TExpr.TheVariants.{Const};
ghost use Rattle.typed_tree.specs.Forms.{Cond, Convert};
ghost use Rattle.capl_meaning.specs.declared.sort.Sort.TheVariants as sort;
ghost use Rattle.capl_meaning.specs.Variable.{identifier};
ghost use Rattle.capl_meaning.specs.Sort.{kind_in, number_from, sort_of_assignment, sort_of_binary, sort_of_choice, sort_of_number, sort_of_prefix, sort_of_step, sort_of_this, working_kind};
ghost use Rattle.typed_source.specs.Expression.{assigned, of_this, operation, stepping};
ghost use Rattle.check_sorts.specs.Scope.{scope_in};
ghost use Rattle.type_expressions.specs.declared.made.Shape.TheVariants as shape;
ghost use Rattle.type_expressions.specs.Made.{assigning, place_in, prefix_tree, value_in};

use crate::made::{Part, Shape, Walked, make_part, place_in};
use crate::tree::{converted, operation, prefixed, stepping, storing, updating};
use capl_meaning::Sort;
use check_sorts::{
    Scope, ThisForm, kind_in, number_from, sort_of_assignment, sort_of_binary, sort_of_choice,
    sort_of_number, sort_of_prefix, sort_of_step, sort_of_this, working_kind,
};
use int_kinds::{BinOp, Kind, UnOp, join};
use items::Boxed;
use std::alloc::Global;
use texts::NoMemory;
use typed_tree::{Place, TExpr};

/// The value of a number in the source.
fn number_value(value: Option<u64>, extended: bool) -> i128
    ensures { result ≡ option_map_or (λ n. pos (identifier n extended)) value (pos 0) }
{
    match value {
        None => 0,
        Some(n) if extended => (1i128 << 31) + i128::from(n),
        Some(n) => i128::from(n),
    }
}

/// A number in the source.
pub(crate) fn number(value: Option<u64>, extended: bool) -> Walked
    ensures { result ≡ record {
      shape = shape.Value (Const (option_map_or (λ n. pos (identifier n extended)) value (pos 0)));
      sort = sort_of_number value extended;
    } }
{
    Walked {
        shape: Shape::Value(TExpr::Const(number_value(value, extended))),
        sort: sort_of_number(value, extended),
    }
}

/// A character.
pub(crate) fn character(value: u8) -> Walked
    ensures { result ≡ record { shape = shape.Value (Const (pos value)); sort = sort.Number kind.Char } }
{
    Walked {
        shape: Shape::Value(TExpr::Const(i128::from(value))),
        sort: Sort::Number(Kind::Char),
    }
}

/// A text, which has no number.
pub(crate) fn text() -> Walked
    ensures { result ≡ record { shape = shape.Value (Const (pos 0)); sort = sort.Text } }
{
    Walked {
        shape: Shape::Value(TExpr::Const(0)),
        sort: Sort::Text,
    }
}

/// `this`: the key of a key procedure, which is in cell 14.
pub(crate) fn this_word(scope: Scope) -> Walked
    ensures { let s = scope_in scope.entry in
        result ≡ record { shape = shape.Value (of_this s.this); sort = sort_of_this s.this } }
{
    let tree = match scope.this {
        ThisForm::Key => TExpr::Load(Place::Cell { slot: 14 }),
        ThisForm::NoThis | ThisForm::Frame(_) => TExpr::Const(0),
    };
    Walked {
        shape: Shape::Value(tree),
        sort: sort_of_this(scope.this),
    }
}

/// A member of what is no message.
pub(crate) fn no_member() -> Walked
    ensures { result ≡ record { shape = shape.Place None; sort = sort.Bad } }
{
    Walked {
        shape: Shape::Place(None),
        sort: Sort::Bad,
    }
}

/// A cast to a kind.
pub(crate) fn cast(kind: Kind, inner: Part) -> Walked
    ensures { result ≡ record {
      shape = shape.Value (Convert kind inner.tree);
      sort = number_from inner.sort kind;
    } }
{
    let sort = number_from(inner.sort, kind);
    Walked {
        shape: Shape::Value(converted(kind, inner.tree)),
        sort,
    }
}

/// A place that can be assigned to.
fn assigned(is_place: bool, shape: Shape) -> Option<Place>
    ensures { result ≡ assigned is_place (place_in shape) }
{
    if is_place { place_in(shape) } else { None }
}

/// `++` or `--`, before or behind what is an assignable place of a number or not.
pub(crate) fn step(
    alloc: Global,
    up: bool,
    post: bool,
    is_place: bool,
    inner: Walked,
) -> Result<Walked, NoMemory>
    ensures { IfOk result (λ walked. walked ≡ record {
      shape =
          shape.Value (stepping (kind_in inner.sort) up post (assigned is_place (place_in inner.shape)));
      sort = sort_of_step is_place inner.sort;
    }) }
{
    let Walked { shape, sort } = inner;
    let tree = stepping(alloc, kind_in(sort), up, post, assigned(is_place, shape))?;
    Ok(Walked {
        shape: Shape::Value(tree),
        sort: sort_of_step(is_place, sort),
    })
}

/// A prefix operator, before what is an assignable place of a number or not.
pub(crate) fn prefix(
    alloc: Global,
    op: UnOp,
    is_place: bool,
    inner: Walked,
) -> Result<Walked, NoMemory>
    ensures { IfOk result (λ walked. walked ≡ record {
      shape = shape.Value (prefix_tree op inner.sort (assigned is_place (place_in inner.shape))
          (value_in inner.shape));
      sort = sort_of_prefix op is_place inner.sort;
    }) }
{
    match op {
        UnOp::Up => step(alloc, true, false, is_place, inner),
        UnOp::Down => step(alloc, false, false, is_place, inner),
        UnOp::Minus | UnOp::Plus | UnOp::Not | UnOp::Inv => {
            let inner = make_part(alloc, inner)?;
            let kind = join(kind_in(inner.sort), kind_in(inner.sort));
            let sort = sort_of_prefix(op, is_place, inner.sort);
            Ok(Walked {
                shape: Shape::Value(prefixed(op, kind, inner.tree)),
                sort,
            })
        }
    }
}

/// A binary operator.
pub(crate) fn binary(op: BinOp, left: Part, right: Part) -> Walked
    ensures { result ≡ record {
      shape = shape.Value
          (operation op (working_kind op (kind_in left.sort) (kind_in right.sort)) left.tree right.tree);
      sort = sort_of_binary op left.sort right.sort;
    } }
{
    let kind = working_kind(op, kind_in(left.sort), kind_in(right.sort));
    let sort = sort_of_binary(op, left.sort, right.sort);
    Walked {
        shape: Shape::Value(operation(op, kind, left.tree, right.tree)),
        sort,
    }
}

/// The branches of a `?:`.
#[derive(Drop)]
pub(crate) struct Branches {
    /// The first, converted to the kind of both.
    yes: Boxed<TExpr>,
    /// The other, converted to it too.
    no: Boxed<TExpr>,
    /// Of which sort the first is.
    yes_sort: Sort,
    /// Of which sort the other is.
    no_sort: Sort,
}

/// The branches of a `?:`, of what each is.
pub(crate) fn choose(alloc: Global, yes: Part, no: Part) -> Result<Branches, NoMemory>
    ensures { let kind = join (kind_in yes.sort) (kind_in no.sort) in IfOk result (λ made. made ≡ record {
      yes = Convert kind yes.tree;
      no = Convert kind no.tree;
      yes_sort = yes.sort;
      no_sort = no.sort;
    }) }
{
    let kind = join(kind_in(yes.sort), kind_in(no.sort));
    let yes_sort = yes.sort;
    let no_sort = no.sort;
    let yes = Boxed::new(alloc, converted(kind, yes.tree))?;
    let no = Boxed::new(alloc, converted(kind, no.tree))?;
    Ok(Branches {
        yes,
        no,
        yes_sort,
        no_sort,
    })
}

/// `?:`
pub(crate) fn choice(test: Part, branches: Branches) -> Walked
    ensures { result ≡ record {
      shape = shape.Value (Cond test.tree branches.yes branches.no);
      sort = sort_of_choice test.sort branches.yes_sort branches.no_sort;
    } }
{
    let sort = sort_of_choice(test.sort, branches.yes_sort, branches.no_sort);
    let tree = TExpr::Cond {
        test: test.tree,
        yes: branches.yes,
        no: branches.no,
    };
    Walked {
        shape: Shape::Value(tree),
        sort,
    }
}

/// An assignment, to what is an assignable place of a number or not, and a message variable or not.
pub(crate) fn assign(
    alloc: Global,
    op: Option<BinOp>,
    is_place: bool,
    is_message: bool,
    left: Walked,
    right: Part,
) -> Result<Walked, NoMemory>
    ensures { IfOk result (λ walked. walked ≡ record {
      shape = shape.Value
          (assigning op left.sort right.sort (assigned is_place (place_in left.shape)) right.tree);
      sort = sort_of_assignment op is_place is_message left.sort right.sort;
    }) }
{
    let sort = sort_of_assignment(op, is_place, is_message, left.sort, right.sort);
    let left_kind = kind_in(left.sort);
    let right_kind = kind_in(right.sort);
    let place = assigned(is_place, left.shape);
    match op {
        None => Ok(Walked {
            shape: Shape::Value(storing(place, right.tree)),
            sort,
        }),
        Some(op) => {
            let kind = working_kind(op, left_kind, right_kind);
            let tree = updating(alloc, op, kind, place, right.tree)?;
            Ok(Walked {
                shape: Shape::Value(tree),
                sort,
            })
        }
    }
}
