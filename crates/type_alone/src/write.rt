// Writes.

ghost use Rattle.std.specs.Prelude.{◌≡◌, ◌<◌, ◌^◌, List, [], ◌∷◌, ◌++◌, IfOk, OnOk, length, map};
ghost use Rattle.capl_tree.specs.declared.expr.Expr.{Expr};
ghost use Rattle.capl_meaning.specs.Format.{quoted_text};
ghost use Rattle.capl_meaning.specs.Message.{array_in};
ghost use Rattle.capl_meaning.specs.Names as meant;
ghost use Rattle.capl_meaning.specs.Sort.{sort_of};
ghost use Rattle.typed_source.specs.Statement.{argument_by, argument_of, formats_written, numbers_of, pieces_written, text_argument, text_written, writing};
ghost use Rattle.typed_tree.specs.declared.statement.TStmt.TheVariants.{Write};
ghost use Rattle.check_sorts.specs.Scope.{scope_in};
ghost use Rattle.type_alone.specs.Tables.{AreTables, order_of};
ghost use Rattle.type_alone.specs.Write.{AreMadeOf, FitFor, IsRead, format_written};

use crate::tables::StatementTables;
use capl_meaning::Sort;
use capl_tree::Expr;
use check_sorts::{Scope, is_number, shows_all, text_in};
use items::Items;
use std::alloc::Global;
use texts::{NoMemory, Text};
use type_expressions::{Made, make_expression};
use typed_tree::{TExpr, TStmt};
use write_format::laws::pieces_are_found;
use write_format::{ArgKind, Format, FormatRefusal};

/// What is made of the arguments of a `write`.
#[derive(Drop)]
struct Arguments {
    /// What each is for the format.
    kinds: Vec<ArgKind>,
    /// Their sorts.
    sorts: Vec<Sort>,
    /// The typed trees of those that are numbers.
    numbers: Vec<TExpr>,
}

/// An argument that is no number: a text, or the cells of an array.
fn text_argument(
    alloc: Global,
    scope: Scope,
    tables: &StatementTables,
    e: &Expr,
) -> Result<ArgKind, NoMemory>
    requires { AreTables scope.names.now tables.now }
    ensures { let s = scope_in scope.entry in
        IfOk result (λ kind. kind ≡ text_argument s.names (quoted_text e.now) (array_in s e.now)) }
{
    if let Some(bytes) = text_in(e) {
        let text = Text::make(alloc, bytes)?;
        return Ok(ArgKind::Str(text));
    }
    match scope.array_in(e) {
        Some(number) => Ok(ArgKind::Chars {
            base: tables.trees.layout.slot(number),
            len: tables.trees.layout.elements(number),
        }),
        None => {
            let text = Text::make(alloc, b"")?;
            Ok(ArgKind::Str(text))
        }
    }
}

/// An argument of a sort.
fn argument(
    alloc: Global,
    scope: Scope,
    tables: &StatementTables,
    e: &Expr,
    sort: Sort,
) -> Result<ArgKind, NoMemory>
    requires { AreTables scope.names.now tables.now }
    ensures { let s = scope_in scope.entry in IfOk result (λ kind.
        kind ≡ argument_by sort (text_argument s.names (quoted_text e.now) (array_in s e.now))) }
{
    match sort {
        Sort::Number(kind) => Ok(ArgKind::Number(kind)),
        _ => text_argument(alloc, scope, tables, e),
    }
}

/// Appends the tree of an argument that is a number, and gives the sort of any argument.
fn push_number(
    alloc: Global,
    scope: Scope,
    tables: &StatementTables,
    e: &Expr,
    into: &mut Vec<TExpr>,
) -> Result<Sort, NoMemory>
    requires { AreTables scope.names.now tables.now }
    ensures sort { IfOk result (λ sort. sort ≡ sort_of (scope_in scope.entry) e.now) }
    ensures numbers { OnOk result (into.new.items
        ≡ into.old.items ++ numbers_of (scope_in scope.entry) (order_of tables.now) (e.now ∷ [])) }
{
    let Made { tree, sort } = make_expression(alloc, scope, &tables.trees, e)?;
    if !is_number(sort) {
        return Ok(sort);
    }
    into.push(tree)?;
    Ok(sort)
}

/// Appends what is made of an argument.
fn add_argument(
    alloc: Global,
    scope: Scope,
    tables: &StatementTables,
    e: &Expr,
    into: &mut Arguments,
) -> Result<(), NoMemory>
    requires { AreTables scope.names.now tables.now }
    ensures kinds { let s = scope_in scope.entry in OnOk result
        (into.new.kinds.items ≡ into.old.kinds.items ++ argument_of s e.now ∷ []) }
    ensures sorts { OnOk result
        (into.new.sorts.items ≡ into.old.sorts.items ++ sort_of (scope_in scope.entry) e.now ∷ []) }
    ensures numbers { OnOk result (into.new.numbers.items ≡ into.old.numbers.items
        ++ numbers_of (scope_in scope.entry) (order_of tables.now) (e.now ∷ [])) }
{
    let sort = push_number(alloc, scope, tables, e, &mut into.numbers)?;
    into.sorts.push(sort)?;
    let kind = argument(alloc, scope, tables, e, sort)?;
    into.kinds.push(kind)?;
    Ok(())
}

/// What is made of arguments.
fn make_arguments(
    alloc: Global,
    scope: Scope,
    tables: &StatementTables,
    all: &[Expr],
) -> Result<Arguments, NoMemory>
    requires { AreTables scope.names.now tables.now }
    ensures kinds { IfOk result (λ made.
        made.kinds.items ≡ map (argument_of (scope_in scope.entry)) all.now) }
    ensures sorts { IfOk result (λ made. made.sorts.items ≡ map (sort_of (scope_in scope.entry)) all.now) }
    ensures numbers { IfOk result (λ made.
        made.numbers.items ≡ numbers_of (scope_in scope.entry) (order_of tables.now) all.now) }
{
    let mut made = Arguments {
        kinds: Vec::new(alloc),
        sorts: Vec::new(alloc),
        numbers: Vec::new(alloc),
    };
    for e in all {
        add_argument(alloc, scope, tables, e, &mut made)?;
    }
    Ok(made)
}

/// The format of a text that fits these arguments.
fn read_format(alloc: Global, text: &[u8], kinds: &[ArgKind]) -> Result<Format, NoMemory>
    requires { FitFor text.now kinds.now }
    ensures { IfOk result (IsRead text.now kinds.now) }
{
    pieces_are_found();
    match Format::read(alloc, text, kinds) {
        Ok(format) => Ok(format),
        // Each argument has its code, which shows it.
        Err(FormatRefusal::Wrong { .. }) => unreachable!(),
        Err(FormatRefusal::NoMemory) => Err(NoMemory),
    }
}

/// The format of a `write` of such arguments, if it has one that fits.
fn shown_format(
    alloc: Global,
    format: &Expr,
    kinds: &[ArgKind],
    sorts: &[Sort],
) -> Result<Option<Format>, NoMemory>
    requires { (s : meant.Scope) × (all : List Expr) × AreMadeOf s all kinds.now sorts.now }
    ensures { (s : meant.Scope) (all : List Expr) → AreMadeOf s all kinds.now sorts.now →
        IfOk result (λ found. found ≡ format_written s format.now all) }
{
    let Some(text) = text_in(format) else {
        return Ok(None);
    };
    if !shows_all(text, sorts) {
        return Ok(None);
    }
    let read = read_format(alloc, text, kinds)?;
    Ok(Some(read))
}

/// The trees of the numbers alone.
fn numbers_in(made: Arguments) -> Vec<TExpr>
    ensures { result.items ≡ made.numbers.items }
{
    let Arguments { numbers, .. } = made;
    numbers
}

/// Appends the format of a `write`, and makes its tree of the trees of its numbers.
fn push_write(
    formats: &mut Vec<Format>,
    format: Format,
    numbers: Vec<TExpr>,
) -> Result<TStmt, NoMemory>
    requires { length formats.old.items < 2 ^ 32 }
    ensures tree { IfOk result (λ tree. tree ≡ Write (length formats.old.items) numbers.items) }
    ensures formats { OnOk result (formats.new.items ≡ formats.old.items ++ format ∷ []) }
{
    let number = formats.len() as u32;
    formats.push(format)?;
    Ok(TStmt::Write {
        format: number,
        args: Items::from_list(numbers),
    })
}

/// Appends the format of a `write`, if it has one that fits, and makes its tree.
pub(crate) fn make_write(
    alloc: Global,
    scope: Scope,
    tables: &StatementTables,
    formats: &mut Vec<Format>,
    format: &Expr,
    arguments: &[Expr],
) -> Result<TStmt, NoMemory>
    requires tables { AreTables scope.names.now tables.now }
    requires room { let s = scope_in scope in length (formats.old.items
        ++ formats_written s (text_written format.now)
        (pieces_written s format.now arguments.now) arguments.now) < 2 ^ 32 }
    ensures tree { let s = scope_in scope.entry in IfOk result (λ tree.
        tree ≡ writing s (order_of tables.now) (length formats.old.items)
        (pieces_written s format.now arguments.now) arguments.now) }
    ensures formats { let s = scope_in scope.entry in OnOk result (formats.new.items ≡ formats.old.items
        ++ formats_written s (text_written format.now)
        (pieces_written s format.now arguments.now) arguments.now) }
{
    let made = make_arguments(alloc, scope, tables, arguments)?;
    let read = shown_format(alloc, format, made.kinds.as_slice(), made.sorts.as_slice())?;
    match read {
        None => Ok(TStmt::Empty),
        Some(format) => push_write(formats, format, numbers_in(made)),
    }
}
