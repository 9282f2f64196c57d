// Trees as text: each part as `(FORM@PLACE PART ..)`, or `FORM@PLACE` where it has no parts.

use capl_tree::{
    Arm, Decl, DeclType, Declr, Expr, Field, FileTree, Group, Head, Init, Item, Label, Param, Proc,
    Sel, SelWhat, Stmt, TopItem,
};
use int_kinds::BinOp;
use items::Boxed;
use std::test::Fail;
use texts::Text;

/// A text of ASCII.
fn show_text(out: &mut String, text: &Text) -> Result<(), Fail> {
    out.push_str(str::from_utf8(text.bytes()).unwrap_or("?"))?;
    Ok(())
}

/// An expression, behind a blank.
#[cycle(expression)]
fn show_part(out: &mut String, e: &Expr) -> Result<(), Fail> {
    out.push_str(" ")?;
    show(out, e)
}

/// The last part of an expression.
#[cycle(expression)]
fn show_last(out: &mut String, e: &Boxed<Expr>) -> Result<(), Fail> {
    show_part(out, e.get())?;
    out.push_str(")")?;
    Ok(())
}

/// An expression that has no others in it, or another form of them.
#[cycle(expression)]
fn show(out: &mut String, e: &Expr) -> Result<(), Fail> {
    match e {
        Expr::Num { value, ext, at } => {
            match value {
                Some(value) => write!(out, "{value}")?,
                None => out.push_str("large")?,
            }
            let mark = if *ext { "x" } else { "" };
            write!(out, "{mark}@{at}")?;
            Ok(())
        }
        Expr::Char { value, at } => {
            write!(out, "Char{value}@{at}")?;
            Ok(())
        }
        Expr::Str { text, at } => {
            out.push_str("\"")?;
            show_text(out, text)?;
            write!(out, "\"@{at}")?;
            Ok(())
        }
        Expr::This { at } => {
            write!(out, "this@{at}")?;
            Ok(())
        }
        Expr::Name { name, at } => {
            show_text(out, name)?;
            write!(out, "@{at}")?;
            Ok(())
        }
        _ => show_form(out, e),
    }
}

/// An expression that has others in it.
#[cycle(expression)]
fn show_form(out: &mut String, e: &Expr) -> Result<(), Fail> {
    match e {
        Expr::Paren { inner, at } => {
            write!(out, "(Paren@{at}")?;
            show_last(out, inner)
        }
        Expr::Call { name, args, at } => {
            write!(out, "(Call@{at} ")?;
            show_text(out, name)?;
            for arg in args.as_slice() {
                show_part(out, arg)?;
            }
            out.push_str(")")?;
            Ok(())
        }
        Expr::Index { base, index, at } => {
            write!(out, "(Index@{at}")?;
            show_part(out, base.get())?;
            show_last(out, index)
        }
        Expr::Member { base, field, at } => {
            write!(out, "(Member@{at}")?;
            show_part(out, base.get())?;
            show_field(out, field)?;
            out.push_str(")")?;
            Ok(())
        }
        _ => show_operation(out, e),
    }
}

/// An expression with an operator.
#[cycle(expression)]
fn show_operation(out: &mut String, e: &Expr) -> Result<(), Fail> {
    match e {
        Expr::Cast { kind, inner, at } => {
            write!(out, "(Cast@{at} {kind:?}")?;
            show_last(out, inner)
        }
        Expr::Unary { op, inner, at } => {
            write!(out, "({op:?}@{at}")?;
            show_last(out, inner)
        }
        Expr::Post { up, inner, at } => {
            let form = if *up { "PostUp" } else { "PostDown" };
            write!(out, "({form}@{at}")?;
            show_last(out, inner)
        }
        Expr::Binary {
            op,
            left,
            right,
            at,
        } => {
            write!(out, "({op:?}@{at}")?;
            show_part(out, left.get())?;
            show_last(out, right)
        }
        Expr::Cond { test, yes, no, at } => {
            write!(out, "(Cond@{at}")?;
            show_part(out, test.get())?;
            show_part(out, yes.get())?;
            show_last(out, no)
        }
        Expr::Assign {
            op,
            left,
            right,
            at,
        } => {
            show_assignment(out, op, *at)?;
            show_part(out, left.get())?;
            show_last(out, right)
        }
        _ => Ok(()),
    }
}

/// The sign of an assignment.
fn show_assignment(out: &mut String, op: &Option<BinOp>, at: u32) -> Result<(), Fail> {
    match op {
        Some(op) => write!(out, "(Assign{op:?}@{at}")?,
        None => write!(out, "(Assign@{at}")?,
    }
    Ok(())
}

/// A field, behind a blank.
#[cycle(expression)]
fn show_field(out: &mut String, field: &Field) -> Result<(), Fail> {
    match field {
        Field::Named { name, at } => {
            out.push_str(" ")?;
            show_text(out, name)?;
            write!(out, "@{at}")?;
            Ok(())
        }
        Field::Bytes { kind, index, at } => {
            write!(out, " ({kind:?}@{at}")?;
            show_last(out, index)
        }
    }
}

/// An expression that may be missing, behind a blank.
fn show_maybe(out: &mut String, e: &Option<Expr>) -> Result<(), Fail> {
    match e {
        Some(e) => show_part(out, e),
        None => {
            out.push_str(" -")?;
            Ok(())
        }
    }
}

/// A boxed expression that may be missing, behind a blank.
fn show_boxed(out: &mut String, e: &Option<Boxed<Expr>>) -> Result<(), Fail> {
    match e {
        Some(e) => show_part(out, e.get()),
        None => {
            out.push_str(" -")?;
            Ok(())
        }
    }
}

/// The type of a declaration.
fn show_type(out: &mut String, what: &DeclType) -> Result<(), Fail> {
    match what {
        DeclType::Number { kind, fixed } => {
            let mark = if *fixed { "const " } else { "" };
            write!(out, " {mark}{kind:?}")?;
        }
        DeclType::Any => out.push_str(" message*")?,
        DeclType::ById { value, ext, at } => {
            let mark = if *ext { "x" } else { "" };
            write!(out, " message{}{mark}@{at}", value.unwrap_or(0))?;
        }
        DeclType::ByName { name, at } => {
            out.push_str(" message ")?;
            show_text(out, name)?;
            write!(out, "@{at}")?;
        }
        DeclType::Seconds => out.push_str(" timer")?,
        DeclType::Millis => out.push_str(" msTimer")?,
    }
    Ok(())
}

/// An item between the braces of an initialiser.
fn show_item(out: &mut String, item: &Item) -> Result<(), Fail> {
    match item {
        Item::Plain(value) => show_part(out, value),
        Item::Set { field, value } => {
            out.push_str(" (Set")?;
            show_field(out, field)?;
            show_part(out, value)?;
            out.push_str(")")?;
            Ok(())
        }
    }
}

/// What a variable is given at first.
fn show_init(out: &mut String, init: &Init) -> Result<(), Fail> {
    match init {
        Init::One(value) => show_part(out, value),
        Init::Many { items, at } => {
            write!(out, " (Many@{at}")?;
            for item in items.as_slice() {
                show_item(out, item)?;
            }
            out.push_str(")")?;
            Ok(())
        }
    }
}

/// A declared variable.
fn show_declared(out: &mut String, declared: &Declr) -> Result<(), Fail> {
    out.push_str(" (")?;
    show_text(out, &declared.name)?;
    write!(out, "@{}", declared.at)?;
    show_boxed(out, &declared.size)?;
    if let Some(init) = &declared.init {
        show_init(out, init.get())?;
    }
    out.push_str(")")?;
    Ok(())
}

/// A declaration, behind a blank.
fn show_declaration(out: &mut String, declaration: &Decl) -> Result<(), Fail> {
    write!(out, " (Decl@{}", declaration.at)?;
    show_type(out, &declaration.what)?;
    for declared in declaration.items.as_slice() {
        show_declared(out, declared)?;
    }
    out.push_str(")")?;
    Ok(())
}

/// Statements, and a closing parenthesis.
#[cycle(statement)]
fn show_body(out: &mut String, body: &[Stmt]) -> Result<(), Fail> {
    for statement in body {
        show_statement(out, statement)?;
    }
    out.push_str(")")?;
    Ok(())
}

/// A statement, behind a blank.
#[cycle(statement)]
fn show_statement(out: &mut String, statement: &Stmt) -> Result<(), Fail> {
    match statement {
        Stmt::Empty => out.push_str(" Empty")?,
        Stmt::Decl(declaration) => show_declaration(out, declaration)?,
        Stmt::Expr(e) => {
            out.push_str(" (Expr")?;
            show_part(out, e)?;
            out.push_str(")")?;
        }
        Stmt::Break { at } => write!(out, " Break@{at}")?,
        Stmt::Continue { at } => write!(out, " Continue@{at}")?,
        Stmt::Return { value, at } => {
            write!(out, " (Return@{at}")?;
            show_boxed(out, value)?;
            out.push_str(")")?;
        }
        Stmt::Block(body) => {
            out.push_str(" (Block")?;
            show_body(out, body.as_slice())?;
        }
        _ => show_compound(out, statement)?,
    }
    Ok(())
}

/// A statement with others in it, other than a block.
#[cycle(statement)]
fn show_compound(out: &mut String, statement: &Stmt) -> Result<(), Fail> {
    match statement {
        Stmt::If { arms, other } => {
            out.push_str(" (If")?;
            for arm in arms.as_slice() {
                show_arm(out, arm)?;
            }
            if let Some(other) = other {
                out.push_str(" else")?;
                show_statement(out, other.get())?;
            }
        }
        Stmt::Switch { on, groups } => {
            out.push_str(" (Switch")?;
            show_part(out, on.get())?;
            for group in groups.as_slice() {
                show_group(out, group)?;
            }
        }
        _ => show_loop(out, statement)?,
    }
    out.push_str(")")?;
    Ok(())
}

/// A loop without its closing parenthesis.
#[cycle(statement)]
fn show_loop(out: &mut String, statement: &Stmt) -> Result<(), Fail> {
    match statement {
        Stmt::While { test, body } => {
            out.push_str(" (While")?;
            show_part(out, test)?;
            show_statement(out, body.get())
        }
        Stmt::Do { body, test } => {
            out.push_str(" (Do")?;
            show_statement(out, body.get())?;
            show_part(out, test)
        }
        Stmt::For {
            init,
            test,
            step,
            body,
        } => {
            out.push_str(" (For")?;
            show_boxed(out, init)?;
            show_boxed(out, test)?;
            show_boxed(out, step)?;
            show_statement(out, body.get())
        }
        _ => Ok(()),
    }
}

/// An arm of an `if`.
#[cycle(statement)]
fn show_arm(out: &mut String, arm: &Arm) -> Result<(), Fail> {
    out.push_str(" (Arm")?;
    show_part(out, &arm.test)?;
    show_statement(out, &arm.body)?;
    out.push_str(")")?;
    Ok(())
}

/// A label of a `switch`.
fn show_label(out: &mut String, label: &Label) -> Result<(), Fail> {
    write!(out, " (Label@{}", label.at)?;
    show_maybe(out, &label.value)?;
    out.push_str(")")?;
    Ok(())
}

/// A group of a `switch`.
#[cycle(statement)]
fn show_group(out: &mut String, group: &Group) -> Result<(), Fail> {
    out.push_str(" (Group")?;
    for label in group.labels.as_slice() {
        show_label(out, label)?;
    }
    show_body(out, group.body.as_slice())
}

/// Which frames of a channel.
fn show_selection(out: &mut String, what: &SelWhat) -> Result<(), Fail> {
    match what {
        SelWhat::Any { at } => write!(out, " Any@{at}")?,
        SelWhat::Name { name, at } => {
            out.push_str(" ")?;
            show_text(out, name)?;
            write!(out, "@{at}")?;
        }
        SelWhat::Ids { low, high, at } => {
            write!(out, " (Ids@{at}")?;
            show_part(out, low)?;
            show_maybe(out, high)?;
            out.push_str(")")?;
        }
    }
    Ok(())
}

/// Which frames a procedure is for.
fn show_selector(out: &mut String, selector: &Sel) -> Result<(), Fail> {
    if selector.chan == 0 {
        return show_selection(out, &selector.what);
    }
    write!(out, " (Channel{}", selector.chan)?;
    show_selection(out, &selector.what)?;
    out.push_str(")")?;
    Ok(())
}

/// A parameter.
fn show_parameter(out: &mut String, parameter: &Param) -> Result<(), Fail> {
    write!(out, " ({:?} ", parameter.kind)?;
    show_text(out, &parameter.name)?;
    write!(out, "@{})", parameter.at)?;
    Ok(())
}

/// The head of a function.
fn show_function(out: &mut String, head: &Head) -> Result<(), Fail> {
    if let Head::Function {
        kind,
        name,
        params,
        at,
    } = head
    {
        match kind {
            Some(kind) => write!(out, " (Function@{at} {kind:?} ")?,
            None => write!(out, " (Function@{at} ")?,
        }
        show_text(out, name)?;
        for parameter in params.as_slice() {
            show_parameter(out, parameter)?;
        }
        out.push_str(")")?;
    }
    Ok(())
}

/// The head of a procedure.
fn show_head(out: &mut String, head: &Head) -> Result<(), Fail> {
    match head {
        Head::PreStart => out.push_str(" PreStart")?,
        Head::Start => out.push_str(" Start")?,
        Head::Stop => out.push_str(" Stop")?,
        Head::Message(selectors) => {
            out.push_str(" (Message")?;
            for selector in selectors.as_slice() {
                show_selector(out, selector)?;
            }
            out.push_str(")")?;
        }
        Head::Timer { name, at } => {
            out.push_str(" (Timer ")?;
            show_text(out, name)?;
            write!(out, "@{at})")?;
        }
        Head::Key { value: Some(value) } => write!(out, " (Key {value})")?,
        Head::Key { value: None } => out.push_str(" (Key *)")?,
        Head::Function { .. } => show_function(out, head)?,
    }
    Ok(())
}

/// A procedure.
fn show_procedure(out: &mut String, procedure: &Proc) -> Result<(), Fail> {
    write!(out, "(Proc@{}", procedure.at)?;
    show_head(out, &procedure.head)?;
    show_body(out, procedure.body.as_slice())
}

/// A part of a file.
fn show_top_item(out: &mut String, item: &TopItem) -> Result<(), Fail> {
    match item {
        TopItem::Includes(names) => {
            out.push_str("(Includes")?;
            for name in names.as_slice() {
                out.push_str(" ")?;
                show_text(out, name)?;
            }
            out.push_str(")")?;
        }
        TopItem::Variables(declarations) => {
            out.push_str("(Variables")?;
            for declaration in declarations.as_slice() {
                show_declaration(out, declaration)?;
            }
            out.push_str(")")?;
        }
        TopItem::Proc(procedure) => show_procedure(out, procedure)?,
    }
    Ok(())
}

/// The tree of a file.
pub(crate) fn show_file(out: &mut String, tree: &FileTree) -> Result<(), Fail> {
    for item in tree.items.as_slice() {
        show_top_item(out, item)?;
    }
    Ok(())
}
