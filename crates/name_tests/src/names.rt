// What check_names says that names mean, and noted offences.

ghost use Rattle.check_names.specs.Few.{IsFew};

use capl_meaning::{Builtin, Offence, builtin_named, is_builtin};
use capl_tree::{DeclType, Expr, Program, Sel, SelWhat};
use check_names::{Names, laws, note, note_type, push_ranges};
use dbc_reader::{Database, read};
use parser_tests::sources::program;
use run_effects::Selector;
use std::alloc::Global;
use std::process::Abort;
use std::test::Fail;
use texts::Rule;

/// A global, a function with a parameter, and a variable of its block.
static DECLARED: &str = "variables { long a; } long f(long b) { { long c; } }";

/// An offence against a rule of sources at a token of the first file.
fn offence(token: u32, number: u8) -> Offence {
    Offence {
        file: 0,
        token,
        rule: Rule {
            group: b'E',
            number,
        },
    }
}

/// Names mean what is declared before them.
fn check_meanings(rt: &impl Abort, names: &Names) {
    assert_eq!(rt; names.global(b"a"), Some(0));
    assert_eq!(rt; names.global(b"c"), None);
    assert_eq!(rt; names.function(b"f"), Some(0));
    assert_eq!(rt; names.functions().len(), 1);
    for (name, token, local, means) in [
        (b"a", 16, None, Some(0)),
        (b"b", 16, Some(1), Some(1)),
        (b"c", 15, None, None),
        (b"c", 16, Some(2), Some(2)),
    ] {
        assert_eq!(rt; names.local(1, name, token), local);
        assert_eq!(rt; names.means(1, name, token), means);
    }
}

/// Variables are in the order of their declarations.
fn check_variables(rt: &impl Abort, names: &Names) {
    assert_eq!(rt; names.variables().len(), 3);
    let wanted = [(0, 3, b'a'), (1, 10, b'b'), (1, 15, b'c')];
    for (found, (owner, token, letter)) in names.variables().iter().zip(wanted.iter()) {
        assert_eq!(rt; found.place.owner, *owner);
        assert_eq!(rt; found.token(), *token);
        assert_eq!(rt; found.name(), [*letter].as_slice());
        assert!(rt; found.init().is_none());
    }
}

/// Variables are counted, and found by name in the procedure that declares them, wherever in it. The facts of
/// names can be asked for.
fn check_owners(rt: &impl Abort, names: &Names) {
    assert_eq!(rt; names.variable_count(), 3);
    assert_eq!(rt; names.first_named(0, b"a"), Some(0));
    assert_eq!(rt; names.first_named(1, b"a"), None);
    assert_eq!(rt; names.first_named(1, b"c"), Some(2));
    names.variables_are_few();
    names.functions_rise();
}

/// A number with the mark of extended identifiers.
fn number(value: u64) -> Expr {
    Expr::Num {
        value: Some(value),
        ext: true,
        at: 1,
    }
}

/// Selectors have keys, on each channel for which they are.
fn check_selectors(rt: &impl Abort, alloc: Global, names: &Names) -> Result<(), Fail> {
    let keys = Selector {
        rank: 1,
        low: 0x8000_0001,
        high: 0x8000_0002,
    };
    let others = Selector {
        rank: 1,
        low: 0xC000_0001,
        high: 0xC000_0002,
    };
    let both = [keys, others];
    let first = [keys];
    let second = [others];
    for (chan, wanted) in [
        (0, both.as_slice()),
        (1, first.as_slice()),
        (2, second.as_slice()),
    ] {
        let what = SelWhat::Ids {
            low: number(1),
            high: Some(number(2)),
            at: 3,
        };
        let mut found = Vec::new(alloc);
        push_ranges(names, &Sel { chan, what }, &mut found)?;
        assert_eq!(rt; found.as_slice(), wanted);
    }
    Ok(())
}

/// An identifier without a mark has 11 bits.
fn check_types(rt: &impl Abort, names: &Names) {
    let what = DeclType::ById {
        value: Some(0x800),
        ext: false,
        at: 2,
    };
    let mut first = None;
    note_type(names, 0, &what, &mut first);
    assert_eq!(rt; first, Some(offence(2, 21)));
}

#[test]
fn names_mean_what_is_declared_before(rt: HostRuntime) -> Result<(), Fail> {
    let program = program(rt.alloc(), DECLARED)?;
    let named = Names::build(rt.alloc(), &program, None)?;
    let names = &named.names;
    check_meanings(&rt, names);
    check_variables(&rt, names);
    check_owners(&rt, names);
    check_selectors(&rt, rt.alloc(), names)?;
    check_types(&rt, names);
    Ok(())
}

/// Messages are those of the database.
fn check_messages(
    rt: &impl Abort,
    alloc: Global,
    program: &Program,
    base: &Database,
) -> Result<(), Fail>
    requires { IsFew program.now }
{
    let named = Names::build(alloc, program, Some(base))?;
    let names = &named.names;
    assert!(rt; names.message(b"M").is_some_and(|message| message.id == 5));
    assert!(rt; names.message(b"N").is_none());
    Ok(())
}

#[test]
fn messages_are_those_of_the_database(rt: HostRuntime) -> Result<(), Fail> {
    let program = program(rt.alloc(), DECLARED)?;
    let base = read(rt.alloc(), b"BO_ 5 M: 8 N\n")?;
    check_messages(&rt, rt.alloc(), &program, &base)
}

/// The first of what the names of a source break.
fn first(alloc: Global, source: &str) -> Result<Option<Offence>, Fail> {
    let program = program(alloc, source)?;
    Ok(Names::build(alloc, &program, None)?.first)
}

#[test]
fn a_name_is_declared_once(rt: HostRuntime) -> Result<(), Fail> {
    for (source, wanted) in [
        (DECLARED, None),
        ("variables { long a; } long f(long b) { { long a; } }", None),
        (
            "variables { long a; } long f(long b) { { long b; } }",
            Some(offence(15, 10)),
        ),
    ] {
        assert_eq!(rt; first(rt.alloc(), source)?, wanted);
    }
    Ok(())
}

#[test]
fn functions_of_the_language_are_known(rt: HostRuntime) {
    assert_eq!(rt; builtin_named(b"stop"), Some(Builtin::Stop));
    assert_eq!(rt; builtin_named(b"Stop"), None);
    assert!(rt; is_builtin(b"elCount"));
}

#[test]
fn the_earlier_offence_stays(rt: HostRuntime) {
    let mut first = None;
    for noted in [offence(7, 9), offence(3, 13), offence(3, 14)] {
        note(&mut first, noted);
    }
    assert_eq!(rt; first, Some(offence(3, 13)));
}

#[test]
fn laws_can_be_called() {
    laws::the_first_is_noted();
    laws::named_offences_are_offences();
}
