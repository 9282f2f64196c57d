// Each form of a statement in each other, three deep: how much they count and how many turns they take, by
// what each form does with the statement in it.

use node_run::Round;
use run_bench::Bench;
use std::alloc::Global;
use std::test::Fail;

/// What the sources declare: `a`, which counts, and a variable for the form at each depth. The cell of `a` is
/// the first behind the event's.
static DECLARED: &str = "variables { long a; long b; long c; long d; }";

/// The cell of `a`.
const COUNTED: usize = 15;

/// More turns than any of the statements takes.
const TURNS: u64 = 100;

/// How a statement ends.
#[derive(Clone, Copy, Debug, PartialEq, Eq)]
enum End {
    GoesOn,
    Breaks,
    Continues,
    Returns,
}

/// Which ends of the statement in it a form takes for its own: none, `break`, or `continue` too.
#[derive(Clone, Copy, Debug, PartialEq, Eq)]
enum Takes {
    Nothing,
    Break,
    Both,
}

/// A form with a statement in it: its text, in which `@` stands for the statement and `#` for a variable;
/// how often it does the statement; how much is added to `a` behind the statement where that goes on; and
/// which ends of it the form takes for its own. A loop takes `continue`, and a turn for each time.
type Form = (&'static str, u64, u64, Takes);

/// The forms with a statement in them. What has to be left out would make `a` 90.
const FORMS: [Form; 6] = [
    ("{ ; @ a++; }", 1, 1, Takes::Nothing),
    (
        "if (0) a = 90; else if (1) @ else a = 90;",
        1,
        0,
        Takes::Nothing,
    ),
    (
        "switch (1) { case 0: a = 90; case 1: @ default: a++; }",
        1,
        1,
        Takes::Break,
    ),
    ("{ # = 2; while (#--) @ }", 2, 0, Takes::Both),
    ("{ # = 0; do @ while (++# < 3); }", 3, 0, Takes::Both),
    ("for (# = 0; # < 2; #++) @", 2, 0, Takes::Both),
];

/// What a statement comes to: how much it adds to `a`, how many turns it takes, and how it ends.
type Sum = (u64, u64, End);

/// A statement in the middle, and what it comes to.
type Leaf = (&'static str, Sum);

/// The statements in the middle.
const LEAVES: [Leaf; 5] = [
    ("a++;", (1, 0, End::GoesOn)),
    ("{ long e; a++; }", (1, 0, End::GoesOn)),
    ("{ a++; break; }", (1, 0, End::Breaks)),
    ("{ a++; continue; }", (1, 0, End::Continues)),
    ("{ a++; return; }", (1, 0, End::Returns)),
];

/// What a form comes to that does a statement of this sum each time.
fn each_time(form: &Form, behind: u64, sum: Sum) -> Sum {
    let (_, times, _, takes) = *form;
    let (added, turns, _) = sum;
    let round = u64::from(takes == Takes::Both);
    let added = added.saturating_add(behind);
    let turns = turns.saturating_add(round);
    (
        times.saturating_mul(added),
        times.saturating_mul(turns),
        End::GoesOn,
    )
}

/// What a form comes to that does a statement of this sum once, and then ends so.
fn once(form: &Form, sum: Sum, end: End) -> Sum {
    let round = u64::from(form.3 == Takes::Both);
    (sum.0, sum.1.saturating_add(round), end)
}

/// What a form comes to around a statement of this sum.
fn around(form: &Form, sum: Sum) -> Sum {
    match (sum.2, form.3) {
        (End::GoesOn, _) => each_time(form, form.2, sum),
        (End::Continues, Takes::Both) => each_time(form, 0, sum),
        (End::Breaks, Takes::Break | Takes::Both) => once(form, sum, End::GoesOn),
        (end, _) => once(form, sum, end),
    }
}

/// What the forms of a number come to around its statement. A number below 216 has three digits to the base
/// of 6, each a form, of which the last is the innermost; and its rest by 5, which is that of the digits'
/// sum, so that two forms in each other are tried around each statement.
fn reckoned(number: usize) -> Sum {
    let inner = around(&FORMS[number % 6], LEAVES[number % 5].1);
    let middle = around(&FORMS[number / 6 % 6], inner);
    around(&FORMS[number / 36 % 6], middle)
}

/// The text of a form with this variable around a statement.
fn spelled_around(
    alloc: Global,
    form: &Form,
    variable: &str,
    statement: &str,
) -> Result<String, Fail> {
    let text = form.0.replace(alloc, "#", variable)?;
    Ok(text.replace(alloc, "@", statement)?)
}

/// The text of the forms of a number around its statement.
fn spelled(alloc: Global, number: usize) -> Result<String, Fail> {
    let inner = spelled_around(alloc, &FORMS[number % 6], "d", LEAVES[number % 5].0)?;
    let middle = spelled_around(alloc, &FORMS[number / 6 % 6], "c", &inner)?;
    spelled_around(alloc, &FORMS[number / 36 % 6], "b", &middle)
}

/// A node with this statement for the start.
fn bench_of(alloc: Global, statement: &str) -> Result<Bench, Fail> {
    let source = format!(in alloc; "{DECLARED} on start {{ {statement} }}")?;
    Bench::make(alloc, &source, TURNS)
}

/// Does the start, and gives what was added to `a` and the turns that were taken; None where a trap or the
/// limit of turns ended it.
fn counted(bench: &mut Bench) -> Result<Option<(i128, u64)>, Fail> {
    bench.begin(Round::Start, 0, None, b"")?;
    bench.step()?;
    if bench.node.halted() {
        return Ok(None);
    }
    let added = bench.node.cells().get(COUNTED).ok_or("no cell")?;
    let row = bench.meter.row(0).ok_or("no row")?;
    Ok(Some((*added, row.turns)))
}

/// Whether the forms of a number do what is reckoned of them. Where none of them takes the statement's
/// `break` or `continue`, they are no program, and nothing is tried.
fn is_as_reckoned(alloc: Global, number: usize) -> Result<bool, Fail> {
    let (added, turns, end) = reckoned(number);
    if end == End::Breaks || end == End::Continues {
        return Ok(true);
    }
    let statement = spelled(alloc, number)?;
    let mut bench = bench_of(alloc, &statement)?;
    Ok(counted(&mut bench)? == Some((i128::from(added), turns)))
}

#[test]
fn forms_in_forms_in_forms_do_what_each_does(rt: HostRuntime) -> Result<(), Fail> {
    for number in 0..216 {
        let right = is_as_reckoned(rt.alloc(), number)?;
        assert!(rt; right, "the forms of {number}");
    }
    Ok(())
}
