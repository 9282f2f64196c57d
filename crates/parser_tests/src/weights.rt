// What sources weigh, and where their parts stand.

use super::sources::{expression, program};
use capl_tree::{Expr, weight_of};
use std::test::Fail;

/// Sources with their weights, in eights.
static WEIGHTS: [(&str, u64); 11] = [
    ("", 0),
    (
        "includes { #include \"x\" } variables { byte x[7] = {7, 7}; message 1 y = {dlc = 7}; }",
        0,
    ),
    ("on start { }", 1),
    ("on start { ; { ; } byte x; }", 4),
    ("on start { if (7) ; else ; }", 5),
    ("on start { if (7) ; else if (7) ; else if (7) ; }", 10),
    ("on start { while (7) ; do ; while (7); for (; 7; ) ; }", 10),
    ("on start { for (7; 7; 7) ; }", 6),
    (
        "on start { switch (7) { case 7: default: break; continue; } }",
        7,
    ),
    ("f() { return; return 7; }", 4),
    (
        "f() { 7; 7x; 'a'; \"a\"; this; x; (7); f(); f(7, 7); x[7]; x.y; x.word(7); (byte) 7; -7; x++; \
         7 + 7; 7 ? 7 : 7; x = 7; }",
        55,
    ),
];

#[test]
fn sources_weigh_what_is_in_them(rt: HostRuntime) -> Result<(), Fail> {
    for (source, eights) in WEIGHTS {
        assert_eq!(rt; weight_of(&program(rt.alloc(), source)?), 8 * eights);
    }
    Ok(())
}

#[test]
fn parts_stand_where_they_begin(rt: HostRuntime) -> Result<(), Fail> {
    let program = program(rt.alloc(), "f() { x.word(7); }")?;
    let member = expression(&program)?;
    assert_eq!(rt; member.place(), 4);
    let Expr::Member { field, .. } = member else {
        return Err("it is a member".into());
    };
    assert_eq!(rt; field.place(), 6);
    Ok(())
}
