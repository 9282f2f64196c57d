// Sources with the first token that a program may not have.

ghost use Rattle.std.specs.Prelude.{◌<◌, ◌^◌, length};

use capl_lexer::{lex, screen};
use std::test::Fail;
use texts::Rule;

const FLOATING_POINT: Rule = Rule {
    group: b'E',
    number: 5,
};

const OUTSIDE: Rule = Rule {
    group: b'E',
    number: 6,
};

#[test]
fn the_first_token_is_told(rt: HostRuntime) -> Result<(), Fail> {
    let cases = [
        (b"on start { x[1] = y.phys1; }".as_slice(), None),
        (b"on preStart on stopMeasurement on key 'a' phys", None),
        (b"a float", Some((1, FLOATING_POINT))),
        (b"a double $", Some((1, FLOATING_POINT))),
        (b"a = 1.;", Some((2, FLOATING_POINT))),
        (b"m. /* */ phys", Some((2, FLOATING_POINT))),
        (b"struct", Some((0, OUTSIDE))),
        (b"a ethernetPacket", Some((1, OUTSIDE))),
        (b"a $ 1.5", Some((1, OUTSIDE))),
        (b"@", Some((0, OUTSIDE))),
        (b"a::b", Some((1, OUTSIDE))),
        (b"#pragma", Some((0, OUTSIDE))),
        (b"a[1] // b\n[2]", Some((4, OUTSIDE))),
        (b"on signal", Some((1, OUTSIDE))),
        (b"on key F1", Some((2, OUTSIDE))),
    ];
    for (source, want) in cases {
        assert!(rt; source.len() < 100);
        let tokens = lex(rt.alloc(), source)?;
        assert!(rt; screen(&tokens) == want);
    }
    Ok(())
}
