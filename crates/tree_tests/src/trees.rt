// Sources with the trees that capl_parser gives, and operators by their levels.

use crate::text_form::show_file;
use parser_tests::sources::parsed;
use std::alloc::Global;
use std::test::Fail;

/// Sources with their trees.
static TREES: [(&str, &str); 20] = [
    ("", ""),
    (
        "includes { #include \"a.cin\" #include \"b/c.cin\" } includes {}",
        "(Includes a.cin b/c.cin)(Includes)",
    ),
    (
        "variables { byte a; const word b = 1, c[2] = {3, 4}; timer t; msTimer u; }",
        "(Variables (Decl@2 Byte (a@3 -)) (Decl@5 const Word (b@7 - 1@9) (c@11 2@13 (Many@16 \
         3@17 4@19))) (Decl@22 timer (t@23 -)) (Decl@25 msTimer (u@26 -)))",
    ),
    (
        "variables { message * m; message 0x7FFx n = {dlc = 8, byte(0) = 1 + 2}; message Lamp \
         o; }",
        "(Variables (Decl@2 message* (m@4 -)) (Decl@6 message2047x@7 (n@8 - (Many@10 (Set \
         dlc@11 8@13) (Set (Byte@15 0@17) (Add@20 1@20 2@22))))) (Decl@25 message Lamp@26 (o@27 \
         -)))",
    ),
    (
        "on preStart {} on start {} on stopMeasurement {} on key 'a' {} on key * {} on timer t \
         {}",
        "(Proc@0 PreStart)(Proc@4 Start)(Proc@8 Stop)(Proc@12 (Key 97))(Proc@17 (Key \
         *))(Proc@22 (Timer t@24))",
    ),
    (
        "on message *, Lamp, 1, 2 - 0x7ffx {}",
        "(Proc@0 (Message Any@2 Lamp@4 (Ids@6 1@6 -) (Ids@8 2@8 2047x@10)))",
    ),
    (
        "on message CAN1.0x100, CAN2.*, CAN1.Lamp, CAN1, CAN1.CAN2, CAN2.1 - 2x {}",
        "(Proc@0 (Message (Channel1 (Ids@4 256@4 -)) (Channel2 Any@8) (Channel1 Lamp@12) \
         CAN1@14 (Channel1 CAN2@18) (Channel2 (Ids@22 1@22 2x@24))))",
    ),
    (
        "f() {} void g(void) {} int64 h(char a, qword b) {} void i() {}",
        "(Proc@0 (Function@0 f))(Proc@5 (Function@6 g))(Proc@12 (Function@13 Int64 h (Char \
         a@16) (Qword b@19)))(Proc@23 (Function@24 i))",
    ),
    (
        "on start { ; { byte a; } f(); int b = 1; }",
        "(Proc@0 Start Empty (Block (Decl@5 Byte (a@6 -))) (Expr (Call@9 f)) (Decl@13 Int (b@14 \
         - 1@16)))",
    ),
    (
        "on start { if (1) if (2) ; else a; else if (3) {} else if (4) ; else b; }",
        "(Proc@0 Start (If (Arm 1@5 (If (Arm 2@9 Empty) else (Expr a@13))) (Arm 3@18 (Block)) \
         (Arm 4@25 Empty) else (Expr b@29)))",
    ),
    (
        "on start { while (1) do ; while (2); for (;;) ; for (a = 1; a < 2; a++) break; }",
        "(Proc@0 Start (While 1@5 (Do Empty 2@11)) (For - - - Empty) (For (Assign@22 a@22 1@24) \
         (Less@26 a@26 2@28) (PostUp@30 a@30) Break@33))",
    ),
    (
        "on start { switch (a) { case 1: case 2 + 3: default: b; long c; case 4: } switch (d) \
         {} }",
        "(Proc@0 Start (Switch a@5 (Group (Label@8 1@9) (Label@11 (Add@12 2@12 3@14)) (Label@16 \
         -) (Expr b@18) (Decl@20 Long (c@21 -))) (Group (Label@23 4@24))) (Switch d@29))",
    ),
    (
        "f() { continue; return; return a = b; }",
        "(Proc@0 (Function@0 f) Continue@4 (Return@6 -) (Return@8 (Assign@9 a@9 b@11)))",
    ),
    (
        "f() { 7; 8x; 18446744073709551616; 'a'; \"b c\"; this; d; (e); g(); h(i, j = k); }",
        "(Proc@0 (Function@0 f) (Expr 7@4) (Expr 8x@6) (Expr large@8) (Expr Char97@10) (Expr \
         \"b c\"@12) (Expr this@14) (Expr d@16) (Expr (Paren@18 e@19)) (Expr (Call@22 g)) (Expr \
         (Call@26 h i@28 (Assign@30 j@30 k@32))))",
    ),
    (
        "f() { a[b][c = d]; this.e.f; this.word(g + 1).h; i++; j--; }",
        "(Proc@0 (Function@0 f) (Expr (Index@4 (Index@4 a@4 b@6) (Assign@9 c@9 d@11))) (Expr \
         (Member@14 (Member@14 this@14 e@16) f@18)) (Expr (Member@20 (Member@20 this@20 \
         (Word@22 (Add@24 g@24 1@26))) h@29)) (Expr (PostUp@31 i@31)) (Expr (PostDown@34 \
         j@34)))",
    ),
    (
        "f() { (byte) a * b; -c[1]; +d; !e; ~f; ++g; --h; - (int64) - i++; }",
        "(Proc@0 (Function@0 f) (Expr (Mul@4 (Cast@4 Byte a@7) b@9)) (Expr (Minus@11 (Index@12 \
         c@12 1@14))) (Expr (Plus@17 d@18)) (Expr (Not@20 e@21)) (Expr (Inv@23 f@24)) (Expr \
         (Up@26 g@27)) (Expr (Down@29 h@30)) (Expr (Minus@32 (Cast@33 Int64 (Minus@36 \
         (PostUp@37 i@37))))))",
    ),
    (
        "f() { a ? b = c : d ? e : f; g = h += i ? j : k; }",
        "(Proc@0 (Function@0 f) (Expr (Cond@4 a@4 (Assign@6 b@6 c@8) (Cond@10 d@10 e@12 f@14))) \
         (Expr (Assign@16 g@16 (AssignAdd@18 h@18 (Cond@20 i@20 j@22 k@24)))))",
    ),
    (
        "f() { a -= 1; a *= 1; a /= 1; a %= 1; a &= 1; a |= 1; a ^= 1; a <<= 1; a >>= 1; }",
        "(Proc@0 (Function@0 f) (Expr (AssignSub@4 a@4 1@6)) (Expr (AssignMul@8 a@8 1@10)) \
         (Expr (AssignDiv@12 a@12 1@14)) (Expr (AssignRem@16 a@16 1@18)) (Expr (AssignAnd@20 \
         a@20 1@22)) (Expr (AssignOr@24 a@24 1@26)) (Expr (AssignXor@28 a@28 1@30)) (Expr \
         (AssignShl@32 a@32 1@34)) (Expr (AssignShr@36 a@36 1@38)))",
    ),
    (
        "f() { a ? b : c = d; 1 = 2; }",
        "(Proc@0 (Function@0 f) (Expr (Assign@4 (Cond@4 a@4 b@6 c@8) d@10)) (Expr (Assign@12 \
         1@12 2@14)))",
    ),
    (
        "f() { a - b - c; a - b * c; a * b - c; a % b / c; a >= b == c; a != b <= c; a > b >> \
         c; }",
        "(Proc@0 (Function@0 f) (Expr (Sub@4 (Sub@4 a@4 b@6) c@8)) (Expr (Sub@10 a@10 (Mul@12 \
         b@12 c@14))) (Expr (Sub@16 (Mul@16 a@16 b@18) c@20)) (Expr (Div@22 (Rem@22 a@22 b@24) \
         c@26)) (Expr (Equal@28 (GreaterEqual@28 a@28 b@30) c@32)) (Expr (NotEqual@34 a@34 \
         (LessEqual@36 b@36 c@38))) (Expr (Greater@40 a@40 (Shr@42 b@42 c@44))))",
    ),
];

/// Operators, the weakest first, with their forms.
static LEVELS: [(&str, &str); 10] = [
    ("||", "OrElse"),
    ("&&", "AndAlso"),
    ("|", "Or"),
    ("^", "Xor"),
    ("&", "And"),
    ("!=", "NotEqual"),
    (">", "Greater"),
    (">>", "Shr"),
    ("+", "Add"),
    ("*", "Mul"),
];

/// The tree of a source as text, or the refusal of the source.
fn shown(alloc: Global, source: &str) -> Result<String, Fail> {
    let mut out = String::new(alloc);
    match parsed(alloc, source.as_bytes())? {
        Some(Ok(tree)) => show_file(&mut out, &tree)?,
        Some(Err(refusal)) => write!(out, "{refusal:?}")?,
        None => out.push_str("no tokens")?,
    }
    Ok(out)
}

#[test]
fn sources_have_their_trees(rt: HostRuntime) -> Result<(), Fail> {
    for (source, tree) in &TREES {
        let found = shown(rt.alloc(), source)?;
        assert_eq!(rt; found.as_str(), *tree);
    }
    Ok(())
}

/// Whether `a FIRST b SECOND c;` is a statement of this expression.
fn is_grouped(alloc: Global, first: &str, second: &str, tree: &str) -> Result<bool, Fail> {
    let source = format!(in alloc; "f() {{ a {first} b {second} c; }}")?;
    let found = shown(alloc, &source)?;
    let wanted = format!(in alloc; "(Proc@0 (Function@0 f) (Expr {tree}))")?;
    Ok(found == wanted)
}

/// Whether an operator takes its operands before another one that stands before it.
fn is_first_behind(alloc: Global, weak: (&str, &str), strong: (&str, &str)) -> Result<bool, Fail> {
    let tree = format!(in alloc; "({}@4 a@4 ({}@6 b@6 c@8))", weak.1, strong.1)?;
    is_grouped(alloc, weak.0, strong.0, &tree)
}

/// Whether an operator takes its operands before another one that stands behind it.
fn is_first_before(alloc: Global, strong: (&str, &str), weak: (&str, &str)) -> Result<bool, Fail> {
    let tree = format!(in alloc; "({}@4 ({}@4 a@4 b@6) c@8)", weak.1, strong.1)?;
    is_grouped(alloc, strong.0, weak.0, &tree)
}

/// Whether an operator binds more strongly than another, which groups to the left.
fn are_neighbours(alloc: Global, weak: (&str, &str), strong: (&str, &str)) -> Result<bool, Fail> {
    Ok(
        is_first_behind(alloc, weak, strong)?
            && is_first_before(alloc, strong, weak)?
            && is_first_before(alloc, weak, weak)?,
    )
}

#[test]
fn operators_bind_by_their_levels(rt: HostRuntime) -> Result<(), Fail> {
    for (weak, strong) in LEVELS.iter().zip(LEVELS.iter().skip(1)) {
        assert!(rt; are_neighbours(rt.alloc(), *weak, *strong)?, "{}", weak.0);
    }
    Ok(())
}
