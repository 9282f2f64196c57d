// Files with what they expand to, and with their first blames.

use capl_include::{ExpandRefusal, Expanded, expand};
use sim_outside::MemFiles;
use std::alloc::Global;
use std::process::Abort;
use std::test::Fail;
use texts::{Blame, Text};

/// What an expansion shall come to.
#[derive(Clone, Copy)]
enum Want {
    /// The files with these names.
    Files(&'static [&'static [u8]]),
    /// This file breaks the rule of this group and number, at a line and a column or as a whole.
    Rule(&'static [u8], Option<(u32, u32)>, u8, u8),
}

/// Files with their names, of which the first is expanded, and what it comes to.
type Case = (&'static [(&'static [u8], &'static [u8])], Want);

const CASES: [Case; 16] = [
    (&[(b"n.can", b"")], Want::Files(&[b"n.can"])),
    (
        &[
            (
                b"a/n.can",
                b"includes { #include \"b/x.cin\" #include \"/c/y.cin\" }",
            ),
            (b"a/b/x.cin", b"#include \"z.cin\" #include \"/c/y.cin\""),
            (b"a/b/z.cin", b"long z;"),
            (b"/c/y.cin", b""),
        ],
        Want::Files(&[b"a/b/z.cin", b"/c/y.cin", b"a/b/x.cin", b"a/n.can"]),
    ),
    (
        &[
            (b"n.can", b"#include \"m.can\" #include \"n.can\""),
            (b"m.can", b"#include \"n.can\""),
        ],
        Want::Files(&[b"m.can", b"n.can"]),
    ),
    (
        &[(b"n.can", b"#include \"lib\\u.cin\""), (b"lib/u.cin", b"")],
        Want::Files(&[b"lib/u.cin", b"n.can"]),
    ),
    (
        &[(b"n.can", b"#include \"./n.can\"")],
        Want::Rule(b"./n.can", None, b'E', 7),
    ),
    (
        &[(b"n.can", b"a\n `")],
        Want::Rule(b"n.can", Some((2, 2)), b'E', 1),
    ),
    (
        &[(b"n.can", b"#include \"u\" `"), (b"u", b"")],
        Want::Rule(b"n.can", Some((1, 14)), b'E', 1),
    ),
    (
        &[(b"n.can", b"#include \"u\""), (b"u", b"\xEF\xBB\xBF'")],
        Want::Rule(b"u", Some((1, 4)), b'E', 1),
    ),
    (
        &[(b"d/n.can", b"#include \"u\""), (b"u", b"")],
        Want::Rule(b"d/u", None, b'E', 7),
    ),
    (
        &[(b"n.can", b"\n  #include \"\" #include \"u\"")],
        Want::Rule(b"n.can", Some((2, 3)), b'E', 8),
    ),
    (
        &[(b"n.can", b"#include \"u\" #include \"\"")],
        Want::Rule(b"u", None, b'E', 7),
    ),
    (
        &[(b"n.can", b"#include \"\x7F\"")],
        Want::Rule(b"n.can", Some((1, 1)), b'E', 8),
    ),
    (
        &[(b"\x1F/n.can", b"#include \"u\"")],
        Want::Rule(b"\x1F/n.can", Some((1, 1)), b'E', 8),
    ),
    (
        &[
            (b"n.can", b"#include \"u\" float $ #include \"v\""),
            (b"u", b""),
            (b"v", b""),
        ],
        Want::Files(&[b"u", b"v", b"n.can"]),
    ),
    (
        &[
            (b"n.can", b"#include \"u\""),
            (b"u", b"#include \"v\""),
            (b"v", b"#include \"w\""),
        ],
        Want::Rule(b"w", None, b'E', 7),
    ),
    (
        &[(b"n.can", b"// #include \"u\"\n\"#include\"")],
        Want::Files(&[b"n.can"]),
    ),
];

/// Files in memory with these names and bytes.
fn files_of(
    alloc: Global,
    entries: &[(&[u8], &[u8])],
    failing: Vec<u64>,
) -> Result<MemFiles, Fail> {
    let mut held = Vec::new(alloc);
    for (name, bytes) in entries {
        held.push((Text::make(alloc, name)?, Vec::from_slice(alloc, bytes)?))?;
    }
    Ok(MemFiles::new(held, failing))
}

/// Whether the blame is of this file, place and rule.
fn is_blame(blame: &Blame, file: &[u8], at: Option<(u32, u32)>, group: u8, number: u8) -> bool {
    blame.file.bytes() == file
        && blame.line == at.map(|(line, _)| line)
        && blame.column == at.map(|(_, column)| column)
        && blame.rule.group == group
        && blame.rule.number == number
}

/// Whether the files have these names, in order.
fn are_files(expanded: &Expanded, names: &[&[u8]]) -> bool {
    let files = expanded.files.as_slice();
    files.len() == names.len()
        && files
            .iter()
            .zip(names)
            .all(|(file, name)| file.name.bytes() == *name)
}

/// Whether the answer is the wanted one.
fn is_wanted(answer: &Result<Expanded, ExpandRefusal>, want: Want) -> bool {
    match (answer, want) {
        (Ok(expanded), Want::Files(names)) => are_files(expanded, names),
        (Err(ExpandRefusal::Blamed(blame)), Want::Rule(file, at, group, number)) => {
            is_blame(blame, file, at, group, number)
        }
        _ => false,
    }
}

#[test]
fn files_are_expanded_or_to_blame(rt: HostRuntime) -> Result<(), Fail> {
    let alloc = rt.alloc();
    for (entries, want) in CASES {
        let [(root, _), ..] = entries else {
            assert!(rt; false);
            return Ok(());
        };
        let mut files = files_of(alloc, entries, Vec::new(alloc))?;
        let name = Text::make(alloc, root)?;
        assert!(rt; is_wanted(&expand(alloc, &mut files, &name), want));
    }
    Ok(())
}

/// So many files, the first of which is `0`, and each of which includes the next one.
fn chain(alloc: Global, count: u8, last: &[u8]) -> Result<MemFiles, Fail> {
    let mut held = Vec::new(alloc);
    for number in 0..count {
        let mut bytes = Vec::from_slice(alloc, b"#include \"")?;
        bytes.push(b'0'.wrapping_add(number).wrapping_add(1))?;
        bytes.push(b'"')?;
        if number.wrapping_add(1) == count {
            bytes = Vec::from_slice(alloc, last)?;
        }
        held.push((Text::make(alloc, &[b'0'.wrapping_add(number)])?, bytes))?;
    }
    Ok(MemFiles::new(held, Vec::new(alloc)))
}

/// What a chain of 32 files comes to, of which the last has these bytes.
fn chained(alloc: Global, last: &[u8]) -> Result<Result<Expanded, ExpandRefusal>, Fail> {
    let name = Text::make(alloc, b"0")?;
    let mut files = chain(alloc, 32, last)?;
    Ok(expand(alloc, &mut files, &name))
}

#[test]
fn there_are_at_most_32_files(rt: HostRuntime) -> Result<(), Fail> {
    let whole = chained(rt.alloc(), b"")?;
    assert!(rt; whole.is_ok_and(|expanded| expanded.files.len() == 32));
    for last in [b"#include \"P\"".as_slice(), b"#include \"none\""] {
        let more = chained(rt.alloc(), last)?;
        assert!(rt; is_wanted(&more, Want::Rule(b"0", None, b'E', 29)));
    }
    Ok(())
}

/// What a file comes to that includes one of so many of this byte.
fn answer(alloc: Global, byte: u8, count: usize) -> Result<Result<Expanded, ExpandRefusal>, Fail> {
    let name = Text::make(alloc, b"n")?;
    let long = vec![in alloc; byte; count]?;
    let entries: [(&[u8], &[u8]); 2] = [(b"n", b"#include \"u\""), (b"u", &long)];
    let mut files = files_of(alloc, &entries, Vec::new(alloc))?;
    Ok(expand(alloc, &mut files, &name))
}

#[test]
fn files_are_not_too_long(rt: HostRuntime) -> Result<(), Fail> {
    let both = Want::Files(&[b"u", b"n"]);
    for (byte, count, want) in [
        (b' ', 1_048_577, Want::Rule(b"u", None, b'F', 2)),
        (b';', 150_000, both),
        (b';', 299_999, both),
        (b';', 300_000, Want::Rule(b"u", None, b'E', 4)),
    ] {
        assert!(rt; is_wanted(&answer(rt.alloc(), byte, count)?, want));
    }
    Ok(())
}

/// What two files come to that include one another, where the read of this number fails.
fn failing(alloc: Global, read: u64) -> Result<Result<Expanded, ExpandRefusal>, Fail> {
    let name = Text::make(alloc, b"n")?;
    let entries: [(&[u8], &[u8]); 2] = [
        (b"n", b"#include \"u\" #include \"u\""),
        (b"u", b"#include \"n\""),
    ];
    let mut files = files_of(alloc, &entries, vec![in alloc; read]?)?;
    Ok(expand(alloc, &mut files, &name))
}

// Each file is read once, so that there is no third read.
#[test]
fn a_failed_read_is_told(rt: HostRuntime) -> Result<(), Fail> {
    assert!(rt; matches!(failing(rt.alloc(), 2)?, Err(ExpandRefusal::Failed)));
    assert!(rt; failing(rt.alloc(), 3)?.is_ok());
    Ok(())
}
