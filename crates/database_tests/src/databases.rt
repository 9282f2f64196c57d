// Databases that dbc_reader reads: against canmatrix, as tools write them, and refusals with their lines.

mod made;

use dbc_reader::{Database, DbcRefusal, laws, read};
use made::{PAYLOAD, ROWS, Row, TEXTS};
use signal_codec::{Layout, get, usable};
use std::process::Abort;

/// The answer to a text, which is short.
fn answer<R: AllocGlobal + Abort>(rt: &R, text: &[u8]) -> Result<Database, DbcRefusal> {
    assert!(rt; text.len() < 100_000);
    read(rt.alloc(), text)
}

/// A database has the signal of a row, and its message.
fn check_row(rt: &impl Abort, database: &Database, row: &Row) {
    let (_, id, message, name, start, len, big, signed, float, number) = *row;
    let layout = Layout {
        start,
        len,
        big,
        signed,
    };
    let signal = database.signal(message, name).expect(rt, "it is there");
    assert_eq!(rt; signal.layout, layout);
    assert_eq!(rt; signal.float, float);
    assert_eq!(rt; signal.name.bytes(), name);
    let found = database.message_by_id(id).expect(rt, "it is there");
    assert_eq!(rt; found.name.bytes(), message);
    assert_eq!(rt; found.len, 8);
    assert!(rt; usable(&layout));
    assert!(rt; float || get(&layout, &PAYLOAD) == number);
}

#[test]
fn databases_are_read_as_by_canmatrix(rt: HostRuntime) {
    for row in &ROWS {
        assert!(rt; row.0 < TEXTS.len());
        let database = answer(&rt, TEXTS[row.0]).expect(&rt, "canmatrix wrote it");
        check_row(&rt, &database, row);
    }
}

/// Every keyword of the format, as tools write their files: with CR LF, tabs, ISO 8859-1 in strings,
/// escaped quotes, a comment over two lines, and a signal without blanks.
static EVERY_KEYWORD: &[u8] = b"VERSION \"1.0 \xFCber\"\r\n\
    \r\nNS_ :\r\n\tNS_DESC_\r\n\tCM_\r\n\tBA_DEF_\r\n\tVAL_\r\n\tSIG_VALTYPE_\r\n\tSG_MUL_VAL_\r\n\
    \r\nBS_: 500000 : 1,2\r\nBU_: Motor Gateway\r\n\
    VAL_TABLE_ Onoff 1 \"on\" 0 \"off\" ;\r\n\
    BO_ 3221225472 VECTOR__INDEPENDENT_SIG_MSG: 0 Vector__XXX\r\n\
    \x20SG_ Lost : 0|8@1+ (1,0) [0|0] \"\" Vector__XXX\r\n\
    BO_ 291 Speed: 2 Motor\r\n\
    \x20SG_ V:7|16@0+(1,0)[0|255]\"km/h\" Gateway\r\n\
    BO_ 2566844672 Ext: 8 Motor\r\n\
    \x20SG_ Kind M : 0|4@1+ (1,0) [0|15] \"\" Gateway, Motor\r\n\
    \x20SG_ W m0 : 4|12@1- (1E-3,-2.5) [-1|+1] \"\xB0C\"  Gateway\r\n\
    \tSG_ X m1M : 16|32@1- (1,0) [0|0] \"\"\r\n\
    BO_TX_BU_ 291 : Motor,Gateway;\r\n\
    EV_ Key: 0 [0|1] \"\" 0 1 DUMMY_NODE_VECTOR0 Motor;\r\nENVVAR_DATA_ Data: 5;\r\n\
    SIG_GROUP_ 291 Group 1 : V;\r\n\
    CM_ SG_ 291 V \"it is \\\"fast\\\";\r\nSG_ in a string\";\r\n\
    BA_DEF_ BO_ \"Cycle\" INT 0 65535;\r\nBA_DEF_ \"Hex\" HEX 0 255;\r\n\
    BA_DEF_ SG_ \"Factor\" FLOAT -1.5 1e+3;\r\nBA_DEF_ BU_ \"Kind\" ENUM \"a\",\"b;\";\r\n\
    BA_DEF_ \"Name\" STRING ;\r\nBA_DEF_DEF_ \"Cycle\" 100;\r\n\
    BA_DEF_REL_ BU_BO_REL_ \"Rel\" INT 0 1;\r\nBA_ \"Cycle\" BO_ 291 20;\r\n\
    BA_REL_ \"Rel\" BU_BO_REL_ Motor 291 1;\r\nVAL_ 291 V 1 \"one\" 0 \"zero\" ;\r\n\
    SIG_VALTYPE_ 2566844672 X : 1;\r\nSIG_VALTYPE_ 291 V 3;\r\nSIG_VALTYPE_ 9 Nothing : 2;\r\n\
    SG_MUL_VAL_ 2566844672 X Kind 1-1, 3-4;\r\n";

/// The signals of that text: the message, the name, the start, the length, the order, the sign, and whether
/// it is a floating-point number.
const SIGNALS: [(&[u8], &[u8], u16, u16, bool, bool, bool); 4] = [
    (b"Speed", b"V", 7, 16, true, false, false),
    (b"Ext", b"Kind", 0, 4, false, false, false),
    (b"Ext", b"W", 4, 12, false, true, false),
    (b"Ext", b"X", 16, 32, false, true, true),
];

/// The database has those signals.
fn check_signals(rt: &impl Abort, database: &Database) {
    for (message, name, start, len, big, signed, float) in SIGNALS {
        let signal = database.signal(message, name).expect(rt, "it is there");
        let layout = Layout {
            start,
            len,
            big,
            signed,
        };
        assert_eq!(rt; signal.layout, layout);
        assert_eq!(rt; signal.float, float);
    }
    assert!(rt; database.signal(b"Speed", b"W").is_none());
}

/// The database has its two messages and no other.
fn check_messages(rt: &impl Abort, database: &Database) {
    assert_eq!(rt; database.messages().len(), 2);
    assert!(rt;
        database
            .message_by_name(b"VECTOR__INDEPENDENT_SIG_MSG")
            .is_none()
    );
    assert!(rt; database.message_by_id(291).is_some());
    let speed = database.message_by_name(b"Speed");
    let speed = speed.expect(rt, "it is there");
    assert_eq!(rt; speed.signals.as_slice().len(), 1);
    assert!(rt; speed.signals.named(b"V").is_some());
}

#[test]
fn files_are_read_as_tools_write_them(rt: HostRuntime) {
    let database = answer(&rt, EVERY_KEYWORD).expect(&rt, "each keyword is read");
    check_messages(&rt, &database);
    check_signals(&rt, &database);
}

/// Texts, and the line in which a name stands for the second time.
const TWICE: [(&[u8], u32); 3] = [
    (b"BO_ 1 A: 8 X\r\nBO_ 1 A: 8 X", 2),
    (b"BO_ 1 A: 8 X\nBO_ 2\nA: 8 X", 3),
    (
        b"BO_ 1 A: 8 X\nSG_ V : 0|8@1+ (1,0) [0|0] \"\" X\nSG_ V : 0|8@1+ (1,0) [0|0] \"\" X",
        3,
    ),
];

/// Texts, and the line of the statement that has no spelling.
const UNSPELLED: [(&[u8], u32); 19] = [
    (b"BO_ 1 A 8 X\n", 1),
    (b"BO_ 1 A: 8 X\n\nBO_ 2 A: 8", 3),
    (b"\n\nSG_ V : 0|8@1+ (1,0) [0|0] \"\" X", 3),
    (b"BO_ 1 A: 8 X\nSG_ V : 0|8@2+ (1,0) [0|0] \"\" X", 2),
    (b"BO_ 1 A: 8 X\nSG_ V : 0|8@1+ (1,0) [0|0] \"\" X,,Y", 2),
    (b"BO_ 1 A: 8 X\nSG_ V m : 0|8@1+ (1,0) [0|0] \"\" X", 2),
    (b"BO_ 4294967296 A: 8 X", 1),
    (b"BO_ 1 A: 65536 X", 1),
    (b"CM_ \"a\nb\" ;\nVERSION \"", 3),
    (b"CM_ \"a\\\"\n ;\nBO_", 3),
    (b"VAL_ 1 A\n", 1),
    (b"NS_ : A 1\nBS_:", 1),
    (b"BU_: A 1\nBS_:", 1),
    (b"BS_: A 1 \" (\nBS_", 2),
    (b"VERSION 1", 1),
    (b"\xEF\xBB\xBFVERSION \"1.0\"\r\n", 1),
    (b"\xEF\xBB\xBF", 1),
    (b"SIG_VALTYPE_ 1 A : 4;", 1),
    (b"word ;", 1),
];

#[test]
fn texts_are_refused_in_their_line(rt: HostRuntime) {
    assert!(rt; answer(&rt, b"").is_ok());
    for (text, line) in TWICE {
        let refusal = answer(&rt, text).err();
        assert_eq!(rt; refusal, Some(DbcRefusal::Twice { line }));
    }
    for (text, line) in UNSPELLED {
        let refusal = answer(&rt, text).err();
        assert_eq!(rt; refusal, Some(DbcRefusal::Text { line }));
    }
}

#[test]
fn laws_can_be_called() {
    laws::one_reading();
}
