// Databases that canmatrix wrote, a library in Python for DBC files, and what it reads of them.
//
// Each was made with frames whose identifiers, and signals whose places, lengths, orders and signs
// were drawn at random, with comments, value tables and attributes, and written by the library's
// `dump`. The library's `loadp` read it again, and its `decode` gave the numbers of the signals in
// `PAYLOAD`.

/// A payload, whose bytes were drawn at random.
pub(crate) const PAYLOAD: [u8; 8] = [0x9a, 0x3c, 0xe5, 0x71, 0x0f, 0xd2, 0x48, 0xb7];

/// The databases.
pub(crate) static TEXTS: [&[u8]; 3] = [
    b"VERSION \"created by canmatrix\"


NS_ :

BS_:

BU_: Motor Gateway 

VAL_TABLE_ Table_1 0 \"no\" 1 \"yes\";

BO_ 2215244084 Frame_1_0: 8 Motor
 SG_ Sig_0 : 31|2@1- (0.001,-40) [-40.002|-39.999] \"\" Vector__XXX
 SG_ Sig_1 : 37|1@0- (0.001,0) [-0.001|0.000] \"%\" Gateway
 SG_ Sig_2 : 46|8@0- (0.5,0) [-64|63.5] \"\" Vector__XXX

BO_ 1561 Frame_1_1: 8 Motor
 SG_ Sig_0 : 17|24@0+ (0.5,-40) [-40|8388567.5] \"%\" Vector__XXX
 SG_ Sig_1 : 46|8@0+ (0.5,0) [0|127.5] \"km/h\" Gateway,Motor

BO_ 2465730412 Frame_1_2: 8 Motor
 SG_ Sig_0 : 11|16@0+ (0.001,-40) [-40.000|25.535] \"%\" Gateway,Motor


CM_ BO_ 2215244084  \"frame; comment\";
CM_ BO_ 1561  \"frame; comment\";
CM_ BO_ 2465730412  \"frame; comment\";

CM_ SG_ 2215244084 Sig_0 \"a comment; of \\\"signal\\\"
over two lines\";
CM_ SG_ 1561 Sig_0 \"a comment; of \\\"signal\\\"
over two lines\";
CM_ SG_ 2465730412 Sig_0 \"a comment; of \\\"signal\\\"
over two lines\";


BA_DEF_ BO_ \"GenMsgCycleTime\" INT 0 65535;
BA_DEF_ SG_ \"GenSigStartValue\" FLOAT 0 100;
BA_DEF_ BU_ \"NodeLayer\" ENUM \"a\",\"b\";
BA_DEF_  \"BusType\" STRING;


BA_ \"GenMsgCycleTime\" BO_ 2215244084 100;

BA_ \"GenSigStartValue\" SG_ 2215244084 Sig_0 -2;
BA_ \"GenSigStartValue\" SG_ 1561 Sig_0 80;
BA_ \"GenSigStartValue\" SG_ 2465730412 Sig_0 40000;

VAL_ 2215244084 Sig_0 0 \"off\" 1 \"on; or so\";
VAL_ 2215244084 Sig_1 0 \"off\" 1 \"on; or so\";
VAL_ 2215244084 Sig_2 0 \"off\" 1 \"on; or so\";
VAL_ 1561 Sig_0 0 \"off\" 1 \"on; or so\";
VAL_ 1561 Sig_1 0 \"off\" 1 \"on; or so\";
VAL_ 2465730412 Sig_0 0 \"off\" 1 \"on; or so\";
",
    b"VERSION \"created by canmatrix\"


NS_ :

BS_:

BU_: Motor Gateway 

VAL_TABLE_ Table_2 0 \"no\" 1 \"yes\";

BO_ 231 Frame_2_0: 8 Motor
 SG_ Sig_0 : 13|2@1- (0.001,-40) [-40.002|-39.999] \"km/h\" Gateway,Motor

BO_ 648 Frame_2_1: 8 Motor
 SG_ Sig_0 : 39|24@0+ (0.001,-40) [-40.000|16737.215] \"%\" Gateway
 SG_ Sig_1 : 28|12@0+ (0.5,-40) [-40|2007.5] \"km/h\" Gateway
 SG_ Sig_2 : 15|5@0- (1,0) [-16|15] \"km/h\" Vector__XXX
 SG_ Sig_3 : 38|16@0+ (1,-40) [-40|65495] \"km/h\" Gateway,Motor

BO_ 1491 Frame_2_2: 8 Motor
 SG_ Sig_0 : 26|16@0+ (1,-40) [-40|65495] \"%\" Gateway,Motor
 SG_ Sig_1 : 29|8@1+ (0.001,-40) [-40.000|-39.745] \"%\" Gateway
 SG_ Sig_2 : 9|16@0+ (0.001,-40) [-40.000|25.535] \"km/h\" Gateway,Motor

BO_ 680 Frame_2_3: 8 Motor
 SG_ Sig_0 : 32|32@1+ (0.001,-40) [-40.000|4294927.295] \"km/h\" Gateway,Motor
 SG_ Sig_1 : 11|16@0+ (1,-40) [-40|65495] \"%\" Vector__XXX
 SG_ Sig_2 : 48|2@1+ (0.5,0) [0|1.5] \"%\" Vector__XXX


CM_ BO_ 231  \"frame; comment\";
CM_ BO_ 648  \"frame; comment\";
CM_ BO_ 1491  \"frame; comment\";
CM_ BO_ 680  \"frame; comment\";

CM_ SG_ 231 Sig_0 \"a comment; of \\\"signal\\\"
over two lines\";
CM_ SG_ 648 Sig_0 \"a comment; of \\\"signal\\\"
over two lines\";
CM_ SG_ 1491 Sig_0 \"a comment; of \\\"signal\\\"
over two lines\";
CM_ SG_ 680 Sig_0 \"a comment; of \\\"signal\\\"
over two lines\";


BA_DEF_ BO_ \"GenMsgCycleTime\" INT 0 65535;
BA_DEF_ SG_ \"GenSigStartValue\" FLOAT 0 100;
BA_DEF_ BU_ \"NodeLayer\" ENUM \"a\",\"b\";
BA_DEF_  \"BusType\" STRING;


BA_ \"GenMsgCycleTime\" BO_ 231 100;

BA_ \"GenSigStartValue\" SG_ 231 Sig_0 -2;
BA_ \"GenSigStartValue\" SG_ 648 Sig_0 40000;
BA_ \"GenSigStartValue\" SG_ 648 Sig_1 80;
BA_ \"GenSigStartValue\" SG_ 648 Sig_3 40;
BA_ \"GenSigStartValue\" SG_ 1491 Sig_0 40;
BA_ \"GenSigStartValue\" SG_ 1491 Sig_2 40000;
BA_ \"GenSigStartValue\" SG_ 680 Sig_0 4.0E+4;
BA_ \"GenSigStartValue\" SG_ 680 Sig_1 40;

VAL_ 231 Sig_0 0 \"off\" 1 \"on; or so\";
VAL_ 648 Sig_0 0 \"off\" 1 \"on; or so\";
VAL_ 648 Sig_1 0 \"off\" 1 \"on; or so\";
VAL_ 648 Sig_2 0 \"off\" 1 \"on; or so\";
VAL_ 648 Sig_3 0 \"off\" 1 \"on; or so\";
VAL_ 1491 Sig_0 0 \"off\" 1 \"on; or so\";
VAL_ 1491 Sig_1 0 \"off\" 1 \"on; or so\";
VAL_ 1491 Sig_2 0 \"off\" 1 \"on; or so\";
VAL_ 680 Sig_0 0 \"off\" 1 \"on; or so\";
VAL_ 680 Sig_1 0 \"off\" 1 \"on; or so\";
VAL_ 680 Sig_2 0 \"off\" 1 \"on; or so\";
SIG_VALTYPE_ 680 Sig_0 : 1;
",
    b"VERSION \"created by canmatrix\"


NS_ :

BS_:

BU_: Motor Gateway 

VAL_TABLE_ Table_3 0 \"no\" 1 \"yes\";

BO_ 2287524058 Frame_3_0: 8 Motor
 SG_ Sig_0 : 25|32@0- (1,-40) [-2147483688|2147483607] \"km/h\" Gateway,Motor
 SG_ Sig_1 : 4|32@1+ (1,0) [0|4294967295] \"%\" Gateway
 SG_ Sig_2 : 33|5@0+ (0.5,0) [0|15.5] \"km/h\" Gateway

BO_ 1587 Frame_3_1: 8 Motor
 SG_ Sig_0 : 15|24@0+ (1,-40) [-40|16777175] \"\" Vector__XXX
 SG_ Sig_1 : 22|32@1+ (0.5,-40) [-40|2147483607.5] \"km/h\" Gateway,Motor
 SG_ Sig_2 : 13|24@0+ (0.001,0) [0.000|16777.215] \"km/h\" Gateway,Motor
 SG_ Sig_3 : 10|16@0+ (0.001,0) [0.000|65.535] \"%\" Gateway,Motor

BO_ 1093 Frame_3_2: 8 Motor
 SG_ Sig_0 : 26|2@1+ (0.5,0) [0|1.5] \"km/h\" Vector__XXX
 SG_ Sig_1 : 39|5@1- (0.5,0) [-8|7.5] \"\" Gateway,Motor
 SG_ Sig_2 : 4|1@1+ (0.001,-40) [-40.000|-39.999] \"%\" Vector__XXX


CM_ BO_ 2287524058  \"frame; comment\";
CM_ BO_ 1587  \"frame; comment\";
CM_ BO_ 1093  \"frame; comment\";

CM_ SG_ 2287524058 Sig_0 \"a comment; of \\\"signal\\\"
over two lines\";
CM_ SG_ 1587 Sig_0 \"a comment; of \\\"signal\\\"
over two lines\";
CM_ SG_ 1093 Sig_0 \"a comment; of \\\"signal\\\"
over two lines\";


BA_DEF_ BO_ \"GenMsgCycleTime\" INT 0 65535;
BA_DEF_ SG_ \"GenSigStartValue\" FLOAT 0 100;
BA_DEF_ BU_ \"NodeLayer\" ENUM \"a\",\"b\";
BA_DEF_  \"BusType\" STRING;


BA_ \"GenMsgCycleTime\" BO_ 2287524058 100;

BA_ \"GenSigStartValue\" SG_ 2287524058 Sig_0 40;
BA_ \"GenSigStartValue\" SG_ 1587 Sig_0 40;
BA_ \"GenSigStartValue\" SG_ 1587 Sig_1 80;

VAL_ 2287524058 Sig_0 0 \"off\" 1 \"on; or so\";
VAL_ 2287524058 Sig_1 0 \"off\" 1 \"on; or so\";
VAL_ 2287524058 Sig_2 0 \"off\" 1 \"on; or so\";
VAL_ 1587 Sig_0 0 \"off\" 1 \"on; or so\";
VAL_ 1587 Sig_1 0 \"off\" 1 \"on; or so\";
VAL_ 1587 Sig_2 0 \"off\" 1 \"on; or so\";
VAL_ 1587 Sig_3 0 \"off\" 1 \"on; or so\";
VAL_ 1093 Sig_0 0 \"off\" 1 \"on; or so\";
VAL_ 1093 Sig_1 0 \"off\" 1 \"on; or so\";
VAL_ 1093 Sig_2 0 \"off\" 1 \"on; or so\";
SIG_VALTYPE_ 2287524058 Sig_0 : 1;
",
];

/// A signal as the library reads it: which text, the message's identifier with bit 31 for an extended
/// one, the message's name, the signal's name, its start as DBC files number bits, its length,
/// whether it is big-endian, signed and a float, and its number in `PAYLOAD`, or 0 for a float.
pub(crate) type Row = (
    usize,
    u32,
    &'static [u8],
    &'static [u8],
    u16,
    u16,
    bool,
    bool,
    bool,
    i128,
);

/// The signals of the texts.
pub(crate) static ROWS: [Row; 27] = [
    (
        0,
        2215244084,
        b"Frame_1_0",
        b"Sig_0",
        31,
        2,
        false,
        true,
        false,
        -2,
    ),
    (
        0,
        2215244084,
        b"Frame_1_0",
        b"Sig_1",
        37,
        1,
        true,
        true,
        false,
        0,
    ),
    (
        0,
        2215244084,
        b"Frame_1_0",
        b"Sig_2",
        46,
        8,
        true,
        true,
        false,
        -92,
    ),
    (
        0,
        1561,
        b"Frame_1_1",
        b"Sig_0",
        17,
        24,
        true,
        false,
        false,
        6046708,
    ),
    (
        0,
        1561,
        b"Frame_1_1",
        b"Sig_1",
        46,
        8,
        true,
        false,
        false,
        164,
    ),
    (
        0,
        2465730412,
        b"Frame_1_2",
        b"Sig_0",
        11,
        16,
        true,
        false,
        false,
        52823,
    ),
    (1, 231, b"Frame_2_0", b"Sig_0", 13, 2, false, true, false, 1),
    (
        1,
        648,
        b"Frame_2_1",
        b"Sig_0",
        39,
        24,
        true,
        false,
        false,
        1036872,
    ),
    (
        1,
        648,
        b"Frame_2_1",
        b"Sig_1",
        28,
        12,
        true,
        false,
        false,
        2183,
    ),
    (1, 648, b"Frame_2_1", b"Sig_2", 15, 5, true, true, false, 7),
    (
        1,
        648,
        b"Frame_2_1",
        b"Sig_3",
        38,
        16,
        true,
        false,
        false,
        8100,
    ),
    (
        1,
        1491,
        b"Frame_2_2",
        b"Sig_0",
        26,
        16,
        true,
        false,
        false,
        8698,
    ),
    (
        1,
        1491,
        b"Frame_2_2",
        b"Sig_1",
        29,
        8,
        false,
        false,
        false,
        123,
    ),
    (
        1,
        1491,
        b"Frame_2_2",
        b"Sig_2",
        9,
        16,
        true,
        false,
        false,
        14684,
    ),
    (
        1,
        680,
        b"Frame_2_3",
        b"Sig_0",
        32,
        32,
        false,
        false,
        true,
        0,
    ),
    (
        1,
        680,
        b"Frame_2_3",
        b"Sig_1",
        11,
        16,
        true,
        false,
        false,
        52823,
    ),
    (
        1,
        680,
        b"Frame_2_3",
        b"Sig_2",
        48,
        2,
        false,
        false,
        false,
        0,
    ),
    (
        2,
        2287524058,
        b"Frame_3_0",
        b"Sig_0",
        25,
        32,
        true,
        true,
        true,
        0,
    ),
    (
        2,
        2287524058,
        b"Frame_3_0",
        b"Sig_1",
        4,
        32,
        false,
        false,
        false,
        4145959881,
    ),
    (
        2,
        2287524058,
        b"Frame_3_0",
        b"Sig_2",
        33,
        5,
        true,
        false,
        false,
        30,
    ),
    (
        2,
        1587,
        b"Frame_3_1",
        b"Sig_0",
        15,
        24,
        true,
        false,
        false,
        3990897,
    ),
    (
        2,
        1587,
        b"Frame_3_1",
        b"Sig_1",
        22,
        32,
        false,
        false,
        false,
        591936967,
    ),
    (
        2,
        1587,
        b"Frame_3_1",
        b"Sig_2",
        13,
        24,
        true,
        false,
        false,
        15963588,
    ),
    (
        2,
        1587,
        b"Frame_3_1",
        b"Sig_3",
        10,
        16,
        true,
        false,
        false,
        40110,
    ),
    (
        2,
        1093,
        b"Frame_3_2",
        b"Sig_0",
        26,
        2,
        false,
        false,
        false,
        0,
    ),
    (
        2,
        1093,
        b"Frame_3_2",
        b"Sig_1",
        39,
        5,
        false,
        true,
        false,
        4,
    ),
    (
        2,
        1093,
        b"Frame_3_2",
        b"Sig_2",
        4,
        1,
        false,
        false,
        false,
        1,
    ),
];
