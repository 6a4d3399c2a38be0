// What bytes spell.
use svr_token::{Lexeme, Mark, NameKind, SystemName, Word, lexeme_from};

const SPELLED: &[(&[u8], Lexeme)] = &[
    (b"randc", Lexeme::Word(Word::Randc)),
    (b"before", Lexeme::Word(Word::Before)),
    (b"sum", Lexeme::Name(NameKind::Sum)),
    (b"product", Lexeme::Name(NameKind::Product)),
    (b"and", Lexeme::Name(NameKind::And)),
    (b"or", Lexeme::Name(NameKind::Or)),
    (b"xor", Lexeme::Name(NameKind::Xor)),
    (b"randomize", Lexeme::Name(NameKind::Randomize)),
    (b"rand_mode", Lexeme::Name(NameKind::RandMode)),
    (b"constraint_mode", Lexeme::Name(NameKind::ConstraintMode)),
    (b"randomize2", Lexeme::Name(NameKind::Plain)),
    (b"Rand", Lexeme::Name(NameKind::Plain)),
    (b"_", Lexeme::Name(NameKind::Plain)),
    (b"$signed", Lexeme::System(SystemName::Signed)),
    (b"$unsigned", Lexeme::System(SystemName::Unsigned)),
    (b"<->", Lexeme::Mark(Mark::DoubleArrow)),
    (b"'{", Lexeme::Mark(Mark::OpenPattern)),
    (
        b"10",
        Lexeme::Literal {
            value: 10,
            width: 32,
            signed: true,
        },
    ),
    (
        b"1_000",
        Lexeme::Literal {
            value: 1000,
            width: 32,
            signed: true,
        },
    ),
    (
        b"4294967295",
        Lexeme::Literal {
            value: 4294967295,
            width: 32,
            signed: true,
        },
    ),
    (
        b"4'b1010",
        Lexeme::Literal {
            value: 10,
            width: 4,
            signed: false,
        },
    ),
    (
        b"4'sb1111",
        Lexeme::Literal {
            value: 15,
            width: 4,
            signed: true,
        },
    ),
    (
        b"4'hff",
        Lexeme::Literal {
            value: 15,
            width: 4,
            signed: false,
        },
    ),
    (
        b"8'SHfF",
        Lexeme::Literal {
            value: 255,
            width: 8,
            signed: true,
        },
    ),
    (
        b"3'o17",
        Lexeme::Literal {
            value: 7,
            width: 3,
            signed: false,
        },
    ),
    (
        b"1'b1",
        Lexeme::Literal {
            value: 1,
            width: 1,
            signed: false,
        },
    ),
    (
        b"1_6'D1_0",
        Lexeme::Literal {
            value: 10,
            width: 16,
            signed: false,
        },
    ),
    (
        b"64'hffff_ffff_ffff_ffff",
        Lexeme::Literal {
            value: 18446744073709551615,
            width: 64,
            signed: false,
        },
    ),
    (
        b"64'd18446744073709551617",
        Lexeme::Literal {
            value: 1,
            width: 64,
            signed: false,
        },
    ),
    (
        b"'d5",
        Lexeme::Literal {
            value: 5,
            width: 32,
            signed: false,
        },
    ),
    (
        b"'sd5",
        Lexeme::Literal {
            value: 5,
            width: 32,
            signed: true,
        },
    ),
    (
        b"'hffff_ffff",
        Lexeme::Literal {
            value: 4294967295,
            width: 32,
            signed: false,
        },
    ),
    (
        b"1'd4294967297",
        Lexeme::Literal {
            value: 1,
            width: 1,
            signed: false,
        },
    ),
    (
        b"'0",
        Lexeme::Literal {
            value: 0,
            width: 0,
            signed: false,
        },
    ),
    (
        b"'1",
        Lexeme::Literal {
            value: 1,
            width: 0,
            signed: false,
        },
    ),
    (b"/", Lexeme::Mark(Mark::Slash)),
];

const UNSPELLED: &[&[u8]] = &[
    b"",
    b"a b",
    b"12a",
    b"4'b",
    b"4's",
    b"4'b_1",
    b"0'd1",
    b"65'd1",
    b"4294967296",
    b"'h1_0000_0000",
    b"$foo",
    b"<<>",
    b"'2",
    b" a",
];

#[test]
fn lexemes(rt: HostRuntime) {
    for (bytes, lexeme) in SPELLED {
        assert!(rt; lexeme_from(bytes) == Some(*lexeme), "at {bytes:?}");
    }
    for bytes in UNSPELLED {
        assert!(rt; lexeme_from(bytes) == None, "at {bytes:?}");
    }
}
