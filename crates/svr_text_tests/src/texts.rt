// Texts with their tokens or their fault.
use std::alloc::Global;
use svr_lex::{LexFault, lex};
use svr_token::{Kind, Token};

/// Texts with the marks of their tokens: a great letter for the kind of a token at its first byte, small ones at its others, and a blank at what is of no token.
const TOKENS: &[(&[u8], &[u8])] = &[
    (b"", b""),
    (b" \t\r\n\x0c", b"     "),
    (b"rand bit", b"Nnnn Nnn"),
    (b"_a$9", b"Nnnn"),
    (b"4's", b"LMN"),
    (b"4'{", b"LMm"),
    (b"4'0", b"LLl"),
    (b"'1", b"Ll"),
    (b"'x", b"MN"),
    (b"'s", b"MN"),
    (b"'2", b"ML"),
    (b"8'shF_f", b"Lllllll"),
    (b"'o17", b"Llll"),
    (b"1_6'd9", b"Llllll"),
    (b"64'hffff_ffff_ffff_ffff", b"Lllllllllllllllllllllll"),
    (b"64'd99999999999999999999", b"Llllllllllllllllllllllll"),
    (b"4294967295", b"Llllllllll"),
    (b"1_", b"Ll"),
    (b"a<<<=b", b"NMmmMN"),
    (b"<->", b"Mmm"),
    (b"<-", b"MM"),
    (b"<=>", b"MmM"),
    (b"===!==", b"MmmMmm"),
    (b"====", b"MmmM"),
    (b"~^~&~|^~~", b"MmMmMmMmM"),
    (b"&&&|||", b"MmMMmM"),
    (b":::=:/::", b"MmMmMmMm"),
    (b">>>->", b"MmmMm"),
    (b">=>>", b"MmMm"),
    (b"(){};,.?", b"MMMMMMMM"),
    (b"+-*~-&>", b"MMMMMMM"),
    (b"%!^|=", b"MMMMM"),
    (b"$", b"M"),
    (b"[$:5]", b"MMMLM"),
    (b"$signed(a)", b"SssssssMNM"),
    (b"$unsigned", b"Sssssssss"),
    (b"$$", b"MM"),
    (b"a//b\nc", b"N    N"),
    (b"a//b\rc", b"N     "),
    (b"a//", b"N  "),
    (b"/**/a", b"    N"),
    (b"/***/a", b"     N"),
    (b"/* /* */ */", b"         MM"),
    (b"a/b", b"NMN"),
    (b"a/ *b", b"NM MN"),
    (b"// /*\na", b"      N"),
];

const FAULTS: &[(&[u8], LexFault)] = &[
    (b"#", LexFault::BadByte { at: 0 }),
    (b"a #", LexFault::BadByte { at: 2 }),
    (b"a#b", LexFault::BadByte { at: 1 }),
    (b"\"", LexFault::BadByte { at: 0 }),
    (b"\\", LexFault::BadByte { at: 0 }),
    (b"@a", LexFault::BadByte { at: 0 }),
    (b"`", LexFault::BadByte { at: 0 }),
    (b"\x80", LexFault::BadByte { at: 0 }),
    (b"a\x00", LexFault::BadByte { at: 1 }),
    (b"a\x0bb", LexFault::BadByte { at: 1 }),
    (b"$foo", LexFault::BadByte { at: 0 }),
    (b"$_", LexFault::BadByte { at: 0 }),
    (b"a $signed5", LexFault::BadByte { at: 2 }),
    (b"$signed$", LexFault::BadByte { at: 0 }),
    (b"# /*", LexFault::BadByte { at: 0 }),
    (b"/* x", LexFault::OpenComment { at: 0 }),
    (b"/*/", LexFault::OpenComment { at: 0 }),
    (b"a /*", LexFault::OpenComment { at: 2 }),
    (b"a/**b*", LexFault::OpenComment { at: 1 }),
    (b"/* */ /* * /", LexFault::OpenComment { at: 6 }),
    (b"0'd1", LexFault::BadLiteral { at: 0 }),
    (b"00'h", LexFault::BadLiteral { at: 0 }),
    (b"4'b", LexFault::BadLiteral { at: 0 }),
    (b"4'b_1", LexFault::BadLiteral { at: 0 }),
    (b"4'b2", LexFault::BadLiteral { at: 0 }),
    (b"'sd;", LexFault::BadLiteral { at: 0 }),
    (b"a'bc", LexFault::BadLiteral { at: 1 }),
    (b"12a", LexFault::BadLiteral { at: 0 }),
    (b"x 4'b12 y", LexFault::BadLiteral { at: 2 }),
    (b"'0_", LexFault::BadLiteral { at: 0 }),
    (b"'01", LexFault::BadLiteral { at: 0 }),
    (b"x 1$", LexFault::BadLiteral { at: 2 }),
    (b"65'd1x", LexFault::BadLiteral { at: 0 }),
    (b"4294967296x", LexFault::BadLiteral { at: 0 }),
    (b"65'd1", LexFault::LiteralTooWide { at: 0 }),
    (b"x 4294967296", LexFault::LiteralTooWide { at: 2 }),
    (b"'h1_0000_0000", LexFault::LiteralTooWide { at: 0 }),
    (
        b"a 99999999999999999999'd1",
        LexFault::LiteralTooWide { at: 2 },
    ),
    (b"65'd1 #", LexFault::LiteralTooWide { at: 0 }),
    (b"1 /* 2 */ 65'd1 0'd1", LexFault::LiteralTooWide { at: 10 }),
];

/// The marks of a token: at its first byte, and at its others.
fn marks_of(kind: Kind) -> (u8, u8) {
    match kind {
        Kind::Literal => (b'L', b'l'),
        Kind::Mark => (b'M', b'm'),
        Kind::Name => (b'N', b'n'),
        Kind::System => (b'S', b's'),
    }
}

fn are_all(marks: &[u8], mark: u8) -> bool {
    for one in marks {
        if *one != mark {
            return false;
        }
    }
    true
}

/// Whether blanks from `before` on lead to the token, and it is marked.
fn is_marked(token: &Token, before: u32, marks: &[u8]) -> bool {
    let (first, other) = marks_of(token.kind);
    let (start, stop) = (token.start as usize, token.stop as usize);
    match (marks.get(before as usize..start), marks.get(start..stop)) {
        (Some(blanks), Some([one, others @ ..])) => {
            are_all(blanks, b' ') && *one == first && are_all(others, other)
        }
        _ => false,
    }
}

fn are_marked(tokens: &[Token], marks: &[u8]) -> bool {
    let mut at = 0;
    for token in tokens {
        if !is_marked(token, at, marks) {
            return false;
        }
        at = token.stop;
    }
    match marks.get(at as usize..) {
        Some(rest) => are_all(rest, b' '),
        None => false,
    }
}

fn has_tokens(alloc: Global, text: &[u8], marks: &[u8]) -> bool {
    if text.len() > 100 || text.len() != marks.len() {
        return false;
    }
    match lex(alloc, text) {
        Ok(tokens) => are_marked(&tokens, marks),
        Err(_) => false,
    }
}

#[test]
fn tokens(rt: HostRuntime) {
    for (text, marks) in TOKENS {
        assert!(rt; has_tokens(rt.alloc(), text, marks), "at {text:?}");
    }
}

#[test]
fn faults(rt: HostRuntime) {
    for (text, wanted) in FAULTS {
        assert!(rt; text.len() <= 100);
        assert!(rt; lex(rt.alloc(), text).err() == Some(*wanted), "at {text:?}");
    }
}
