// The texts that are fixed: reserved words, names of methods, system names and marks.
ghost use Rattle.std.specs.Prelude.{◌≡◌};
ghost use Rattle.svr_token.specs.Tables.{entry_of, entries_seen, word_of, mark_of, system_of};

use crate::lexeme::{Lexeme, Mark, NameKind, SystemName, Word};

const WORDS: [(&[u8], Lexeme); 51] = [
    (b"assert", Lexeme::Word(Word::Assert)),
    (b"before", Lexeme::Word(Word::Before)),
    (b"begin", Lexeme::Word(Word::Begin)),
    (b"bit", Lexeme::Word(Word::Bit)),
    (b"byte", Lexeme::Word(Word::Byte)),
    (b"class", Lexeme::Word(Word::Class)),
    (b"constraint", Lexeme::Word(Word::Constraint)),
    (b"disable", Lexeme::Word(Word::Disable)),
    (b"dist", Lexeme::Word(Word::Dist)),
    (b"else", Lexeme::Word(Word::Else)),
    (b"end", Lexeme::Word(Word::End)),
    (b"endclass", Lexeme::Word(Word::EndClass)),
    (b"endmodule", Lexeme::Word(Word::EndModule)),
    (b"endprogram", Lexeme::Word(Word::EndProgram)),
    (b"enum", Lexeme::Word(Word::Enum)),
    (b"extends", Lexeme::Word(Word::Extends)),
    (b"foreach", Lexeme::Word(Word::Foreach)),
    (b"if", Lexeme::Word(Word::If)),
    (b"initial", Lexeme::Word(Word::Initial)),
    (b"inside", Lexeme::Word(Word::Inside)),
    (b"int", Lexeme::Word(Word::Int)),
    (b"integer", Lexeme::Word(Word::Integer)),
    (b"local", Lexeme::Word(Word::Local)),
    (b"logic", Lexeme::Word(Word::Logic)),
    (b"longint", Lexeme::Word(Word::LongInt)),
    (b"module", Lexeme::Word(Word::Module)),
    (b"new", Lexeme::Word(Word::New)),
    (b"null", Lexeme::Word(Word::Null)),
    (b"program", Lexeme::Word(Word::Program)),
    (b"rand", Lexeme::Word(Word::Rand)),
    (b"randc", Lexeme::Word(Word::Randc)),
    (b"reg", Lexeme::Word(Word::Reg)),
    (b"repeat", Lexeme::Word(Word::Repeat)),
    (b"shortint", Lexeme::Word(Word::ShortInt)),
    (b"signed", Lexeme::Word(Word::Signed)),
    (b"soft", Lexeme::Word(Word::Soft)),
    (b"solve", Lexeme::Word(Word::Solve)),
    (b"this", Lexeme::Word(Word::This)),
    (b"typedef", Lexeme::Word(Word::TypeDef)),
    (b"unique", Lexeme::Word(Word::Unique)),
    (b"unsigned", Lexeme::Word(Word::Unsigned)),
    (b"void", Lexeme::Word(Word::Void)),
    (b"with", Lexeme::Word(Word::With)),
    (b"sum", Lexeme::Name(NameKind::Sum)),
    (b"product", Lexeme::Name(NameKind::Product)),
    (b"and", Lexeme::Name(NameKind::And)),
    (b"or", Lexeme::Name(NameKind::Or)),
    (b"xor", Lexeme::Name(NameKind::Xor)),
    (b"randomize", Lexeme::Name(NameKind::Randomize)),
    (b"rand_mode", Lexeme::Name(NameKind::RandMode)),
    (b"constraint_mode", Lexeme::Name(NameKind::ConstraintMode)),
];

const MARKS: [(&[u8], Lexeme); 48] = [
    (b"(", Lexeme::Mark(Mark::OpenParen)),
    (b")", Lexeme::Mark(Mark::CloseParen)),
    (b"[", Lexeme::Mark(Mark::OpenBracket)),
    (b"]", Lexeme::Mark(Mark::CloseBracket)),
    (b"{", Lexeme::Mark(Mark::OpenBrace)),
    (b"}", Lexeme::Mark(Mark::CloseBrace)),
    (b"'{", Lexeme::Mark(Mark::OpenPattern)),
    (b"'", Lexeme::Mark(Mark::Apostrophe)),
    (b";", Lexeme::Mark(Mark::Semicolon)),
    (b",", Lexeme::Mark(Mark::Comma)),
    (b".", Lexeme::Mark(Mark::Dot)),
    (b":", Lexeme::Mark(Mark::Colon)),
    (b"::", Lexeme::Mark(Mark::DoubleColon)),
    (b":=", Lexeme::Mark(Mark::ColonEqual)),
    (b":/", Lexeme::Mark(Mark::ColonSlash)),
    (b"?", Lexeme::Mark(Mark::Question)),
    (b"=", Lexeme::Mark(Mark::Assign)),
    (b"+", Lexeme::Mark(Mark::Plus)),
    (b"-", Lexeme::Mark(Mark::Minus)),
    (b"*", Lexeme::Mark(Mark::Star)),
    (b"/", Lexeme::Mark(Mark::Slash)),
    (b"%", Lexeme::Mark(Mark::Percent)),
    (b"~", Lexeme::Mark(Mark::Tilde)),
    (b"!", Lexeme::Mark(Mark::Bang)),
    (b"&", Lexeme::Mark(Mark::And)),
    (b"|", Lexeme::Mark(Mark::Or)),
    (b"^", Lexeme::Mark(Mark::Xor)),
    (b"&&", Lexeme::Mark(Mark::AndAnd)),
    (b"||", Lexeme::Mark(Mark::OrOr)),
    (b"~&", Lexeme::Mark(Mark::Nand)),
    (b"~|", Lexeme::Mark(Mark::Nor)),
    (b"~^", Lexeme::Mark(Mark::TildeXor)),
    (b"^~", Lexeme::Mark(Mark::XorTilde)),
    (b"<", Lexeme::Mark(Mark::Less)),
    (b">", Lexeme::Mark(Mark::Greater)),
    (b"<=", Lexeme::Mark(Mark::AtMost)),
    (b">=", Lexeme::Mark(Mark::AtLeast)),
    (b"==", Lexeme::Mark(Mark::Equal)),
    (b"!=", Lexeme::Mark(Mark::NotEqual)),
    (b"===", Lexeme::Mark(Mark::CaseEqual)),
    (b"!==", Lexeme::Mark(Mark::CaseNotEqual)),
    (b"<<", Lexeme::Mark(Mark::ShiftLeft)),
    (b">>", Lexeme::Mark(Mark::ShiftRight)),
    (b"<<<", Lexeme::Mark(Mark::ShiftLeftArith)),
    (b">>>", Lexeme::Mark(Mark::ShiftRightArith)),
    (b"->", Lexeme::Mark(Mark::Arrow)),
    (b"<->", Lexeme::Mark(Mark::DoubleArrow)),
    (b"$", Lexeme::Mark(Mark::Dollar)),
];

const SYSTEM_NAMES: [(&[u8], Lexeme); 2] = [
    (b"$signed", Lexeme::System(SystemName::Signed)),
    (b"$unsigned", Lexeme::System(SystemName::Unsigned)),
];

/// The reserved word, or the name of a method, that the bytes are.
pub(crate) fn word(bytes: &[u8]) -> Option<Lexeme>
    ensures { result ≡ word_of bytes.now }
{
    entry(&WORDS, bytes)
}

/// The mark that the bytes are.
pub(crate) fn mark(bytes: &[u8]) -> Option<Lexeme>
    ensures { result ≡ mark_of bytes.now }
{
    entry(&MARKS, bytes)
}

/// The system name that the bytes are.
pub(crate) fn system_name(bytes: &[u8]) -> Option<Lexeme>
    ensures { result ≡ system_of bytes.now }
{
    entry(&SYSTEM_NAMES, bytes)
}

fn entry(table: &[(&[u8], Lexeme)], bytes: &[u8]) -> Option<Lexeme>
    ensures { result ≡ entry_of (entries_seen table.now) bytes.now }
{
    for (text, lexeme) in table {
        if *text == bytes {
            return Some(*lexeme);
        }
    }
    None
}
