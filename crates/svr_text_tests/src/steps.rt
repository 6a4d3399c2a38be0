// The steps of a reader.

use svr_reader::{Cursor, Fixed, ReadFault, lexemes};
use svr_token::{Kind, Lexeme, Mark, NameKind, Token, Word};

// `soft a ;`
const ITEM: [Lexeme; 3] = [
    Lexeme::Word(Word::Soft),
    Lexeme::Name(NameKind::Plain),
    Lexeme::Mark(Mark::Semicolon),
];

// another mark is not taken, `soft` is, and just once
fn takes_soft(cursor: &mut Cursor<'_>) -> bool {
    cursor.expect(Fixed::Mark(Mark::Semicolon)) == Err(ReadFault::Unexpected(3))
        && cursor.eat(Fixed::Word(Word::Soft))
        && !cursor.eat(Fixed::Word(Word::Soft))
}

// the name is taken only where there is room
fn takes_name(cursor: &mut Cursor<'_>) -> bool {
    cursor.enter(0, 1) == Err(ReadFault::TooDeep(2)) && cursor.enter(1, 1) == Ok(1)
}

// behind the mark there is nothing
fn takes_mark(cursor: &mut Cursor<'_>) -> bool {
    cursor.peek() == Some(Lexeme::Mark(Mark::Semicolon))
        && cursor.expect(Fixed::Mark(Mark::Semicolon)) == Ok(())
        && cursor.take() == Err(ReadFault::Unexpected(0))
}

#[test]
fn takes_token_by_token(rt: HostRuntime) {
    let mut cursor = Cursor::new(&ITEM);
    let taken = takes_soft(&mut cursor) && takes_name(&mut cursor) && takes_mark(&mut cursor);
    assert!(rt; taken);
}

#[test]
fn a_mark_is_spelled(rt: HostRuntime) {
    let token = Token {
        kind: Kind::Mark,
        start: 0,
        stop: 1,
    };
    match lexemes(rt.alloc(), b";", &[token]) {
        Ok(found) => assert!(rt; found.as_slice() == [Lexeme::Mark(Mark::Semicolon)].as_slice()),
        Err(_) => panic!(rt; "no memory"),
    }
}
