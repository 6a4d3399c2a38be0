// What the lines of calls tell: single lines, and the numbers in them.

use crate::held::added;
use std::alloc::Global;

/// A number of a line: the line, the word and the element in which it stands, each counted from 0. A name counts as its bytes, at the base 256.
#[derive(Clone, Copy)]
pub(crate) struct Told {
    line: u64,
    word: u64,
    element: u64,
    number: u64,
}

/// The place that is read, and whether a number has begun there.
#[derive(Clone, Copy)]
struct Place {
    told: Told,
    is_open: bool,
}

const BEGIN: Told = Told {
    line: 0,
    word: 0,
    element: 0,
    number: 0,
};

fn begins(told: Told) -> Place {
    Place {
        told,
        is_open: false,
    }
}

/// A number or a name with one byte more.
fn with_byte(told: Told, byte: u8) -> Place {
    let digit = u64::from(byte.wrapping_sub(b'0'));
    let number = match byte {
        b'0'..=b'9' => told.number.wrapping_mul(10).wrapping_add(digit),
        _ => told.number.wrapping_mul(256).wrapping_add(u64::from(byte)),
    };
    Place {
        told: Told { number, ..told },
        is_open: true,
    }
}

/// The place behind a byte. What stands before `=` is the name of a property, and no number.
fn behind(place: Place, byte: u8) -> Place {
    let told = place.told;
    match byte {
        b'\n' => begins(Told {
            line: told.line.wrapping_add(1),
            ..BEGIN
        }),
        b' ' => begins(Told {
            line: told.line,
            word: told.word.wrapping_add(1),
            ..BEGIN
        }),
        b',' => begins(Told {
            element: told.element.wrapping_add(1),
            number: 0,
            ..told
        }),
        b'=' | b'[' | b']' | b'#' => begins(Told { number: 0, ..told }),
        _ => with_byte(told, byte),
    }
}

/// Whether a byte ends the number before it.
fn is_end(byte: u8) -> bool {
    match byte {
        b'\n' => true,
        b' ' => true,
        b',' => true,
        b']' => true,
        _ => false,
    }
}

/// The numbers of a text of lines.
pub(crate) fn numbers(alloc: Global, text: &[u8]) -> Vec<Told> {
    let mut numbers = Vec::new(alloc);
    let mut place = begins(BEGIN);
    for byte in text {
        if place.is_open && is_end(*byte) {
            added(&mut numbers, place.told);
        }
        place = behind(place, *byte);
    }
    numbers
}

/// The number at a place; 0 where there is none.
pub(crate) fn number(numbers: &[Told], line: u64, word: u64, element: u64) -> u64 {
    for told in numbers {
        if told.line == line && told.word == word && told.element == element {
            return told.number;
        }
    }
    0
}

/// How many elements a word has.
pub(crate) fn count(numbers: &[Told], line: u64, word: u64) -> u64 {
    let mut count: u64 = 0;
    for told in numbers {
        if told.line == line && told.word == word {
            count = count.wrapping_add(1);
        }
    }
    count
}

/// The sum of the elements of a word.
pub(crate) fn sum(numbers: &[Told], line: u64, word: u64) -> u64 {
    let mut sum: u64 = 0;
    for told in numbers {
        if told.line == line && told.word == word {
            sum = sum.wrapping_add(told.number);
        }
    }
    sum
}

/// Whether the line of a number, counted from 0, is this one.
pub(crate) fn is_line(alloc: Global, text: &[u8], number: u64, line: &[u8]) -> bool {
    let mut found = Vec::new(alloc);
    let mut at: u64 = 0;
    for byte in text {
        if *byte == b'\n' {
            at = at.wrapping_add(1);
        } else if at == number {
            added(&mut found, *byte);
        }
    }
    found.as_slice() == line
}
