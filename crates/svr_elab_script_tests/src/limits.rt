// Limits that only long texts reach: texts made of one name, written with a number many times.

use crate::saying::{is_accepted, is_refused};
use std::alloc::Global;

/// A text of one line: `front`, a list, and `rest`. Each of the list is a letter and four digits, with `tail` behind it.
struct Series {
    front: &'static [u8],
    letter: u8,
    tail: &'static [u8],
    rest: &'static [u8],
    /// How many there may be.
    most: u32,
    /// The number under which one more is refused, and the column of its place.
    number: u8,
    column: u32,
}

const SERIES: &[Series] = &[
    // properties of a class
    Series {
        front: b"class C; bit ",
        letter: b'a',
        tail: b"",
        rest: b"; endclass module m; initial begin end endmodule",
        most: 1024,
        number: 25,
        column: 7182,
    },
    // properties of a class that inherits two
    Series {
        front: b"class B; bit s, t; endclass class D extends B; bit ",
        letter: b'a',
        tail: b"",
        rest: b"; endclass module m; initial begin end endmodule",
        most: 1022,
        number: 25,
        column: 7206,
    },
    // arrays of a class
    Series {
        front: b"class C; bit ",
        letter: b'a',
        tail: b" [1]",
        rest: b"; endclass module m; initial begin end endmodule",
        most: 32,
        number: 25,
        column: 366,
    },
    // members of an enum
    Series {
        front: b"typedef enum { ",
        letter: b'a',
        tail: b"",
        rest: b" } e; class C; rand e x; endclass module m; initial begin end endmodule",
        most: 1024,
        number: 25,
        column: 7184,
    },
    // members of the enum of a cyclic property
    Series {
        front: b"typedef enum { ",
        letter: b'a',
        tail: b"",
        rest: b" } e; class C; randc e x; endclass module m; initial begin end endmodule",
        most: 256,
        number: 13,
        column: 1836,
    },
    // variables of a script
    Series {
        front: b"module m; bit ",
        letter: b'a',
        tail: b"",
        rest: b"; initial begin end endmodule",
        most: 4096,
        number: 25,
        column: 28687,
    },
    // object variables of a script
    Series {
        front: b"class P; endclass module m; P ",
        letter: b'a',
        tail: b"",
        rest: b"; initial begin end endmodule",
        most: 4096,
        number: 25,
        column: 28703,
    },
    // elements of a pattern
    Series {
        front: b"class P; bit d []; endclass module m; initial begin P p = new; p.d = '{",
        letter: b'1',
        tail: b"",
        rest: b"}; end endmodule",
        most: 2048,
        number: 25,
        column: 70,
    },
];

fn added(text: &mut Vec<u8>, bytes: &[u8]) {
    let _unmet = text.extend_from_slice(bytes).is_err();
}

fn name_of(letter: u8, number: u32) -> [u8; 5] {
    [
        letter,
        b'0' + (number / 1000 % 10) as u8,
        b'0' + (number / 100 % 10) as u8,
        b'0' + (number / 10 % 10) as u8,
        b'0' + (number % 10) as u8,
    ]
}

/// The text with so many in its list. Where there is no memory a part is left out, and the text is another.
fn text_of(alloc: Global, series: &Series, count: u32) -> Vec<u8> {
    let mut text = Vec::new(alloc);
    added(&mut text, series.front);
    for number in 0..count {
        if number > 0 {
            added(&mut text, b", ");
        }
        added(&mut text, &name_of(series.letter, number));
        added(&mut text, series.tail);
    }
    added(&mut text, series.rest);
    text
}

fn is_accepted_with(alloc: Global, series: &Series, count: u32) -> bool {
    let text = text_of(alloc, series, count);
    is_accepted(alloc, &text)
}

fn is_refused_with(alloc: Global, series: &Series, count: u32) -> bool {
    let text = text_of(alloc, series, count);
    is_refused(alloc, &text, series.number, 1, series.column)
}

/// Whether as many as there may be are accepted, and one more is refused at its place.
fn is_limited(alloc: Global, series: &Series) -> bool {
    is_accepted_with(alloc, series, series.most)
        && is_refused_with(alloc, series, series.most.saturating_add(1))
}

#[test]
fn lists_are_limited(rt: HostRuntime) {
    for series in SERIES {
        assert!(rt; is_limited(rt.alloc(), series));
    }
}
