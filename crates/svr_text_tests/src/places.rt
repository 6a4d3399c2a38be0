// Places by line and column.

use svr_refusal::{Place, place_of, token_start};
use svr_token::{Kind, Token};

#[test]
fn places_by_line_and_column(rt: HostRuntime) {
    let text = b"ab\n\tc";
    let places = [
        (0, 1, 1),
        (2, 1, 3),
        (3, 2, 1),
        (4, 2, 2),
        (5, 2, 3),
        (9, 2, 3),
    ];
    for (at, line, column) in places {
        assert!(rt; place_of(text, at) == Place { line, column });
    }
    let token = Token {
        kind: Kind::Name,
        start: 4,
        stop: 5,
    };
    assert!(rt; token_start(text, &[token], 0) == 4);
    assert!(rt; token_start(text, &[token], 1) == 5);
}
