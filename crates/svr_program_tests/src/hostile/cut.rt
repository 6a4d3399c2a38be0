// A text that is cut off at each of its bytes.

use crate::hostile::asking::{plain, prints};
use crate::hostile::texts::PACKET;
use std::alloc::Global;
use svr_status::Status;

/// Whether a text is refused at an unexpected token or at its end.
fn is_unexpected(alloc: Global, text: &[u8]) -> bool {
    let asked = plain(&["run"], text);
    prints(alloc, &asked, Status::Refused, b"refused ", b" 5\n")
}

/// Whether each front of a text is, but for the whole.
fn each_front_is_unexpected(alloc: Global, text: &[u8]) -> bool {
    for end in 0..text.len() {
        if !is_unexpected(alloc, &text[..end]) {
            return false;
        }
    }
    true
}

#[test]
fn a_text_that_is_cut_off_is_refused(rt: HostRuntime) {
    assert!(rt; each_front_is_unexpected(rt.alloc(), PACKET));
}
