// Examples whose whole text follows from the script.

use crate::running::printed;
use crate::texts::{CONTRADICTION, FIRST};
use std::alloc::Global;

fn prints(alloc: Global, script: &[&[u8]], seed: u64, text: &[u8]) -> bool {
    let said = printed(alloc, script, seed);
    said.as_slice() == text
}

#[test]
fn first(rt: HostRuntime) {
    assert!(rt; prints(rt.alloc(), &FIRST, 1, b"#1 p 1 a=5\n"));
}

#[test]
fn contradiction(rt: HostRuntime) {
    for seed in 0..4 {
        assert!(rt;
            prints(
                rt.alloc(),
                &CONTRADICTION,
                seed,
                b"#1 r 0 hard\n#2 r 1 first=1 second=0 third=0\n"
            ),
            "seed {seed}"
        );
    }
}
