// The scripts of loads of one class and of five.

use crate::load::load_text;

const ONE: &[u8] =
    b"class C1;\nrand bit [15:0] a; rand bit [15:0] b; rand bit [7:0] d [];\nconstraint c { a + b == 16'd37; a < b; d.size() == 2;\nforeach (d[k]) d[k] > k; soft d[0] == 8'd9; }\nendclass\nmodule m;\ninitial begin\nC1 p1 = new;\np1.randomize();\nend\nendmodule\n";

const FIFTH: &[u8] =
    b"constraint z { d[0] == 0; }\nendclass\nmodule m;\ninitial begin\nC1 p1 = new;\nC2 p2 = new;\nC3 p3 = new;\nC4 p4 = new;\nC5 p5 = new;\np1.randomize();\np2.randomize();\np3.randomize();\np4.randomize();\np5.randomize();\nend\nendmodule\n";

#[test]
fn one_class(rt: HostRuntime) {
    match load_text(rt.alloc(), 1) {
        Ok(text) => assert!(rt; text.as_slice() == ONE),
        Err(_) => panic!(rt; "there is no text of one class"),
    }
}

#[test]
fn every_fifth_contradicts_itself(rt: HostRuntime) {
    match load_text(rt.alloc(), 5) {
        Ok(text) => assert!(rt; text.ends_with(FIFTH)),
        Err(_) => panic!(rt; "there is no text of five classes"),
    }
}
