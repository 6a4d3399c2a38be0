// What cover groups count, and what is refused in them.

use crate::asking::{Case, Fronts, plain, says, tells};
use crate::held::joined;
use crate::scripts::script;
use std::alloc::Global;
use svr_status::Status;

/// Words, cover groups, a class with these items, and these statements: how the run ends, and what it prints.
#[derive(Clone, Copy)]
struct Coverage {
    words: &'static [&'static str],
    groups: &'static [u8],
    items: &'static [u8],
    stmts: &'static [u8],
    status: Status,
    written: &'static [u8],
}

/// Groups before a class with these items and these statements.
fn text_of(alloc: Global, row: &Coverage) -> Vec<u8> {
    let mut text = Vec::new(alloc);
    joined(&mut text, row.groups);
    let behind = script(alloc, row.items, row.stmts);
    joined(&mut text, &behind);
    text
}

fn prints(alloc: Global, row: &Coverage) -> bool {
    let text = text_of(alloc, row);
    says(alloc, &plain(row.words, &text), row.status, row.written)
}

const GROUPS: &[u8] = b"covergroup g with function sample(P p);
x: coverpoint p.a { bins low = {[0:7]}; bins each[] = {3, 9}; }
y: coverpoint p.b { bins zero = {0}; bins one = {1}; }
xy: cross x, y;
endgroup
";

const REPORT: &[u8] = b"#1 p 1 a=3 b=0
#2 p 1 a=9 b=0
#3 p 0 hard
group g samples 2
point x hit 3 of 3
bin low 1
bin each[3] 1
bin each[9] 1
point y hit 1 of 2
bin zero 2
bin one 0
cross xy hit 3 of 6
bin <low,zero> 1
bin <low,one> 0
bin <each[3],zero> 1
bin <each[3],one> 0
bin <each[9],zero> 1
bin <each[9],one> 0
";

const SHARED: &[u8] = b"covergroup g with function sample(P p);
x: coverpoint p.a { bins low = {[0:3], 5}; bins odd = {1, 3, 5, [3:3]}; bins never = {-1, 16}; }
y: coverpoint p.b { bins any = {[0:1]}; bins both[] = {[0:1]}; }
xy: cross y, x;
endgroup
";

const IN_EACH: &[u8] = b"#1 p 1 a=3 b=1
group g samples 1
point x hit 2 of 3
bin low 1
bin odd 1
bin never 0
point y hit 2 of 3
bin any 1
bin both[0] 0
bin both[1] 1
cross xy hit 4 of 9
bin <any,low> 1
bin <any,odd> 1
bin <any,never> 0
bin <both[0],low> 0
bin <both[0],odd> 0
bin <both[0],never> 0
bin <both[1],low> 1
bin <both[1],odd> 1
bin <both[1],never> 0
";

const COVERAGES: [Coverage; 7] = [
    // The samples of a group, the bins that have their values, and tuples of such bins.
    Coverage {
        words: &["cover"],
        groups: GROUPS,
        items: b"rand bit [3:0] a; rand bit b;",
        stmts: b"p.randomize() with { a == 3; b == 0; }; p.randomize() with { a == 9; b == 0; }; p.randomize() with { a > 15; };",
        status: Status::SomeZero,
        written: REPORT,
    },
    // Without groups it is the run alone.
    Coverage {
        words: &["cover", "--seed=7"],
        groups: b"",
        items: b"rand bit [3:0] a; rand bit b;",
        stmts: b"p.randomize() with { a == 3; b == 0; };",
        status: Status::AllOne,
        written: b"#1 p 1 a=3 b=0\n",
    },
    // A group without parts counts its samples.
    Coverage {
        words: &["cover"],
        groups: b"covergroup empty with function sample(P p); endgroup\n",
        items: b"rand bit [3:0] a; rand bit b;",
        stmts: b"p.randomize() with { a == 3; b == 0; };",
        status: Status::AllOne,
        written: b"#1 p 1 a=3 b=0\ngroup empty samples 1\n",
    },
    // A value that several bins have counts in each of them, and in each tuple of such bins.
    Coverage {
        words: &["cover"],
        groups: SHARED,
        items: b"rand bit [3:0] a; rand bit b;",
        stmts: b"p.randomize() with { a == 3; b == 1; };",
        status: Status::AllOne,
        written: IN_EACH,
    },
    // Numbers are read by the sign of the property.
    Coverage {
        words: &["cover"],
        groups: b"covergroup g with function sample(P p);\nx: coverpoint p.s { bins low = {[-128:-1]}; bins near[] = {[-1:1]}; bins low_bits = {255}; }\nendgroup\n",
        items: b"rand byte s;",
        stmts: b"p.randomize() with { s == -1; }; p.randomize() with { s == 1; };",
        status: Status::AllOne,
        written: b"#1 p 1 s=-1\n#2 p 1 s=1\ngroup g samples 2\npoint x hit 3 of 5\nbin low 1\nbin near[-1] 1\nbin near[0] 0\nbin near[1] 1\nbin low_bits 0\n",
    },
    // A report stands behind a limit.
    Coverage {
        words: &["cover", "--size-cap=1"],
        groups: b"covergroup g with function sample(P p);\nx: coverpoint p.a { bins b = {1}; }\nendgroup\n",
        items: b"rand bit a; rand bit d []; constraint c { d.size() == 2; }",
        stmts: b"p.c.constraint_mode(0); p.randomize() with { a == 1; d.size() == 0; }; p.c.constraint_mode(1); p.randomize(); p.randomize();",
        status: Status::Limited,
        written: b"#1 p 1 a=1 d=[]\n#2 p limit size\ngroup g samples 1\npoint x hit 1 of 1\nbin b 1\n",
    },
    // A question that was given up is no sample.
    Coverage {
        words: &["cover", "--budget", "1"],
        groups: b"covergroup g with function sample(P p);\nx: coverpoint p.a { bins b = {1}; }\nendgroup\n",
        items: b"rand bit a; rand bit b; rand bit c; constraint u { a != b; b != c; a != c; } constraint d { a == 1; b == 0; c == 1; }",
        stmts: b"p.d.constraint_mode(0); p.randomize(); p.u.constraint_mode(0); p.d.constraint_mode(1); p.randomize();",
        status: Status::SomeGivenUp,
        written: b"#1 p gaveup hard\n#2 p 1 a=1 b=0 c=1\ngroup g samples 1\npoint x hit 1 of 1\nbin b 1\n",
    },
];

#[test]
fn groups_count_the_samples_of_a_run(rt: HostRuntime) {
    for (i, row) in COVERAGES.iter().enumerate() {
        assert!(rt; prints(rt.alloc(), row), "coverage {i}");
    }
}

/// Cover groups before a class with a number, a bit and an array, and statements: the refusal that is printed.
struct Refusal {
    groups: &'static [u8],
    stmts: &'static [u8],
    written: &'static [u8],
}

/// The same as a row of coverage.
fn refused(row: &Refusal) -> Coverage {
    Coverage {
        words: &["cover"],
        groups: row.groups,
        items: b"rand bit [3:0] a; rand bit b; bit d [2];",
        stmts: row.stmts,
        status: Status::Refused,
        written: row.written,
    }
}

const REFUSALS: [Refusal; 18] = [
    // A range without numbers.
    Refusal {
        groups: b"covergroup g with function sample(P p);\nx: coverpoint p.a { bins b = {1, [7:0]}; }\nendgroup\n",
        stmts: b"p.randomize();",
        written: b"refused 2:34 35\n",
    },
    // A number that stands in a `bins` with `[]` before.
    Refusal {
        groups: b"covergroup g with function sample(P p);\nx: coverpoint p.a { bins each[] = {3, 9, [2:4]}; }\nendgroup\n",
        stmts: b"p.randomize();",
        written: b"refused 2:42 35\n",
    },
    // A token with which no groups go on.
    Refusal {
        groups: b"covergroup g with function sample(P p);\nx: coverpoint p.a { iff b = {1}; }\nendgroup\n",
        stmts: b"p.randomize();",
        written: b"refused 2:21 31\n",
    },
    // `endgroup` is reserved in groups.
    Refusal {
        groups: b"covergroup g with function sample(P p);\nx: coverpoint p.a { bins endgroup = {1}; }\nendgroup\n",
        stmts: b"p.randomize();",
        written: b"refused 2:26 31\n",
    },
    // A class that there is not.
    Refusal {
        groups: b"covergroup g with function sample(Q p);\nx: coverpoint p.a { bins b = {1}; }\nendgroup\n",
        stmts: b"p.randomize();",
        written: b"refused 1:35 32\n",
    },
    // A name that is not the formal argument.
    Refusal {
        groups: b"covergroup g with function sample(P p);\nx: coverpoint q.a { bins b = {1}; }\nendgroup\n",
        stmts: b"p.randomize();",
        written: b"refused 2:15 32\n",
    },
    // An array is no scalar property.
    Refusal {
        groups: b"covergroup g with function sample(P p);\nx: coverpoint p.d { bins b = {1}; }\nendgroup\n",
        stmts: b"p.randomize();",
        written: b"refused 2:17 32\n",
    },
    // A point that stands behind its cross.
    Refusal {
        groups: b"covergroup g with function sample(P p);\nxy: cross x, x;\nx: coverpoint p.a { bins b = {1}; }\nendgroup\n",
        stmts: b"p.randomize();",
        written: b"refused 2:11 32\n",
    },
    // A second group of one name.
    Refusal {
        groups: b"covergroup g with function sample(P p); endgroup\ncovergroup g with function sample(P p); endgroup\n",
        stmts: b"p.randomize();",
        written: b"refused 2:12 33\n",
    },
    // A second part of one name.
    Refusal {
        groups: b"covergroup g with function sample(P p);\nx: coverpoint p.a { bins b = {1}; }\nx: coverpoint p.b { bins b = {1}; }\nendgroup\n",
        stmts: b"p.randomize();",
        written: b"refused 3:1 33\n",
    },
    // A second `bins` of one name.
    Refusal {
        groups: b"covergroup g with function sample(P p);\nx: coverpoint p.a { bins b = {1}; bins b = {2}; }\nendgroup\n",
        stmts: b"p.randomize();",
        written: b"refused 2:40 33\n",
    },
    // Over 1,024 bins in a point.
    Refusal {
        groups: b"covergroup g with function sample(P p);\nx: coverpoint p.a { bins b = {1}; bins each[] = {[0:1023]}; }\nendgroup\n",
        stmts: b"p.randomize();",
        written: b"refused 2:40 34\n",
    },
    // Over 65,536 tuples in a cross.
    Refusal {
        groups: b"covergroup g with function sample(P p);\nx: coverpoint p.a { bins b[] = {[0:255]}; }\ny: coverpoint p.b { bins b[] = {[0:256]}; }\nxy: cross x, y;\nendgroup\n",
        stmts: b"p.randomize();",
        written: b"refused 4:1 34\n",
    },
    // A lexical fault comes before all others.
    Refusal {
        groups: b"covergroup g with function sample(P p);\nx: coverpoint p.a { iff b = {[7:0]}; }\nendgroup\n",
        stmts: b"p.randomize();`",
        written: b"refused 10:15 1\n",
    },
    // Then what is no groups, before what is refused in the script.
    Refusal {
        groups: b"covergroup g with function sample(P p);\nx: coverpoint p.a { iff b = {[7:0]}; }\nendgroup\n",
        stmts: b"p.randomize() with { q == 1; };",
        written: b"refused 2:21 31\n",
    },
    // What is refused in the script comes before what is refused in its groups.
    Refusal {
        groups: b"covergroup g with function sample(P p);\nx: coverpoint p.a { bins b = {[7:0]}; }\nendgroup\n",
        stmts: b"p.randomize() with { q == 1; };",
        written: b"refused 10:22 7\n",
    },
    // And so does a script that is none.
    Refusal {
        groups: b"covergroup g with function sample(P p);\nx: coverpoint p.a { bins b = {[7:0]}; }\nendgroup\n",
        stmts: b"p.randomize()",
        written: b"refused 11:1 5\n",
    },
    // Of two refusals of groups the first in the text.
    Refusal {
        groups: b"covergroup g with function sample(P q);\nx: coverpoint p.a { bins b = {[7:0]}; }\nendgroup\n",
        stmts: b"p.randomize();",
        written: b"refused 2:15 32\n",
    },
];

#[test]
fn groups_are_refused_at_their_places(rt: HostRuntime) {
    for (i, row) in REFUSALS.iter().enumerate() {
        assert!(rt; prints(rt.alloc(), &refused(row)), "refusal {i}");
    }
}

const DERIVED: &[u8] = b"covergroup g with function sample(P p);
x: coverpoint p.a { bins b[] = {[0:3]}; }
endgroup
covergroup h with function sample(D d);
x: coverpoint d.a { bins b[] = {[0:3]}; }
endgroup
covergroup none with function sample(E e);
x: coverpoint e.a { bins b = {0}; }
endgroup
class P; rand bit [1:0] a; endclass
class D extends P; endclass
class E extends D; endclass
module m;
initial begin
P p = new;
D d = new;
p.randomize() with { a == 1; };
repeat (2) d.randomize() with { a == 2; };
end
endmodule
";

const OF_THEIR_CLASS: &[u8] = b"#1 p 1 a=1
#2 d 1 a=2
#3 d 1 a=2
group g samples 1
point x hit 1 of 4
bin b[0] 0
bin b[1] 1
bin b[2] 0
bin b[3] 0
group h samples 2
point x hit 1 of 4
bin b[0] 0
bin b[1] 0
bin b[2] 2
bin b[3] 0
group none samples 0
point x hit 0 of 1
bin b 0
";

#[test]
fn an_object_is_no_sample_of_its_base_class(rt: HostRuntime) {
    let asked = plain(&["cover"], DERIVED);
    assert!(rt; says(rt.alloc(), &asked, Status::AllOne, OF_THEIR_CLASS));
}

const LARGE: &[u8] = b"covergroup big with function sample(P p);
x: coverpoint p.a { bins b[] = {[0:255]}; }
y: coverpoint p.a { bins b[] = {[0:255]}; }
xy: cross x, y;
endgroup
class P;
rand bit [7:0] a;
endclass
module m;
initial begin
P p = new;
repeat (100) p.randomize() with { a == 255; };
end
endmodule
";

#[test]
fn a_cross_of_as_many_tuples_as_there_may_be(rt: HostRuntime) {
    let asked = Case {
        room: 4_000_000,
        ..plain(&["cover"], LARGE)
    };
    let fronts = Fronts {
        begin: b"#1 p 1 a=255\n#2 p 1 a=255\n",
        end: b"\nbin <b[255],b[254]> 0\nbin <b[255],b[255]> 100\n",
        journal: b"",
    };
    assert!(rt; tells(rt.alloc(), &asked, Status::AllOne, &fronts));
}

#[test]
fn a_sink_that_fails_ends_the_report(rt: HostRuntime) {
    let asked = Case {
        room: 60,
        ..plain(&["cover"], DERIVED)
    };
    assert!(rt;
        says(
            rt.alloc(),
            &asked,
            Status::WriteFault,
            b"#1 p 1 a=1\n#2 d 1 a=2\n#3 d 1 a=2\ngroup g samples 1\npoint x h"
        )
    );
}
