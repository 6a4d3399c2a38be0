// Scripts that several tests run.

/// A packet with an enum, an array whose size is a field, and an in-line set. No newline stands behind its last word.
pub(crate) const PACKET: &[u8] =
    b"typedef enum bit [1:0] { READ, WRITE, IDLE } kind_t;\nclass Packet;\n  rand kind_t kind;\n  rand int len;\n  rand bit [7:0] data [];\n  constraint c_len { len inside {[46:64]}; data.size() == len; }\n  constraint c_data { foreach (data[i]) data[i] == i; }\nendclass\nmodule m;\n  initial begin\n    Packet p = new();\n    assert (p.randomize() with { len == 46; kind == WRITE; });\n  end\nendmodule";

/// Three soft items, of which two are dropped.
pub(crate) const SOFT: &[u8] =
    b"class B;\nrand bit [3:0] x; constraint c { soft x == 1; }\nendclass\nclass D extends B;\nconstraint d { soft x == 2; }\nendclass\nmodule m;\ninitial begin\nD p = new;\np.randomize() with { soft x == 3; };\nend\nendmodule\n";

/// A cyclic property with one value, which the second call gives again in a new cycle.
pub(crate) const CYCLIC: &[u8] =
    b"class P;\nrandc bit [1:0] a; constraint c { a == 0; }\nendclass\nmodule m;\ninitial begin\nP p = new;\nrepeat (2) p.randomize();\nend\nendmodule\n";

/// Five calls, a line each.
pub(crate) const FIVE: &[u8] =
    b"class P;\nrandc bit [1:0] a;\nendclass\nmodule m;\ninitial begin\nP p = new;\nrepeat (5) p.randomize();\nend\nendmodule\n";

/// A question without an answer, which one step of the search does not answer.
pub(crate) const UNEQUAL: &[u8] =
    b"class P;\nrand bit a; rand bit b; rand bit c; constraint u { a != b; b != c; a != c; }\nendclass\nmodule m;\ninitial begin\nP p = new;\np.randomize();\nend\nendmodule\n";
