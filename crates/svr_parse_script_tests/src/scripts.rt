// Whole scripts: the kinds of their items and statements, their declarations, and their faults.

use crate::wanted::Wanted;
use std::alloc::Global;
use svr_lex::lex;
use svr_operator::{BinOp, Fold};
use svr_parse::{ParseFault, parse};
use svr_token::Token;
use svr_tree::{
    CallForm, ClassDecl, ClassItem, DataType, Dimension, Dist, Expr, Item, IteratorArgument,
    ModeKind, PropertyDecl, RandomizeArgs, RandomizeCall, RightSide, Script, Stmt, Top, UnitDecl,
    UnitKind, VarDecl, VarInit,
};

/// What is told of a script.
#[derive(Clone, Copy)]
enum Look {
    /// The only item of the only block of its first class.
    Item,
    /// How many variables it has, and its only statement.
    Stmt,
    /// Its declarations.
    Whole,
}

/// What can be looked at.
trait Shown {
    /// Tells what the look sees.
    fn shown(&self, look: Look, wanted: Wanted) -> Wanted;
}

impl Shown for Script {
    fn shown(&self, look: Look, wanted: Wanted) -> Wanted {
        match look {
            Look::Item => wanted.first_class(self),
            Look::Stmt => wanted.only_stmt(&self.unit),
            Look::Whole => wanted.whole(self),
        }
    }
}

/// Whether just the wanted text tells what the look sees of a script. The script is let go here, whatever it is, so that no other function has to.
fn is_shown<T: Shown + Drop>(
    found: Result<T, ParseFault>,
    look: Look,
    wanted: &'static [u8],
) -> bool {
    match &found {
        Ok(script) => script.shown(look, Wanted::new(wanted)).is_met(),
        Err(_) => false,
    }
}

// The script of a text, or its fault.
fn read(alloc: Global, text: &[u8]) -> Result<Script, ParseFault> {
    if text.len() > 4_194_304 {
        return Err(ParseFault::NoMemory);
    }
    match lex(alloc, text) {
        Ok(tokens) => parse(alloc, text, &tokens),
        Err(_) => Err(ParseFault::NoMemory),
    }
}

fn fault(alloc: Global, text: &[u8]) -> Option<ParseFault> {
    read(alloc, text).err()
}

/// The parts in a row. Where there is no memory one is left out, and the script is another.
fn joined(alloc: Global, parts: [&[u8]; 3]) -> Vec<u8> {
    let mut text = Vec::new(alloc);
    for part in parts {
        let _unmet = text.extend_from_slice(part).is_err();
    }
    text
}

// ---- items

const ITEM_FRONT: &[u8] = b"class P; rand bit [3:0] a; rand bit b; constraint c {";

const ITEM_REST: &[u8] =
    b"} endclass module m; initial begin P p = new; p.randomize(); end endmodule";

impl Wanted {
    fn reduction(self, op: Fold, item: IteratorArgument) -> Wanted {
        let told = self.then(b"reduce").fold(op);
        match item {
            IteratorArgument::Absent | IteratorArgument::Empty => told,
            IteratorArgument::Named(_) => told.then(b" named"),
        }
    }

    fn hard(self, soft: bool, expr: &Expr) -> Wanted {
        match expr {
            Expr::Reduce { op, item, .. } => self.reduction(*op, *item),
            Expr::Binary { op, .. } if !soft && *op == BinOp::Equivalent => {
                self.then(b"equivalent")
            }
            _ => self.then(b"plain"),
        }
    }

    fn stated(self, soft: bool, expr: &Expr, dist: &Option<Dist>) -> Wanted {
        let begun = if soft { self.then(b"soft ") } else { self };
        match dist {
            Some(dist) => begun.then_number(b"dist ", dist.items.len()),
            None => begun.hard(soft, expr),
        }
    }

    // what an item is, and how many items or members each of its parts has
    fn item(self, item: &Item) -> Wanted {
        match item {
            Item::Plain {
                soft,
                expr,
                dist,
                ..
            } => self.stated(*soft, expr, dist),
            Item::Unique { members, .. } => self.then_number(b"unique ", members.len()),
            Item::Implies { body, .. } => self.then_number(b"implies ", body.items.len()),
            Item::Branch { yes, no, .. } => {
                let begun = self.then_number(b"if ", yes.items.len());
                match no {
                    Some(no) => begun.then_number(b" else ", no.items.len()),
                    None => begun,
                }
            }
            Item::Foreach { body, .. } => self.then_number(b"foreach ", body.items.len()),
            Item::Disable { .. } => self.then(b"disable"),
            Item::Solve { first, later, .. } => {
                self.then_number(b"solve ", first.len())
                    .then_number(b" before ", later.len())
            }
        }
    }

    // the only item of the only block of the first class
    fn first_class(self, script: &Script) -> Wanted {
        let Some(class) = script.classes.get(0) else {
            return self.then(b"no class")
        };
        match class.items.get(2) {
            Some(ClassItem::Constraint(block)) => match block.items.as_slice() {
                [item] => self.item(item),
                _ => self.then(b"not one item"),
            },
            _ => self.then(b"no block"),
        }
    }
}

const ITEMS: &[(&[u8], &[u8])] = &[
    (b"a == 5;", b"plain"),
    (b"a < 3 && a > 5;", b"plain"),
    (b"!(a == 0) || a > 1;", b"plain"),
    (b"a - b - 1 == 0;", b"plain"),
    (b"a inside {[2:3], [7:$], 9};", b"plain"),
    (b"{a, b} == 5'h3;", b"plain"),
    (b"{2{b}} != 2'b11;", b"plain"),
    (b"a[3:2] == 1 ? b : a[0];", b"plain"),
    (b"$signed(a) < -1;", b"plain"),
    (b"(a -> b);", b"plain"),
    (b"^a;", b"plain"),
    (b"data.size() == a;", b"plain"),
    (b"local::x == this.a;", b"plain"),
    (b"a <-> b;", b"equivalent"),
    (b"a == 1 <-> b -> a;", b"equivalent"),
    (b"soft a == 5;", b"soft plain"),
    (b"soft a -> b -> 1;", b"soft plain"),
    (b"a dist {[0:3] := 2, 7 :/ 1, 9};", b"dist 3"),
    (b"soft a dist {1 := a};", b"soft dist 1"),
    (b"unique {a, b, data[1]};", b"unique 3"),
    (b"a -> b == 1;", b"implies 1"),
    (b"a -> {b == 1; a == 2;}", b"implies 2"),
    (b"a -> {}", b"implies 0"),
    (b"a -> b -> a == 1;", b"implies 1"),
    (b"{a, b} -> {b == 1;}", b"implies 1"),
    (b"if (a == 1) b == 1;", b"if 1"),
    (b"if (a) {b; a;} else b == 0;", b"if 2 else 1"),
    (b"if (a) if (b) a; else b;", b"if 1"),
    (b"if (a) {if (b) a;} else b;", b"if 1 else 1"),
    (b"foreach (data[i]) data[i] == i;", b"foreach 1"),
    (
        b"foreach (data[i]) {data[i] < 5; soft data[i] == 1;}",
        b"foreach 2",
    ),
    (b"foreach (m[i, j]) m[i][j] == i * 3 + j;", b"foreach 1"),
    (b"foreach (p.m[i, j]) {}", b"foreach 0"),
    (b"data.sum() with (item + 32'd0) == 300;", b"plain"),
    (b"data.sum() == 6;", b"plain"),
    (b"sum + product == and | or ^ xor;", b"plain"),
    (b"data.and with (item);", b"reduce and"),
    (b"p.data.or() with (item[1:0]);", b"reduce or"),
    (b"data.xor(e) with (e == 1);", b"reduce xor named"),
    (b"data.sum.sum with (item);", b"reduce sum"),
    (b"data.product with (item) -> a;", b"implies 1"),
    (b"disable soft data[0];", b"disable"),
    (b"solve a, b before data;", b"solve 2 before 1"),
];

fn is_item(alloc: Global, item: &[u8], wanted: &'static [u8]) -> bool {
    let text = joined(alloc, [ITEM_FRONT, item, ITEM_REST]);
    is_shown(read(alloc, &text), Look::Item, wanted)
}

#[test]
fn items(rt: HostRuntime) {
    for (item, wanted) in ITEMS {
        assert!(rt; is_item(rt.alloc(), item, wanted));
    }
}

// ---- statements

const STMT_FRONT: &[u8] =
    b"class P; rand bit a; endclass module m; int x; initial begin P p = new; byte b;";

const STMT_REST: &[u8] = b" end endmodule";

impl Wanted {
    fn right_kind(self, value: &RightSide) -> Wanted {
        match value {
            RightSide::Value(_) => self.then(b"value"),
            RightSide::New { parens: true } => self.then(b"new()"),
            RightSide::New { parens: false } => self.then(b"new"),
            RightSide::NewArray(_) => self.then(b"new array"),
            RightSide::Pattern { values, .. } => self.then_number(b"pattern ", values.len()),
            RightSide::Call(found) => match &found.with {
                Some(set) => self.then_number(b"answer ", set.len()),
                None => self.then(b"answer "),
            },
        }
    }

    fn arg_count(self, args: &RandomizeArgs) -> Wanted {
        match args {
            RandomizeArgs::Null => self.then(b"null"),
            RandomizeArgs::Empty => self.then(b"call 0"),
            RandomizeArgs::Names(names) => self.then_number(b"call ", names.len()),
        }
    }

    // its arguments, or how many items its in-line set has
    fn call_kind(self, form: CallForm, call: &RandomizeCall) -> Wanted {
        let begun = match form {
            CallForm::Plain => self.then(b"plain "),
            CallForm::Void => self.then(b"void "),
            CallForm::Assert => self.then(b"assert "),
        };
        match &call.with {
            Some(set) => begun.then_number(b"with ", set.len()),
            None => begun.arg_count(&call.args),
        }
    }

    // what a statement is: how many statements, values, arguments or items of an in-line set it has
    fn stmt_kind(self, stmt: &Stmt) -> Wanted {
        match stmt {
            Stmt::Empty { .. } => self.then(b"empty"),
            Stmt::Block { stmts, .. } => self.then_number(b"block ", stmts.len()),
            Stmt::Repeat { .. } => self.then(b"repeat"),
            Stmt::Assign { value, .. } => self.right_kind(value),
            Stmt::Call { form, call, .. } => self.call_kind(*form, call),
            Stmt::Mode { mode, .. } => match mode.kind {
                ModeKind::Rand => self.then(b"rand mode"),
                ModeKind::Constraint => self.then(b"constraint mode"),
            },
        }
    }

    // how many variables stand before and in the initial block, and its only statement
    fn only_stmt(self, unit: &UnitDecl) -> Wanted {
        let outer = self.number_then(unit.outer.len(), b" ");
        let inner = outer.number_then(unit.inner.len(), b" ");
        match unit.stmts.as_slice() {
            [stmt] => inner.stmt_kind(stmt),
            _ => inner.then(b"not one statement"),
        }
    }
}

const STMTS: &[(&[u8], &[u8])] = &[
    (b";", b"1 2 empty"),
    (b"begin p.a = 1; ; end", b"1 2 block 2"),
    (b"repeat (54) p.randomize();", b"1 2 repeat"),
    (b"p.a = 300;", b"1 2 value"),
    (b"p.t[1] = x ? 1 : 2;", b"1 2 value"),
    (b"x = p.randomize() + 1;", b"1 2 value"),
    (b"x = p.randomize;", b"1 2 value"),
    (b"x = p.d.sum() with (item) + 1;", b"1 2 value"),
    (b"x = p.sum();", b"1 2 value"),
    (b"p.sum = sum;", b"1 2 value"),
    (b"p.m[1][0] = p.m[0][1];", b"1 2 value"),
    (b"x = p.randomize();", b"1 2 answer "),
    (b"x = p.randomize(a) with { a == 1; };", b"1 2 answer 1"),
    (b"p = new;", b"1 2 new"),
    (b"p = new();", b"1 2 new()"),
    (b"p.t = new[2];", b"1 2 new array"),
    (b"p.t = '{1, 2, 3};", b"1 2 pattern 3"),
    (b"p.randomize();", b"1 2 plain call 0"),
    (b"void'(p.randomize(a, b));", b"1 2 void call 2"),
    (b"p.randomize(null);", b"1 2 plain null"),
    (
        b"assert (p.randomize() with { a == 1; soft a; });",
        b"1 2 assert with 2",
    ),
    (b"p.q.randomize() with {};", b"1 2 plain with 0"),
    (b"p.a.rand_mode(0);", b"1 2 rand mode"),
    (b"p.c.constraint_mode(x == 1);", b"1 2 constraint mode"),
];

fn is_stmt(alloc: Global, stmt: &[u8], wanted: &'static [u8]) -> bool {
    let text = joined(alloc, [STMT_FRONT, stmt, STMT_REST]);
    is_shown(read(alloc, &text), Look::Stmt, wanted)
}

#[test]
fn statements(rt: HostRuntime) {
    for (stmt, wanted) in STMTS {
        assert!(rt; is_stmt(rt.alloc(), stmt, wanted));
    }
}

// ---- declarations

const TYPES: &[u8] =
    b"typedef enum bit [1:0] { READ, WRITE = 2, IDLE } kind_t; class B; endclass typedef int word_t;
class D extends B; rand kind_t k; randc bit [3:0] n, m; int s [] = 1, q [$], f [4], g [0:3], m [2][0:3], n; endclass : D
program t(); D d; word_t w = 3, v; initial begin D e = new(); end endprogram : t";

const TYPES_SHAPE: &[u8] =
    b"type class type class extends labelled 3 [] [$] [size] [bounds] [size][bounds] , program () 2 1 0 labelled named new()";

impl Wanted {
    fn order(self, order: &[Top]) -> Wanted {
        let mut wanted = self;
        for top in order {
            wanted = match top {
                Top::OfType => wanted.then(b"type "),
                Top::OfClass => wanted.then(b"class "),
            };
        }
        wanted
    }

    fn dimension_kinds(self, dims: &[Dimension]) -> Wanted {
        let mut wanted = self.then(b" ");
        for dim in dims {
            wanted = match dim {
                Dimension::Dynamic => wanted.then(b"[]"),
                Dimension::Queue => wanted.then(b"[$]"),
                Dimension::Size(_) => wanted.then(b"[size]"),
                Dimension::Bounds(_, _) => wanted.then(b"[bounds]"),
            };
        }
        wanted
    }

    fn arrays(self, found: &PropertyDecl) -> Wanted {
        let mut wanted = self;
        for one in found.decls.as_slice() {
            wanted = wanted.dimension_kinds(one.dims.as_slice());
        }
        wanted
    }

    fn told_if(self, holds: bool, word: &[u8]) -> Wanted {
        if holds { self.then(word) } else { self }
    }

    fn class(self, class: &ClassDecl) -> Wanted {
        let derived = self.told_if(class.base.is_some(), b"extends ");
        let labelled = derived.told_if(class.label.is_some(), b"labelled ");
        let counted = labelled.number(class.items.len());
        match class.items.get(2) {
            Some(ClassItem::Property(arrays)) => counted.arrays(arrays),
            _ => counted,
        }
    }

    // a variable that starts with an object
    fn object(self, found: &VarDecl) -> Wanted {
        let typed = match &found.kind {
            DataType::Named(_) => self.then(b"named"),
            DataType::Integer(_) => self.then(b"integer"),
        };
        match found.vars.get(0) {
            Some(first) => match &first.init {
                Some(VarInit::New { parens: true }) => typed.then(b" new()"),
                _ => typed.then(b" other"),
            },
            None => typed,
        }
    }

    fn unit(self, unit: &UnitDecl) -> Wanted {
        let begun = match unit.kind {
            UnitKind::Module => self.then(b", module "),
            UnitKind::Program => self.then(b", program "),
        };
        let outer = begun
            .told_if(unit.parens, b"() ")
            .number_then(unit.outer.len(), b" ");
        let inner = outer
            .number_then(unit.inner.len(), b" ")
            .number(unit.stmts.len());
        let labelled = inner.told_if(unit.label.is_some(), b" labelled ");
        match unit.inner.get(0) {
            Some(var) => labelled.object(var),
            None => labelled,
        }
    }

    fn whole(self, script: &Script) -> Wanted {
        let ordered = self.order(script.order.as_slice());
        match script.classes.get(1) {
            Some(derived) => ordered.class(derived).unit(&script.unit),
            None => ordered.unit(&script.unit),
        }
    }
}

#[test]
fn declarations(rt: HostRuntime) {
    assert!(rt; is_shown(read(rt.alloc(), TYPES), Look::Whole, TYPES_SHAPE));
}

// ---- faults

// A packet with a size, an array and a loop, and a call with an in-line set.
const PACKET: &[u8] = b"typedef enum bit [1:0] { READ, WRITE, IDLE } kind_t;
class Packet;
  rand kind_t kind;
  rand int len;
  rand bit [7:0] data [];
  constraint c_len { len inside {[46:64]}; data.size() == len; }
  constraint c_data { foreach (data[i]) data[i] == i; }
endclass
module m;
  initial begin
    Packet p = new();
    assert (p.randomize() with { len == 46; kind == WRITE; });
  end
endmodule
";

// Whether each front of the text, cut before a token, ends too early.
fn ends_early(alloc: Global, text: &[u8], tokens: &[Token]) -> bool {
    let mut count = 0u32;
    for token in tokens {
        let early = match text.get(..token.start as usize) {
            Some(front) => fault(alloc, front) == Some(ParseFault::Unexpected { token: count }),
            None => false,
        };
        if !early {
            return false;
        }
        count = count.saturating_add(1);
    }
    true
}

#[test]
fn fronts(rt: HostRuntime) {
    let met = match lex(rt.alloc(), PACKET) {
        Ok(tokens) => tokens.len() == 114 && ends_early(rt.alloc(), PACKET, &tokens),
        Err(_) => false,
    };
    assert!(rt; met);
    assert!(rt; fault(rt.alloc(), PACKET) == None);
}

const FAULTS: &[(&[u8], u32)] = &[
    (b"", 0),
    (b"class P;\n", 3),
    (
        b"class P; rand bit a; endclass module m; initial begin P p = new; p.randomize() with { a == 5; end endmodule",
        29,
    ),
    (
        b"class P; rand bit a; endclass module m; initial begin P p = new; p.randomize() with { a == 5;) end endmodule",
        29,
    ),
    (b"class P; constraint c { a == ; } endclass", 8),
    (b"class P; constraint c { a -> ; } endclass", 8),
    (b"class P; rand bit [3] a; endclass", 7),
    (b"class P; endclass : 3", 5),
    (b"class P; rand bit a [2][3][4]; endclass", 12),
    (
        b"class P; constraint c { foreach (m[i, j, k]) a; } endclass",
        13,
    ),
    (b"class P; constraint c { d.sum() with item; } endclass", 12),
    (b"class P; constraint c { sum() with (item); } endclass", 9),
    (
        b"class P; constraint c { d.size() with (item); } endclass",
        11,
    ),
    (
        b"class P; constraint c { d.sum(1) with (item); } endclass",
        10,
    ),
    (b"class P; constraint c { d.sum(e) == 1; } endclass", 12),
    (
        b"class P; constraint c { d[0].sum() with (item); } endclass",
        10,
    ),
    (
        b"module m; initial begin p.a = d.sum() with (item; end endmodule",
        17,
    ),
    (b"module m; initial begin x = ; end endmodule", 7),
    (b"module m; initial begin x y = 1, ; end endmodule", 10),
    (b"module m; initial begin end endprogram", 6),
    (b"module m; initial begin end endmodule module", 7),
];

#[test]
fn faults(rt: HostRuntime) {
    for (text, token) in FAULTS {
        assert!(rt; fault(rt.alloc(), text) == Some(ParseFault::Unexpected { token: *token }));
    }
}

// ---- heights

const NESTED_FRONT: &[u8] = b"class P; rand bit a; constraint c { a == ";

const NESTED_REST: &[u8] =
    b"; } endclass module m; initial begin P p = new; p.randomize(); end endmodule";

// `a == (((1)));` with so many pairs of parentheses
fn nested(alloc: Global, pairs: usize) -> Vec<u8> {
    let mut value = Vec::new(alloc);
    for _pair in 0..pairs {
        let _unmet = value.push(b'(').is_err();
    }
    let _unmet = value.push(b'1').is_err();
    for _pair in 0..pairs {
        let _unmet = value.push(b')').is_err();
    }
    joined(alloc, [NESTED_FRONT, &value, NESTED_REST])
}

// With 125 pairs the item has the height 128; the 126th opening one, the token 137, has no room.
#[test]
fn heights(rt: HostRuntime) {
    let alloc = rt.alloc();
    assert!(rt; fault(alloc, &nested(alloc, 125)) == None);
    assert!(rt; fault(alloc, &nested(alloc, 126)) == Some(ParseFault::TooDeep { token: 137 }));
}
