// Expressions: the operator of each with its operands, heights and faults.

use crate::text::{Told, height_of, is_told, spelled};
use crate::wanted::Wanted;
use std::alloc::Global;
use svr_expr::{expr, exprs, known_path, member, range, rest_of_operand, rest_of_path};
use svr_operator::Fold;
use svr_reader::{Cursor, ReadFault};
use svr_tree::{Expr, IteratorArgument, level};

type Row = (&'static [u8], usize, &'static [u8]);

// a text, room, and the tree with its height and the number of tokens left, or the fault
const OPERATORS: &[Row] = &[
    (b"n - n - n", 3, b"0op 0op 4, high 3, left 0"),
    (b"n - n - n", 2, b"deep 2"),
    (b"n - n * n", 3, b"0op 0 2op, high 3, left 0"),
    (b"n - n *", 9, b"unexpected 0"),
    (b"n -> n -> n", 3, b"0-> 0 2->, high 3, left 0"),
    (b"n", 0, b"deep 1"),
    (b"+ n", 0, b"deep 2"),
    (b")", 0, b"unexpected 1"),
    (b"* n", 9, b"unexpected 2"),
    (b"", 9, b"unexpected 0"),
    (b"(n)[n]", 9, b"other, high 2, left 3"),
    (b"n inside {n} * n", 9, b"other, high 2, left 2"),
    (b"local::n.", 9, b"unexpected 0"),
];

// the same of reductions
const REDUCTIONS: &[Row] = &[
    (b"n.sum with (n)", 2, b"0 sum of 0: 5, high 2, left 0"),
    (b"n.sum with (n)", 1, b"deep 4"),
    (
        b"n.n.xor() with (n)",
        2,
        b"0 xor() of 0.2: 9, high 2, left 0",
    ),
    (
        b"this.n.and(n) with (n > 2)",
        3,
        b"0 and(6) of 0this.2: 10op, high 3, left 0",
    ),
    (b"n.product(n) with (n)", 1, b"deep 6"),
    (b"n.or + n", 2, b"0op 0.2 4, high 2, left 0"),
    (b"n.and()", 1, b"0.2(), high 1, left 0"),
    (b"n.xor() + n", 2, b"0op 0.2() 6, high 2, left 0"),
    (b"sum with (n)", 9, b"0, high 1, left 4"),
    (b"n.size with (n)", 9, b"0.2, high 1, left 4"),
    (b"n.sum(n)", 9, b"unexpected 0"),
    (b"n.sum(2)", 9, b"unexpected 2"),
    (b"n.sum with n", 9, b"unexpected 1"),
    (b"n.sum with (n) with", 9, b"0 sum of 0: 5, high 2, left 1"),
];

// parts that are read by themselves
const BEHIND_PATHS: &[Row] = &[
    (b"n[n] + n", 3, b"0op other 5, high 3, left 0"),
    (b"n.sum with (n) + n", 3, b"0op other 8, high 3, left 0"),
    (b"n.n()", 9, b"0.2(), high 1, left 0"),
];

impl Wanted {
    /// Tells the name of a reduction behind a blank.
    pub fn fold(self, op: Fold) -> Wanted {
        match op {
            Fold::Sum => self.then(b" sum"),
            Fold::Product => self.then(b" product"),
            Fold::And => self.then(b" and"),
            Fold::Or => self.then(b" or"),
            Fold::Xor => self.then(b" xor"),
        }
    }

    fn argument(self, item: IteratorArgument) -> Wanted {
        match item {
            IteratorArgument::Absent => self,
            IteratorArgument::Empty => self.then(b"()"),
            IteratorArgument::Named(name) => self.then_token(b"(", name).then(b")"),
        }
    }
}

impl Wanted {
    // a reduction or an operator with its operands
    fn operation(self, found: &Expr) -> Wanted {
        match found {
            Expr::Reduce {
                at,
                array,
                op,
                item,
                body,
            } => {
                let named = self.token(*at).fold(*op).argument(*item);
                named
                    .then_expr(b" of ", array.get())
                    .then_expr(b": ", body.get())
            }
            Expr::Binary { left, right, .. } => {
                self.expr_then(found, b" ")
                    .expr_then(left.get(), b" ")
                    .expr(right.get())
            }
            _ => self.expr(found),
        }
    }
}

impl Told for Expr {
    fn told(&self, wanted: Wanted, height: usize, left: usize) -> Wanted {
        let high = wanted.operation(self).then_number(b", high ", height);
        high.then_number(b", left ", left)
    }
}

fn is_read(alloc: Global, text: &[u8], room: usize, wanted: &'static [u8]) -> bool {
    let lexemes = spelled(alloc, text);
    let mut cursor = Cursor::new(&lexemes);
    let found = expr(alloc, &mut cursor, room, level::IMPLICATION);
    is_told(found, cursor.left(), wanted)
}

#[test]
fn expressions(rt: HostRuntime) {
    for (text, room, wanted) in OPERATORS {
        assert!(rt; is_read(rt.alloc(), text, *room, wanted));
    }
    for (text, room, wanted) in REDUCTIONS {
        assert!(rt; is_read(rt.alloc(), text, *room, wanted));
    }
}

// an expression whose first path is read before the rest
fn is_read_in_two(alloc: Global, text: &[u8], room: usize, wanted: &'static [u8]) -> bool {
    if room == 0 {
        return false;
    }
    let lexemes = spelled(alloc, text);
    let mut cursor = Cursor::new(&lexemes);
    let found = match known_path(alloc, &mut cursor, room) {
        Ok((path, kind)) => rest_of_path(alloc, &mut cursor, room, 0, path, kind),
        Err(fault) => Err(fault),
    };
    is_told(found, cursor.left(), wanted)
}

#[test]
fn behind_a_path(rt: HostRuntime) {
    for (text, room, wanted) in BEHIND_PATHS {
        assert!(rt; is_read_in_two(rt.alloc(), text, *room, wanted));
    }
}

fn list_height(alloc: Global) -> Result<usize, ReadFault> {
    let list = spelled(alloc, b"n, n");
    height_of(exprs(alloc, &mut Cursor::new(&list), 1))
}

fn span_height(alloc: Global) -> Result<usize, ReadFault> {
    let span = spelled(alloc, b"[n : $]");
    height_of(range(alloc, &mut Cursor::new(&span), 1))
}

// of a member with an operator behind it
fn sum_height(alloc: Global) -> Result<usize, ReadFault> {
    let sum = spelled(alloc, b"n[n] + n");
    let mut cursor = Cursor::new(&sum);
    match member(alloc, &mut cursor, 9) {
        Ok((operand, height)) => {
            height_of(rest_of_operand(alloc, &mut cursor, 9, 0, operand, height.min(9)))
        }
        Err(fault) => Err(fault),
    }
}

#[test]
fn parts(rt: HostRuntime) {
    assert!(rt; list_height(rt.alloc()) == Ok(1));
    assert!(rt; span_height(rt.alloc()) == Ok(1));
    assert!(rt; sum_height(rt.alloc()) == Ok(3));
}
