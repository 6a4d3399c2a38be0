// With ample memory each tree is made.

use sqlite_items::Items;
use svr_operator::{BinOp, UnOp};
use svr_tree::{Expr, NoMemory, Range, Stmt};

/// Whether there was memory. The tree is let go here, whatever it is of, so that no other function has to.
fn is_made<T: Drop>(tree: Result<T, NoMemory>) -> bool {
    tree.is_ok()
}

fn number(at: u32) -> Expr {
    Expr::number(at, 1, 32, true)
}

#[test]
fn selects_are_made(rt: HostRuntime) {
    let alloc = rt.alloc();
    assert!(rt; is_made(Expr::bit_select(alloc, 0, number(0), number(2), false)));
    assert!(rt; is_made(Expr::part_select(alloc, 0, number(0), number(2), number(4), true)));
}

#[test]
fn operators_are_made(rt: HostRuntime) {
    let alloc = rt.alloc();
    assert!(rt; is_made(Expr::unary(alloc, 0, UnOp::Minus, number(1))));
    assert!(rt; is_made(Expr::binary(alloc, 0, BinOp::Add, number(0), number(2))));
    assert!(rt; is_made(Expr::sign(alloc, 0, true, number(2))));
}

#[test]
fn choices_are_made(rt: HostRuntime) {
    let alloc = rt.alloc();
    assert!(rt; is_made(Expr::choice(alloc, 0, number(0), number(2), number(4))));
    assert!(rt; is_made(Expr::paren(alloc, 0, number(1))));
}

#[test]
fn lists_are_made(rt: HostRuntime) {
    let alloc = rt.alloc();
    assert!(rt; is_made(Expr::inside(alloc, 0, number(0), Items::<Range>::new(alloc))));
    assert!(rt; is_made(Expr::copies(alloc, 0, number(1), Items::<Expr>::new(alloc))));
}

#[test]
fn statements_are_made(rt: HostRuntime) {
    assert!(rt; is_made(Stmt::repeat(rt.alloc(), 0, number(2), Stmt::empty(4))));
}
