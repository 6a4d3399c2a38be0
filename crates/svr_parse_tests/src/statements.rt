// Statements: their trees with their heights, or their faults. Numbers are those of tokens.

ghost use Rattle.std.specs.Prelude.{◌≤◌, ◌<◌};

use crate::text::{Told, is_told, spelled};
use crate::wanted::Wanted;
use std::alloc::Global;
use svr_reader::Cursor;
use svr_stmt::{stmt, stmt_on};
use svr_token::NameKind;
use svr_tree::{CallForm, Expr, ModeCall, ModeKind, RandomizeArgs, RandomizeCall, RightSide, Stmt};

impl Wanted {
    fn args(self, args: &RandomizeArgs) -> Wanted {
        match args {
            RandomizeArgs::Empty => self,
            RandomizeArgs::Null => self.then(b" null"),
            RandomizeArgs::Names(names) => {
                let mut wanted = self;
                for name in names.as_slice() {
                    wanted = wanted.then_token(b" ", *name);
                }
                wanted
            }
        }
    }

    // its path, its arguments, and how many items its set has
    fn call(self, found: &RandomizeCall) -> Wanted {
        let told = self
            .expr_then(&found.path, b".randomize(")
            .args(&found.args)
            .then(b")");
        match &found.with {
            Some(items) => told.then_number(b" with ", items.len()),
            None => told,
        }
    }

    fn values(self, values: &[Expr]) -> Wanted {
        let mut wanted = self;
        for value in values {
            wanted = wanted.then_expr(b" ", value);
        }
        wanted
    }

    fn right(self, right: &RightSide) -> Wanted {
        match right {
            RightSide::Value(value) => self.expr(value),
            RightSide::New { parens: true } => self.then(b"new()"),
            RightSide::New { parens: false } => self.then(b"new"),
            RightSide::NewArray(count) => self.then_expr(b"new[", count).then(b"]"),
            RightSide::Pattern { at, values } => {
                self.token_then(*at, b"'{")
                    .values(values.as_slice())
                    .then(b"}")
            }
            RightSide::Call(found) => self.call(found),
        }
    }

    fn form(self, form: CallForm) -> Wanted {
        match form {
            CallForm::Plain => self.then(b": call "),
            CallForm::Void => self.then(b": void "),
            CallForm::Assert => self.then(b": assert "),
        }
    }

    fn mode(self, mode: &ModeCall) -> Wanted {
        let told = self.then_expr(b": ", &mode.path);
        let named = match mode.kind {
            ModeKind::Rand => told.then(b".rand_mode "),
            ModeKind::Constraint => told.then(b".constraint_mode "),
        };
        named.expr(&mode.on)
    }

    // the body of a loop, by its token alone
    fn body(self, stmt: &Stmt) -> Wanted {
        match stmt {
            Stmt::Empty { at } => self.token_then(*at, b": ;"),
            _ => self.then(b"other"),
        }
    }

    fn stmt(self, stmt: &Stmt) -> Wanted {
        match stmt {
            Stmt::Empty { .. } => self.body(stmt),
            Stmt::Block { at, stmts } => self.token_then(*at, b": block ").number(stmts.len()),
            Stmt::Repeat { at, count, body } => {
                self.token_then(*at, b": repeat ")
                    .expr_then(count, b" ")
                    .body(body.get())
            }
            Stmt::Assign { at, target, value } => {
                self.token_then(*at, b": ")
                    .expr_then(target, b" = ")
                    .right(value)
            }
            Stmt::Call { at, form, call } => self.token(*at).form(*form).call(call),
            Stmt::Mode { at, mode } => self.token(*at).mode(mode),
        }
    }
}

impl Told for Stmt {
    // the number of tokens left only if there are any
    fn told(&self, wanted: Wanted, height: usize, left: usize) -> Wanted {
        let high = wanted.stmt(self).then_number(b" high ", height);
        if left > 0 {
            high.then_number(b" left ", left)
        } else {
            high
        }
    }
}

fn is_read(alloc: Global, text: &[u8], room: usize, wanted: &'static [u8]) -> bool {
    let lexemes = spelled(alloc, text);
    let mut cursor = Cursor::new(&lexemes);
    let found = stmt(alloc, &mut cursor, room);
    is_told(found, cursor.left(), wanted)
}

// behind the name of token `first`, which is taken here if `taken` says so
fn is_read_on(alloc: Global, text: &[u8], room: usize, taken: bool, wanted: &'static [u8]) -> bool
    requires path { 2 ≤ room }
    requires few { room < 1000 }
{
    let lexemes = spelled(alloc, text);
    let mut cursor = Cursor::new(&lexemes);
    if taken {
        let _unmet = cursor.take().is_err();
    }
    let found = stmt_on(alloc, &mut cursor, room, 0, NameKind::Plain);
    is_told(found, cursor.left(), wanted)
}

// statements that begin with a name
const NAMED: &[(&[u8], &[u8])] = &[
    (b"n.n = n + 5;", b"0: 0.2 = 4op high 3"),
    (b"n = new;", b"0: 0 = new high 2"),
    (b"n = new();", b"0: 0 = new() high 2"),
    (b"n = new[5];", b"0: 0 = new[#4] high 2"),
    (b"n = '{};", b"0: 0 = 2'{} high 2"),
    (b"n = '{5, n + n};", b"0: 0 = 2'{ #3 5op} high 3"),
    (b"n = n.randomize();", b"0: 0 = 2.randomize() high 2"),
    (
        b"n = n.randomize(n) with {};",
        b"0: 0 = 2.randomize( 6) with 0 high 2",
    ),
    (b"n = n.randomize() + 5;", b"0: 0 = 2op high 3"),
    (b"n = n.n();", b"0: 0 = 2.4() high 2"),
    (b"n = this.randomize();", b"0: 0 = 2this.4() high 2"),
    (b"n.randomize = rand_mode;", b"0: 0.2 = 4 high 2"),
    (b"n.rand_mode(5);", b"0: 0.rand_mode #4 high 2"),
    (
        b"n.n.constraint_mode(5);",
        b"0: 0.2.constraint_mode #6 high 2",
    ),
];

#[test]
fn statements_that_begin_with_a_name(rt: HostRuntime) {
    for (text, wanted) in NAMED {
        assert!(rt; is_read(rt.alloc(), text, 128, wanted));
        assert!(rt; is_read_on(rt.alloc(), text, 128, true, wanted));
    }
}

const STATEMENTS: &[(&[u8], &[u8])] = &[
    (b"n.randomize();", b"0: call 0.randomize() high 2"),
    (
        b"void'(n.n.randomize(null));",
        b"0: void 3.5.randomize( null) high 2",
    ),
    (
        b"assert(n.randomize(n, n) with { n == 5; n; });",
        b"0: assert 2.randomize( 6 8) with 2 high 4",
    ),
    (b"begin end", b"0: block 0 high 1"),
    (b"begin ; n = new; end", b"0: block 2 high 3"),
    (b"repeat (5) ;", b"0: repeat #2 4: ; high 2"),
];

#[test]
fn calls_blocks_and_loops(rt: HostRuntime) {
    for (text, wanted) in STATEMENTS {
        assert!(rt; is_read(rt.alloc(), text, 128, wanted));
    }
}

const FAULTS: &[(&[u8], usize, &[u8])] = &[
    (b";", 0, b"deep 1"),
    (b"begin ; end", 1, b"deep 2"),
    (b"repeat (5) ;", 1, b"deep 5"),
    (b"n = 5;", 1, b"deep 4"),
    (b"n[5] = 5;", 2, b"deep 6"),
    (b"n = n + n;", 2, b"deep 3"),
    (b"n.randomize() with { n == 5; };", 3, b"deep 5"),
    (b"n.randomize() with { n == 5; )", 9, b"unexpected 1"),
    (b"this.randomize();", 9, b"unexpected 3"),
    (b"void'(n.rand_mode(5", 9, b"unexpected 2"),
    (b"n.randomize(5);", 9, b"unexpected 3"),
    (b"n = n.randomize(n) +", 9, b"unexpected 1"),
    (b"n =", 9, b"unexpected 0"),
    (b"begin +", 9, b"unexpected 1"),
];

#[test]
fn faults_of_statements(rt: HostRuntime) {
    for (text, room, wanted) in FAULTS {
        assert!(rt; is_read(rt.alloc(), text, *room, wanted));
    }
    // behind the first name, where there is room for a path alone
    assert!(rt; is_read_on(rt.alloc(), b"= (n);", 2, false, b"deep 4"));
    assert!(rt; is_read_on(rt.alloc(), b"(n", 2, false, b"unexpected 2"));
}
