// A wanted text, which a tree is told against word by word.

use svr_operator::BinOp;
use svr_reader::ReadFault;
use svr_tree::{Expr, Scope};

/// What is left of a wanted text behind what was told so far; nothing where something else was told.
#[derive(Clone, Copy)]
pub struct Wanted {
    left: Option<&'static [u8]>,
}

impl Wanted {
    /// Nothing is told yet.
    pub fn new(text: &'static [u8]) -> Wanted {
        Wanted { left: Some(text) }
    }

    /// Whether just this was told.
    pub fn is_met(self) -> bool {
        matches!(self.left, Some([]))
    }

    /// Tells a word.
    pub fn then(self, word: &[u8]) -> Wanted {
        match self.left {
            Some(left) => Wanted {
                left: left.strip_prefix(word),
            },
            None => self,
        }
    }

    /// Tells a number, by its last two digits.
    pub fn number(self, number: usize) -> Wanted {
        let digits = [b'0' + (number / 10 % 10) as u8, b'0' + (number % 10) as u8];
        self.then(if number < 10 { &digits[1..] } else { &digits })
    }

    /// Tells the number of a token.
    pub fn token(self, at: u32) -> Wanted {
        self.number(at as usize)
    }

    /// Tells a word and the number of a token.
    pub fn then_token(self, word: &[u8], at: u32) -> Wanted {
        self.then(word).token(at)
    }

    /// Tells the number of a token and a word.
    pub fn token_then(self, at: u32, word: &[u8]) -> Wanted {
        self.token(at).then(word)
    }

    /// Tells a word and a number.
    pub fn then_number(self, word: &[u8], number: usize) -> Wanted {
        self.then(word).number(number)
    }

    /// Tells a number and a word.
    pub fn number_then(self, number: usize, word: &[u8]) -> Wanted {
        self.number(number).then(word)
    }

    /// Tells numbers of tokens, with `mark` between them.
    pub fn tokens(self, tokens: &[u32], mark: &[u8]) -> Wanted {
        let mut wanted = self;
        let mut first = true;
        for token in tokens {
            if !first {
                wanted = wanted.then(mark);
            }
            wanted = wanted.token(*token);
            first = false;
        }
        wanted
    }

    fn path(self, at: u32, scope: Scope, names: &[u32], call: bool) -> Wanted {
        let begun = match scope {
            Scope::Plain if names.first() == Some(&at) => self,
            Scope::Plain => self.then_token(b"at ", at),
            Scope::Local => self.token_then(at, b"local::"),
            Scope::This => self.token_then(at, b"this."),
        };
        let named = begun.tokens(names, b".");
        if call { named.then(b"()") } else { named }
    }

    /// Tells the operator of an expression item, if it is one of both.
    fn operator(self, op: BinOp) -> Wanted {
        match op {
            BinOp::Implies => self.then(b"->"),
            BinOp::Equivalent => self.then(b"<->"),
            _ => self.then(b"op"),
        }
    }

    /// Tells an expression: a path by its names, a number or an operator by the token with which it begins.
    pub fn expr(self, expr: &Expr) -> Wanted {
        match expr {
            Expr::Path {
                at,
                scope,
                names,
                call,
            } => self.path(*at, *scope, names.as_slice(), *call),
            Expr::Number { at, .. } => self.then_token(b"#", *at),
            Expr::Binary { at, op, .. } => self.token(*at).operator(*op),
            _ => self.then(b"other"),
        }
    }

    /// Tells a word and an expression.
    pub fn then_expr(self, word: &[u8], expr: &Expr) -> Wanted {
        self.then(word).expr(expr)
    }

    /// Tells an expression and a word.
    pub fn expr_then(self, expr: &Expr, word: &[u8]) -> Wanted {
        self.expr(expr).then(word)
    }

    /// Tells a fault: `unexpected 2` or `deep 2`, with the number of tokens that are left.
    pub fn fault(self, fault: ReadFault) -> Wanted {
        match fault {
            ReadFault::Unexpected(left) => self.then_number(b"unexpected ", left),
            ReadFault::TooDeep(left) => self.then_number(b"deep ", left),
            ReadFault::NoMemory => self.then(b"no memory"),
        }
    }
}
