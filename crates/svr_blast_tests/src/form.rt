// The items that are tried.

use svr_operator::{BinOp, Fold, UnOp};

/// An item over `x`, `y` and `z` of four bits each, arrays and sizes. Where `signed` is said, the operands are taken by `$signed`, else by `$unsigned`.
#[derive(Clone, Copy)]
pub enum Form {
    /// `(x op y) == z`
    Binary { op: BinOp, signed: bool },
    /// `(op x) == z`
    Unary { op: UnOp, signed: bool },
    /// `(x ? y : 5) == z`
    Choice,
    /// `x inside {y, [-3:1], [z:$]}`
    Inside { signed: bool },
    /// `x inside {d}`
    Array,
    /// `{x, y} - {y, z} == 7`
    Join,
    /// `{2{x}} - {y, z} == 3`
    Copies,
    /// `x[3] == z`, where the lowest bit of `x` has the number 1
    Bit,
    /// `x[2:1] == z`
    Bits,
    /// `(x ^ '1) == z`
    Every,
    /// `(x + v) == z`, where the script variable `v` is 9
    Script,
    /// `d[x] == z`
    Element { signed: bool },
    /// `d[1] == z`
    ElementAt,
    /// `e[x][y] == z`
    Cell,
    /// `d.sum() == z` and the other reductions
    Reduce { op: Fold },
    /// `q.size() + x == z`
    Size,
    /// `d[q.size()] == z`, where `d` is the state's
    SizedElement,
    /// `x[q.size()] == z`
    SizedBit,
    /// `d[x] == z`, where `d` is the state's
    KnownElement,
}
