// Sizes and signs (IEEE 1800-2017, tables 11-21 and 11.8.1).

ghost use Rattle.std.specs.Prelude.{◌≡◌, option_map};
ghost use Rattle.svr_typed.specs.ExprTerm.{expr_term, node_term};
ghost use Rattle.svr_elab_part.specs.Shapes as shapes;

use crate::part::Shape;
use svr_elab_names::Vector;
use svr_eval::{BinaryKind, UnaryKind, binary_kind, unary_kind};
use svr_operator::{BinOp, UnOp};
use svr_typed::{TExpr, TNode};

impl Shape {
    /// One unsigned bit, as comparisons and logical operators have it (11.4).
    pub fn bit() -> Shape
        ensures { result ≡ shapes.bit }
    {
        Shape {
            width: 1,
            signed: false,
        }
    }

    /// Of a loop variable and of the size of an array.
    pub fn whole_number() -> Shape
        ensures { result ≡ shapes.whole_number }
    {
        Shape {
            width: 32,
            signed: true,
        }
    }

    /// Unsigned, of this width in bits.
    pub fn bits_wide(width: u8) -> Shape
        ensures { result ≡ shapes.bits_wide width }
    {
        Shape {
            width,
            signed: false,
        }
    }

    /// The width and the sign of a declared type.
    pub fn of_kind(kind: Vector) -> Shape
        ensures { result ≡ shapes.kind_shape kind }
    {
        Shape {
            width: kind.kind.width,
            signed: kind.kind.signed,
        }
    }
}

/// That of a type, where it is known.
pub fn kind_shape(kind: Option<Vector>) -> Option<Shape>
    ensures { result ≡ option_map shapes.kind_shape kind }
{
    match kind {
        None => None,
        Some(kind) => Some(Shape::of_kind(kind)),
    }
}

/// The shape of one of two values, by a condition.
pub fn choice_shape(x: Option<Shape>, y: Option<Shape>) -> Option<Shape>
    ensures { result ≡ shapes.choice_shape x y }
{
    let Some(x) = x else {
        return None;
    };
    let Some(y) = y else {
        return None;
    };
    Some(Shape {
        width: x.width.max(y.width),
        signed: x.signed && y.signed,
    })
}

/// Width and sign of a unary operator over an operand of this shape (11.6.1); none where the operand has none.
pub fn unary_shape(op: UnOp, x: Option<Shape>) -> Option<Shape>
    ensures { result ≡ shapes.unary_shape op x }
{
    match unary_kind(op) {
        UnaryKind::Changed(_) => x,
        UnaryKind::Reduced(_) => Some(Shape::bit()),
    }
}

/// Width and sign of a binary operator over operands of these shapes (11.6.1); none where one that counts has none.
pub fn binary_shape(op: BinOp, x: Option<Shape>, y: Option<Shape>) -> Option<Shape>
    ensures { result ≡ shapes.binary_shape op x y }
{
    match binary_kind(op) {
        BinaryKind::InContext(_) => choice_shape(x, y),
        BinaryKind::Shifted(_) => x,
        BinaryKind::ByPair(_) | BinaryKind::Logical(_) => Some(Shape::bit()),
    }
}

/// That of `$signed` or `$unsigned`.
pub fn sign_shape(signed: bool, x: Option<Shape>) -> Option<Shape>
    ensures { result ≡ shapes.sign_shape signed x }
{
    match x {
        None => None,
        Some(x) => Some(Shape {
            width: x.width,
            signed,
        }),
    }
}

/// That of so many bits, where the number is known.
pub fn total_shape(total: Option<u8>) -> Option<Shape>
    ensures { result ≡ option_map shapes.bits_wide total }
{
    match total {
        None => None,
        Some(total) => Some(Shape::bits_wide(total)),
    }
}

/// A node of this size and sign, where they and it are known.
pub fn typed_as(shape: Option<Shape>, node: Option<TNode>) -> Option<TExpr>
    ensures { option_map expr_term result ≡ shapes.typed_as shape (option_map node_term node) }
{
    match shape.zip(node) {
        None => None,
        Some((shape, node)) => Some(TExpr::new(shape.width, shape.signed, node)),
    }
}
