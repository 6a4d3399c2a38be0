// Expressions and what else is read as a node of its own.

ghost use Rattle.std.specs.Prelude.{◌≡◌, ◌≤◌, ◌<◌, ◌+◌, ◌^◌, if◌then◌else◌, length, IfOk};
ghost use Rattle.svr_tree.specs.ExprTree.{expr_tree, range_tree};
ghost use Rattle.svr_reader.specs.Answers.{Gives};
ghost use Rattle.svr_reader.specs.Calls.{cap, height_view, heights_view};
ghost use Rattle.svr_reader.specs.declared.fault.ReadFault.TheVariants.{Unexpected, TooDeep};
ghost use Rattle.svr_reader.specs.Outcomes.{lexeme_at};
ghost use Rattle.svr_expr.specs.ExprRules as spec;
ghost use Rattle.svr_expr.specs.ExprRules.{a_path, a_member, rest_of_path as behind_path, rest_of_operand as behind_operand};
ghost use Rattle.svr_expr.specs.Parts.{kind_view};

use crate::connective::unary_of;
use crate::names::{no_path, starts_path};
use crate::reader::Reader;
use crate::suffix::path_in;
use sqlite_items::Items;
use std::alloc::Global;
use svr_reader::{Cursor, ReadFault};
use svr_token::{Lexeme, Mark, NameKind};
use svr_tree::{Expr, Range, level};

/// Whether an expression begins with the token. None is the end of the text.
pub fn starts_expr(lexeme: Option<Lexeme>) -> bool
    ensures { result ≡ spec.expr_starts lexeme }
{
    match lexeme {
        Some(Lexeme::Literal { .. }) => true,
        Some(Lexeme::System(_)) => true,
        Some(Lexeme::Mark(Mark::OpenParen)) => true,
        Some(Lexeme::Mark(Mark::OpenBrace)) => true,
        Some(Lexeme::Mark(mark)) => unary_of(mark).is_some(),
        other => starts_path(other),
    }
}

/// The fault where there is no room for an expression.
fn no_expr(cursor: &Cursor<'_>) -> ReadFault
    ensures { result ≡ (if spec.expr_starts (lexeme_at cursor.now) then TooDeep (length cursor.now) else Unexpected (length cursor.now)) }
{
    if starts_expr(cursor.peek()) {
        cursor.too_deep()
    } else {
        cursor.refuse()
    }
}

/// An expression of a height up to `room`, whose operators outside have at least the level `least` of table 11-2 (IEEE 1800-2017, A.8.3), and its height. The level of a whole expression is 1.
///
/// Errors: `Unexpected` at a token that goes on with no expression, `TooDeep` at one that goes on with higher ones only.
pub fn expr(
    alloc: Global,
    cursor: &mut Cursor<'_>,
    room: usize,
    least: u8,
) -> Result<(Expr, usize), ReadFault>
    ensures gives { Gives (height_view expr_tree) (spec.expr cap room least cursor.old) result cursor.new }
    ensures low { IfOk result (λ x. x.1 ≤ room) }
{
    if room == 0 {
        return Err(no_expr(cursor));
    }
    Reader {
        alloc,
        room: room - 1,
        expr,
    }
    .expr_in(cursor, least)
}

/// A path as an expression of a height up to `room`, and its height.
///
/// Errors: `Unexpected` at a token that does not go on with a path, `TooDeep` at one that begins a path where there is no room for it.
pub fn path(alloc: Global, cursor: &mut Cursor<'_>, room: usize) -> Result<(Expr, usize), ReadFault>
    ensures gives { Gives (height_view expr_tree) (spec.node cap room a_path cursor.old) result cursor.new }
    ensures low { IfOk result (λ x. x.1 ≤ room) }
{
    if room == 0 {
        return Err(no_path(cursor));
    }
    path_in(alloc, cursor)
}

/// A path with indices behind it, of a height up to `room`, and its height.
///
/// Errors: `Unexpected` at a token that goes on with no such expression, `TooDeep` at one that goes on with higher ones only.
pub fn member(
    alloc: Global,
    cursor: &mut Cursor<'_>,
    room: usize,
) -> Result<(Expr, usize), ReadFault>
    ensures gives { Gives (height_view expr_tree) (spec.node cap room a_member cursor.old) result cursor.new }
    ensures low { IfOk result (λ x. x.1 ≤ room) }
{
    if room == 0 {
        return Err(no_path(cursor));
    }
    Reader {
        alloc,
        room: room - 1,
        expr,
    }
    .member_in(cursor)
}

/// The indices behind a path that begins at the token `at`, has this height and was read already: the whole, and its height.
///
/// Errors: as those of `member`.
#[tactic(auto, unfolding(crate::specs::ExprRules::a_member_on))]
pub fn member_on(
    alloc: Global,
    cursor: &mut Cursor<'_>,
    room: usize,
    at: u32,
    base: Expr,
    height: usize,
) -> Result<(Expr, usize), ReadFault>
    requires some { 1 ≤ room }
    requires height { height ≤ room }
    ensures gives { Gives (height_view expr_tree) (spec.a_member_on cap room at (height_view expr_tree (base, height)) cursor.old) result cursor.new }
    ensures low { IfOk result (λ x. x.1 ≤ room) }
{
    Reader {
        alloc,
        room: room - 1,
        expr,
    }
    .indices_on(cursor, at, base, height)
}

/// What stands behind the first path of an expression, which begins at the token `at`, whose last name is of this kind, and which was read already: the whole expression, and its height.
///
/// Errors: as those of `expr`.
pub fn rest_of_path(
    alloc: Global,
    cursor: &mut Cursor<'_>,
    room: usize,
    at: u32,
    path: Expr,
    kind: NameKind,
) -> Result<(Expr, usize), ReadFault>
    requires { 1 ≤ room }
    ensures gives { Gives (height_view expr_tree) (spec.node cap room (behind_path at (kind_view (path, kind))) cursor.old) result cursor.new }
    ensures low { IfOk result (λ x. x.1 ≤ room) }
{
    let reader = Reader {
        alloc,
        room: room - 1,
        expr,
    };
    let (operand, height) = reader.path_rest(cursor, at, path, kind)?;
    reader.climb(cursor, at, level::IMPLICATION, operand, height)
}

/// What stands behind the first operand of an expression, which begins at the token `at`, has this height and was read already: the whole expression, and its height.
///
/// Errors: as those of `expr`.
pub fn rest_of_operand(
    alloc: Global,
    cursor: &mut Cursor<'_>,
    room: usize,
    at: u32,
    first: Expr,
    height: usize,
) -> Result<(Expr, usize), ReadFault>
    requires some { 1 ≤ room }
    requires height { height ≤ room }
    ensures gives { Gives (height_view expr_tree) (spec.node cap room (behind_operand at (height_view expr_tree (first, height))) cursor.old) result cursor.new }
    ensures low { IfOk result (λ x. x.1 ≤ room) }
{
    Reader {
        alloc,
        room: room - 1,
        expr,
    }
    .climb(cursor, at, level::IMPLICATION, first, height)
}

/// Expressions of a height up to `room` with commas between them, and the height of the highest.
///
/// Errors: as those of `expr`.
#[tactic(auto, unfolding(crate::specs::ExprRules::some_exprs))]
pub fn exprs(
    alloc: Global,
    cursor: &mut Cursor<'_>,
    room: usize,
) -> Result<(Items<Expr>, usize), ReadFault>
    ensures gives { Gives (heights_view expr_tree) (spec.some_exprs cap room cursor.old) result cursor.new }
    ensures low { IfOk result (λ x. x.1 ≤ room) }
{
    Reader { alloc, room, expr }.exprs(cursor)
}

/// A member of a set, whose expressions have a height up to `room` (IEEE 1800-2017, A.8.3, value_range), and its height.
///
/// Errors: as those of `expr`.
#[tactic(auto, unfolding(crate::specs::ExprRules::a_range))]
pub fn range(
    alloc: Global,
    cursor: &mut Cursor<'_>,
    room: usize,
) -> Result<(Range, usize), ReadFault>
    ensures gives { Gives (height_view range_tree) (spec.a_range cap room cursor.old) result cursor.new }
    ensures low { IfOk result (λ x. x.1 ≤ room) }
{
    Reader { alloc, room, expr }.range(cursor)
}
