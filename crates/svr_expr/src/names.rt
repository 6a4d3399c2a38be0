// Names and paths (IEEE 1800-2017, A.9.3).

ghost use Rattle.std.specs.Prelude.{◌≡◌, if◌then◌else◌, length};
ghost use Rattle.svr_tree.specs.ExprTree.{expr_tree};
ghost use Rattle.svr_reader.specs.Answers.{Gives, plainly};
ghost use Rattle.svr_reader.specs.Calls.{cap};
ghost use Rattle.svr_reader.specs.declared.fault.ReadFault.TheVariants.{Unexpected, TooDeep};
ghost use Rattle.svr_reader.specs.Outcomes.{lexeme_at};
ghost use Rattle.svr_expr.specs.ExprRules as spec;
ghost use Rattle.svr_expr.specs.Parts.{kind_view};

use sqlite_items::Items;
use std::alloc::Global;
use svr_reader::{Cursor, Fixed, ReadFault};
use svr_token::{Lexeme, Mark, NameKind, Word};
use svr_tree::{Expr, Scope};

/// The names of a path behind its first one, each behind a dot: all names, and the kind of the last one.
#[tactic(auto, unfolding(crate::specs::ExprRules::names_on))]
fn names_on(
    alloc: Global,
    cursor: &mut Cursor<'_>,
    first: u32,
    first_kind: NameKind,
) -> Result<(Items<u32>, NameKind), ReadFault>
    ensures { Gives (λ x. x) (plainly (spec.names_on (first, first_kind)) cursor.old) result cursor.new }
{
    let mut names = Items::new(alloc);
    names.push(first)?;
    let mut kind = first_kind;
    let left = cursor.left();
    for _turn in 0..left + 1 {
        if !cursor.eat(Fixed::Mark(Mark::Dot)) {
            return Ok((names, kind));
        }
        let (name, name_kind) = cursor.known_name()?;
        names.push(name)?;
        kind = name_kind;
    }
    unreachable!()
}

#[tactic(auto, unfolding(crate::specs::ExprRules::path_from))]
fn path_from(
    alloc: Global,
    cursor: &mut Cursor<'_>,
    at: u32,
    scope: Scope,
) -> Result<(Expr, NameKind), ReadFault>
    ensures { Gives kind_view (plainly (spec.path_from at scope) cursor.old) result cursor.new }
{
    let (first, first_kind) = cursor.known_name()?;
    let (names, kind) = names_on(alloc, cursor, first, first_kind)?;
    Ok((Expr::path(at, scope, names, false), kind))
}

/// A plain path whose first name, of this number and kind, was taken: the path, and the kind of its last name (IEEE 1800-2017, A.9.3, hierarchical_identifier).
///
/// Errors: `Unexpected` at a token behind a dot that is no name.
#[tactic(auto, unfolding(crate::specs::ExprRules::path_on))]
pub fn path_on(
    alloc: Global,
    cursor: &mut Cursor<'_>,
    first: u32,
    first_kind: NameKind,
) -> Result<(Expr, NameKind), ReadFault>
    ensures { Gives kind_view (plainly (spec.path_on (first, first_kind)) cursor.old) result cursor.new }
{
    let (names, kind) = names_on(alloc, cursor, first, first_kind)?;
    Ok((Expr::path(first, Scope::Plain, names, false), kind))
}

/// A path, and the kind of its last name.
#[tactic(auto, unfolding(crate::specs::ExprRules::known_path, crate::specs::ExprRules::local_path, crate::specs::ExprRules::this_path, crate::specs::ExprRules::plain_path))]
pub(crate) fn any_path(
    alloc: Global,
    cursor: &mut Cursor<'_>,
) -> Result<(Expr, NameKind), ReadFault>
    ensures { Gives kind_view (plainly spec.known_path cursor.old) result cursor.new }
{
    match cursor.peek() {
        Some(Lexeme::Word(Word::Local)) => {
            let at = cursor.take()?;
            cursor.expect(Fixed::Mark(Mark::DoubleColon))?;
            path_from(alloc, cursor, at, Scope::Local)
        }
        Some(Lexeme::Word(Word::This)) => {
            let at = cursor.take()?;
            cursor.expect(Fixed::Mark(Mark::Dot))?;
            path_from(alloc, cursor, at, Scope::This)
        }
        _ => {
            let at = cursor.at();
            path_from(alloc, cursor, at, Scope::Plain)
        }
    }
}

/// Whether a path begins with the token. None is the end of the text.
pub fn starts_path(lexeme: Option<Lexeme>) -> bool
    ensures { result ≡ spec.path_starts lexeme }
{
    match lexeme {
        Some(Lexeme::Name(_)) => true,
        Some(Lexeme::Word(Word::Local)) => true,
        Some(Lexeme::Word(Word::This)) => true,
        _ => false,
    }
}

/// The fault where there is no room for a path.
pub(crate) fn no_path(cursor: &Cursor<'_>) -> ReadFault
    ensures { result ≡ (if spec.path_starts (lexeme_at cursor.now) then TooDeep (length cursor.now) else Unexpected (length cursor.now)) }
{
    if starts_path(cursor.peek()) {
        cursor.too_deep()
    } else {
        cursor.refuse()
    }
}

/// A path, and the kind of its last name, where a node may be as high as `room`.
///
/// Errors: `Unexpected` at a token that does not go on with a path, `TooDeep` at one that begins a path where there is no room for it.
pub fn known_path(
    alloc: Global,
    cursor: &mut Cursor<'_>,
    room: usize,
) -> Result<(Expr, NameKind), ReadFault>
    ensures { Gives kind_view (spec.a_known_path cap room cursor.old) result cursor.new }
{
    if room == 0 {
        return Err(no_path(cursor));
    }
    any_path(alloc, cursor)
}
