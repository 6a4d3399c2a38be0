// Built-in methods, which are told by the last name of a path.

ghost use Rattle.std.specs.Prelude.{◌≡◌};
ghost use Rattle.svr_tree.specs.ExprTree.{expr_tree};
ghost use Rattle.svr_stmt.specs.StmtRules as spec;

use svr_token::NameKind;
use svr_tree::{Expr, ModeKind};

/// A method that is built in (IEEE 1800-2017, 18.6, 18.8 and 18.9).
#[derive(Clone, Copy)]
pub enum Method {
    Randomize,
    Mode(ModeKind),
}

fn method_of(kind: NameKind) -> Option<Method>
    ensures { result ≡ spec.method_of kind }
{
    match kind {
        NameKind::Plain
        | NameKind::Sum
        | NameKind::Product
        | NameKind::And
        | NameKind::Or
        | NameKind::Xor => None,
        NameKind::Randomize => Some(Method::Randomize),
        NameKind::RandMode => Some(Method::Mode(ModeKind::Rand)),
        NameKind::ConstraintMode => Some(Method::Mode(ModeKind::Constraint)),
    }
}

/// The method that a path of two names or more ends with, whose last name is of this kind.
pub(crate) fn path_method(path: &Expr, kind: NameKind) -> Option<Method>
    ensures { result ≡ spec.path_method (expr_tree path.now, kind) }
{
    match path {
        Expr::Path { names, .. } if names.len() > 1 => method_of(kind),
        _ => None,
    }
}
