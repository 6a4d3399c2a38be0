// The typed statements that assignments are.

ghost use Rattle.std.specs.Prelude.{◌≡◌, option_map, map};
ghost use Rattle.svr_typed.specs.ExprTerm.{expr_term, node_term};
ghost use Rattle.svr_typed.specs.StmtTerm.{stmt_term};
ghost use Rattle.svr_typed.specs.ExprTerm as term;
ghost use Rattle.svr_typed.specs.StmtTerm as stmt_term_of;
ghost use Rattle.svr_elab_part.specs.Shapes.{both_known};
ghost use Rattle.svr_elab_type.specs.Types as types;
ghost use Rattle.svr_elab_stmt.specs.Stmts as spec;

use sqlite_items::Items;
use svr_elab_target::Target;
use svr_elab_type::elements;
use svr_typed::{TExpr, TNode, TStmt};

/// The index of an element.
fn inner_index(node: TNode) -> Option<TExpr>
    ensures { option_map expr_term result ≡ spec.inner_index (node_term node) }
{
    match node {
        TNode::Element(_, index) => Some(index.into_inner()),
        other => {
            drop(other);
            None
        }
    }
}

/// The index of an element of an object's array.
#[tactic(auto, using(crate::proofs::Opened::inner_opened))]
fn node_index(node: TNode) -> Option<TExpr>
    ensures { option_map expr_term result ≡ spec.node_index (node_term node) }
{
    match node {
        TNode::Of(_, inner) => inner_index(inner.into_inner().node),
        other => {
            drop(other);
            None
        }
    }
}

/// `object.property = value`; `place` is the left side as an expression.
#[tactic(auto, using(crate::proofs::Opened::index_opened))]
fn set_property(object: u32, property: u32, place: TExpr, value: TExpr) -> TStmt
    ensures { stmt_term result ≡ spec.set_property object property (expr_term place) (expr_term value) }
{
    TStmt::set_prop(object, property, node_index(place.node), value)
}

/// `target = value`; `place` is the left side as an expression.
pub(crate) fn set(target: Target, place: Option<TExpr>, value: Option<TExpr>) -> Option<TStmt>
    ensures { option_map stmt_term result ≡ spec.set_tree target (option_map expr_term place) (option_map expr_term value) }
{
    match target {
        Target::Variable(variable) => {
            drop(place);
            set_variable(variable, value)
        }
        Target::Place(object, property) => set_place(object, property.number, place, value),
        Target::Nothing | Target::Object(_) | Target::Array(_, _) => {
            drop((place, value));
            None
        }
    }
}

fn set_variable(variable: u32, value: Option<TExpr>) -> Option<TStmt>
    ensures { option_map stmt_term result ≡ option_map (stmt_term_of.set_var variable) (option_map expr_term value) }
{
    match value {
        None => None,
        Some(value) => Some(TStmt::set_var(variable, value)),
    }
}

fn set_place(
    object: u32,
    property: u32,
    place: Option<TExpr>,
    value: Option<TExpr>,
) -> Option<TStmt>
    ensures { option_map stmt_term result ≡ both_known (spec.set_property object property) (option_map expr_term place) (option_map expr_term value) }
{
    match place.zip(value) {
        None => None,
        Some((place, value)) => Some(set_property(object, property, place, value)),
    }
}

/// `target = new`
pub(crate) fn make(target: Target) -> Option<TStmt>
    ensures { option_map stmt_term result ≡ spec.make_tree target }
{
    match target.object() {
        None => None,
        Some(object) => Some(TStmt::make(object)),
    }
}

/// `target = new[size]`
pub(crate) fn resize(target: Target, size: Option<i128>) -> Option<TStmt>
    ensures { option_map stmt_term result ≡ spec.resize_tree target size }
{
    match target {
        Target::Array(object, property) => resize_array(object, property.number, size),
        Target::Nothing | Target::Object(_) | Target::Variable(_) | Target::Place(_, _) => None,
    }
}

fn resize_array(object: u32, property: u32, size: Option<i128>) -> Option<TStmt>
    ensures { option_map stmt_term result ≡ option_map (λ c. stmt_term_of.resize object property (types.elements c)) size }
{
    match size {
        None => None,
        Some(size) => Some(TStmt::resize(object, property, elements(size))),
    }
}

/// `target = '{ values }`
pub(crate) fn pattern(target: Target, values: Option<Items<TExpr>>) -> Option<TStmt>
    ensures { option_map stmt_term result ≡ spec.pattern_tree target (option_map (map expr_term) values) }
{
    match target {
        Target::Array(object, property) => pattern_array(object, property.number, values),
        Target::Nothing | Target::Object(_) | Target::Variable(_) | Target::Place(_, _) => None,
    }
}

fn pattern_array(object: u32, property: u32, values: Option<Items<TExpr>>) -> Option<TStmt>
    ensures { option_map stmt_term result ≡ option_map (λ vs. stmt_term_of.pattern object property (term.exprs_of vs)) (option_map (map expr_term) values) }
{
    match values {
        None => None,
        Some(values) => Some(TStmt::pattern(object, property, values)),
    }
}
