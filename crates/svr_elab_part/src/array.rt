// Properties, arrays and their elements as typed trees (IEEE 1800-2017, 7.4 and 7.12.3).

ghost use Rattle.std.specs.Prelude.{◌≡◌, IfOk, option_map};
ghost use Rattle.svr_typed.specs.ExprTerm.{expr_term, node_term};
ghost use Rattle.svr_elab_part.specs.Shapes as shapes;

use crate::part::{Root, Shape};
use crate::place::place_tree;
use std::alloc::Global;
use svr_elab_names::{Dims, Property, Vector};
use svr_operator::Fold;
use svr_typed::{NoMemory, TExpr, TNode};

/// A node, inside its object variable where there is one.
fn wrapped(alloc: Global, object: Option<u32>, shape: Shape, node: TNode) -> Result<TExpr, NoMemory>
    ensures { IfOk result (λ t. expr_term t ≡ shapes.wrapped object shape (node_term node)) }
{
    let inner = TExpr::new(shape.width, shape.signed, node);
    match object {
        None => Ok(inner),
        Some(object) => {
            let node = TNode::of_object(alloc, object, inner)?;
            Ok(TExpr::new(shape.width, shape.signed, node))
        }
    }
}

/// A value of a property's type, in its object where that is named.
pub fn property_tree(
    alloc: Global,
    object: Option<u32>,
    kind: Option<Vector>,
    node: Option<TNode>,
) -> Result<Option<TExpr>, NoMemory>
    ensures { IfOk result (λ t. option_map expr_term t ≡ shapes.property_tree object kind (option_map node_term node)) }
{
    match kind.zip(node) {
        None => Ok(None),
        Some((kind, node)) => Ok(Some(wrapped(alloc, object, Shape::of_kind(kind), node)?)),
    }
}

/// How many elements a row has; 1 of an array of one dimension.
fn inner_of(dims: Dims) -> Option<u32>
    ensures { result ≡ shapes.inner_of dims }
{
    match dims {
        Dims::Rows(_, inner) => inner,
        Dims::Scalar | Dims::Fixed(_) | Dims::Dynamic => Some(1),
    }
}

/// The rows of an array of two dimensions, and the elements of each.
fn sizes_of(dims: Dims) -> Option<(u32, u32)>
    ensures { result ≡ shapes.sizes_of dims }
{
    let Dims::Rows(rows, inner) = dims else {
        return None;
    };
    let Some(rows) = rows else {
        return None;
    };
    match inner {
        None => None,
        Some(inner) => Some((rows, inner)),
    }
}

/// The size of an array as an expression: that of an own property, or of another object where one is named; none for what has no size of its own.
pub fn size_tree(
    alloc: Global,
    property: Property,
    object: Option<u32>,
) -> Result<Option<TExpr>, NoMemory>
    ensures { IfOk result (λ t. option_map expr_term t ≡ shapes.size_tree property object) }
{
    match inner_of(property.dims) {
        None => Ok(None),
        Some(inner) => {
            let node = TNode::size(property.number, inner);
            Ok(Some(wrapped(alloc, object, Shape::whole_number(), node)?))
        }
    }
}

/// The index of a loop or a reduction, counted outwards from the innermost.
pub fn loop_tree(level: u32) -> TExpr
    ensures { expr_term result ≡ shapes.loop_tree level }
{
    TExpr::new(32, true, TNode::loop_index(level))
}

/// The element that a reduction reads.
pub fn item_tree(alloc: Global, level: u32, property: Property) -> Result<Option<TExpr>, NoMemory>
    ensures { IfOk result (λ t. option_map expr_term t ≡ shapes.item_tree level property) }
{
    let node = TNode::element(alloc, property.number, loop_tree(level))?;
    property_tree(alloc, None, property.kind, Some(node))
}

/// A reduction, typed only where it may stand: outside of objects.
fn reduce_node(
    alloc: Global,
    property: Property,
    object: Option<u32>,
    fold: Fold,
    body: Option<TExpr>,
) -> Result<Option<TNode>, NoMemory>
    ensures { IfOk result (λ n. option_map node_term n ≡ shapes.reduce_node property object fold (option_map expr_term body)) }
{
    if object.is_some() {
        drop(body);
        return Ok(None);
    }
    match body {
        None => Ok(None),
        Some(body) => Ok(Some(TNode::reduce(alloc, property.number, fold, body)?)),
    }
}

/// A reduction without a body, which folds the elements themselves.
pub fn fold_tree(
    alloc: Global,
    property: Property,
    object: Option<u32>,
    fold: Fold,
) -> Result<Option<TExpr>, NoMemory>
    ensures { IfOk result (λ t. option_map expr_term t ≡ shapes.fold_tree property object fold) }
{
    let body = item_tree(alloc, 0, property)?;
    let node = reduce_node(alloc, property, object, fold, body)?;
    property_tree(alloc, None, property.kind, node)
}

fn element_node(
    alloc: Global,
    property: Property,
    index: Option<TExpr>,
) -> Result<Option<TNode>, NoMemory>
    ensures { IfOk result (λ n. option_map node_term n ≡ shapes.element_node property (option_map expr_term index)) }
{
    match index {
        None => Ok(None),
        Some(index) => Ok(Some(TNode::element(alloc, property.number, index)?)),
    }
}

/// An element of an array property, where its type and the index are known.
pub fn element_tree(
    alloc: Global,
    root: Root,
    index: Option<TExpr>,
) -> Result<Option<TExpr>, NoMemory>
    ensures { IfOk result (λ t. option_map expr_term t ≡ shapes.element_tree root (option_map expr_term index)) }
{
    let Root::Field(property, object) = root else {
        drop(index);
        return Ok(None);
    };
    let node = element_node(alloc, property, index)?;
    property_tree(alloc, object, property.kind, node)
}

/// An element of an array of two dimensions outside of objects.
fn plain_cell(
    alloc: Global,
    property: Property,
    row: TExpr,
    column: TExpr,
) -> Result<Option<TNode>, NoMemory>
    ensures { IfOk result (λ n. option_map node_term n ≡ option_map (λ m. shapes.cell property.number m (expr_term row) (expr_term column)) (shapes.inner_of property.dims)) }
{
    match inner_of(property.dims) {
        None => {
            drop((row, column));
            Ok(None)
        }
        Some(inner) => Ok(Some(TNode::cell(alloc, property.number, inner, row, column)?)),
    }
}

/// An element of an array of two dimensions of an object, by its place among all elements.
fn placed_cell(
    alloc: Global,
    property: Property,
    row: TExpr,
    column: TExpr,
) -> Result<Option<TNode>, NoMemory>
    ensures { IfOk result (λ n. option_map node_term n ≡ option_map (λ d. shapes.placed property.number d (expr_term row) (expr_term column)) (shapes.sizes_of property.dims)) }
{
    match sizes_of(property.dims) {
        None => {
            drop((row, column));
            Ok(None)
        }
        Some((rows, inner)) => {
            let place = place_tree(alloc, rows, inner, row, column)?;
            Ok(Some(TNode::element(alloc, property.number, place)?))
        }
    }
}

/// An element of an array of two dimensions by its indexes, or by its place where it is of an object.
fn cell_at(
    alloc: Global,
    property: Property,
    object: Option<u32>,
    row: TExpr,
    column: TExpr,
) -> Result<Option<TNode>, NoMemory>
    ensures { IfOk result (λ n. option_map node_term n ≡ shapes.cell_at property object (expr_term row) (expr_term column)) }
{
    match object {
        None => plain_cell(alloc, property, row, column),
        Some(_) => placed_cell(alloc, property, row, column),
    }
}

fn cell_node(
    alloc: Global,
    property: Property,
    object: Option<u32>,
    row: Option<TExpr>,
    column: Option<TExpr>,
) -> Result<Option<TNode>, NoMemory>
    ensures { IfOk result (λ n. option_map node_term n ≡ shapes.cell_node property object (option_map expr_term row) (option_map expr_term column)) }
{
    match row.zip(column) {
        None => Ok(None),
        Some((row, column)) => cell_at(alloc, property, object, row, column),
    }
}

/// An element of an array of two dimensions, where its type and both indexes are known.
pub fn cell_tree(
    alloc: Global,
    root: Root,
    row: Option<TExpr>,
    column: Option<TExpr>,
) -> Result<Option<TExpr>, NoMemory>
    ensures { IfOk result (λ t. option_map expr_term t ≡ shapes.cell_tree root (option_map expr_term row) (option_map expr_term column)) }
{
    let Root::Field(property, object) = root else {
        drop((row, column));
        return Ok(None);
    };
    let node = cell_node(alloc, property, object, row, column)?;
    property_tree(alloc, object, property.kind, node)
}

/// A reduction of what a path stands for.
pub fn array_node(
    alloc: Global,
    root: Root,
    fold: Fold,
    body: Option<TExpr>,
) -> Result<Option<TNode>, NoMemory>
    ensures { IfOk result (λ n. option_map node_term n ≡ shapes.array_node root fold (option_map expr_term body)) }
{
    let Root::Field(property, object) = root else {
        drop(body);
        return Ok(None);
    };
    reduce_node(alloc, property, object, fold, body)
}
