// Literals and names.

ghost use Rattle.std.specs.Prelude.{◌≡◌, IfOk, option_map};
ghost use Rattle.svr_typed.specs.ExprTerm.{expr_term, node_term};
ghost use Rattle.svr_elab_fault.specs.Refusals.{first_one};
ghost use Rattle.svr_elab_part.specs.Elab as spec;
ghost use Rattle.svr_elab_part.specs.Seen.{part_of};
ghost use Rattle.svr_elab_part.specs.Shapes as shapes;

use std::alloc::Global;
use svr_elab_fault::{Fault, earlier, when};
use svr_elab_names::{Found, Meaning, Vector};
use svr_elab_part::{
    Form, Part, Reads, Shape, fold_tree, item_tree, kind_shape, loop_tree, property_tree, size_tree,
};
use svr_refusal::Refusal;
use svr_typed::{NoMemory, TExpr, TNode};

/// A literal. The width 0 stands for `'0` and `'1` (IEEE 1800-2017, 5.7.1).
pub fn literal(at: u32, value: u64, width: u8, signed: bool) -> Part
    ensures { part_of result ≡ spec.literal first_one at value width signed }
{
    let every = width == 0;
    let shape = if every {
        Shape::bit()
    } else {
        Shape { width, signed }
    };
    let node = TNode::number(value, every);
    Part {
        at,
        shape: Some(shape),
        tree: Some(TExpr::new(shape.width, shape.signed, node)),
        fault: None,
        reads: Reads::only_numbers(),
        form: Form::other(at),
    }
}

fn member_tree(value: Option<u64>, kind: Option<Vector>) -> Option<TExpr>
    ensures { option_map expr_term result ≡ shapes.member_tree value kind }
{
    let Some(kind) = kind else {
        return None;
    };
    let Some(value) = value else {
        return None;
    };
    Some(TExpr::new(
        kind.kind.width,
        kind.kind.signed,
        TNode::number(value, false),
    ))
}

fn variable_tree(number: u32, kind: Option<Vector>) -> Option<TExpr>
    ensures { option_map expr_term result ≡ shapes.variable_tree number kind }
{
    match kind {
        None => None,
        Some(kind) => Some(TExpr::new(kind.kind.width, kind.kind.signed, TNode::script(number))),
    }
}

fn meaning_shape(meaning: Meaning) -> Option<Shape>
    ensures { result ≡ shapes.meaning_shape meaning }
{
    match meaning {
        Meaning::Wrong { .. } | Meaning::ObjectOf { .. } => None,
        Meaning::LoopOf { .. } | Meaning::SizeOf { .. } => Some(Shape::whole_number()),
        Meaning::MemberOf { kind, .. } | Meaning::VariableOf { kind, .. } => kind_shape(kind),
        Meaning::ItemOf { property, .. }
        | Meaning::PropertyOf { property, .. }
        | Meaning::FoldOf { property, .. } => kind_shape(property.kind),
    }
}

fn meaning_tree(alloc: Global, meaning: Meaning) -> Result<Option<TExpr>, NoMemory>
    ensures { IfOk result (λ t. option_map expr_term t ≡ shapes.meaning_tree meaning) }
{
    match meaning {
        Meaning::Wrong { .. } | Meaning::ObjectOf { .. } => Ok(None),
        Meaning::LoopOf { level } => Ok(Some(loop_tree(level))),
        Meaning::ItemOf { level, property } => item_tree(alloc, level, property),
        Meaning::MemberOf { value, kind } => Ok(member_tree(value, kind)),
        Meaning::PropertyOf { property, object } => property_tree(
            alloc,
            object,
            property.kind,
            Some(TNode::prop(property.number)),
        ),
        Meaning::SizeOf { property, object } => size_tree(alloc, property, object),
        Meaning::FoldOf {
            property,
            object,
            fold,
            ..
        } => fold_tree(alloc, property, object, fold),
        Meaning::VariableOf { number, kind } => Ok(variable_tree(number, kind)),
    }
}

fn meaning_reads(meaning: Meaning) -> Reads
    ensures { result ≡ shapes.meaning_reads meaning }
{
    match meaning {
        Meaning::MemberOf { .. } => Reads::only_numbers(),
        Meaning::ItemOf { property, .. }
        | Meaning::PropertyOf { property, .. }
        | Meaning::FoldOf { property, .. } => Reads::of_property(property),
        Meaning::SizeOf { property, .. } => Reads::of_size(property),
        Meaning::Wrong { .. }
        | Meaning::LoopOf { .. }
        | Meaning::VariableOf { .. }
        | Meaning::ObjectOf { .. } => Reads::only_numbers().no_constant(),
    }
}

fn meaning_fault(name: u32, call: bool, meaning: Meaning) -> Option<Fault>
    ensures { result ≡ spec.meaning_faults first_one name call meaning }
{
    match meaning {
        Meaning::Wrong { name } => when(true, name, Refusal::UnknownName),
        Meaning::SizeOf { .. } => None,
        Meaning::FoldOf { object, array, .. } => when(object.is_some(), array, Refusal::LeftOut),
        Meaning::LoopOf { .. }
        | Meaning::ItemOf { .. }
        | Meaning::MemberOf { .. }
        | Meaning::PropertyOf { .. }
        | Meaning::VariableOf { .. }
        | Meaning::ObjectOf { .. } => when(call, name, Refusal::UnknownName),
    }
}

fn unmade_fault(unmade: Option<u32>) -> Option<Fault>
    ensures { result ≡ spec.unmade_faults first_one unmade }
{
    match unmade {
        None => None,
        Some(name) => when(true, name, Refusal::NullObject),
    }
}

/// A path by what it stands for. `name` is its last name, `call` whether `()` stands behind it.
pub fn path_part(
    alloc: Global,
    at: u32,
    name: u32,
    call: bool,
    found: Found,
) -> Result<Part, NoMemory>
    ensures { IfOk result (λ p. part_of p ≡ spec.path_part first_one at name call found) }
{
    let meaning = found.meaning;
    Ok(Part {
        at,
        shape: meaning_shape(meaning),
        tree: meaning_tree(alloc, meaning)?,
        fault: earlier(
            unmade_fault(found.unmade),
            meaning_fault(name, call, meaning),
        ),
        reads: meaning_reads(meaning),
        form: Form::of_meaning(name, meaning),
    })
}
