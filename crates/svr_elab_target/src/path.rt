// Paths that begin with an object variable.

ghost use Rattle.std.specs.Prelude.{◌≡◌, ◌<◌, ◌^◌, length, option_map};
ghost use Rattle.svr_tree.specs.ExprTree.{expr_tree};
ghost use Rattle.svr_elab_fault.specs.Refusals.{first_one};
ghost use Rattle.svr_elab_names.specs.Tables.{space_of};
ghost use Rattle.svr_elab_target.specs.Named as spec;
ghost use Rattle.svr_elab_target.specs.Seen.{path_seen, object_seen};

use indexmap::IndexSet;
use svr_elab_fault::{Fault, when};
use svr_elab_names::{Meaning, NameSpace};
use svr_refusal::Refusal;
use svr_tree::{Expr, Scope};

/// An object variable and the number of its class.
#[derive(Clone, Copy, PartialEq, Eq)]
pub struct Object {
    pub variable: u32,
    pub class: u32,
}

/// A path that begins with an object variable: its first name, the names behind it, and the variable, where it is one.
#[derive(Clone, Copy)]
pub struct ObjectPath<'e> {
    pub first: u32,
    pub rest: &'e [u32],
    pub object: Option<Object>,
}

fn object_meant(meaning: Meaning) -> Option<Object>
    ensures { option_map object_seen result ≡ spec.object_meant meaning }
{
    match meaning {
        Meaning::ObjectOf { number, class } => Some(Object {
            variable: number,
            class,
        }),
        Meaning::Wrong { .. } | Meaning::LoopOf { .. } | Meaning::ItemOf { .. } => None,
        Meaning::MemberOf { .. } | Meaning::PropertyOf { .. } | Meaning::SizeOf { .. } => None,
        Meaning::FoldOf { .. } | Meaning::VariableOf { .. } => None,
    }
}

fn path_from<'e>(place: Scope, path: &'e [u32], names: &NameSpace<'_, '_>) -> ObjectPath<'e>
    requires vars { length names.now.vars.now.entries < 2 ^ 32 }
    requires loops { length names.now.loops.now < 2 ^ 32 }
    ensures { path_seen result ≡ spec.path_from (space_of names.now) place path.now }
{
    match path.first() {
        None => ObjectPath {
            first: 0,
            rest: path,
            object: None,
        },
        Some(first) => ObjectPath {
            first: *first,
            rest: &path[1..],
            object: object_meant(names.look(place, &path[..1]).meaning),
        },
    }
}

/// What a path begins with. By the grammar, there is no other expression.
pub fn object_path<'e>(e: &'e Expr, names: &NameSpace<'_, '_>) -> ObjectPath<'e>
    requires vars { length names.now.vars.now.entries < 2 ^ 32 }
    requires loops { length names.now.loops.now < 2 ^ 32 }
    ensures { path_seen result ≡ spec.object_path (space_of names.now) (expr_tree e.now) }
{
    match e {
        Expr::Path {
            scope,
            names: path,
            ..
        } => path_from(*scope, path.as_slice(), names),
        Expr::Select { last: None, .. } | Expr::Select { last: Some(_), .. } => {
            path_from(Scope::Plain, &[], names)
        }
        Expr::Number { .. } | Expr::Unary { .. } | Expr::Binary { .. } => {
            path_from(Scope::Plain, &[], names)
        }
        Expr::Choice { .. } | Expr::Inside { .. } | Expr::Join { .. } => {
            path_from(Scope::Plain, &[], names)
        }
        Expr::Copies { .. } | Expr::Sign { .. } | Expr::Paren { .. } | Expr::Reduce { .. } => {
            path_from(Scope::Plain, &[], names)
        }
    }
}

/// The refusal of a first name that is no object variable, or one that has no object.
pub fn use_fault(made: &IndexSet<u32>, first: u32, object: Option<Object>) -> Option<Fault>
    ensures { result ≡ spec.use_faults first_one made.now.keys first (option_map object_seen object) }
{
    match object {
        None => when(true, first, Refusal::UnknownName),
        Some(object) => when(!made.contains(&object.variable), first, Refusal::NullObject),
    }
}

/// The refusal of a name, where there is one.
pub fn unknown_at(name: Option<u32>) -> Option<Fault>
    ensures { result ≡ spec.unknown_at first_one name }
{
    match name {
        None => None,
        Some(name) => when(true, name, Refusal::UnknownName),
    }
}
