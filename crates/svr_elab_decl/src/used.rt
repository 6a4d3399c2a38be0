// Types as they are used (IEEE 1800-2017, 6.11, 6.18 and 8.3).

ghost use Rattle.std.specs.Prelude.{◌≡◌, ◌<◌, ◌^◌, length, slice_get, IfOk};
ghost use Rattle.svr_tree.specs.DeclTree.{integer_tree, type_tree};
ghost use Rattle.svr_elab_fault.specs.Refusals.{first_one};
ghost use Rattle.svr_elab_names.specs.Tables.{space_of};
ghost use Rattle.svr_elab_part.specs.Fits.{MembersFit, KindFits};
ghost use Rattle.svr_elab_type.specs.Types as types;
ghost use Rattle.svr_elab_type.specs.Fits.{IntegerFits};
ghost use Rattle.svr_elab_decl.specs.Properties as spec;
ghost use Rattle.svr_elab_decl.specs.Fits.{TypeFits};
ghost use Rattle.svr_elab_decl.specs.Seen.{used_of, used_part};

use std::alloc::Global as Heap;
use svr_elab_fault::{Fault, when};
use svr_elab_names::{Global, NameSpace, Vector};
use svr_elab_type::integer_type;
use svr_refusal::Refusal;
use svr_tree::{DataType, IntegerType};
use svr_typed::{EnumType, NoMemory};

/// A type as it is used: of numbers, a class by its number, or a name that stands for no type.
#[derive(Clone, Copy)]
pub enum Used {
    Numbers(Option<Vector>),
    Objects(u32),
    Unnamed,
}

impl Used {
    /// The type, where it is one of numbers and not refused.
    pub fn kind(self) -> Option<Vector>
        ensures { result ≡ spec.used_kind (used_of self) }
    {
        match self {
            Used::Numbers(kind) => kind,
            Used::Objects(_) | Used::Unnamed => None,
        }
    }

    /// Whether objects of a class use the name.
    pub fn is_objects(self) -> bool
        ensures { result ≡ spec.is_objects (used_of self) }
    {
        match self {
            Used::Objects(_) => true,
            Used::Numbers(_) | Used::Unnamed => false,
        }
    }

    /// Whether nothing of that name is declared.
    pub fn is_unnamed(self) -> bool
        ensures { result ≡ spec.is_unnamed (used_of self) }
    {
        match self {
            Used::Unnamed => true,
            Used::Numbers(_) | Used::Objects(_) => false,
        }
    }
}

/// What is known of a type that is used.
#[derive(Clone, Copy)]
pub struct UsedPart {
    pub used: Used,
    pub fault: Option<Fault>,
}

#[tactic(auto, using(svr_elab_names::proofs::Entries::global_found))]
fn global_at(names: &NameSpace<'_, '_>, name: u32) -> Option<Global>
    ensures { result ≡ types.global_at (space_of names.now) name }
{
    match names.globals.get(names.names.name(name)) {
        None => None,
        Some(stands) => Some(*stands),
    }
}

fn used_global(stands: Option<Global>) -> Used
    ensures { used_of result ≡ spec.used_global stands }
{
    match stands {
        Some(Global::OfType(kind)) => Used::Numbers(kind),
        Some(Global::OfClass(class)) => Used::Objects(class),
        Some(Global::OfMember(_, _)) | None => Used::Unnamed,
    }
}

fn named_type(name: u32, names: &NameSpace<'_, '_>) -> UsedPart
    requires { MembersFit (space_of names.now) }
    ensures value { used_part result ≡ spec.named_type first_one (space_of names.now) name }
    ensures fits { KindFits (spec.used_kind (used_of result.used)) }
{
    let used = used_global(global_at(names, name));
    UsedPart {
        used,
        fault: when(used.is_unnamed(), name, Refusal::UnknownName),
    }
}

/// A type that is written out.
fn written_type(
    alloc: Heap,
    kind: &IntegerType,
    names: &NameSpace<'_, '_>,
) -> Result<UsedPart, NoMemory>
    requires vars { length names.now.vars.now.entries < 2 ^ 32 }
    requires members { MembersFit (space_of names.now) }
    requires fits { IntegerFits (length names.now.loops.now) (integer_tree kind.now) }
    ensures value { IfOk result (λ u. used_part u ≡ spec.numbers_use first_one (types.integer_type first_one (space_of names.now) (integer_tree kind.now))) }
    ensures fits { IfOk result (λ u. KindFits (spec.used_kind (used_of u.used))) }
{
    let part = integer_type(alloc, kind, names)?;
    Ok(UsedPart {
        used: Used::Numbers(part.kind),
        fault: part.fault,
    })
}

/// A type that is written out, or the name of a type or class.
pub fn data_type(
    alloc: Heap,
    kind: &DataType,
    names: &NameSpace<'_, '_>,
) -> Result<UsedPart, NoMemory>
    requires vars { length names.now.vars.now.entries < 2 ^ 32 }
    requires members { MembersFit (space_of names.now) }
    requires fits { TypeFits (length names.now.loops.now) (type_tree kind.now) }
    ensures value { IfOk result (λ u. used_part u ≡ spec.data_type first_one (space_of names.now) (type_tree kind.now)) }
    ensures fits { IfOk result (λ u. KindFits (spec.used_kind (used_of u.used))) }
{
    match kind {
        DataType::Integer(kind) => written_type(alloc, kind, names),
        DataType::Named(name) => Ok(named_type(*name, names)),
    }
}

/// Whether the enum of this number has more members than a cyclic property can have values.
fn has_many(enums: &[EnumType], number: u32) -> bool
    ensures { result ≡ spec.has_many (slice_get enums.now number) }
{
    match enums.get(number as usize) {
        None => false,
        Some(kind) => 256 < kind.members.len(),
    }
}

/// Whether a type has more values than a cyclic property can have: over 8 bits, or over 256 members (IEEE 1800-2017, 18.4.2).
pub fn is_wide_cycle(enums: &[EnumType], kind: Option<Vector>) -> bool
    ensures { result ≡ spec.is_wide_cycle enums.now kind }
{
    let Some(kind) = kind else {
        return false;
    };
    match kind.kind.members {
        None => 8 < kind.kind.width,
        Some(number) => has_many(enums, number),
    }
}
