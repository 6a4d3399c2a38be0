// Declarations of types (IEEE 1800-2017, 6.18 and 6.19).

ghost use Rattle.std.specs.Prelude.{◌≡◌, ◌<◌, ◌≤◌, ◌+◌, ◌^◌, length, map, option_map, IfOk};
ghost use Rattle.svr_token.specs.Names.{names_of};
ghost use Rattle.svr_tree.specs.DeclTree.{plain, member_tree, integer_tree, enum_tree, type_decl_tree};
ghost use Rattle.svr_elab_fault.specs.Refusals.{first_one};
ghost use Rattle.svr_elab_names.specs.Tables.{global_of, class_of};
ghost use Rattle.svr_elab_part.specs.Fits.{KindFits, MembersFit};
ghost use Rattle.svr_elab_type.specs.Types as spec;
ghost use Rattle.svr_elab_type.specs.Fits.{IntegerFits, EnumMembersFit, EnumFits, DeclarationFits};
ghost use Rattle.svr_elab_type.specs.Seen.{AreEmpty, type_part, globals_part};

use crate::enums::{EnumPart, enum_members};
use crate::global::{NoNames, and_name, declaring, double};
use crate::types::{TypePart, base_type, integer_type};
use indexmap::{IndexMap, IndexSet};
use sqlite_items::Items;
use std::alloc::Global as Heap;
use svr_elab_expr::beside;
use svr_elab_fault::{Fault, earlier};
use svr_elab_form::pushed;
use svr_elab_names::{ClassNames, Global, Vector};
use svr_token::Names;
use svr_tree::{EnumDecl, IntegerType, MemberDecl, TypeDecl, TypeDefinition};
use svr_typed::{EnumType, NoMemory, NumType};

/// The names of types, classes and enum members so far, with the first refusal.
#[derive(Drop)]
pub struct Globals<'a> {
    pub names: IndexMap<&'a [u8], Global>,
    pub classes: Items<ClassNames<'a>>,
    pub enums: Items<EnumType>,
    pub fault: Option<Fault>,
}

/// The type of the values of the enum of this number.
fn in_enum(number: u32, base: Option<Vector>) -> Option<Vector>
    ensures value { result ≡ option_map (spec.in_enum number) base }
    ensures fits { KindFits base → KindFits result }
{
    match base {
        None => None,
        Some(base) => Some(Vector {
            kind: NumType {
                width: base.kind.width,
                signed: base.kind.signed,
                members: Some(number),
            },
            low: base.low,
        }),
    }
}

/// The base type that an enum keeps, which is `int` where it is refused.
fn enum_base(base: Option<Vector>) -> NumType
    ensures { result ≡ spec.enum_base base }
{
    match base {
        None => NumType {
            width: 32,
            signed: true,
            members: None,
        },
        Some(base) => base.kind,
    }
}

fn with_type<'a>(
    names: &Names<'a>,
    globals: Globals<'a>,
    name: u32,
    kind: Option<Vector>,
) -> Result<Globals<'a>, NoMemory>
    requires kind { KindFits kind }
    requires members { MembersFit (spec.declaring (names_of names.now) (map global_of globals.names.entries) (map class_of globals.classes)) }
    ensures value { IfOk result (λ s. globals_part (names_of names.now) s ≡ spec.with_type first_one (globals_part (names_of names.now) globals.entry) name kind) }
    ensures members { IfOk result (λ s. MembersFit (spec.declaring (names_of names.now) (map global_of s.names.entries) (map class_of s.classes))) }
    ensures enums { IfOk result (λ s. s.enums ≡ globals.entry.enums) }
    ensures classes { IfOk result (λ s. s.classes ≡ globals.entry.classes) }
{
    let spelled = names.name(name);
    let fault = earlier(globals.fault, double(&globals.names, spelled, name));
    Ok(Globals {
        names: and_name(globals.names, spelled, Global::OfType(kind))?,
        classes: globals.classes,
        enums: globals.enums,
        fault,
    })
}

fn enum_type<'a>(
    alloc: Heap,
    names: &Names<'a>,
    none: &NoNames<'a>,
    globals: Globals<'a>,
    name: u32,
    base: TypePart,
    list: &[MemberDecl],
) -> Result<Globals<'a>, NoMemory>
    requires none { AreEmpty none.now }
    requires enums { length globals.enums < 2 ^ 32 }
    requires base { KindFits base.kind }
    requires members { MembersFit (spec.declaring (names_of names.now) (map global_of globals.names.entries) (map class_of globals.classes)) }
    requires fits { EnumMembersFit 0 (map member_tree list.now) }
    ensures value { IfOk result (λ s. globals_part (names_of names.now) s ≡ spec.enum_type first_one (globals_part (names_of names.now) globals.entry) name (type_part base) (map member_tree list.now)) }
    ensures members { IfOk result (λ s. MembersFit (spec.declaring (names_of names.now) (map global_of s.names.entries) (map class_of s.classes))) }
    ensures enums { IfOk result (λ s. length s.enums ≤ length globals.entry.enums + 1) }
    ensures classes { IfOk result (λ s. s.classes ≡ globals.entry.classes) }
{
    let kind = in_enum(globals.enums.len() as u32, base.kind);
    let start = EnumPart {
        globals: globals.names,
        next: Some(0),
        numbers: IndexSet::new(alloc),
        members: Items::new(alloc),
        fault: earlier(globals.fault, base.fault),
    };
    let part = enum_members(
        alloc,
        names,
        globals.classes.as_slice(),
        &*none,
        kind,
        start,
        list,
    );
    let ((classes, enums), part) = beside((globals.classes, globals.enums), part)?;
    drop(part.numbers);
    let one = EnumType {
        base: enum_base(base.kind),
        members: part.members,
    };
    let enums = pushed(enums, one);
    let ((classes, table), enums) = beside((classes, part.globals), enums)?;
    let globals = Globals {
        names: table,
        classes,
        enums,
        fault: part.fault,
    };
    with_type(names, globals, name, kind)
}

fn enum_decl<'a>(
    alloc: Heap,
    names: &Names<'a>,
    none: &NoNames<'a>,
    globals: Globals<'a>,
    name: u32,
    decl: &EnumDecl,
) -> Result<Globals<'a>, NoMemory>
    requires none { AreEmpty none.now }
    requires enums { length globals.enums < 2 ^ 32 }
    requires members { MembersFit (spec.declaring (names_of names.now) (map global_of globals.names.entries) (map class_of globals.classes)) }
    requires fits { EnumFits 0 (enum_tree decl.now) }
    ensures value { IfOk result (λ s. globals_part (names_of names.now) s ≡ spec.enum_decl first_one (globals_part (names_of names.now) globals.entry) name (enum_tree decl.now)) }
    ensures members { IfOk result (λ s. MembersFit (spec.declaring (names_of names.now) (map global_of s.names.entries) (map class_of s.classes))) }
    ensures enums { IfOk result (λ s. length s.enums ≤ length globals.entry.enums + 1) }
    ensures classes { IfOk result (λ s. s.classes ≡ globals.entry.classes) }
{
    let base = base_type(
        alloc,
        &decl.base,
        &declaring(*names, &globals.names, globals.classes.as_slice(), &*none),
    );
    let (globals, base) = beside(globals, base)?;
    enum_type(
        alloc,
        names,
        none,
        globals,
        name,
        base,
        decl.members.as_slice(),
    )
}

fn integer_decl<'a>(
    alloc: Heap,
    names: &Names<'a>,
    none: &NoNames<'a>,
    globals: Globals<'a>,
    name: u32,
    kind: &IntegerType,
) -> Result<Globals<'a>, NoMemory>
    requires none { AreEmpty none.now }
    requires members { MembersFit (spec.declaring (names_of names.now) (map global_of globals.names.entries) (map class_of globals.classes)) }
    requires fits { IntegerFits 0 (integer_tree kind.now) }
    ensures value { IfOk result (λ s. globals_part (names_of names.now) s ≡ spec.definition first_one (globals_part (names_of names.now) globals.entry) name (plain (integer_tree kind.now))) }
    ensures members { IfOk result (λ s. MembersFit (spec.declaring (names_of names.now) (map global_of s.names.entries) (map class_of s.classes))) }
    ensures enums { IfOk result (λ s. s.enums ≡ globals.entry.enums) }
    ensures classes { IfOk result (λ s. s.classes ≡ globals.entry.classes) }
{
    let part = integer_type(
        alloc,
        kind,
        &declaring(*names, &globals.names, globals.classes.as_slice(), &*none),
    );
    let (mut globals, part) = beside(globals, part)?;
    globals.fault = earlier(globals.fault, part.fault);
    with_type(names, globals, name, part.kind)
}

/// One more type. `names`: what the tokens spell; `none`: what no declaration can name.
pub fn type_decl<'a>(
    alloc: Heap,
    names: &Names<'a>,
    none: &NoNames<'a>,
    globals: Globals<'a>,
    decl: &TypeDecl,
) -> Result<Globals<'a>, NoMemory>
    requires none { AreEmpty none.now }
    requires enums { length globals.enums < 2 ^ 32 }
    requires members { MembersFit (spec.declaring (names_of names.now) (map global_of globals.names.entries) (map class_of globals.classes)) }
    requires fits { DeclarationFits 0 (type_decl_tree decl.now) }
    ensures value { IfOk result (λ s. globals_part (names_of names.now) s ≡ spec.type_decl first_one (globals_part (names_of names.now) globals.entry) (type_decl_tree decl.now)) }
    ensures members { IfOk result (λ s. MembersFit (spec.declaring (names_of names.now) (map global_of s.names.entries) (map class_of s.classes))) }
    ensures enums { IfOk result (λ s. length s.enums ≤ length globals.entry.enums + 1) }
    ensures classes { IfOk result (λ s. s.classes ≡ globals.entry.classes) }
{
    match &decl.definition {
        TypeDefinition::Enum(definition) => {
            enum_decl(alloc, names, none, globals, decl.name, definition)
        }
        TypeDefinition::Integer(kind) => {
            integer_decl(alloc, names, none, globals, decl.name, kind)
        }
    }
}
