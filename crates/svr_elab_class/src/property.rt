// Properties and blocks of a class, each behind those before it.

ghost use Rattle.std.specs.Prelude.{◌≡◌, ◌<◌, IfOk, OnOk, map, min};
ghost use Rattle.svr_limits.specs.declared.limit.TheConstants.{PROPERTY_LIMIT};
ghost use Rattle.svr_token.specs.Names.{names_of};
ghost use Rattle.svr_tree.specs.DeclTree as tree;
ghost use Rattle.svr_tree.specs.DeclTree.{declarator_tree, property_tree, block_tree, class_item_tree};
ghost use Rattle.svr_elab_fault.specs.Refusals.{first_one};
ghost use Rattle.svr_elab_names.specs.Tables.{prop_of};
ghost use Rattle.svr_elab_part.specs.Fits.{MembersFit, KindFits};
ghost use Rattle.svr_elab_decl.specs.Properties.{used_kind};
ghost use Rattle.svr_elab_decl.specs.Fits.{TypeFits, DeclaratorFits, DeclaratorsFit, ClassItemFits, ClassItemsFit};
ghost use Rattle.svr_elab_type.specs.Seen.{AreEmpty};
ghost use Rattle.svr_elab_decl.specs.Seen.{dims_part, used_of, used_part};
ghost use Rattle.svr_elab_class.specs.Classes as spec;
ghost use Rattle.svr_elab_class.specs.Seen.{head_of, class_part};

use crate::head::{ClassHead, ClassPart, is_among, is_inherited, with_name};
use indexmap::IndexMap;
use std::alloc::Global;
use std::rc::Rc;
use svr_elab_decl::{
    Before, DimsPart, InitialPart, Used, UsedPart, data_type, dims_of, initial_value,
    is_wide_cycle, property_fault, property_of,
};
use svr_elab_expr::{beside, both};
use svr_elab_fault::{Fault, earlier, when};
use svr_elab_names::{Dims, PropEntry, Property};
use svr_limits::{ARRAY_LIMIT, PROPERTY_LIMIT};
use svr_operator::Rand;
use svr_refusal::Refusal;
use svr_tree::{ClassItem, Declarator, PropertyDecl};
use svr_typed::NoMemory;

/// One more property, unless its name is there.
fn and_prop<'a>(
    props: &mut IndexMap<&'a [u8], PropEntry>,
    name: &'a [u8],
    property: Property,
    first: u64,
) -> Result<(), NoMemory>
    ensures { OnOk result (map prop_of props.new.entries ≡ spec.and_prop (map prop_of props.old.entries) name.now property first) }
{
    if props.get(name).is_some() {
        return Ok(());
    }
    match props.insert(name, PropEntry { property, first }) {
        Ok(_) => Ok(()),
        Err(_) => Err(NoMemory),
    }
}

/// One more property in a table of the class itself, which is a copy where other classes have this one too.
fn and_own<'a>(
    props: &mut Rc<IndexMap<&'a [u8], PropEntry>>,
    name: &'a [u8],
    property: Property,
    first: u64,
) -> Result<(), NoMemory>
    ensures { OnOk result (map prop_of props.new.value.entries ≡ spec.and_prop (map prop_of props.old.value.entries) name.now property first) }
{
    match Rc::make_mut(props) {
        Ok(own) => and_prop(own, name, property, first),
        Err(_) => Err(NoMemory),
    }
}

fn and_array(arrays: usize, dims: Dims) -> usize
    ensures { result ≡ spec.and_array arrays dims }
{
    if dims.is_array() {
        arrays.saturating_add(1).min(ARRAY_LIMIT + 1)
    } else {
        arrays
    }
}

/// The number of a property behind so many, where one past the limit counts as the limit.
fn number_behind(count: usize) -> u32
    ensures { result ≡ min count PROPERTY_LIMIT }
{
    count.min(PROPERTY_LIMIT as usize) as u32
}

fn and_fault(part: ClassPart<'_>, fault: Option<Fault>) -> ClassPart<'_>
    ensures { class_part result ≡ spec.and_faults first_one (class_part part.entry) fault }
{
    let fault = earlier(part.fault, fault);
    ClassPart { fault, ..part }
}

/// With a property of this name, unless an earlier declaration has it.
fn with_property<'a>(
    part: ClassPart<'a>,
    name: &'a [u8],
    property: Property,
    first: u64,
    fault: Option<Fault>,
) -> Result<ClassPart<'a>, NoMemory>
    ensures { IfOk result (λ p. class_part p ≡ spec.with_property first_one (class_part part.entry) name.now property first fault) }
{
    if is_among(&part.own, name) {
        return Ok(and_fault(part, fault));
    }
    let arrays = and_array(part.arrays, property.dims);
    let fault = earlier(part.fault, fault);
    let mut part = ClassPart {
        arrays,
        fault,
        ..part
    };
    let props = and_own(&mut part.props, name, property, first);
    let own = with_name(&mut part.own, name);
    let (part, _done) = beside(part, both(props, own))?;
    Ok(part)
}

/// One more property, whose dimensions and initial value are known.
fn and_property<'a>(
    head: &ClassHead<'_, 'a>,
    part: ClassPart<'a>,
    name: u32,
    rand: Rand,
    used: Used,
    first: InitialPart,
    dims: DimsPart,
) -> Result<ClassPart<'a>, NoMemory>
    ensures { IfOk result (λ p. class_part p ≡ spec.and_property first_one (head_of head.now) (class_part part.entry) name rand (used_of used) first.number first.fault (dims_part dims)) }
{
    let spelled = head.names.name(name);
    let count = part.props.as_ref().len();
    let kind = used.kind();
    let before = Before {
        props: count,
        arrays: part.arrays,
        inherits: is_inherited(head.classes, head.base, spelled),
        doubles: is_among(&part.own, spelled),
        wide: is_wide_cycle(head.enums, kind),
    };
    let own = property_fault(before, name, rand, used, dims.dims);
    let fault = earlier(dims.fault, earlier(first.fault, own));
    let property = property_of(number_behind(count), head.number, rand, kind, dims.dims);
    with_property(part, spelled, property, first.number, fault)
}

fn declarator<'a>(
    alloc: Global,
    head: &ClassHead<'_, 'a>,
    part: ClassPart<'a>,
    rand: Rand,
    used: Used,
    decl: &Declarator,
) -> Result<ClassPart<'a>, NoMemory>
    requires none { AreEmpty head.now.none.now }
    requires members { MembersFit (head_of head.now).names }
    requires kind { KindFits (used_kind (used_of used)) }
    requires fits { DeclaratorFits 0 (declarator_tree decl.now) }
    ensures { IfOk result (λ p. class_part p ≡ spec.declarator first_one (head_of head.now) (class_part part.entry) rand (used_of used) (declarator_tree decl.now)) }
{
    let dims = dims_of(
        alloc,
        decl.name,
        decl.dims.as_slice(),
        &head.behind(part.props.as_ref()),
    );
    let (part, dims) = beside(part, dims)?;
    let first = initial_value(
        alloc,
        decl.name,
        used.kind(),
        dims.dims,
        &decl.value,
        &head.behind(part.props.as_ref()),
    );
    let (part, first) = beside(part, first)?;
    and_property(head, part, decl.name, rand, used, first, dims)
}

fn declarators<'a>(
    alloc: Global,
    head: &ClassHead<'_, 'a>,
    start: ClassPart<'a>,
    rand: Rand,
    used: Used,
    list: &[Declarator],
) -> Result<ClassPart<'a>, NoMemory>
    requires none { AreEmpty head.now.none.now }
    requires members { MembersFit (head_of head.now).names }
    requires kind { KindFits (used_kind (used_of used)) }
    requires fits { DeclaratorsFit 0 (map declarator_tree list.now) }
    ensures { IfOk result (λ p. class_part p ≡ spec.declarators first_one (head_of head.now) (class_part start.entry) rand (used_of used) (map declarator_tree list.now)) }
{
    let mut part = start;
    for decl in list {
        part = declarator(alloc, head, part, rand, used, decl)?;
    }
    Ok(part)
}

fn property_decl<'a>(
    alloc: Global,
    head: &ClassHead<'_, 'a>,
    part: ClassPart<'a>,
    used: UsedPart,
    decl: &PropertyDecl,
) -> Result<ClassPart<'a>, NoMemory>
    requires none { AreEmpty head.now.none.now }
    requires members { MembersFit (head_of head.now).names }
    requires kind { KindFits (used_kind (used_of used.used)) }
    requires fits { DeclaratorsFit 0 (property_tree decl.now).decls }
    ensures { IfOk result (λ p. class_part p ≡ spec.property_decl first_one (head_of head.now) (class_part part.entry) decl.now.rand (used_part used) (property_tree decl.now).decls) }
{
    let part = and_fault(part, used.fault);
    declarators(
        alloc,
        head,
        part,
        decl.rand,
        used.used,
        decl.decls.as_slice(),
    )
}

/// One more block, whose items come later.
fn with_block<'a>(
    part: ClassPart<'a>,
    spelled: &'a [u8],
    name: u32,
) -> Result<ClassPart<'a>, NoMemory>
    ensures { IfOk result (λ p. class_part p ≡ spec.with_block first_one (class_part part.entry) spelled.now name) }
{
    if is_among(&part.own, spelled) {
        return Ok(and_fault(part, when(true, name, Refusal::DoubleName)));
    }
    let mut part = part;
    let own = with_name(&mut part.own, spelled);
    let blocks = with_name(&mut part.blocks, spelled);
    let (part, _done) = beside(part, both(own, blocks))?;
    Ok(part)
}

fn property_item<'a>(
    alloc: Global,
    head: &ClassHead<'_, 'a>,
    part: ClassPart<'a>,
    decl: &PropertyDecl,
) -> Result<ClassPart<'a>, NoMemory>
    requires none { AreEmpty head.now.none.now }
    requires members { MembersFit (head_of head.now).names }
    requires kind { TypeFits 0 (property_tree decl.now).kind }
    requires fits { DeclaratorsFit 0 (property_tree decl.now).decls }
    ensures { IfOk result (λ p. class_part p ≡ spec.class_item first_one (head_of head.now) (class_part part.entry) (tree.property (property_tree decl.now))) }
{
    let used = data_type(alloc, &decl.kind, &head.behind(part.props.as_ref()));
    let (part, used) = beside(part, used)?;
    property_decl(alloc, head, part, used, decl)
}

fn class_item<'a>(
    alloc: Global,
    head: &ClassHead<'_, 'a>,
    part: ClassPart<'a>,
    item: &ClassItem,
) -> Result<ClassPart<'a>, NoMemory>
    requires none { AreEmpty head.now.none.now }
    requires members { MembersFit (head_of head.now).names }
    requires fits { ClassItemFits 0 (class_item_tree item.now) }
    ensures { IfOk result (λ p. class_part p ≡ spec.class_item first_one (head_of head.now) (class_part part.entry) (class_item_tree item.now)) }
{
    match item {
        ClassItem::Property(decl) => property_item(alloc, head, part, decl),
        ClassItem::Constraint(block) => with_block(part, head.names.name(block.name), block.name),
    }
}

/// The items of a class, each behind those before it.
pub(crate) fn class_items<'a>(
    alloc: Global,
    head: &ClassHead<'_, 'a>,
    start: ClassPart<'a>,
    list: &[ClassItem],
) -> Result<ClassPart<'a>, NoMemory>
    requires none { AreEmpty head.now.none.now }
    requires members { MembersFit (head_of head.now).names }
    requires fits { ClassItemsFit 0 (map class_item_tree list.now) }
    ensures { IfOk result (λ p. class_part p ≡ spec.class_items first_one (head_of head.now) (class_part start.entry) (map class_item_tree list.now)) }
{
    let mut part = start;
    for item in list {
        part = class_item(alloc, head, part, item)?;
    }
    Ok(part)
}
