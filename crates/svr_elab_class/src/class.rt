// Declarations of classes (IEEE 1800-2017, clause 8).

ghost use Rattle.std.specs.Prelude.{◌≡◌, ◌<◌, ◌^◌, ◌+◌, ◌∷◌, ◌++◌, [], IfOk, map, length};
ghost use Rattle.svr_token.specs.Names.{names_of};
ghost use Rattle.svr_tree.specs.DeclTree.{class_item_tree, class_tree};
ghost use Rattle.svr_elab_fault.specs.Refusals.{first_one};
ghost use Rattle.svr_elab_names.specs.declared.Global.TheVariants as global;
ghost use Rattle.svr_elab_names.specs.Names as names_spec;
ghost use Rattle.svr_elab_names.specs.Tables.{global_of, prop_of, class_of};
ghost use Rattle.svr_elab_part.specs.Fits.{MembersFit};
ghost use Rattle.svr_elab_type.specs.Types as types;
ghost use Rattle.svr_elab_decl.specs.Fits.{ClassItemsFit};
ghost use Rattle.svr_elab_type.specs.Seen.{AreEmpty, globals_part};
ghost use Rattle.svr_elab_class.specs.Classes as spec;
ghost use Rattle.svr_elab_class.specs.Seen.{head_of, class_part};

use crate::head::{ClassHead, ClassPart};
use crate::later::own_properties;
use crate::property::class_items;
use indexmap::{IndexMap, IndexSet};
use std::alloc::Global as Heap;
use std::rc::Rc;
use svr_elab_expr::beside;
use svr_elab_fault::{Fault, earlier, when};
use svr_elab_names::{ClassNames, Global, PropEntry};
use svr_elab_type::{Globals, NoNames, and_name, double};
use svr_refusal::Refusal;
use svr_token::Names;
use svr_tree::{ClassDecl, ClassItem};
use svr_typed::NoMemory;

#[tactic(auto, using(svr_elab_names::proofs::Entries::global_found))]
fn global_named(globals: &IndexMap<&[u8], Global>, name: &[u8]) -> Option<Global>
    ensures { result ≡ names_spec.global_named (map global_of globals.now.entries) name.now }
{
    match globals.get(name) {
        None => None,
        Some(stands) => Some(*stands),
    }
}

fn class_number(stands: Option<Global>) -> Option<u32>
    ensures { result ≡ spec.class_number stands }
{
    match stands {
        Some(Global::OfClass(class)) => Some(class),
        Some(Global::OfType(_)) | Some(Global::OfMember(_, _)) | None => None,
    }
}

/// The class that a name stands for.
fn class_at(names: &Names<'_>, globals: &IndexMap<&[u8], Global>, name: u32) -> Option<u32>
    ensures { result ≡ spec.class_at (names_of names.now) (map global_of globals.now.entries) name }
{
    class_number(global_named(globals, names.name(name)))
}

fn base_at(names: &Names<'_>, globals: &IndexMap<&[u8], Global>, base: Option<u32>) -> Option<u32>
    ensures { result ≡ spec.base_at (names_of names.now) (map global_of globals.now.entries) base }
{
    match base {
        None => None,
        Some(name) => class_at(names, globals, name),
    }
}

fn base_fault(
    names: &Names<'_>,
    globals: &IndexMap<&[u8], Global>,
    base: Option<u32>,
) -> Option<Fault>
    ensures { result ≡ spec.base_faults first_one (names_of names.now) (map global_of globals.now.entries) base }
{
    match base {
        None => None,
        Some(name) => when(
            class_at(names, globals, name).is_none(),
            name,
            Refusal::UnknownName,
        ),
    }
}

/// A label at the end repeats the name.
pub fn label_fault(names: &Names<'_>, name: u32, label: Option<u32>) -> Option<Fault>
    ensures { result ≡ spec.label_faults first_one (names_of names.now) name label }
{
    match label {
        None => None,
        Some(label) => when(
            names.name(label) != names.name(name),
            label,
            Refusal::UnknownName,
        ),
    }
}

/// A table of no properties.
fn no_props<'a>(alloc: Heap) -> Result<Rc<IndexMap<&'a [u8], PropEntry>>, NoMemory>
    ensures { IfOk result (λ m. map prop_of m.value.entries ≡ []) }
{
    match Rc::new(alloc, IndexMap::new(alloc)) {
        Ok(props) => Ok(props),
        Err(_) => Err(NoMemory),
    }
}

/// The same table, for one class more.
fn shared<'a>(
    props: &Rc<IndexMap<&'a [u8], PropEntry>>,
) -> Result<Rc<IndexMap<&'a [u8], PropEntry>>, NoMemory>
    ensures { IfOk result (λ m. map prop_of m.value.entries ≡ map prop_of props.now.value.entries) }
{
    Ok(props.clone()?)
}

/// The properties of a base class, in its own table.
fn props_at<'a>(
    alloc: Heap,
    classes: &[ClassNames<'a>],
    base: Option<u32>,
) -> Result<Rc<IndexMap<&'a [u8], PropEntry>>, NoMemory>
    ensures { IfOk result (λ m. map prop_of m.value.entries ≡ spec.props_at (map class_of classes.now) base) }
{
    let Some(base) = base else {
        return no_props(alloc);
    };
    match classes.get(base as usize) {
        None => no_props(alloc),
        Some(class) => shared(&class.props),
    }
}

#[tactic(auto, using(crate::proofs::Arrays::arrays_counted))]
fn arrays_in(props: &IndexMap<&[u8], PropEntry>) -> usize
    ensures { result ≡ spec.arrays_in (map prop_of props.now.entries) }
{
    props
        .values()
        .as_slice()
        .iter()
        .filter(|entry| entry.property.dims.is_array())
        .count()
}

/// A class before its own items.
fn class_start<'a>(
    alloc: Heap,
    classes: &[ClassNames<'a>],
    base: Option<u32>,
) -> Result<ClassPart<'a>, NoMemory>
    ensures { IfOk result (λ p. class_part p ≡ spec.class_start first_one (map class_of classes.now) base) }
{
    let props = props_at(alloc, classes, base)?;
    let arrays = arrays_in(props.as_ref());
    Ok(ClassPart {
        props,
        arrays,
        own: IndexSet::new(alloc),
        blocks: IndexSet::new(alloc),
        fault: None,
    })
}

fn count_inherited(classes: &[ClassNames<'_>], base: Option<u32>) -> usize
    ensures { result ≡ length (spec.props_at (map class_of classes.now) base) }
{
    let Some(base) = base else {
        return 0;
    };
    match classes.get(base as usize) {
        None => 0,
        Some(class) => class.props.as_ref().len(),
    }
}

/// What is kept of a class.
fn class_names<'a>(
    classes: &[ClassNames<'a>],
    base: Option<u32>,
    name: &'a [u8],
    part: ClassPart<'a>,
) -> ClassNames<'a>
    ensures { class_of result ≡ spec.class_name (map class_of classes.now) base name.now (class_part part.entry) }
{
    drop(part.own);
    ClassNames {
        name,
        base,
        props: part.props,
        inherited: count_inherited(classes, base),
        blocks: part.blocks,
    }
}

/// The number of the class behind these.
fn number_behind(classes: &[ClassNames<'_>]) -> u32
    requires { length classes.now < 2 ^ 32 }
    ensures { result ≡ length (map class_of classes.now) }
{
    classes.len() as u32
}

/// What is known of a class after all of its items.
fn class_body<'a>(
    alloc: Heap,
    head: &ClassHead<'_, 'a>,
    items: &[ClassItem],
) -> Result<ClassPart<'a>, NoMemory>
    requires none { AreEmpty head.now.none.now }
    requires members { MembersFit (head_of head.now).names }
    requires fits { ClassItemsFit 0 (map class_item_tree items.now) }
    ensures { IfOk result (λ p. class_part p ≡ spec.class_body first_one (head_of head.now) (map class_item_tree items.now)) }
{
    let start = class_start(alloc, head.classes, head.base)?;
    class_items(alloc, head, start, items)
}

/// With the name of one more class, which stands for the number behind all classes.
fn with_class_name<'a>(globals: Globals<'a>, name: &'a [u8]) -> Result<Globals<'a>, NoMemory>
    requires { length globals.classes < 2 ^ 32 }
    ensures names { IfOk result (λ s. map global_of s.names.entries ≡ types.and_name (map global_of globals.entry.names.entries) name.now (global.OfClass (length (map class_of globals.entry.classes)))) }
    ensures classes { IfOk result (λ s. s.classes ≡ globals.entry.classes) }
    ensures enums { IfOk result (λ s. s.enums ≡ globals.entry.enums) }
    ensures fault { IfOk result (λ s. s.fault ≡ globals.entry.fault) }
{
    let number = number_behind(globals.classes.as_slice());
    let names = and_name(globals.names, name, Global::OfClass(number))?;
    Ok(Globals { names, ..globals })
}

/// What is known of a class that is named already, after all of its items.
fn class_inside<'a>(
    alloc: Heap,
    names: &Names<'a>,
    none: &NoNames<'a>,
    globals: &Globals<'a>,
    base: Option<u32>,
    decl: &ClassDecl,
) -> Result<ClassPart<'a>, NoMemory>
    requires none { AreEmpty none.now }
    requires classes { length globals.now.classes < 2 ^ 32 }
    requires members { MembersFit (types.declaring (names_of names.now) (map global_of globals.now.names.entries) (map class_of globals.now.classes)) }
    requires fits { ClassItemsFit 0 (class_tree decl.now).items }
    ensures { IfOk result (λ p. class_part p ≡ spec.class_body first_one (spec.head_inside (globals_part (names_of names.now) globals.now) base (class_tree decl.now)) (class_tree decl.now).items) }
{
    let items = decl.items.as_slice();
    let mut later = IndexSet::new(alloc);
    let named = own_properties(names, &mut later, items);
    let (later, _done) = beside(later, named)?;
    let head = ClassHead {
        number: number_behind(globals.classes.as_slice()),
        base,
        enums: globals.enums.as_slice(),
        names: *names,
        globals: &globals.names,
        classes: globals.classes.as_slice(),
        later: &later,
        none,
    };
    let part = class_body(alloc, &head, items);
    drop(later);
    part
}

/// With one more class behind the others, by what is known of its items.
fn with_class<'a>(
    globals: Globals<'a>,
    base: Option<u32>,
    name: &'a [u8],
    part: ClassPart<'a>,
    fault: Option<Fault>,
) -> Result<Globals<'a>, NoMemory>
    ensures names { IfOk result (λ s. map global_of s.names.entries ≡ map global_of globals.entry.names.entries) }
    ensures classes { IfOk result (λ s. map class_of s.classes ≡ map class_of globals.entry.classes ++ spec.class_name (map class_of globals.entry.classes) base name.now (class_part part.entry) ∷ []) }
    ensures enums { IfOk result (λ s. s.enums ≡ globals.entry.enums) }
    ensures fault { IfOk result (λ s. s.fault ≡ fault) }
    ensures count { IfOk result (λ s. length s.classes ≡ length globals.entry.classes + 1) }
{
    let class = class_names(globals.classes.as_slice(), base, name, part);
    let mut globals = globals;
    match globals.classes.push(class) {
        Ok(()) => Ok(Globals { fault, ..globals }),
        Err(_) => {
            drop(globals);
            Err(NoMemory)
        }
    }
}

/// One more class. `names`: what the tokens spell; `none`: what no declaration can name.
pub fn class_decl<'a>(
    alloc: Heap,
    names: &Names<'a>,
    none: &NoNames<'a>,
    globals: Globals<'a>,
    decl: &ClassDecl,
) -> Result<Globals<'a>, NoMemory>
    requires none { AreEmpty none.now }
    requires classes { length globals.classes < 2 ^ 32 }
    requires members { MembersFit (types.declaring (names_of names.now) (map global_of globals.names.entries) (map class_of globals.classes)) }
    requires fits { ClassItemsFit 0 (class_tree decl.now).items }
    ensures value { IfOk result (λ s. globals_part (names_of names.now) s ≡ spec.class_decl first_one (globals_part (names_of names.now) globals.entry) (class_tree decl.now)) }
    ensures members { IfOk result (λ s. MembersFit (types.declaring (names_of names.now) (map global_of s.names.entries) (map class_of s.classes))) }
    ensures enums { IfOk result (λ s. s.enums ≡ globals.entry.enums) }
    ensures count { IfOk result (λ s. length s.classes ≡ length globals.entry.classes + 1) }
{
    let spelled = names.name(decl.name);
    let base = base_at(names, &globals.names, decl.base);
    let base_fault = base_fault(names, &globals.names, decl.base);
    let twice = double(&globals.names, spelled, decl.name);
    let globals = with_class_name(globals, spelled)?;
    let part = class_inside(alloc, names, none, &globals, base, decl);
    let (globals, part) = beside(globals, part)?;
    let own = earlier(part.fault, label_fault(names, decl.name, decl.label));
    let fault = earlier(globals.fault, earlier(base_fault, earlier(twice, own)));
    with_class(globals, base, spelled, part, fault)
}
