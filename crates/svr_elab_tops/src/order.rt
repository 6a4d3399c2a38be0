// The types and classes of a script, in the order of the text (IEEE 1800-2017, 3.13).

ghost use Rattle.std.specs.Prelude.{◌≡◌, ◌<◌, ◌+◌, ◌^◌, ◌∷◌, List, IfOk, map, length, drop};
ghost use Rattle.svr_token.specs.Names.{names_of};
ghost use Rattle.svr_tree.specs.DeclTree.{TypeTree, ClassTree, type_decl_tree, class_tree};
ghost use Rattle.svr_tree.specs.declared.Top.{Top};
ghost use Rattle.svr_tree.specs.declared.Top.TheVariants as variant;
ghost use Rattle.svr_elab_fault.specs.Refusals.{first_one};
ghost use Rattle.svr_elab_names.specs.Tables.{global_of, class_of};
ghost use Rattle.svr_elab_part.specs.Fits.{MembersFit};
ghost use Rattle.svr_elab_type.specs.Types.{declaring};
ghost use Rattle.svr_elab_type.specs.Seen.{AreEmpty, globals_part};
ghost use Rattle.svr_elab_tops.specs.InOrder as spec;
ghost use Rattle.svr_elab_tops.specs.InOrder.{TypesFit, ClassesFit};

use std::alloc::Global as Heap;
use svr_elab_class::class_decl;
use svr_elab_type::{Globals, NoNames, type_decl};
use svr_token::Names;
use svr_tree::{ClassDecl, Top, TypeDecl};
use svr_typed::NoMemory;

/// Which type and which class come next.
#[derive(Clone, Copy)]
struct Places {
    types: usize,
    classes: usize,
}

/// What comes next behind an entry.
fn behind(places: Places, top: Top) -> Places
    requires types { places.types + 1 < 2 ^ 64 }
    requires classes { places.classes + 1 < 2 ^ 64 }
    ensures types { result.types ≡ spec.types_behind top places.types }
    ensures classes { result.classes ≡ spec.classes_behind top places.classes }
{
    match top {
        Top::OfType => Places {
            types: places.types + 1,
            classes: places.classes,
        },
        Top::OfClass => Places {
            types: places.types,
            classes: places.classes + 1,
        },
    }
}

/// What is known after the type at a place, where there is one.
fn next_type<'a>(
    alloc: Heap,
    names: &Names<'a>,
    none: &NoNames<'a>,
    known: Globals<'a>,
    types: &[TypeDecl],
    place: usize,
) -> Result<Globals<'a>, NoMemory>
    requires none { AreEmpty none.now }
    requires enums { length known.enums + length types.now < 2 ^ 32 + place }
    requires members { MembersFit (declaring (names_of names.now) (map global_of known.names.entries) (map class_of known.classes)) }
    requires fits { TypesFit 0 (map type_decl_tree (drop place types.now)) }
    ensures value { IfOk result (λ s. (os : List Top) (cs : List ClassTree) → spec.types_and_classes first_one (globals_part (names_of names.now) s) os (map type_decl_tree (drop (place + 1) types.now)) cs ≡ spec.types_and_classes first_one (globals_part (names_of names.now) known.entry) (variant.OfType ∷ os) (map type_decl_tree (drop place types.now)) cs) }
    ensures enums { IfOk result (λ s. length s.enums + length types.now < 2 ^ 32 + (place + 1)) }
    ensures members { IfOk result (λ s. MembersFit (declaring (names_of names.now) (map global_of s.names.entries) (map class_of s.classes))) }
    ensures classes { IfOk result (λ s. s.classes ≡ known.entry.classes) }
{
    match types.get(place) {
        None => Ok(known),
        Some(decl) => Ok(type_decl(alloc, names, none, known, decl)?),
    }
}

/// What is known after the class at a place, where there is one.
fn next_class<'a>(
    alloc: Heap,
    names: &Names<'a>,
    none: &NoNames<'a>,
    known: Globals<'a>,
    classes: &[ClassDecl],
    place: usize,
) -> Result<Globals<'a>, NoMemory>
    requires none { AreEmpty none.now }
    requires classes { length known.classes + length classes.now < 2 ^ 32 + place }
    requires members { MembersFit (declaring (names_of names.now) (map global_of known.names.entries) (map class_of known.classes)) }
    requires fits { ClassesFit 0 (map class_tree (drop place classes.now)) }
    ensures value { IfOk result (λ s. (os : List Top) (ts : List TypeTree) → spec.types_and_classes first_one (globals_part (names_of names.now) s) os ts (map class_tree (drop (place + 1) classes.now)) ≡ spec.types_and_classes first_one (globals_part (names_of names.now) known.entry) (variant.OfClass ∷ os) ts (map class_tree (drop place classes.now))) }
    ensures classes { IfOk result (λ s. length s.classes + length classes.now < 2 ^ 32 + (place + 1)) }
    ensures members { IfOk result (λ s. MembersFit (declaring (names_of names.now) (map global_of s.names.entries) (map class_of s.classes))) }
    ensures enums { IfOk result (λ s. s.enums ≡ known.entry.enums) }
{
    match classes.get(place) {
        None => Ok(known),
        Some(decl) => Ok(class_decl(alloc, names, none, known, decl)?),
    }
}

/// What is known after the next declaration, where there is one.
fn next<'a>(
    alloc: Heap,
    names: &Names<'a>,
    none: &NoNames<'a>,
    known: Globals<'a>,
    top: Top,
    places: Places,
    types: &[TypeDecl],
    classes: &[ClassDecl],
) -> Result<Globals<'a>, NoMemory>
    requires none { AreEmpty none.now }
    requires enums { length known.enums + length types.now < 2 ^ 32 + places.types }
    requires classes { length known.classes + length classes.now < 2 ^ 32 + places.classes }
    requires members { MembersFit (declaring (names_of names.now) (map global_of known.names.entries) (map class_of known.classes)) }
    requires types_fit { TypesFit 0 (map type_decl_tree (drop places.types types.now)) }
    requires classes_fit { ClassesFit 0 (map class_tree (drop places.classes classes.now)) }
    ensures value { IfOk result (λ s. (os : List Top) → spec.types_and_classes first_one (globals_part (names_of names.now) s) os (map type_decl_tree (drop (spec.types_behind top places.types) types.now)) (map class_tree (drop (spec.classes_behind top places.classes) classes.now)) ≡ spec.types_and_classes first_one (globals_part (names_of names.now) known.entry) (top ∷ os) (map type_decl_tree (drop places.types types.now)) (map class_tree (drop places.classes classes.now))) }
    ensures enums { IfOk result (λ s. length s.enums + length types.now < 2 ^ 32 + spec.types_behind top places.types) }
    ensures classes { IfOk result (λ s. length s.classes + length classes.now < 2 ^ 32 + spec.classes_behind top places.classes) }
    ensures members { IfOk result (λ s. MembersFit (declaring (names_of names.now) (map global_of s.names.entries) (map class_of s.classes))) }
{
    match top {
        Top::OfType => Ok(next_type(alloc, names, none, known, types, places.types)?),
        Top::OfClass => Ok(next_class(alloc, names, none, known, classes, places.classes)?),
    }
}

/// The types and classes of a script behind those that are known, each after those before it in the text. `names`: what the tokens spell; `none`: what no declaration can name; `order`: which of them is the next type, and which the next class.
pub fn types_and_classes<'a>(
    alloc: Heap,
    names: &Names<'a>,
    none: &NoNames<'a>,
    start: Globals<'a>,
    order: &[Top],
    types: &[TypeDecl],
    classes: &[ClassDecl],
) -> Result<Globals<'a>, NoMemory>
    requires none { AreEmpty none.now }
    requires enums { length start.enums + length types.now < 2 ^ 32 }
    requires classes { length start.classes + length classes.now < 2 ^ 32 }
    requires members { MembersFit (declaring (names_of names.now) (map global_of start.names.entries) (map class_of start.classes)) }
    requires types_fit { TypesFit 0 (map type_decl_tree types.now) }
    requires classes_fit { ClassesFit 0 (map class_tree classes.now) }
    ensures value { IfOk result (λ s. globals_part (names_of names.now) s ≡ spec.types_and_classes first_one (globals_part (names_of names.now) start.entry) order.now (map type_decl_tree types.now) (map class_tree classes.now)) }
    ensures members { IfOk result (λ s. MembersFit (declaring (names_of names.now) (map global_of s.names.entries) (map class_of s.classes))) }
{
    let mut known = start;
    let mut places = Places {
        types: 0,
        classes: 0,
    };
    for top in order {
        known = next(alloc, names, none, known, *top, places, types, classes)?;
        places = behind(places, *top);
    }
    Ok(known)
}
