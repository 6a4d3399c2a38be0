// What stands in a design: classes, variables and statements.

ghost use Rattle.std.specs.Prelude.{◌≡◌, ◌+◌, ◌∷◌, List, Some, [], map, drop, reverse, option_map, IfOk};
ghost use Rattle.svr_typed.specs.ClassTerm.{block_terms, class_terms as terms_of_classes, class_term};
ghost use Rattle.svr_typed.specs.StmtTerm.{stmt_term, design_term};
ghost use Rattle.svr_elab_names.specs.Names.{ClassName};
ghost use Rattle.svr_elab_names.specs.Tables.{class_of, var_of};
ghost use Rattle.svr_elab_part.specs.Shapes.{and_more};
ghost use Rattle.svr_elab.specs.Script as spec;

use crate::property::{properties, text};
use indexmap::IndexMap;
use sqlite_items::Items;
use std::alloc::Global;
use svr_elab_expr::beside;
use svr_elab_form::pushed;
use svr_elab_names::{ClassNames, VarStand};
use svr_typed::{Design, EnumType, NoMemory, TBlock, TClass, TStmt, TVar, VarKind};

// ---- classes

/// A class with its own properties and blocks.
fn class(
    alloc: Global,
    names: &ClassNames<'_>,
    blocks: Items<TBlock>,
) -> Result<Option<TClass>, NoMemory>
    ensures { IfOk result (λ c. option_map class_term c ≡ spec.class (class_of names.now) (block_terms blocks)) }
{
    let props = properties(alloc, names.props.as_ref(), names.inherited)?;
    let name = text(alloc, names.name)?;
    match props {
        None => Ok(None),
        Some(props) => Ok(Some(TClass::new(name, names.base, props, blocks))),
    }
}

/// One more class, where all are known.
fn and_class(
    known: Option<Items<TClass>>,
    next: Option<TClass>,
) -> Result<Option<Items<TClass>>, NoMemory>
    ensures { IfOk result (λ cs. option_map terms_of_classes cs ≡ and_more (option_map terms_of_classes known) (option_map class_term next)) }
{
    match known.zip(next) {
        None => Ok(None),
        Some((known, next)) => Ok(Some(pushed(known, next)?)),
    }
}

/// The classes with one more, whose blocks are the last of these.
fn next_class(
    alloc: Global,
    known: Option<Items<TClass>>,
    names: &ClassNames<'_>,
    rest: &mut Items<Items<TBlock>>,
) -> Result<Option<Items<TClass>>, NoMemory>
    ensures { IfOk result (λ ks. (cs : List ClassName) → spec.classes (option_map terms_of_classes ks) cs (map block_terms (reverse rest.new)) ≡ spec.classes (option_map terms_of_classes known) (class_of names.now ∷ cs) (map block_terms (reverse rest.old))) }
{
    match rest.pop() {
        None => Ok(known),
        Some(own) => {
            let next = class(alloc, names, own)?;
            let all = and_class(known, next)?;
            Ok(all)
        }
    }
}

/// The same from the last one back.
fn turned(alloc: Global, blocks: Items<Items<TBlock>>) -> Result<Items<Items<TBlock>>, NoMemory>
    ensures { IfOk result (λ bs. bs ≡ reverse blocks) }
{
    let mut rest = blocks;
    let mut turned = Items::new(alloc);
    while let Some(last) = rest.pop() {
        turned.push(last)?;
    }
    Ok(turned)
}

/// The classes of a script with the blocks that each declares itself, where all are known.
fn classes(
    alloc: Global,
    names: &[ClassNames<'_>],
    blocks: Items<Items<TBlock>>,
) -> Result<Option<Items<TClass>>, NoMemory>
    ensures { IfOk result (λ cs. option_map terms_of_classes cs ≡ spec.classes (Some []) (map class_of names.now) (map block_terms blocks)) }
{
    let mut rest = turned(alloc, blocks)?;
    let mut known = Some(Items::new(alloc));
    for each in names {
        known = next_class(alloc, known, each, &mut rest)?;
    }
    Ok(known)
}

fn all_classes(
    alloc: Global,
    names: &[ClassNames<'_>],
    blocks: Option<Items<Items<TBlock>>>,
) -> Result<Option<Items<TClass>>, NoMemory>
    ensures { IfOk result (λ cs. option_map terms_of_classes cs ≡ spec.all_classes (map class_of names.now) (option_map (map block_terms) blocks)) }
{
    match blocks {
        None => Ok(None),
        Some(blocks) => Ok(classes(alloc, names, blocks)?),
    }
}

// ---- variables

fn kind_of(stand: VarStand) -> Option<VarKind>
    ensures { result ≡ spec.kind_of stand }
{
    match stand {
        VarStand::OfObject(class) => Some(VarKind::Object(class)),
        VarStand::OfNumber(None) => None,
        VarStand::OfNumber(Some(vector)) => Some(VarKind::Number(vector.kind)),
    }
}

fn variable(alloc: Global, name: &[u8], stand: VarStand) -> Result<Option<TVar>, NoMemory>
    ensures { IfOk result (λ v. v ≡ spec.variable (record { name = name.now; stands = stand })) }
{
    let Some(kind) = kind_of(stand) else {
        return Ok(None);
    };
    let name = text(alloc, name)?;
    Ok(Some(TVar { name, kind }))
}

/// One more variable, where all are known.
fn and_variable(
    known: Option<Items<TVar>>,
    next: Option<TVar>,
) -> Result<Option<Items<TVar>>, NoMemory>
    ensures { IfOk result (λ vs. vs ≡ and_more known next) }
{
    match known.zip(next) {
        None => Ok(None),
        Some((known, next)) => Ok(Some(pushed(known, next)?)),
    }
}

/// The variables with the one at a place, where there is one and all are known.
fn next_variable(
    alloc: Global,
    known: Option<Items<TVar>>,
    vars: &IndexMap<&[u8], VarStand>,
    place: usize,
) -> Result<Option<Items<TVar>>, NoMemory>
    ensures { IfOk result (λ vs. spec.each_known spec.variable vs (drop (place + 1) (map var_of vars.now.entries)) ≡ spec.each_known spec.variable known (drop place (map var_of vars.now.entries))) }
{
    match vars.get_index(place) {
        None => Ok(known),
        Some((name, stand)) => {
            let next = variable(alloc, name, *stand);
            let (known, next) = beside(known, next)?;
            let all = and_variable(known, next)?;
            Ok(all)
        }
    }
}

/// The variables of a script, where all are known.
fn variables(
    alloc: Global,
    vars: &IndexMap<&[u8], VarStand>,
) -> Result<Option<Items<TVar>>, NoMemory>
    ensures { IfOk result (λ vs. vs ≡ spec.variables (map var_of vars.now.entries)) }
{
    let mut known = Some(Items::new(alloc));
    for place in 0..vars.len() {
        known = next_variable(alloc, known, vars, place)?;
    }
    Ok(known)
}

// ---- the design

fn joined(
    enums: Items<EnumType>,
    classes: Option<Items<TClass>>,
    vars: Option<Items<TVar>>,
    stmts: Option<Items<TStmt>>,
) -> Option<Design>
    ensures { option_map design_term result ≡ spec.design_of enums (option_map terms_of_classes classes) vars (option_map (map stmt_term) stmts) }
{
    match classes.zip(vars).zip(stmts) {
        None => None,
        Some(((classes, vars), stmts)) => Some(Design::new(enums, classes, vars, stmts)),
    }
}

/// The design of what is known. `blocks`: those that each class declares itself.
pub(crate) fn design_of(
    alloc: Global,
    enums: Items<EnumType>,
    names: &[ClassNames<'_>],
    vars: &IndexMap<&[u8], VarStand>,
    blocks: Option<Items<Items<TBlock>>>,
    stmts: Option<Items<TStmt>>,
) -> Result<Option<Design>, NoMemory>
    ensures { IfOk result (λ d. option_map design_term d ≡ spec.design_of enums (spec.all_classes (map class_of names.now) (option_map (map block_terms) blocks)) (spec.variables (map var_of vars.now.entries)) (option_map (map stmt_term) stmts)) }
{
    let classes = all_classes(alloc, names, blocks)?;
    let known = variables(alloc, vars)?;
    Ok(joined(enums, classes, known, stmts))
}
