// The variables of a script and their types (IEEE 1800-2017, 6.8 and 8.3).

ghost use Rattle.std.specs.Prelude.{◌≡◌, ◌≤◌, ◌<◌, ◌+◌, ◌^◌, length, map, IfOk};
ghost use Rattle.svr_token.specs.Names.{names_of};
ghost use Rattle.svr_tree.specs.DeclTree.{type_tree, var_declarator_tree, var_tree};
ghost use Rattle.svr_elab_fault.specs.Refusals.{first_one};
ghost use Rattle.svr_elab_names.specs.Tables.{space_of, var_of};
ghost use Rattle.svr_elab_part.specs.Fits.{MembersFit};
ghost use Rattle.svr_elab_decl.specs.Properties as property;
ghost use Rattle.svr_elab_decl.specs.Fits.{TypeFits};
ghost use Rattle.svr_elab_decl.specs.Seen.{used_of, used_part};
ghost use Rattle.svr_elab_unit.specs.Vars as spec;
ghost use Rattle.svr_elab_unit.specs.Seen.{vars_part};
ghost use Rattle.svr_elab_unit.specs.Fits.{VarTypesFit, declared_in};

use indexmap::IndexMap;
use sqlite_items::Items;
use std::alloc::Global;
use svr_elab_decl::{Used, UsedPart, data_type};
use svr_elab_expr::beside;
use svr_elab_fault::{Fault, earlier, when};
use svr_elab_form::pushed;
use svr_elab_names::{NameSpace, Region, VarStand};
use svr_limits::VARIABLE_LIMIT;
use svr_refusal::Refusal;
use svr_token::Names;
use svr_tree::{DataType, VarDecl, VarDeclarator};
use svr_typed::NoMemory;

/// What is known of the variables of a script.
#[derive(Drop)]
pub struct VarsPart<'a> {
    /// The variables in order, each name once.
    pub vars: IndexMap<&'a [u8], VarStand>,
    /// What the variables of each declaration are.
    pub stands: Items<VarStand>,
    /// How many object variables there are, where more than `VARIABLE_LIMIT` count as that.
    pub objects: u32,
    /// How many others there are, where more than `VARIABLE_LIMIT` count as that.
    pub others: u32,
    pub fault: Option<Fault>,
}

fn stand_of(used: Used) -> VarStand
    ensures { result ≡ spec.stand_of (used_of used) }
{
    match used {
        Used::Numbers(kind) => VarStand::OfNumber(kind),
        Used::Objects(class) => VarStand::OfObject(class),
        Used::Unnamed => VarStand::OfNumber(None),
    }
}

fn is_object(stand: VarStand) -> bool
    ensures { result ≡ spec.is_object_stand stand }
{
    match stand {
        VarStand::OfNumber(_) => false,
        VarStand::OfObject(_) => true,
    }
}

/// How many variables of its sort stand before.
fn of_sort(object: bool, objects: u32, others: u32) -> u32
    ensures { result ≡ spec.of_sort object objects others }
{
    if object { objects } else { others }
}

/// One more variable of its sort.
fn one_more(count: u32, is_one: bool) -> u32
    ensures { result ≡ spec.one_more count is_one }
{
    if is_one && count < VARIABLE_LIMIT {
        count + 1
    } else if count < VARIABLE_LIMIT {
        count
    } else {
        VARIABLE_LIMIT
    }
}

/// One more variable, unless its name is there.
pub(crate) fn and_var_name<'a>(
    vars: IndexMap<&'a [u8], VarStand>,
    name: &'a [u8],
    stand: VarStand,
) -> Result<IndexMap<&'a [u8], VarStand>, NoMemory>
    ensures value { IfOk result (λ m. map var_of m.entries ≡ spec.and_var_name (map var_of vars.entry.entries) name.now stand) }
    ensures length { IfOk result (λ m. length m.entries ≤ length vars.entry.entries + 1) }
{
    let mut vars = vars;
    if vars.get(name).is_some() {
        return Ok(vars);
    }
    match vars.insert(name, stand) {
        Ok(_) => Ok(vars),
        Err(_) => Err(NoMemory),
    }
}

/// What one more variable of this name is refused for.
fn var_fault(
    vars: &IndexMap<&[u8], VarStand>,
    before: u32,
    name: u32,
    spelled: &[u8],
) -> Option<Fault>
    ensures { result ≡ spec.name_faults first_one (map var_of vars.now.entries) before name spelled.now }
{
    let double = vars.get(spelled).is_some();
    earlier(
        when(double, name, Refusal::DoubleName),
        when(VARIABLE_LIMIT <= before, name, Refusal::TooMany),
    )
}

/// One more variable of a declaration.
fn and_var<'a>(
    part: VarsPart<'a>,
    name: u32,
    spelled: &'a [u8],
    stand: VarStand,
) -> Result<VarsPart<'a>, NoMemory>
    ensures value { IfOk result (λ p. vars_part p ≡ spec.and_var first_one (vars_part part.entry) name spelled.now stand) }
    ensures length { IfOk result (λ p. length p.vars.entries ≤ length part.entry.vars.entries + 1) }
{
    let object = is_object(stand);
    let before = of_sort(object, part.objects, part.others);
    let refused = var_fault(&part.vars, before, name, spelled);
    let objects = one_more(part.objects, object);
    let others = one_more(part.others, !object);
    let fault = earlier(part.fault, refused);
    let vars = and_var_name(part.vars, spelled, stand);
    let (stands, vars) = beside(part.stands, vars)?;
    Ok(VarsPart {
        vars,
        stands,
        objects,
        others,
        fault,
    })
}

fn and_vars<'a>(
    names: &Names<'a>,
    part: VarsPart<'a>,
    stand: VarStand,
    list: &[VarDeclarator],
) -> Result<VarsPart<'a>, NoMemory>
    ensures value { IfOk result (λ p. vars_part p ≡ spec.and_vars first_one (names_of names.now) (vars_part part.entry) stand (map var_declarator_tree list.now)) }
    ensures length { IfOk result (λ p. length p.vars.entries ≤ length part.entry.vars.entries + length list.now) }
{
    let mut known = part;
    for declarator in list {
        let spelled = names.name(declarator.name);
        known = and_var(known, declarator.name, spelled, stand)?;
    }
    Ok(known)
}

/// One more declaration, whose type is this.
fn and_type<'a>(part: VarsPart<'a>, used: UsedPart) -> Result<VarsPart<'a>, NoMemory>
    ensures value { IfOk result (λ p. vars_part p ≡ spec.and_type first_one (vars_part part.entry) (used_part used)) }
    ensures vars { IfOk result (λ p. p.vars.entries ≡ part.entry.vars.entries) }
{
    let stand = stand_of(used.used);
    let fault = earlier(part.fault, used.fault);
    let stands = pushed(part.stands, stand);
    let (vars, stands) = beside(part.vars, stands)?;
    Ok(VarsPart {
        vars,
        stands,
        objects: part.objects,
        others: part.others,
        fault,
    })
}

/// The same names in a statement behind these variables.
pub fn stmt_space<'t, 's, 'a>(
    names: &NameSpace<'s, 'a>,
    vars: &'t IndexMap<&'a [u8], VarStand>,
) -> NameSpace<'t, 'a>
where
    's: 't,
    ensures space { space_of result ≡ spec.stmt_space (space_of names.now) (map var_of vars.now.entries) }
    ensures loops { length result.loops.now ≡ length names.now.loops.now }
    ensures vars { length result.vars.now.entries ≡ length vars.now.entries }
{
    NameSpace {
        names: names.names,
        region: Region::Statement,
        globals: names.globals,
        classes: names.classes,
        props: names.props,
        later: names.later,
        loops: names.loops,
        vars,
        made: names.made,
    }
}

/// The type of a declaration behind these variables.
#[tactic(auto, using(crate::proofs::Fitting::members_there, crate::proofs::Fitting::type_there))]
fn type_behind<'a>(
    alloc: Global,
    kind: &DataType,
    names: &NameSpace<'_, 'a>,
    vars: &IndexMap<&'a [u8], VarStand>,
) -> Result<UsedPart, NoMemory>
    requires vars { length vars.now.entries < 2 ^ 32 }
    requires members { MembersFit (space_of names.now) }
    requires fits { TypeFits (length names.now.loops.now) (type_tree kind.now) }
    ensures { IfOk result (λ u. used_part u ≡ property.data_type first_one (spec.stmt_space (space_of names.now) (map var_of vars.now.entries)) (type_tree kind.now)) }
{
    let inside = stmt_space(names, vars);
    data_type(alloc, kind, &inside)
}

/// The variables of one more declaration.
fn var_decl<'a>(
    alloc: Global,
    part: VarsPart<'a>,
    decl: &VarDecl,
    names: &NameSpace<'_, 'a>,
) -> Result<VarsPart<'a>, NoMemory>
    requires vars { length part.vars.entries < 2 ^ 32 }
    requires members { MembersFit (space_of names.now) }
    requires fits { TypeFits (length names.now.loops.now) (type_tree decl.now.kind) }
    ensures value { IfOk result (λ p. vars_part p ≡ spec.var_decl first_one (space_of names.now) (vars_part part.entry) (var_tree decl.now)) }
    ensures length { IfOk result (λ p. length p.vars.entries ≤ length part.entry.vars.entries + length decl.now.vars) }
{
    let used = type_behind(alloc, &decl.kind, names, &part.vars);
    let (part, used) = beside(part, used)?;
    let stand = stand_of(used.used);
    let typed = and_type(part, used)?;
    and_vars(&names.names, typed, stand, decl.vars.as_slice())
}

/// The variables of declarations, behind those before.
pub fn var_decls<'a>(
    alloc: Global,
    start: VarsPart<'a>,
    list: &[VarDecl],
    names: &NameSpace<'_, 'a>,
) -> Result<VarsPart<'a>, NoMemory>
    requires vars { length start.vars.entries + declared_in (map var_tree list.now) < 2 ^ 32 }
    requires members { MembersFit (space_of names.now) }
    requires fits { VarTypesFit (length names.now.loops.now) (map var_tree list.now) }
    ensures value { IfOk result (λ p. vars_part p ≡ spec.var_decls first_one (space_of names.now) (vars_part start.entry) (map var_tree list.now)) }
    ensures length { IfOk result (λ p. length p.vars.entries ≤ length start.entry.vars.entries + declared_in (map var_tree list.now)) }
{
    let mut part = start;
    for decl in list {
        part = var_decl(alloc, part, decl, names)?;
    }
    Ok(part)
}

impl<'a> VarsPart<'a> {
    /// No variables.
    pub fn none(alloc: Global) -> VarsPart<'a>
        ensures value { vars_part result ≡ spec.no_vars first_one }
        ensures length { length result.vars.entries ≡ 0 }
    {
        VarsPart {
            vars: IndexMap::new(alloc),
            stands: Items::new(alloc),
            objects: 0,
            others: 0,
            fault: None,
        }
    }
}
