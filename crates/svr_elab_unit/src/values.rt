// The values of variables, as statements (IEEE 1800-2017, 6.8 and 8.7).

ghost use Rattle.std.specs.Prelude.{◌≡◌, ◌≤◌, ◌<◌, ◌+◌, ◌∷◌, ◌^◌, List, Some, drop, length, map, option_map, IfOk};
ghost use Rattle.svr_limits.specs.declared.limit.TheConstants.{STATEMENT_LIMIT};
ghost use Rattle.svr_tree.specs.ExprTree.{expr_tree};
ghost use Rattle.svr_tree.specs.DeclTree.{VarTree, var_init_tree, var_declarator_tree, var_tree};
ghost use Rattle.svr_elab_fault.specs.Refusals.{first_one};
ghost use Rattle.svr_elab_names.specs.Names as names_spec;
ghost use Rattle.svr_elab_names.specs.Tables.{space_of, var_of};
ghost use Rattle.svr_elab_part.specs.Elab as elab_spec;
ghost use Rattle.svr_elab_part.specs.Seen.{part_of};
ghost use Rattle.svr_elab_part.specs.Fits.{MembersFit};
ghost use Rattle.svr_elab_type.specs.Fits.{ExprFits};
ghost use Rattle.svr_elab_stmt.specs.Seen.{stmt_part, stmts_part};
ghost use Rattle.svr_elab_stmt.specs.Stmts as stmts_spec;
ghost use Rattle.svr_elab_unit.specs.Vars as spec;
ghost use Rattle.svr_elab_unit.specs.Seen.{valued_part};
ghost use Rattle.svr_elab_unit.specs.Fits.{InitFits, InitsFit, VarValuesFit, declared_in};

use crate::vars::{and_var_name, stmt_space};
use indexmap::{IndexMap, IndexSet};
use std::alloc::Global;
use svr_elab_expr::{beside, elab};
use svr_elab_form::path_part;
use svr_elab_list::and_next;
use svr_elab_names::{Found, Meaning, NameSpace, VarStand};
use svr_elab_part::Part;
use svr_elab_stmt::{StmtPart, StmtsPart, given, made_new};
use svr_elab_target::with_made;
use svr_tree::{Expr, VarDecl, VarDeclarator, VarInit};
use svr_typed::NoMemory;

/// What is known of values of variables: the variables so far, each name once, and the assignments.
#[derive(Drop)]
pub struct ValuedPart<'a> {
    pub vars: IndexMap<&'a [u8], VarStand>,
    pub stmts: StmtsPart,
}

/// A variable that is declared: the token of its name, its number, and what it is.
#[derive(Clone, Copy)]
struct Declared {
    name: u32,
    number: u32,
    stand: VarStand,
}

/// What a variable of this number stands for.
fn meaning_of(number: u32, stand: VarStand) -> Meaning
    ensures { result ≡ names_spec.stand_meaning number stand }
{
    match stand {
        VarStand::OfNumber(kind) => Meaning::VariableOf { number, kind },
        VarStand::OfObject(class) => Meaning::ObjectOf { number, class },
    }
}

fn found(number: u32, stand: VarStand) -> Found
    ensures { result ≡ spec.left_found number stand }
{
    Found {
        meaning: meaning_of(number, stand),
        unmade: None,
    }
}

/// A variable as a left side.
fn left_side(alloc: Global, var: Declared) -> Result<Part, NoMemory>
    ensures { IfOk result (λ p. part_of p ≡ spec.left_side first_one var.name var.number var.stand) }
{
    let meant = found(var.number, var.stand);
    path_part(alloc, var.name, var.name, false, meant)
}

/// `target = e`
fn assigned(
    alloc: Global,
    target: Part,
    e: &Expr,
    names: &NameSpace<'_, '_>,
) -> Result<StmtPart, NoMemory>
    requires vars { length names.now.vars.now.entries < 2 ^ 32 }
    requires members { MembersFit (space_of names.now) }
    requires fits { ExprFits (length names.now.loops.now) (expr_tree e.now) }
    ensures value { IfOk result (λ s. stmt_part s ≡ stmts_spec.given first_one (part_of target) (elab_spec.elab first_one (space_of names.now) (expr_tree e.now))) }
    ensures once { IfOk result (λ s. s.count ≡ 1) }
{
    let (target, right) = beside(target, elab(alloc, e, names))?;
    Ok(given(target, right))
}

/// `target = value`, or `target = new`
fn initialized(
    alloc: Global,
    target: Part,
    init: &VarInit,
    names: &NameSpace<'_, '_>,
) -> Result<StmtPart, NoMemory>
    requires vars { length names.now.vars.now.entries < 2 ^ 32 }
    requires members { MembersFit (space_of names.now) }
    requires fits { InitFits (length names.now.loops.now) (Some (var_init_tree init.now)) }
    ensures value { IfOk result (λ s. stmt_part s ≡ spec.initialized first_one (space_of names.now) (part_of target) (var_init_tree init.now)) }
    ensures once { IfOk result (λ s. s.count ≡ 1) }
{
    match init {
        VarInit::Value(e) => assigned(alloc, target, e, names),
        VarInit::New { .. } => Ok(made_new(target)),
    }
}

/// The value of a variable where these object variables have an object.
#[tactic(auto, using(svr_elab_list::proofs::Fitting::members_made, crate::proofs::Fitting::init_there))]
fn init_made(
    alloc: Global,
    var: Declared,
    init: &VarInit,
    names: &NameSpace<'_, '_>,
    made: &IndexSet<u32>,
) -> Result<StmtPart, NoMemory>
    requires vars { length names.now.vars.now.entries < 2 ^ 32 }
    requires members { MembersFit (space_of names.now) }
    requires fits { InitFits (length names.now.loops.now) (Some (var_init_tree init.now)) }
    ensures value { IfOk result (λ s. stmt_part s ≡ spec.initialized first_one (stmts_spec.with_made (space_of names.now) made.now.keys) (spec.left_side first_one var.name var.number var.stand) (var_init_tree init.now)) }
    ensures once { IfOk result (λ s. s.count ≡ 1) }
{
    let left = left_side(alloc, var)?;
    let inside = with_made(names, made);
    initialized(alloc, left, init, &inside)
}

/// The value of a variable, behind these statements. `names` has the variable itself.
fn and_init(
    alloc: Global,
    stmts: StmtsPart,
    var: Declared,
    init: &VarInit,
    names: &NameSpace<'_, '_>,
    made: &mut IndexSet<u32>,
) -> Result<StmtsPart, NoMemory>
    requires vars { length names.now.vars.now.entries < 2 ^ 32 }
    requires members { MembersFit (space_of names.now) }
    requires fits { InitFits (length names.now.loops.now) (Some (var_init_tree init.now)) }
    requires count { stmts.count ≤ STATEMENT_LIMIT + 1 }
    ensures value { IfOk result (λ ss. stmts_part made.new.keys ss ≡ spec.and_value first_one (space_of names.now) (stmts_part made.old.keys stmts) var.name var.number var.stand (Some (var_init_tree init.now))) }
    ensures most { IfOk result (λ ss. ss.count ≤ STATEMENT_LIMIT + 1) }
{
    let stmt = init_made(alloc, var, init, names, made);
    let (stmts, stmt) = beside(stmts, stmt)?;
    and_next(made, stmts, stmt)
}

/// The value of a variable, where it has one, behind these statements. `names` has the variable itself.
fn and_value(
    alloc: Global,
    stmts: StmtsPart,
    var: Declared,
    init: &Option<VarInit>,
    names: &NameSpace<'_, '_>,
    made: &mut IndexSet<u32>,
) -> Result<StmtsPart, NoMemory>
    requires vars { length names.now.vars.now.entries < 2 ^ 32 }
    requires members { MembersFit (space_of names.now) }
    requires fits { InitFits (length names.now.loops.now) (option_map var_init_tree init.now) }
    requires count { stmts.count ≤ STATEMENT_LIMIT + 1 }
    ensures value { IfOk result (λ ss. stmts_part made.new.keys ss ≡ spec.and_value first_one (space_of names.now) (stmts_part made.old.keys stmts) var.name var.number var.stand (option_map var_init_tree init.now)) }
    ensures most { IfOk result (λ ss. ss.count ≤ STATEMENT_LIMIT + 1) }
{
    match init {
        None => Ok(stmts),
        Some(init) => and_init(alloc, stmts, var, init, names, made),
    }
}

/// The value of a variable behind these variables, the last of which it may be.
#[tactic(auto, using(crate::proofs::Fitting::members_there, crate::proofs::Fitting::init_there))]
fn value_behind<'a>(
    alloc: Global,
    stmts: StmtsPart,
    var: Declared,
    init: &Option<VarInit>,
    names: &NameSpace<'_, 'a>,
    vars: &IndexMap<&'a [u8], VarStand>,
    made: &mut IndexSet<u32>,
) -> Result<StmtsPart, NoMemory>
    requires vars { length vars.now.entries < 2 ^ 32 }
    requires members { MembersFit (space_of names.now) }
    requires fits { InitFits (length names.now.loops.now) (option_map var_init_tree init.now) }
    requires count { stmts.count ≤ STATEMENT_LIMIT + 1 }
    ensures value { IfOk result (λ ss. stmts_part made.new.keys ss ≡ spec.and_value first_one (spec.stmt_space (space_of names.now) (map var_of vars.now.entries)) (stmts_part made.old.keys stmts) var.name var.number var.stand (option_map var_init_tree init.now)) }
    ensures most { IfOk result (λ ss. ss.count ≤ STATEMENT_LIMIT + 1) }
{
    let inside = stmt_space(names, vars);
    and_value(alloc, stmts, var, init, &inside, made)
}

/// One more variable, and its value.
fn valued<'a>(
    alloc: Global,
    part: ValuedPart<'a>,
    stand: VarStand,
    declarator: &VarDeclarator,
    names: &NameSpace<'_, 'a>,
    made: &mut IndexSet<u32>,
) -> Result<ValuedPart<'a>, NoMemory>
    requires vars { length part.vars.entries + 1 < 2 ^ 32 }
    requires members { MembersFit (space_of names.now) }
    requires fits { InitFits (length names.now.loops.now) (option_map var_init_tree declarator.now.init) }
    requires count { part.stmts.count ≤ STATEMENT_LIMIT + 1 }
    ensures value { IfOk result (λ p. valued_part made.new.keys p ≡ spec.valued first_one (space_of names.now) (valued_part made.old.keys part.entry) stand (var_declarator_tree declarator.now)) }
    ensures most { IfOk result (λ p. p.stmts.count ≤ STATEMENT_LIMIT + 1) }
    ensures length { IfOk result (λ p. length p.vars.entries ≤ length part.entry.vars.entries + 1) }
{
    let number = part.vars.len() as u32;
    let var = Declared {
        name: declarator.name,
        number,
        stand,
    };
    let spelled = names.names.name(declarator.name);
    let vars = and_var_name(part.vars, spelled, stand);
    let (stmts, vars) = beside(part.stmts, vars)?;
    let init = &declarator.init;
    let stmts = value_behind(alloc, stmts, var, init, names, &vars, made);
    let (vars, stmts) = beside(vars, stmts)?;
    Ok(ValuedPart { vars, stmts })
}

/// The variables of one declaration, and their values.
fn all_valued<'a>(
    alloc: Global,
    start: ValuedPart<'a>,
    stand: VarStand,
    list: &[VarDeclarator],
    names: &NameSpace<'_, 'a>,
    made: &mut IndexSet<u32>,
) -> Result<ValuedPart<'a>, NoMemory>
    requires vars { length start.vars.entries + length list.now < 2 ^ 32 }
    requires members { MembersFit (space_of names.now) }
    requires fits { InitsFit (length names.now.loops.now) (map var_declarator_tree list.now) }
    requires count { start.stmts.count ≤ STATEMENT_LIMIT + 1 }
    ensures value { IfOk result (λ p. valued_part made.new.keys p ≡ spec.all_valued first_one (space_of names.now) (valued_part made.old.keys start.entry) stand (map var_declarator_tree list.now)) }
    ensures most { IfOk result (λ p. p.stmts.count ≤ STATEMENT_LIMIT + 1) }
    ensures length { IfOk result (λ p. length p.vars.entries ≤ length start.entry.vars.entries + length list.now) }
{
    let mut part = start;
    for declarator in list {
        part = valued(alloc, part, stand, declarator, names, made)?;
    }
    Ok(part)
}

/// The variables of the declaration at a place, and their values; `stands`: what the variables of each declaration are.
fn decl_valued<'a>(
    alloc: Global,
    part: ValuedPart<'a>,
    stands: &[VarStand],
    place: usize,
    decl: &VarDecl,
    names: &NameSpace<'_, 'a>,
    made: &mut IndexSet<u32>,
) -> Result<ValuedPart<'a>, NoMemory>
    requires vars { length part.vars.entries + length decl.now.vars < 2 ^ 32 }
    requires members { MembersFit (space_of names.now) }
    requires fits { InitsFit (length names.now.loops.now) (map var_declarator_tree decl.now.vars) }
    requires count { part.stmts.count ≤ STATEMENT_LIMIT + 1 }
    ensures value { IfOk result (λ p. (vs : List VarTree) → spec.decls_valued first_one (space_of names.now) (valued_part made.new.keys p) (drop (place + 1) stands.now) vs ≡ spec.decls_valued first_one (space_of names.now) (valued_part made.old.keys part.entry) (drop place stands.now) (var_tree decl.now ∷ vs)) }
    ensures most { IfOk result (λ p. p.stmts.count ≤ STATEMENT_LIMIT + 1) }
    ensures length { IfOk result (λ p. length p.vars.entries ≤ length part.entry.vars.entries + length decl.now.vars) }
{
    match stands.get(place) {
        None => Ok(part),
        Some(stand) => all_valued(alloc, part, *stand, decl.vars.as_slice(), names, made),
    }
}

/// The variables of declarations, and their values; `stands`: what the variables of each declaration are.
pub(crate) fn decls_valued<'a>(
    alloc: Global,
    start: ValuedPart<'a>,
    stands: &[VarStand],
    list: &[VarDecl],
    names: &NameSpace<'_, 'a>,
    made: &mut IndexSet<u32>,
) -> Result<ValuedPart<'a>, NoMemory>
    requires vars { length start.vars.entries + declared_in (map var_tree list.now) < 2 ^ 32 }
    requires members { MembersFit (space_of names.now) }
    requires fits { VarValuesFit (length names.now.loops.now) (map var_tree list.now) }
    requires count { start.stmts.count ≤ STATEMENT_LIMIT + 1 }
    ensures value { IfOk result (λ p. valued_part made.new.keys p ≡ spec.decls_valued first_one (space_of names.now) (valued_part made.old.keys start.entry) stands.now (map var_tree list.now)) }
    ensures most { IfOk result (λ p. p.stmts.count ≤ STATEMENT_LIMIT + 1) }
    ensures length { IfOk result (λ p. length p.vars.entries ≤ length start.entry.vars.entries + declared_in (map var_tree list.now)) }
{
    let mut part = start;
    let mut place = 0;
    for decl in list {
        part = decl_valued(alloc, part, stands, place, decl, names, made)?;
        place += 1;
    }
    Ok(part)
}
