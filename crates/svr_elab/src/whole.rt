// A whole script.

ghost use Rattle.std.specs.Prelude.{◌≡◌, ◌≤◌, ◌<◌, ◌+◌, ◌++◌, ◌^◌, ℕ, List, [], length, map, option_map, IfOk};
ghost use Rattle.svr_token.specs.Names.{names_of};
ghost use Rattle.svr_typed.specs.StmtTerm.{design_term};
ghost use Rattle.svr_tree.specs.DeclTree.{type_decl_tree, class_tree, var_tree};
ghost use Rattle.svr_tree.specs.StmtTree.{stmt_tree, stmt_trees};
ghost use Rattle.svr_tree.specs.ScriptTree.{script_tree, unit_tree};
ghost use Rattle.svr_elab_fault.specs.Refusals.{first_one};
ghost use Rattle.svr_elab_names.specs.Tables.{space_of, global_of, class_of, var_of};
ghost use Rattle.svr_elab_part.specs.Fits.{MembersFit};
ghost use Rattle.svr_elab_target.specs.Fits.{BlocksFit};
ghost use Rattle.svr_elab_type.specs.Types.{declaring};
ghost use Rattle.svr_elab_type.specs.Seen.{AreEmpty, globals_part};
ghost use Rattle.svr_elab_tops.specs.InOrder.{TypesFit, ClassesFit};
ghost use Rattle.svr_elab_random.specs.Random.{classes_with};
ghost use Rattle.svr_elab_block.specs.Blocks as blocks_spec;
ghost use Rattle.svr_elab_block.specs.Seen.{bodies_part};
ghost use Rattle.svr_elab_block.specs.Fits.{BodiesFit};
ghost use Rattle.svr_elab_stmt.specs.Seen.{stmts_part};
ghost use Rattle.svr_elab_unit.specs.Listed as listed_spec;
ghost use Rattle.svr_elab_unit.specs.Vars as vars_spec;
ghost use Rattle.svr_elab_unit.specs.Run as run_spec;
ghost use Rattle.svr_elab_unit.specs.Seen.{vars_part};
ghost use Rattle.svr_elab_unit.specs.Fits.{VarTypesFit, VarValuesFit, AllStmtsFit, declared_in};
ghost use Rattle.svr_elab_fit_laws.specs.ReadScripts.{ScriptFits, UnitFits};
ghost use Rattle.svr_elab.specs.Script as spec;
ghost use Rattle.svr_elab.specs.Seen.{script_part};

use crate::design::design_of;
use indexmap::{IndexMap, IndexSet};
use sqlite_items::Items;
use std::alloc::Global;
use svr_elab_block::{BodiesPart, class_bodies};
use svr_elab_class::label_fault;
use svr_elab_expr::beside;
use svr_elab_fault::{Fault, earlier};
use svr_elab_names::{ClassNames, Global as Named, NameSpace, VarStand};
use svr_elab_random::{Home, with_random};
use svr_elab_stmt::StmtsPart;
use svr_elab_tops::types_and_classes;
use svr_elab_type::{Globals, NoNames, declaring};
use svr_elab_unit::{VarsPart, listed_in_all, run, stmt_space, var_decls};
use svr_token::Names;
use svr_tree::{Script, UnitDecl};
use svr_typed::{Design, NoMemory};

/// What is known of a script: its design, where each part has one.
#[derive(Drop)]
pub struct ScriptPart {
    pub design: Option<Design>,
    pub fault: Option<Fault>,
}

// ---- types and classes

/// Nothing is declared.
fn no_globals<'a>(alloc: Global) -> Globals<'a>
    ensures value { (text : ℕ → List ℕ) → globals_part text result ≡ spec.no_globals first_one text }
    ensures enums { length result.enums ≡ 0 }
    ensures classes { length result.classes ≡ 0 }
    ensures members { (text : ℕ → List ℕ) → MembersFit (declaring text (map global_of result.names.entries) (map class_of result.classes)) }
{
    Globals {
        names: IndexMap::new(alloc),
        classes: Items::new(alloc),
        enums: Items::new(alloc),
        fault: None,
    }
}

/// The types and classes of a script.
fn heads<'a>(
    alloc: Global,
    names: &Names<'a>,
    none: &NoNames<'a>,
    script: &Script,
) -> Result<Globals<'a>, NoMemory>
    requires none { AreEmpty none.now }
    requires fits { ScriptFits (script_tree script.now) }
    ensures value { IfOk result (λ s. globals_part (names_of names.now) s ≡ spec.heads first_one (names_of names.now) (script_tree script.now)) }
    ensures members { IfOk result (λ s. MembersFit (declaring (names_of names.now) (map global_of s.names.entries) (map class_of s.classes))) }
{
    let start = no_globals(alloc);
    let order = script.order.as_slice();
    let types = script.types.as_slice();
    let classes = script.classes.as_slice();
    let all = types_and_classes(alloc, names, none, start, order, types, classes)?;
    Ok(all)
}

// ---- variables and what calls list

/// The variables of a script, those of the module and those of its initial block.
fn unit_vars<'a>(
    alloc: Global,
    unit: &UnitDecl,
    names: &NameSpace<'_, 'a>,
) -> Result<VarsPart<'a>, NoMemory>
    requires members { MembersFit (space_of names.now) }
    requires loops { length names.now.loops.now ≡ 0 }
    requires fits { UnitFits (unit_tree unit.now) }
    ensures value { IfOk result (λ v. vars_part v ≡ spec.unit_vars first_one (space_of names.now) (unit_tree unit.now)) }
    ensures length { IfOk result (λ v. length v.vars.entries < 2 ^ 32) }
{
    let start = VarsPart::none(alloc);
    let outer = var_decls(alloc, start, unit.outer.as_slice(), names)?;
    let all = var_decls(alloc, outer, unit.inner.as_slice(), names)?;
    Ok(all)
}

/// The variables behind these types and classes.
fn vars_behind<'a>(
    alloc: Global,
    names: Names<'a>,
    known: &Globals<'a>,
    none: &NoNames<'a>,
    unit: &UnitDecl,
) -> Result<VarsPart<'a>, NoMemory>
    requires none { AreEmpty none.now }
    requires members { MembersFit (declaring (names_of names) (map global_of known.now.names.entries) (map class_of known.now.classes)) }
    requires fits { UnitFits (unit_tree unit.now) }
    ensures value { IfOk result (λ v. vars_part v ≡ spec.unit_vars first_one (globals_part (names_of names.entry) known.now).names (unit_tree unit.now)) }
    ensures length { IfOk result (λ v. length v.vars.entries < 2 ^ 32) }
{
    let classes = known.classes.as_slice();
    let outside = declaring(names, &known.names, classes, none);
    let all = unit_vars(alloc, unit, &outside)?;
    Ok(all)
}

/// Every name of a script.
fn whole_space<'s, 'a>(
    names: Names<'a>,
    globals: &'s IndexMap<&'a [u8], Named>,
    classes: &'s [ClassNames<'a>],
    none: &'s NoNames<'a>,
    vars: &'s IndexMap<&'a [u8], VarStand>,
) -> NameSpace<'s, 'a>
    requires { AreEmpty none.now }
    ensures space { space_of result ≡ vars_spec.stmt_space (declaring (names_of names.entry) (map global_of globals.now.entries) (map class_of classes.now)) (map var_of vars.now.entries) }
    ensures loops { length result.loops.now ≡ 0 }
    ensures vars { length result.vars.now.entries ≡ length vars.now.entries }
{
    let outside = declaring(names, globals, classes, none);
    stmt_space(&outside, vars)
}

/// The properties that the calls of a script list.
fn listed(
    alloc: Global,
    unit: &UnitDecl,
    names: &NameSpace<'_, '_>,
) -> Result<IndexSet<Home>, NoMemory>
    requires vars { length names.now.vars.now.entries < 2 ^ 32 }
    requires loops { length names.now.loops.now ≡ 0 }
    ensures { IfOk result (λ hs. hs.keys ≡ listed_spec.all_listed (space_of names.now) [] (stmt_trees unit.now.stmts)) }
{
    let mut homes = IndexSet::new(alloc);
    listed_in_all(unit.stmts.as_slice(), names, &mut homes)?;
    Ok(homes)
}

/// The properties that calls list behind these types, classes and variables.
fn listed_behind<'a>(
    alloc: Global,
    names: Names<'a>,
    known: &Globals<'a>,
    none: &NoNames<'a>,
    vars: &IndexMap<&'a [u8], VarStand>,
    unit: &UnitDecl,
) -> Result<IndexSet<Home>, NoMemory>
    requires none { AreEmpty none.now }
    requires vars { length vars.now.entries < 2 ^ 32 }
    ensures { IfOk result (λ hs. hs.keys ≡ listed_spec.all_listed (vars_spec.stmt_space (globals_part (names_of names.entry) known.now).names (map var_of vars.now.entries)) [] (stmt_trees unit.now.stmts)) }
{
    let classes = known.classes.as_slice();
    let inside = whole_space(names, &known.names, classes, none, vars);
    let homes = listed(alloc, unit, &inside)?;
    Ok(homes)
}

// ---- blocks and statements

/// What is known of the blocks and of the statements of a script.
#[derive(Drop)]
struct Walked<'a> {
    bodies: BodiesPart<'a>,
    stmts: StmtsPart,
}

/// The blocks and the statements of a script. `stands`: what the variables of each declaration are; `names` has every name.
fn walk<'a>(
    alloc: Global,
    script: &Script,
    stands: &[VarStand],
    names: &NameSpace<'_, 'a>,
) -> Result<Walked<'a>, NoMemory>
    requires classes { length script.now.classes ≤ length names.now.classes.now }
    requires vars { length names.now.vars.now.entries < 2 ^ 32 }
    requires loops { length names.now.loops.now ≡ 0 }
    requires members { MembersFit (space_of names.now) }
    requires blocks { BlocksFit (space_of names.now) }
    requires fits { ScriptFits (script_tree script.now) }
    ensures bodies { IfOk result (λ w. bodies_part (names_of names.now.names) w.bodies ≡ blocks_spec.bodies first_one (space_of names.now) (blocks_spec.no_bodies first_one) 0 (script_tree script.now).classes) }
    ensures stmts { IfOk result (λ w. stmts_part (run_spec.run first_one (space_of names.now) stands.now (script_tree script.now).unit).made w.stmts ≡ run_spec.run first_one (space_of names.now) stands.now (script_tree script.now).unit) }
{
    let bodies = class_bodies(alloc, script.classes.as_slice(), names)?;
    let stmts = run(alloc, stands, &script.unit, names)?;
    Ok(Walked { bodies, stmts })
}

/// The blocks and the statements of a script among these types, classes and variables.
fn walk_among<'a>(
    alloc: Global,
    names: Names<'a>,
    globals: &IndexMap<&'a [u8], Named>,
    classes: &[ClassNames<'a>],
    none: &NoNames<'a>,
    vars: &VarsPart<'a>,
    script: &Script,
) -> Result<Walked<'a>, NoMemory>
    requires none { AreEmpty none.now }
    requires classes { length script.now.classes ≤ length classes.now }
    requires vars { length vars.now.vars.entries < 2 ^ 32 }
    requires members { MembersFit (vars_spec.stmt_space (declaring (names_of names) (map global_of globals.now.entries) (map class_of classes.now)) (map var_of vars.now.vars.entries)) }
    requires blocks { BlocksFit (vars_spec.stmt_space (declaring (names_of names) (map global_of globals.now.entries) (map class_of classes.now)) (map var_of vars.now.vars.entries)) }
    requires fits { ScriptFits (script_tree script.now) }
    ensures bodies { IfOk result (λ w. bodies_part (names_of names.entry) w.bodies ≡ blocks_spec.bodies first_one (vars_spec.stmt_space (declaring (names_of names.entry) (map global_of globals.now.entries) (map class_of classes.now)) (map var_of vars.now.vars.entries)) (blocks_spec.no_bodies first_one) 0 (script_tree script.now).classes) }
    ensures stmts { IfOk result (λ w. stmts_part (run_spec.run first_one (vars_spec.stmt_space (declaring (names_of names.entry) (map global_of globals.now.entries) (map class_of classes.now)) (map var_of vars.now.vars.entries)) vars.now.stands (script_tree script.now).unit).made w.stmts ≡ run_spec.run first_one (vars_spec.stmt_space (declaring (names_of names.entry) (map global_of globals.now.entries) (map class_of classes.now)) (map var_of vars.now.vars.entries)) vars.now.stands (script_tree script.now).unit) }
{
    let inside = whole_space(names, globals, classes, none, &vars.vars);
    let all = walk(alloc, script, vars.stands.as_slice(), &inside)?;
    Ok(all)
}

/// The first of the refusals of all parts.
fn all_faults(
    heads: Option<Fault>,
    vars: Option<Fault>,
    bodies: Option<Fault>,
    stmts: Option<Fault>,
    label: Option<Fault>,
) -> Option<Fault>
    ensures { result ≡ spec.all_faults first_one heads vars bodies stmts label }
{
    earlier(heads, earlier(vars, earlier(bodies, earlier(stmts, label))))
}

/// What is known of a script whose calls list these properties.
fn joined<'a>(
    alloc: Global,
    names: Names<'a>,
    none: &NoNames<'a>,
    known: Globals<'a>,
    vars: &VarsPart<'a>,
    listed: &IndexSet<Home>,
    script: &Script,
) -> Result<ScriptPart, NoMemory>
    requires none { AreEmpty none.now }
    requires members { MembersFit (declaring (names_of names) (map global_of known.names.entries) (map class_of known.classes)) }
    requires blocks { BlocksFit (declaring (names_of names) (map global_of known.names.entries) (map class_of known.classes)) }
    requires classes { length script.now.classes ≤ length known.classes }
    requires vars { length vars.now.vars.entries < 2 ^ 32 }
    requires fits { ScriptFits (script_tree script.now) }
    ensures { IfOk result (λ p. script_part p ≡ spec.within first_one (vars_spec.stmt_space (declaring (names_of names.entry) (map global_of known.entry.names.entries) (classes_with listed.now.keys (map class_of known.entry.classes))) (map var_of vars.now.vars.entries)) (globals_part (names_of names.entry) known.entry) (vars_part vars.now) (script_tree script.now)) }
{
    let label = label_fault(&names, script.unit.name, script.unit.label);
    let classes = with_random(alloc, known.classes, listed);
    let (enums, (globals, classes)) = beside(known.enums, beside(known.names, classes))?;
    let list = classes.as_slice();
    let walked = walk_among(alloc, names, &globals, list, none, vars, script);
    drop(globals);
    let (classes, (enums, walked)) = beside(classes, beside(enums, walked))?;
    let bodies = walked.bodies;
    let stmts = walked.stmts;
    drop(bodies.orders);
    let fault = all_faults(known.fault, vars.fault, bodies.fault, stmts.fault, label);
    let design = design_of(
        alloc,
        enums,
        classes.as_slice(),
        &vars.vars,
        bodies.blocks,
        stmts.trees,
    );
    let (classes, design) = beside(classes, design)?;
    drop(classes);
    Ok(ScriptPart { design, fault })
}

/// What is known of a script, with its first refusal.
pub fn script(alloc: Global, names: Names<'_>, script: &Script) -> Result<ScriptPart, NoMemory>
    requires { ScriptFits (script_tree script.now) }
    ensures { IfOk result (λ p. script_part p ≡ spec.script first_one (names_of names.entry) (script_tree script.now)) }
{
    let none = NoNames::new(alloc);
    let known = heads(alloc, &names, &none, script)?;
    let unit = &script.unit;
    let vars = vars_behind(alloc, names, &known, &none, unit)?;
    let homes = listed_behind(alloc, names, &known, &none, &vars.vars, unit)?;
    let part = joined(alloc, names, &none, known, &vars, &homes, script)?;
    Ok(part)
}
