// The statements of a script (IEEE 1800-2017, 9.2.1).

ghost use Rattle.std.specs.Prelude.{◌≡◌, ◌≤◌, ◌<◌, ◌+◌, ◌^◌, ℕ, List, [], length, map, drop, ◌++◌, IfOk};
ghost use Rattle.svr_tree.specs.DeclTree.{var_tree};
ghost use Rattle.svr_tree.specs.StmtTree.{stmt_tree};
ghost use Rattle.svr_tree.specs.ScriptTree.{unit_tree};
ghost use Rattle.svr_elab_fault.specs.Refusals.{first_one};
ghost use Rattle.svr_elab_names.specs.Tables.{space_of};
ghost use Rattle.svr_elab_part.specs.Fits.{MembersFit};
ghost use Rattle.svr_elab_stmt.specs.Seen.{stmt_part, stmts_part};
ghost use Rattle.svr_elab_target.specs.Fits.{BlocksFit};
ghost use Rattle.svr_elab_unit.specs.Run as spec;
ghost use Rattle.svr_elab_unit.specs.Vars as vars_spec;
ghost use Rattle.svr_elab_unit.specs.Seen.{valued_part};
ghost use Rattle.svr_elab_unit.specs.Fits.{AllStmtsFit, VarValuesFit, declared_in};

use crate::values::{ValuedPart, decls_valued};
use indexmap::{IndexMap, IndexSet};
use std::alloc::Global;
use svr_elab_expr::beside;
use svr_elab_fault::{earlier, when};
use svr_elab_list::{and_next, stmt};
use svr_elab_names::{NameSpace, VarStand};
use svr_elab_stmt::{StmtPart, StmtsPart, no_stmts};
use svr_elab_target::FlatNames;
use svr_limits::STATEMENT_LIMIT;
use svr_refusal::Refusal;
use svr_tree::{Stmt, UnitDecl};
use svr_typed::NoMemory;

/// The first token of a statement.
fn stmt_start(stmt: &Stmt) -> u32
    ensures { result ≡ spec.stmt_start (stmt_tree stmt.now) }
{
    match stmt {
        Stmt::Empty { at } => *at,
        Stmt::Block { at, .. } | Stmt::Repeat { at, .. } | Stmt::Assign { at, .. } => *at,
        Stmt::Call { at, .. } | Stmt::Mode { at, .. } => *at,
    }
}

/// Whether more than `STATEMENT_LIMIT` statements run with this one, and no more did before.
fn passes_limit(before: u32, more: u32) -> bool
    requires before { before ≤ STATEMENT_LIMIT + 1 }
    requires more { more ≤ STATEMENT_LIMIT + 1 }
    ensures { result ≡ spec.passes_limit before more }
{
    before <= STATEMENT_LIMIT && STATEMENT_LIMIT < before + more
}

/// A statement of the initial block that begins at this token, behind so many.
fn with_limit(at: u32, before: u32, stmt: StmtPart) -> StmtPart
    requires before { before ≤ STATEMENT_LIMIT + 1 }
    requires stmt { stmt.count ≤ STATEMENT_LIMIT + 1 }
    ensures value { stmt_part result ≡ spec.with_limit first_one at before (stmt_part stmt) }
    ensures most { result.count ≤ STATEMENT_LIMIT + 1 }
{
    let many = when(passes_limit(before, stmt.count), at, Refusal::TooMany);
    StmtPart {
        tree: stmt.tree,
        fault: earlier(stmt.fault, many),
        makes: stmt.makes,
        count: stmt.count,
    }
}

/// One more statement of the initial block, which begins at this token.
fn and_top(
    made: &mut IndexSet<u32>,
    part: StmtsPart,
    at: u32,
    next: StmtPart,
) -> Result<StmtsPart, NoMemory>
    requires before { part.count ≤ STATEMENT_LIMIT + 1 }
    requires next { next.count ≤ STATEMENT_LIMIT + 1 }
    ensures value { IfOk result (λ p. stmts_part made.new.keys p ≡ spec.and_top first_one (stmts_part made.old.keys part) at (stmt_part next)) }
    ensures most { IfOk result (λ p. p.count ≤ STATEMENT_LIMIT + 1) }
{
    let within = with_limit(at, part.count, next);
    and_next(made, part, within)
}

/// The statements of the initial block, behind those before.
fn tops(
    alloc: Global,
    start: StmtsPart,
    list: &[Stmt],
    names: &NameSpace<'_, '_>,
    made: &mut IndexSet<u32>,
) -> Result<StmtsPart, NoMemory>
    requires vars { length names.now.vars.now.entries < 2 ^ 32 }
    requires members { MembersFit (space_of names.now) }
    requires blocks { BlocksFit (space_of names.now) }
    requires fits { AllStmtsFit (length names.now.loops.now) (map stmt_tree list.now) }
    requires count { start.count ≤ STATEMENT_LIMIT + 1 }
    ensures { IfOk result (λ ss. stmts_part made.new.keys ss ≡ spec.tops first_one (space_of names.now) (stmts_part made.old.keys start) (map stmt_tree list.now)) }
{
    let mut flat = FlatNames::new(alloc);
    let mut part = start;
    for each in list {
        let next = stmt(alloc, each, names, made, &mut flat);
        let (before, next) = beside(part, next)?;
        part = and_top(made, before, stmt_start(each), next)?;
    }
    Ok(part)
}

/// What is known of the variables behind so many declarations.
fn behind(stands: &[VarStand], count: usize) -> &[VarStand]
    ensures { result.now ≡ drop count stands.now }
{
    if count < stands.len() {
        &stands[count..]
    } else {
        &[]
    }
}

/// No values.
fn no_values<'a>(alloc: Global) -> ValuedPart<'a>
    ensures value { (made : List ℕ) → valued_part made result ≡ vars_spec.no_values first_one made }
    ensures most { result.stmts.count ≤ STATEMENT_LIMIT + 1 }
    ensures length { length result.vars.entries ≡ 0 }
{
    ValuedPart {
        vars: IndexMap::new(alloc),
        stmts: no_stmts(alloc),
    }
}

/// The values of the variables of a script; `stands`: what the variables of each declaration are.
fn unit_values<'a>(
    alloc: Global,
    stands: &[VarStand],
    unit: &UnitDecl,
    names: &NameSpace<'_, 'a>,
    made: &mut IndexSet<u32>,
) -> Result<ValuedPart<'a>, NoMemory>
    requires vars { declared_in (map var_tree unit.now.outer) + declared_in (map var_tree unit.now.inner) < 2 ^ 32 }
    requires members { MembersFit (space_of names.now) }
    requires outer { VarValuesFit (length names.now.loops.now) (map var_tree unit.now.outer) }
    requires inner { VarValuesFit (length names.now.loops.now) (map var_tree unit.now.inner) }
    ensures value { IfOk result (λ p. valued_part made.new.keys p ≡ vars_spec.decls_valued first_one (space_of names.now) (vars_spec.no_values first_one made.old.keys) stands.now (map var_tree unit.now.outer ++ map var_tree unit.now.inner)) }
    ensures most { IfOk result (λ p. p.stmts.count ≤ STATEMENT_LIMIT + 1) }
{
    let start = no_values(alloc);
    let outer = unit.outer.as_slice();
    let part = decls_valued(alloc, start, stands, outer, names, made)?;
    let rest = behind(stands, outer.len());
    decls_valued(alloc, part, rest, unit.inner.as_slice(), names, made)
}

/// The statements of a script, behind those object variables that have an object. `stands`: what the variables of each declaration are; `names` has all variables.
fn run_behind(
    alloc: Global,
    stands: &[VarStand],
    unit: &UnitDecl,
    names: &NameSpace<'_, '_>,
    made: &mut IndexSet<u32>,
) -> Result<StmtsPart, NoMemory>
    requires vars { length names.now.vars.now.entries < 2 ^ 32 }
    requires declared { declared_in (map var_tree unit.now.outer) + declared_in (map var_tree unit.now.inner) < 2 ^ 32 }
    requires members { MembersFit (space_of names.now) }
    requires blocks { BlocksFit (space_of names.now) }
    requires outer { VarValuesFit (length names.now.loops.now) (map var_tree unit.now.outer) }
    requires inner { VarValuesFit (length names.now.loops.now) (map var_tree unit.now.inner) }
    requires fits { AllStmtsFit (length names.now.loops.now) (map stmt_tree unit.now.stmts) }
    requires made { made.old.keys ≡ [] }
    ensures { IfOk result (λ ss. stmts_part made.new.keys ss ≡ spec.run first_one (space_of names.now) stands.now (unit_tree unit.now)) }
{
    let valued = unit_values(alloc, stands, unit, names, made)?;
    drop(valued.vars);
    tops(alloc, valued.stmts, unit.stmts.as_slice(), names, made)
}

/// What is known of the statements of a script. `stands`: what the variables of each declaration are; `names` has all variables.
pub fn run(
    alloc: Global,
    stands: &[VarStand],
    unit: &UnitDecl,
    names: &NameSpace<'_, '_>,
) -> Result<StmtsPart, NoMemory>
    requires vars { length names.now.vars.now.entries < 2 ^ 32 }
    requires declared { declared_in (map var_tree unit.now.outer) + declared_in (map var_tree unit.now.inner) < 2 ^ 32 }
    requires members { MembersFit (space_of names.now) }
    requires blocks { BlocksFit (space_of names.now) }
    requires outer { VarValuesFit (length names.now.loops.now) (map var_tree unit.now.outer) }
    requires inner { VarValuesFit (length names.now.loops.now) (map var_tree unit.now.inner) }
    requires fits { AllStmtsFit (length names.now.loops.now) (map stmt_tree unit.now.stmts) }
    ensures { IfOk result (λ ss. stmts_part (spec.run first_one (space_of names.now) stands.now (unit_tree unit.now)).made ss ≡ spec.run first_one (space_of names.now) stands.now (unit_tree unit.now)) }
{
    let mut made = IndexSet::new(alloc);
    run_behind(alloc, stands, unit, names, &mut made)
}
