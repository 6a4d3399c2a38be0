// Statements, in one walk.

ghost use Rattle.std.specs.Prelude.{◌≡◌, ◌<◌, ◌≤◌, ◌+◌, ◌^◌, ◌<ℤ◌, pos, length, take, Some, None, IfOk, IfSome};
ghost use Rattle.svr_limits.specs.declared.limit.TheConstants.{STATEMENT_LIMIT};
ghost use Rattle.svr_typed.specs.StmtTerm as stmt_term_of;
ghost use Rattle.svr_tree.specs.ExprTree.{expr_tree};
ghost use Rattle.svr_tree.specs.StmtTree.{stmt_tree, stmt_trees, right_tree, randomize_tree, mode_tree};
ghost use Rattle.svr_elab_fault.specs.Refusals.{first_one};
ghost use Rattle.svr_elab_names.specs.Tables.{space_of};
ghost use Rattle.svr_elab_part.specs.Elab as elab_spec;
ghost use Rattle.svr_elab_part.specs.Fits.{MembersFit};
ghost use Rattle.svr_elab_type.specs.Types as types;
ghost use Rattle.svr_elab_type.specs.Fits.{ExprFits};
ghost use Rattle.svr_elab_type.specs.Seen.{constant_part};
ghost use Rattle.svr_elab_stmt.specs.Stmts as spec;
ghost use Rattle.svr_elab_stmt.specs.Seen.{stmt_part, stmts_part};
ghost use Rattle.svr_elab_target.specs.Fits.{BlocksFit};
ghost use Rattle.svr_elab_target.specs.Kept.{IsKept};
ghost use Rattle.svr_elab_stmt.specs.Fits.{CallFits, ModeFits, RightFits, StmtFits, StmtsFit};

use crate::call::randomized;
use crate::right::assign;
use indexmap::IndexSet;
use sqlite_items::Items;
use std::alloc::Global;
use svr_elab_names::NameSpace;
use svr_elab_stmt::{StmtPart, StmtsPart, and_stmt, block_stmt, mode_stmt, no_stmts, repeat_stmt};
use svr_elab_target::{FlatNames, and_made, with_made};
use svr_elab_type::{Constant, constant_at};
use svr_tree::{Expr, ModeCall, RandomizeCall, RightSide, Stmt};
use svr_typed::{NoMemory, TStmt};

/// An assignment where these object variables have an object.
#[tactic(auto, using(crate::proofs::Fitting::members_made, crate::proofs::Fitting::expr_there, crate::proofs::Fitting::right_there))]
fn assign_made(
    alloc: Global,
    target: &Expr,
    right: &RightSide,
    names: &NameSpace<'_, '_>,
    made: &IndexSet<u32>,
) -> Result<StmtPart, NoMemory>
    requires vars { length names.now.vars.now.entries < 2 ^ 32 }
    requires members { MembersFit (space_of names.now) }
    requires target { ExprFits (length names.now.loops.now) (expr_tree target.now) }
    requires right { RightFits (length names.now.loops.now) (right_tree right.now) }
    ensures value { IfOk result (λ s. stmt_part s ≡ spec.assignment first_one (spec.with_made (space_of names.now) made.now.keys) (elab_spec.elab first_one (spec.with_made (space_of names.now) made.now.keys) (expr_tree target.now)) (right_tree right.now)) }
    ensures once { IfOk result (λ s. s.count ≡ 1) }
{
    let inside = with_made(names, made);
    assign(alloc, target, right, &inside)
}

/// A call where these object variables have an object.
#[tactic(auto, using(crate::proofs::Fitting::members_made, crate::proofs::Fitting::call_there))]
fn call_made(
    alloc: Global,
    call: &RandomizeCall,
    names: &NameSpace<'_, '_>,
    made: &IndexSet<u32>,
) -> Result<StmtPart, NoMemory>
    requires vars { length names.now.vars.now.entries < 2 ^ 32 }
    requires members { MembersFit (space_of names.now) }
    requires fits { CallFits (length names.now.loops.now) (randomize_tree call.now) }
    ensures value { IfOk result (λ s. stmt_part s ≡ spec.randomized first_one (spec.with_made (space_of names.now) made.now.keys) None (randomize_tree call.now)) }
    ensures once { IfOk result (λ s. s.count ≡ 1) }
{
    let inside = with_made(names, made);
    randomized(alloc, None, call, &inside)
}

/// A mode where these object variables have an object.
#[tactic(auto, using(crate::proofs::Fitting::members_made, crate::proofs::Fitting::blocks_made, crate::proofs::Fitting::mode_there, svr_elab_target::proofs::Kept::kept_made))]
fn mode_made<'a>(
    alloc: Global,
    mode: &ModeCall,
    names: &NameSpace<'_, 'a>,
    made: &IndexSet<u32>,
    flat: &mut FlatNames<'a>,
) -> Result<StmtPart, NoMemory>
    requires vars { length names.now.vars.now.entries < 2 ^ 32 }
    requires members { MembersFit (space_of names.now) }
    requires blocks { BlocksFit (space_of names.now) }
    requires fits { ModeFits (length names.now.loops.now) (mode_tree mode.now) }
    requires kept { IsKept (space_of names.now) flat.old }
    ensures value { IfOk result (λ s. stmt_part s ≡ spec.mode_stmt first_one (spec.with_made (space_of names.now) made.now.keys) (mode_tree mode.now)) }
    ensures once { IfOk result (λ s. s.count ≡ 1) }
    ensures kept { IsKept (space_of names.now) flat.new }
{
    let inside = with_made(names, made);
    mode_stmt(alloc, mode, &inside, flat)
}

/// A count where these object variables have an object.
#[tactic(auto, using(crate::proofs::Fitting::members_made, crate::proofs::Fitting::expr_there))]
fn count_made(
    alloc: Global,
    count: &Expr,
    names: &NameSpace<'_, '_>,
    made: &IndexSet<u32>,
) -> Result<Constant, NoMemory>
    requires vars { length names.now.vars.now.entries < 2 ^ 32 }
    requires members { MembersFit (space_of names.now) }
    requires fits { ExprFits (length names.now.loops.now) (expr_tree count.now) }
    ensures value { IfOk result (λ c. constant_part c ≡ types.constant_at first_one (spec.with_made (space_of names.now) made.now.keys) (expr_tree count.now)) }
    ensures high { IfOk result (λ c. IfSome c.number (λ n. n <ℤ pos (2 ^ 64))) }
{
    let inside = with_made(names, made);
    constant_at(alloc, count, &inside)
}

/// One more statement behind these, and the object variable that it gives an object to.
pub fn and_next(
    made: &mut IndexSet<u32>,
    part: StmtsPart,
    next: StmtPart,
) -> Result<StmtsPart, NoMemory>
    requires before { part.count ≤ STATEMENT_LIMIT + 1 }
    requires next { next.count ≤ STATEMENT_LIMIT + 1 }
    ensures value { IfOk result (λ p. stmts_part made.new.keys p ≡ spec.and_stmt first_one (stmts_part made.old.keys part) (stmt_part next)) }
    ensures most { IfOk result (λ p. p.count ≤ STATEMENT_LIMIT + 1) }
    ensures keys { IfOk result (λ p. made.new.keys ≡ spec.and_made made.old.keys next.makes) }
{
    let grown = and_made(made, next.makes);
    grown.and(and_stmt(part, next))
}

/// A statement that does nothing.
fn empty(alloc: Global) -> StmtPart
    ensures value { stmt_part result ≡ spec.one_stmt first_one (Some (stmt_term_of.list stmt_term_of.no_stmts)) None }
    ensures most { result.count ≤ STATEMENT_LIMIT + 1 }
{
    StmtPart {
        tree: Some(TStmt::list(Items::new(alloc))),
        fault: None,
        makes: None,
        count: 1,
    }
}

/// What is known of a statement, with its first refusal. `names`: what names stand for; `made`: the object variables that have an object before it, and again behind it; `flat`: what is kept of the blocks of classes.
#[cycle(stmt)]
pub fn stmt<'a>(
    alloc: Global,
    stmt: &Stmt,
    names: &NameSpace<'_, 'a>,
    made: &mut IndexSet<u32>,
    flat: &mut FlatNames<'a>,
) -> Result<StmtPart, NoMemory>
    requires vars { length names.now.vars.now.entries < 2 ^ 32 }
    requires members { MembersFit (space_of names.now) }
    requires blocks { BlocksFit (space_of names.now) }
    requires fits { StmtFits (length names.now.loops.now) (stmt_tree stmt.now) }
    requires kept { IsKept (space_of names.now) flat.old }
    ensures value { IfOk result (λ s. stmt_part s ≡ spec.stmt first_one (spec.with_made (space_of names.now) made.old.keys) (stmt_tree stmt.now)) }
    ensures most { IfOk result (λ s. s.count ≤ STATEMENT_LIMIT + 1) }
    ensures made { IfOk result (λ s. made.new.keys ≡ made.old.keys) }
    ensures kept { IsKept (space_of names.now) flat.new }
{
    match stmt {
        Stmt::Empty { .. } => Ok(empty(alloc)),
        Stmt::Block { stmts: list, .. } => block(alloc, list.as_slice(), names, made, flat),
        Stmt::Repeat { count, body, .. } => repetition(alloc, body.get(), count, names, made, flat),
        Stmt::Assign { target, value, .. } => assign_made(alloc, target, value, names, made),
        Stmt::Call { call, .. } => call_made(alloc, call, names, made),
        Stmt::Mode { mode, .. } => mode_made(alloc, mode, names, made, flat),
    }
}

/// `begin list end`
#[cycle(stmt)]
fn block<'a>(
    alloc: Global,
    list: &[Stmt],
    names: &NameSpace<'_, 'a>,
    made: &mut IndexSet<u32>,
    flat: &mut FlatNames<'a>,
) -> Result<StmtPart, NoMemory>
    requires vars { length names.now.vars.now.entries < 2 ^ 32 }
    requires members { MembersFit (space_of names.now) }
    requires blocks { BlocksFit (space_of names.now) }
    requires fits { StmtsFit (length names.now.loops.now) (stmt_trees list.now) }
    requires kept { IsKept (space_of names.now) flat.old }
    ensures value { IfOk result (λ s. stmt_part s ≡ spec.block_stmt first_one (spec.stmts first_one (spec.with_made (space_of names.now) made.old.keys) (spec.no_stmts first_one made.old.keys) (stmt_trees list.now))) }
    ensures most { IfOk result (λ s. s.count ≤ STATEMENT_LIMIT + 1) }
    ensures made { IfOk result (λ s. made.new.keys ≡ made.old.keys) }
    ensures kept { IsKept (space_of names.now) flat.new }
{
    let before = made.len();
    let part = stmts(alloc, list, names, made, flat)?;
    made.truncate(before);
    Ok(block_stmt(part))
}

/// `repeat (count) body`
#[cycle(stmt)]
fn repetition<'a>(
    alloc: Global,
    body: &Stmt,
    count: &Expr,
    names: &NameSpace<'_, 'a>,
    made: &mut IndexSet<u32>,
    flat: &mut FlatNames<'a>,
) -> Result<StmtPart, NoMemory>
    requires vars { length names.now.vars.now.entries < 2 ^ 32 }
    requires members { MembersFit (space_of names.now) }
    requires blocks { BlocksFit (space_of names.now) }
    requires count { ExprFits (length names.now.loops.now) (expr_tree count.now) }
    requires fits { StmtFits (length names.now.loops.now) (stmt_tree body.now) }
    requires kept { IsKept (space_of names.now) flat.old }
    ensures value { IfOk result (λ s. stmt_part s ≡ spec.repeat_stmt first_one (types.constant_at first_one (spec.with_made (space_of names.now) made.old.keys) (expr_tree count.now)) (spec.stmt first_one (spec.with_made (space_of names.now) made.old.keys) (stmt_tree body.now))) }
    ensures most { IfOk result (λ s. s.count ≤ STATEMENT_LIMIT + 1) }
    ensures made { IfOk result (λ s. made.new.keys ≡ made.old.keys) }
    ensures kept { IsKept (space_of names.now) flat.new }
{
    let times = count_made(alloc, count, names, made)?;
    let inner = stmt(alloc, body, names, made, flat)?;
    repeat_stmt(alloc, times, inner)
}

/// What is known of statements one behind the other, with their first refusal. `made`: the object variables that have an object before them, and with more at its end those behind them; `flat` as above.
#[cycle(stmt)]
pub fn stmts<'a>(
    alloc: Global,
    list: &[Stmt],
    names: &NameSpace<'_, 'a>,
    made: &mut IndexSet<u32>,
    flat: &mut FlatNames<'a>,
) -> Result<StmtsPart, NoMemory>
    requires vars { length names.now.vars.now.entries < 2 ^ 32 }
    requires members { MembersFit (space_of names.now) }
    requires blocks { BlocksFit (space_of names.now) }
    requires fits { StmtsFit (length names.now.loops.now) (stmt_trees list.now) }
    requires kept { IsKept (space_of names.now) flat.old }
    ensures value { IfOk result (λ ss. stmts_part made.new.keys ss ≡ spec.stmts first_one (space_of names.now) (spec.no_stmts first_one made.old.keys) (stmt_trees list.now)) }
    ensures most { IfOk result (λ ss. ss.count ≤ STATEMENT_LIMIT + 1) }
    ensures before { IfOk result (λ ss. take (length made.old.keys) made.new.keys ≡ made.old.keys) }
    ensures kept { IsKept (space_of names.now) flat.new }
{
    let mut part = no_stmts(alloc);
    for each in list {
        let next = stmt(alloc, each, names, made, flat)?;
        part = and_next(made, part, next)?;
    }
    Ok(part)
}
