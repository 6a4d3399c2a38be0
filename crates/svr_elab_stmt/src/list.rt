// Lists of statements and repetition (IEEE 1800-2017, 9.3.1 and 12.7.1).

ghost use Rattle.std.specs.Prelude.{◌≡◌, ◌+◌, ◌*◌, ◌≤◌, ◌<◌, ◌^◌, ◌<ℤ◌, pos, IfOk, IfSome, ℕ, List, [], option_map, map};
ghost use Rattle.svr_typed.specs.StmtTerm.{stmt_term};
ghost use Rattle.svr_elab_fault.specs.Refusals.{first_one};
ghost use Rattle.svr_elab_type.specs.Seen.{constant_part};
ghost use Rattle.svr_elab_stmt.specs.Stmts as spec;
ghost use Rattle.svr_elab_stmt.specs.Seen.{stmt_part, stmts_part};

use crate::part::{StmtPart, StmtsPart, and_more};
use sqlite_items::Items;
use std::alloc::Global;
use svr_elab_fault::earlier;
use svr_elab_type::{Constant, elements};
use svr_limits::STATEMENT_LIMIT;
use svr_typed::{NoMemory, TStmt};

/// How many statements run, where more than `STATEMENT_LIMIT` count as one more.
fn capped(count: u128) -> u32
    ensures value { result ≡ spec.capped count }
    ensures most { result ≤ STATEMENT_LIMIT + 1 }
{
    if u128::from(STATEMENT_LIMIT) < count {
        STATEMENT_LIMIT + 1
    } else {
        count as u32
    }
}

/// How often a body counts: once, where its count is not known.
fn times(count: Option<i128>) -> u128
    requires { IfSome count (λ n. n <ℤ pos (2 ^ 64)) }
    ensures value { result ≡ spec.times count }
    ensures most { result < 2 ^ 64 }
{
    match count {
        None => 1,
        Some(count) => { if count < 0 { 0 } else { count as u128 } }
    }
}

fn repeat(
    alloc: Global,
    count: Option<i128>,
    body: Option<TStmt>,
) -> Result<Option<TStmt>, NoMemory>
    ensures { IfOk result (λ t. option_map stmt_term t ≡ spec.repeat_tree count (option_map stmt_term body)) }
{
    match count.zip(body) {
        None => Ok(None),
        Some((count, body)) => Ok(Some(TStmt::repeat(alloc, elements(count), body)?)),
    }
}

#[tactic(auto, using(crate::proofs::Forms::product_fits, crate::proofs::Forms::product_small))]
fn product(times: u128, body: u32) -> u128
    requires times { times < 2 ^ 64 }
    requires body { body ≤ STATEMENT_LIMIT + 1 }
    ensures value { result ≡ times * body }
    ensures small { result < 2 ^ 127 }
{
    times * u128::from(body)
}

/// How many statements run where a body is repeated.
fn runs_of(times: u128, body: u32) -> u32
    requires times { times < 2 ^ 64 }
    requires body { body ≤ STATEMENT_LIMIT + 1 }
    ensures value { result ≡ spec.capped (1 + times * body) }
    ensures most { result ≤ STATEMENT_LIMIT + 1 }
{
    capped(1 + product(times, body))
}

/// `repeat (count) body`
pub fn repeat_stmt(alloc: Global, count: Constant, body: StmtPart) -> Result<StmtPart, NoMemory>
    requires count { IfSome count.number (λ n. n <ℤ pos (2 ^ 64)) }
    requires body { body.count ≤ STATEMENT_LIMIT + 1 }
    ensures value { IfOk result (λ s. stmt_part s ≡ spec.repeat_stmt first_one (constant_part count) (stmt_part body)) }
    ensures most { IfOk result (λ s. s.count ≤ STATEMENT_LIMIT + 1) }
{
    let runs = runs_of(times(count.number), body.count);
    let fault = earlier(count.fault, body.fault);
    Ok(StmtPart {
        tree: repeat(alloc, count.number, body.tree)?,
        fault,
        makes: None,
        count: runs,
    })
}

fn list(trees: Option<Items<TStmt>>) -> Option<TStmt>
    ensures { option_map stmt_term result ≡ spec.list_tree (option_map (map stmt_term) trees) }
{
    match trees {
        None => None,
        Some(trees) => Some(TStmt::list(trees)),
    }
}

/// `begin list end`
pub fn block_stmt(body: StmtsPart) -> StmtPart
    requires { body.count ≤ STATEMENT_LIMIT + 1 }
    ensures value { stmt_part result ≡ spec.block_stmt first_one (stmts_part [] body) }
    ensures most { result.count ≤ STATEMENT_LIMIT + 1 }
{
    let count = capped(1 + u128::from(body.count));
    StmtPart {
        tree: list(body.trees),
        fault: body.fault,
        makes: None,
        count,
    }
}

/// No statements.
pub fn no_stmts(alloc: Global) -> StmtsPart
    ensures value { (made : List ℕ) → stmts_part made result ≡ spec.no_stmts first_one made }
    ensures most { result.count ≤ STATEMENT_LIMIT + 1 }
{
    StmtsPart {
        trees: Some(Items::new(alloc)),
        fault: None,
        count: 0,
    }
}

/// One more statement behind others.
pub fn and_stmt(before: StmtsPart, stmt: StmtPart) -> Result<StmtsPart, NoMemory>
    requires before { before.count ≤ STATEMENT_LIMIT + 1 }
    requires stmt { stmt.count ≤ STATEMENT_LIMIT + 1 }
    ensures value { IfOk result (λ ss. (made : List ℕ) → stmts_part (spec.and_made made stmt.makes) ss ≡ spec.and_stmt first_one (stmts_part made before) (stmt_part stmt)) }
    ensures most { IfOk result (λ ss. ss.count ≤ STATEMENT_LIMIT + 1) }
{
    let count = capped(u128::from(before.count) + u128::from(stmt.count));
    let fault = earlier(before.fault, stmt.fault);
    Ok(StmtsPart {
        trees: and_more(before.trees, stmt.tree)?,
        fault,
        count,
    })
}
