//! 255 + 1 at 8 bits, and as an item.

ghost use Rattle.std.specs.Prelude.{◌≡◌, false, IfOk};
ghost use Rattle.svr_operator.specs.declared.BinOp.TheVariants as bin;
ghost use Rattle.svr_typed.specs.ExprTerm as term;
ghost use Rattle.svr_typed.specs.ExprTerm.{expr_term};

use sqlite_items::Items;
use std::alloc::Global;
use std::test::Fail;
use svr_eval::{Assign, Env, holds, value};
use svr_operator::BinOp;
use svr_typed::{NoMemory, TExpr, TItem, TNode};

fn byte(value: u64) -> TExpr
    ensures { expr_term result ≡ term.typed 8 false (term.number value false) }
{
    TExpr::new(8, false, TNode::number(value, false))
}

fn sum(alloc: Global) -> Result<TExpr, NoMemory>
    ensures { IfOk result (λ e. expr_term e ≡ term.typed 8 false (term.binary bin.Add (term.typed 8 false (term.number 255 false)) (term.typed 8 false (term.number 1 false)))) }
{
    let node = TNode::binary(alloc, BinOp::Add, byte(255), byte(1))?;
    Ok(TExpr::new(8, false, node))
}

/// Lets a value go: the drop of a type parameter is proved once, and costs its callers nothing.
fn let_go<T: Drop>(_held: T) {}

fn value_of_sum(alloc: Global, a: &Assign, env: &Env) -> Result<u64, NoMemory> {
    let sum = sum(alloc)?;
    let found = value(&sum, a, env).value();
    let_go(sum);
    Ok(found)
}

fn sum_holds(alloc: Global, a: &Assign, env: &Env) -> Result<bool, NoMemory> {
    let item = TItem::plain(false, sum(alloc)?, None);
    let found = holds(&item, a, env);
    let_go(item);
    Ok(found)
}

fn is_zero(alloc: Global, a: &Assign, env: &Env) -> Result<bool, NoMemory> {
    let value = value_of_sum(alloc, a, env)?;
    let is_met = sum_holds(alloc, a, env)?;
    Ok(value == 0 && !is_met)
}

#[test]
fn sum_without_its_carry(rt: HostRuntime) -> Result<(), Fail> {
    let a = Assign {
        values: Items::new(rt.alloc()),
        sizes: Items::new(rt.alloc()),
        script: Items::new(rt.alloc()),
    };
    let env = Env::new();
    let found = is_zero(rt.alloc(), &a, &env);
    let_go(a);
    let_go(env);
    assert!(rt; found?);
    Ok(())
}
