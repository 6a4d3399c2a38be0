// Copies of constraint items, and of the parts of a class.

ghost use Rattle.std.specs.Prelude.{◌≡◌, IfOk};

use crate::exprs::{copy_expr, copy_exprs, copy_range};
use crate::memory::{and_item, beside, both};
use sqlite_items::Items;
use std::alloc::Global;
use svr_operator::Share;
use svr_typed::{NoMemory, Prop, TBlock, TDistItem, TExpr, TItem, Text};

/// A copy of a constraint item.
#[cycle(copy_item)]
pub fn copy_item(alloc: Global, item: &TItem) -> Result<TItem, NoMemory>
    ensures { IfOk result (λ copy. copy ≡ item.now) }
{
    match item {
        TItem::Plain { soft, expr, dist } => match dist {
            None => copy_plain(alloc, *soft, expr),
            Some(members) => copy_dist(alloc, *soft, expr, members.as_slice()),
        },
        TItem::Unique { members } => copy_unique(alloc, members.as_slice()),
        TItem::Implies { test, body } => copy_implication(alloc, body.as_slice(), test),
        TItem::Branch { test, yes, no } => match no {
            None => copy_branch(alloc, yes.as_slice(), test),
            Some(no) => {
                let no = copy_items(alloc, no.as_slice())?;
                copy_branch_else(alloc, yes.as_slice(), test, no)
            }
        },
        TItem::Foreach {
            array,
            inner,
            names,
            body,
        } => copy_loop(alloc, *array, *inner, *names, body.as_slice()),
        TItem::Disable { target } => copy_disable(alloc, target),
        TItem::Solve { first, later } => copy_solve(alloc, first.as_slice(), later.as_slice()),
    }
}

fn copy_plain(alloc: Global, soft: bool, e: &TExpr) -> Result<TItem, NoMemory>
    ensures { IfOk result (λ copy. copy ≡ TItem.Plain soft e.now None) }
{
    let expr = copy_expr(alloc, e)?;
    Ok(TItem::Plain {
        soft,
        expr,
        dist: None,
    })
}

fn copy_dist(alloc: Global, soft: bool, e: &TExpr, members: &[TDistItem]) -> Result<TItem, NoMemory>
    ensures { IfOk result (λ copy. copy ≡ TItem.Plain soft e.now (Some members.now)) }
{
    let (expr, members) = both(copy_expr(alloc, e), copy_members(alloc, members))?;
    Ok(TItem::Plain {
        soft,
        expr,
        dist: Some(members),
    })
}

fn copy_members(alloc: Global, members: &[TDistItem]) -> Result<Items<TDistItem>, NoMemory>
    ensures { IfOk result (λ copies. copies ≡ members.now) }
{
    let mut copies = Items::new(alloc);
    for member in members {
        copies = and_item(copies, copy_member(alloc, member))?;
    }
    Ok(copies)
}

fn copy_member(alloc: Global, member: &TDistItem) -> Result<TDistItem, NoMemory>
    ensures { IfOk result (λ copy. copy ≡ member.now) }
{
    let (range, weight) = both(
        copy_range(alloc, &member.range),
        copy_weight(alloc, &member.weight),
    )?;
    Ok(TDistItem { range, weight })
}

fn copy_weight(
    alloc: Global,
    weight: &Option<(Share, TExpr)>,
) -> Result<Option<(Share, TExpr)>, NoMemory>
    ensures { IfOk result (λ copy. copy ≡ weight.now) }
{
    match weight {
        None => Ok(None),
        Some((share, e)) => Ok(Some((*share, copy_expr(alloc, e)?))),
    }
}

fn copy_unique(alloc: Global, members: &[TExpr]) -> Result<TItem, NoMemory>
    ensures { IfOk result (λ copy. copy ≡ TItem.Unique members.now) }
{
    let members = copy_exprs(alloc, members)?;
    Ok(TItem::Unique { members })
}

#[cycle(copy_item)]
fn copy_implication(alloc: Global, body: &[TItem], test: &TExpr) -> Result<TItem, NoMemory>
    ensures { IfOk result (λ copy. copy ≡ TItem.Implies test.now body.now) }
{
    let (test, body) = both(copy_expr(alloc, test), copy_items(alloc, body))?;
    Ok(TItem::Implies { test, body })
}

#[cycle(copy_item)]
fn copy_branch(alloc: Global, yes: &[TItem], test: &TExpr) -> Result<TItem, NoMemory>
    ensures { IfOk result (λ copy. copy ≡ TItem.Branch test.now yes.now None) }
{
    let (test, yes) = both(copy_expr(alloc, test), copy_items(alloc, yes))?;
    Ok(TItem::Branch {
        test,
        yes,
        no: None,
    })
}

#[cycle(copy_item)]
fn copy_branch_else(
    alloc: Global,
    yes: &[TItem],
    test: &TExpr,
    no: Items<TItem>,
) -> Result<TItem, NoMemory>
    ensures { IfOk result (λ copy. copy ≡ TItem.Branch test.now yes.now (Some no)) }
{
    let parts = both(copy_expr(alloc, test), copy_items(alloc, yes));
    let (no, (test, yes)) = beside(no, parts)?;
    Ok(TItem::Branch {
        test,
        yes,
        no: Some(no),
    })
}

#[cycle(copy_item)]
fn copy_loop(
    alloc: Global,
    array: u32,
    inner: u32,
    names: u8,
    body: &[TItem],
) -> Result<TItem, NoMemory>
    ensures { IfOk result (λ copy. copy ≡ TItem.Foreach array inner names body.now) }
{
    let body = copy_items(alloc, body)?;
    Ok(TItem::Foreach {
        array,
        inner,
        names,
        body,
    })
}

fn copy_disable(alloc: Global, target: &TExpr) -> Result<TItem, NoMemory>
    ensures { IfOk result (λ copy. copy ≡ TItem.Disable target.now) }
{
    let target = copy_expr(alloc, target)?;
    Ok(TItem::Disable { target })
}

fn copy_solve(alloc: Global, first: &[TExpr], later: &[TExpr]) -> Result<TItem, NoMemory>
    ensures { IfOk result (λ copy. copy ≡ TItem.Solve first.now later.now) }
{
    let (first, later) = both(copy_exprs(alloc, first), copy_exprs(alloc, later))?;
    Ok(TItem::Solve { first, later })
}

/// Copies of constraint items.
#[cycle(copy_item)]
pub fn copy_items(alloc: Global, items: &[TItem]) -> Result<Items<TItem>, NoMemory>
    ensures { IfOk result (λ copies. copies ≡ items.now) }
{
    let mut copies = Items::new(alloc);
    for item in items {
        copies = and_item(copies, copy_item(alloc, item))?;
    }
    Ok(copies)
}

fn copy_text(alloc: Global, text: &Text) -> Result<Text, NoMemory>
    ensures { IfOk result (λ copy. copy ≡ text.now) }
{
    let bytes = Vec::from_slice(alloc, text.as_bytes())?;
    Ok(Text::from_vec(bytes))
}

/// A copy of a property.
pub fn copy_prop(alloc: Global, prop: &Prop) -> Result<Prop, NoMemory>
    ensures { IfOk result (λ copy. copy ≡ prop.now) }
{
    let name = copy_text(alloc, &prop.name)?;
    Ok(Prop {
        name,
        kind: prop.kind,
        rand: prop.rand,
        array: prop.array,
        first: prop.first,
        low: prop.low,
        can: prop.can,
        inner: prop.inner,
    })
}

/// A copy of a block.
pub fn copy_block(alloc: Global, block: &TBlock) -> Result<TBlock, NoMemory>
    ensures { IfOk result (λ copy. copy ≡ block.now) }
{
    let (name, items) = both(
        copy_text(alloc, &block.name),
        copy_items(alloc, block.items.as_slice()),
    )?;
    Ok(TBlock { name, items })
}
