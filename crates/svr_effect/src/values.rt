// The values of the expressions of statements (IEEE 1800-2017, 10.7 and 11.6), each over the numbers of what it names alone.

ghost use Rattle.std.specs.Prelude.{◌≡◌, ◌≤◌, [], IfOk};
ghost use Rattle.svr_num.specs.Num.{read_of};
ghost use Rattle.svr_script.specs.Numbered.{numbered, reading_of_world};
ghost use Rattle.svr_typed.specs.ExprTerm.{expr_term, expr_terms};
ghost use Rattle.svr_eval.specs.Reading.{reading_of};
ghost use Rattle.svr_eval.specs.Value.{size_of, sign_of, val};
ghost use Rattle.svr_effect.specs.Computed.{alone_over, assigned_over, all_assigned_over, is_on_over};
ghost use Rattle.svr_effect.specs.Mentions.{by_places, mentions, nothing, reading_at};
ghost use Rattle.svr_effect.specs.Objects.{placed};
ghost use Rattle.svr_effect.specs.Stands.{IsComputable, AreComputable, IsWide};

use crate::memory::{both, pushed};
use crate::mention::{Names, mention};
use crate::numbered::numbered;
use crate::objects::seen;
use crate::places::by_places;
use sqlite_items::Items;
use std::alloc::Global;
use svr_eval::{Assign, Env, value_at};
use svr_num::Bits;
use svr_typed::{NoMemory, TExpr};
use svr_world::World;

/// An expression by the places of what it names, and the numbers at these.
#[derive(Drop)]
struct Placed {
    expr: TExpr,
    objects: Assign,
}

/// An expression over all objects together as one over what it names alone.
fn placed_over(alloc: Global, world: &World, over_all: &TExpr) -> Result<Placed, NoMemory>
    ensures expr { IfOk result (λ p. expr_term p.expr ≡ by_places (mentions nothing (expr_term over_all.now)) (expr_term over_all.now)) }
    ensures objects { IfOk result (λ p. reading_of p.objects ≡ reading_at world.now (mentions nothing (expr_term over_all.now))) }
{
    let names = mention(over_all, Names::new(alloc))?;
    let objects = seen(alloc, world, &names);
    let (expr, objects) = both(by_places(alloc, &names, over_all), objects)?;
    Ok(Placed { expr, objects })
}

/// An expression of a statement over what it names alone.
fn over_named(alloc: Global, world: &World, e: &TExpr) -> Result<Placed, NoMemory>
    ensures expr { IfOk result (λ p. expr_term p.expr ≡ by_places (mentions nothing (numbered (expr_term e.now))) (numbered (expr_term e.now))) }
    ensures objects { IfOk result (λ p. reading_of p.objects ≡ reading_at world.now (mentions nothing (numbered (expr_term e.now)))) }
{
    let over_all = numbered(alloc, e)?;
    let placed = placed_over(alloc, world, &over_all);
    drop(over_all);
    placed
}

/// The value of an expression at a width that is no less than its own.
fn computed_at(alloc: Global, world: &World, e: &TExpr, width: u8) -> Result<Bits, NoMemory>
    requires computed { IsComputable (reading_of_world world.now) (expr_term e.now) }
    requires wide { e.now.width ≤ width }
    requires high { width ≤ 64 }
    ensures value { IfOk result (λ v. v.value ≡ val (reading_of_world world.now) [] (numbered (expr_term e.now)) width (sign_of (expr_term e.now))) }
    ensures width { IfOk result (λ v. v.width ≡ width) }
{
    let own = over_named(alloc, world, e)?;
    let outside = Env::new();
    let found = value_at(&own.expr, width, e.signed, &own.objects, &outside);
    drop(own);
    Ok(found)
}

/// The value of an expression alone.
pub(crate) fn alone(alloc: Global, world: &World, e: &TExpr) -> Result<Bits, NoMemory>
    requires { IsComputable (reading_of_world world.now) (expr_term e.now) }
    ensures value { IfOk result (λ v. v.value ≡ alone_over (reading_of_world world.now) (expr_term e.now)) }
    ensures width { IfOk result (λ v. v.width ≡ size_of (expr_term e.now)) }
{
    computed_at(alloc, world, e, e.width)
}

/// The value that a left side of so many bits takes: computed at the greater of the two sizes, and cut.
pub(crate) fn assigned(alloc: Global, world: &World, width: u8, e: &TExpr) -> Result<u64, NoMemory>
    requires computed { IsComputable (reading_of_world world.now) (expr_term e.now) }
    requires wide { IsWide width }
    ensures { IfOk result (λ v. v ≡ assigned_over (reading_of_world world.now) width (expr_term e.now)) }
{
    let whole = width.max(e.width);
    let computed = computed_at(alloc, world, e, whole)?;
    Ok(computed.cut(width).value())
}

/// The values that the elements of an array of so many bits take.
pub(crate) fn all_assigned(
    alloc: Global,
    world: &World,
    width: u8,
    values: &[TExpr],
) -> Result<Items<u64>, NoMemory>
    requires computed { AreComputable (reading_of_world world.now) (expr_terms values.now) }
    requires wide { IsWide width }
    ensures { IfOk result (λ numbers. numbers ≡ all_assigned_over (reading_of_world world.now) width (expr_terms values.now)) }
{
    let mut numbers = Items::new(alloc);
    for e in values {
        numbers = pushed(numbers, assigned(alloc, world, width, e))?;
    }
    Ok(numbers)
}

/// A value as a place; none where it has a sign and its highest bit is 1, which makes it negative.
fn place_of(value: Bits, signed: bool) -> Option<u64>
    ensures { result ≡ placed (read_of signed value.width value.value) }
{
    if !signed {
        return Some(value.value());
    }
    if value.signed() < 0 {
        None
    } else {
        Some(value.value())
    }
}

/// The place that an index names, none where it is negative.
pub(crate) fn place_read(
    alloc: Global,
    world: &World,
    index: &TExpr,
) -> Result<Option<u64>, NoMemory>
    requires { IsComputable (reading_of_world world.now) (expr_term index.now) }
    ensures { IfOk result (λ place. place ≡ placed (read_of (sign_of (expr_term index.now)) (size_of (expr_term index.now)) (alone_over (reading_of_world world.now) (expr_term index.now)))) }
{
    let value = alone(alloc, world, index)?;
    Ok(place_of(value, index.signed))
}

/// Whether a mode is to be on: the least bit says so.
pub(crate) fn is_on(alloc: Global, world: &World, e: &TExpr) -> Result<bool, NoMemory>
    requires { IsComputable (reading_of_world world.now) (expr_term e.now) }
    ensures { IfOk result (λ on. on ≡ is_on_over (reading_of_world world.now) (expr_term e.now)) }
{
    let value = alone(alloc, world, e)?;
    Ok(value.value() % 2 == 1)
}
