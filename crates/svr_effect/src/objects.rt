// The numbers of objects and script variables, as expressions of statements read them.

ghost use Rattle.std.specs.Prelude.{◌≡◌, map, slice_index, IfOk};
ghost use Rattle.svr_eval.specs.Reading.{reading_of};
ghost use Rattle.svr_effect.specs.Mentions.{reading_at};
ghost use Rattle.svr_effect.specs.Named.{mentioned};
ghost use Rattle.svr_effect.specs.Objects.{numbers_in, size_in};

use crate::memory::{both, pushed};
use crate::mention::Names;
use sqlite_items::Items;
use std::alloc::Global;
use svr_eval::Assign;
use svr_limits::PROPERTY_LIMIT;
use svr_typed::NoMemory;
use svr_world::World;

/// A copy of the numbers of a property of all objects together.
fn numbers_in(alloc: Global, world: &World, place: u32) -> Result<Items<u64>, NoMemory>
    ensures { IfOk result (λ numbers. numbers ≡ numbers_in world.now place) }
{
    let all = world.values(place / PROPERTY_LIMIT);
    match all.get((place % PROPERTY_LIMIT) as usize) {
        Some(numbers) => Ok(Items::from_slice(alloc, numbers.as_slice())?),
        None => Ok(Items::new(alloc)),
    }
}

/// The numbers of the properties at these places of all objects together.
fn numbers_at(alloc: Global, world: &World, places: &[u32]) -> Result<Items<Items<u64>>, NoMemory>
    ensures { IfOk result (λ rows. rows ≡ map (numbers_in world.now) places.now) }
{
    let mut rows = Items::new(alloc);
    let mut left = places;
    'places: while let Some((place, others)) = left.split_first() {
        rows = pushed(rows, numbers_in(alloc, world, *place))?;
        left = others;
    }
    Ok(rows)
}

/// The sizes of the properties at these places of all objects together.
fn sizes_at(alloc: Global, world: &World, places: &[u32]) -> Result<Items<u32>, NoMemory>
    ensures { IfOk result (λ sizes. sizes ≡ map (size_in world.now) places.now) }
{
    let mut sizes = Items::new(alloc);
    let mut left = places;
    'places: while let Some((place, others)) = left.split_first() {
        sizes.push(world.size(*place / PROPERTY_LIMIT, *place % PROPERTY_LIMIT))?;
        left = others;
    }
    Ok(sizes)
}

/// The number of a script variable, 0 where there is none.
fn variable_at(script: &[u64], variable: u32) -> u64
    ensures { result ≡ slice_index script.now variable }
{
    match script.get(variable as usize) {
        Some(number) => *number,
        None => 0,
    }
}

/// The numbers of these script variables.
fn variables_at(alloc: Global, script: &[u64], variables: &[u32]) -> Result<Items<u64>, NoMemory>
    ensures { IfOk result (λ numbers. numbers ≡ map (slice_index script.now) variables.now) }
{
    let mut numbers = Items::new(alloc);
    let mut left = variables;
    'variables: while let Some((variable, others)) = left.split_first() {
        numbers.push(variable_at(script, *variable))?;
        left = others;
    }
    Ok(numbers)
}

/// What a world has at these names, each at its place among them.
pub(crate) fn seen(alloc: Global, world: &World, names: &Names) -> Result<Assign, NoMemory>
    ensures { IfOk result (λ a. reading_of a ≡ reading_at world.now (mentioned names.now)) }
{
    let values = numbers_at(alloc, world, names.props.as_slice());
    let sizes = sizes_at(alloc, world, names.props.as_slice());
    let script = variables_at(alloc, world.script(), names.vars.as_slice());
    let (values, (sizes, script)) = both(values, both(sizes, script))?;
    Ok(Assign {
        values,
        sizes,
        script,
    })
}
