// With ample memory a line of 100,000 units is printed, and one that needs more is not: `a : repeat (99) b { x; .. }; b : repeat (0) a { x; .. };`.

use sqlite_items::Items;
use std::alloc::Global;
use std::test::Fail;
use svr_draw::Draws;
use svr_seq::{Act, Part, Production, Rule, Seq, SeqEnd, derive};
use svr_typed::NoMemory;

/// A block that prints a name so often.
fn block(alloc: Global, times: u32) -> Result<Part, NoMemory> {
    let mut acts = Items::<Act>::new(alloc);
    for _time in 0..times {
        acts.push(Act::Print(1))?;
    }
    Ok(Part::Block(acts))
}

/// A production with one rule.
fn production(alloc: Global, first: Part, second: Part) -> Result<Production, NoMemory> {
    let mut parts = Items::<Part>::new(alloc);
    parts.push(first)?;
    parts.push(second)?;
    let mut rules = Items::<Rule>::new(alloc);
    rules.push(Rule { parts, weight: 1 })?;
    Ok(Production { name: 0, rules })
}

/// The line needs 1 + 99 * (1 + 1,009) units, and one for each of these names.
fn steady(alloc: Global, names: u32) -> Result<Seq, NoMemory> {
    let (many, none) = (
        Part::Expand { prod: 1, times: 99 },
        Part::Expand { prod: 0, times: 0 },
    );
    let mut prods = Items::<Production>::new(alloc);
    prods.push(production(alloc, many, block(alloc, names)?)?)?;
    prods.push(production(alloc, none, block(alloc, 1_009)?)?)?;
    Ok(Seq { start: 0, prods })
}

/// How many names the line has, if it is not too long.
fn length_of(alloc: Global, names: u32) -> Result<Option<usize>, NoMemory> {
    let seq = steady(alloc, names)?;
    let mut draws = Draws::new(42, 1);
    match derive(alloc, &seq, &mut draws)? {
        SeqEnd::Names(all) => Ok(Some(all.len())),
        SeqEnd::Limit => Ok(None),
    }
}

#[test]
fn a_line_of_100_000_units_is_printed(rt: HostRuntime) -> Result<(), Fail> {
    assert_eq!(rt; length_of(rt.alloc(), 9)?, Some(99_900));
    Ok(())
}

#[test]
fn a_line_of_100_001_units_is_not(rt: HostRuntime) -> Result<(), Fail> {
    assert_eq!(rt; length_of(rt.alloc(), 10)?, None);
    Ok(())
}
