// The bodies of classes, in one pass.

ghost use Rattle.std.specs.Prelude.{◌≡◌, ◌<◌, ◌≤◌, ◌^◌, ◌++◌, ℕ, List, length, map, option_map, IfOk, OnOk};
ghost use Rattle.svr_token.specs.Names.{names_of};
ghost use Rattle.svr_typed.specs.ClassTerm.{block_term};
ghost use Rattle.svr_tree.specs.ItemTree.{item_trees};
ghost use Rattle.svr_tree.specs.DeclTree as tree;
ghost use Rattle.svr_tree.specs.DeclTree.{declarator_tree, block_tree, class_item_tree, class_tree};
ghost use Rattle.svr_typed.specs.ItemTerm.{item_term};
ghost use Rattle.svr_elab_fault.specs.Refusals.{first_one};
ghost use Rattle.svr_elab_names.specs.Tables.{space_of, bytes_of};
ghost use Rattle.svr_elab_part.specs.Shapes.{and_more};
ghost use Rattle.svr_elab_part.specs.Fits.{MembersFit};
ghost use Rattle.svr_elab_item.specs.Seen.{items_part};
ghost use Rattle.svr_elab_item.specs.Fits.{ItemsFit, ItemsLoopsFit};
ghost use Rattle.svr_elab_block.specs.Blocks as spec;
ghost use Rattle.svr_elab_block.specs.Chain as chain_spec;
ghost use Rattle.svr_elab_block.specs.Chain.{all_orders, class_orders, ranks_in, AreRanks, AreRanked};
ghost use Rattle.svr_elab_block.specs.Seen.{body_part, bodies_part};
ghost use Rattle.svr_elab_block.specs.Fits.{ItemFits, BodyFits, BodiesFit};

use crate::cycle::{ClassAt, of_own};
use crate::family::family_ranks;
use crate::inherit::{base_of, is_among, with_name};
use crate::part::{BodiesPart, BodyPart, ClassOrders, no_body};
use crate::place::in_class;
use crate::solve::and_orders;
use indexmap::IndexSet;
use sqlite_items::Items;
use std::alloc::Global;
use std::rc::Rc;
use svr_elab_expr::{beside, both};
use svr_elab_fault::{Fault, earlier};
use svr_elab_form::pushed;
use svr_elab_item::{Around, ItemsPart};
use svr_elab_names::{NameSpace, Region};
use svr_elab_order::Ranks;
use svr_elab_set::items;
use svr_token::Names;
use svr_tree::{ClassDecl, ClassItem, ConstraintBlock, Declarator};
use svr_typed::{NoMemory, TBlock, TItem, Text};

/// The names of the properties of one more declaration.
fn declare<'a>(
    own: &mut IndexSet<&'a [u8]>,
    decls: &[Declarator],
    names: Names<'a>,
) -> Result<(), NoMemory>
    ensures { OnOk result (map bytes_of own.new.keys ≡ spec.and_declared (names_of names.entry) (map bytes_of own.old.keys) (map declarator_tree decls.now)) }
{
    for each in decls {
        with_name(own, names.name(each.name))?;
    }
    Ok(())
}

/// A block of this name, where its items are known.
fn typed(
    alloc: Global,
    name: &[u8],
    items: Option<Items<TItem>>,
) -> Result<Option<TBlock>, NoMemory>
    ensures { IfOk result (λ b. option_map block_term b ≡ spec.block_term name.now (option_map (map item_term) items)) }
{
    let Some(items) = items else {
        return Ok(None);
    };
    let name = Text::from_vec(Vec::from_slice(alloc, name)?);
    Ok(Some(TBlock::new(name, items)))
}

/// One more value behind a list, where both are known.
fn and_more<T: Drop>(list: &mut Option<Items<T>>, value: Option<T>) -> Result<(), NoMemory>
    ensures { OnOk result (list.new ≡ and_more list.old value) }
{
    match list.take().zip(value) {
        None => Ok(()),
        Some((items, value)) => {
            *list = Some(pushed(items, value)?);
            Ok(())
        }
    }
}

/// One more block, of this name, where all are known.
fn with_typed(
    alloc: Global,
    blocks: &mut Option<Items<TBlock>>,
    name: &[u8],
    items: Option<Items<TItem>>,
) -> Result<(), NoMemory>
    ensures { OnOk result (option_map (map block_term) blocks.new ≡ and_more (option_map (map block_term) blocks.old) (spec.block_term name.now (option_map (map item_term) items))) }
{
    let block = typed(alloc, name, items)?;
    and_more(blocks, block)
}

/// A block whose name an earlier declaration has: what it holds is refused all the same.
fn with_fault(part: BodyPart<'_>, fault: Option<Fault>) -> BodyPart<'_>
    ensures { body_part result ≡ spec.with_faults first_one (body_part part.entry) fault }
{
    let fault = earlier(part.fault, fault);
    BodyPart { fault, ..part }
}

/// One more block.
fn with_block<'a>(
    alloc: Global,
    part: BodyPart<'a>,
    block: &ConstraintBlock,
    items: ItemsPart,
    names: &NameSpace<'_, 'a>,
) -> Result<BodyPart<'a>, NoMemory>
    requires vars { length names.now.vars.now.entries < 2 ^ 32 }
    requires loops { length names.now.loops.now < 2 ^ 32 }
    ensures { IfOk result (λ b. body_part b ≡ spec.with_block first_one (body_part part.entry) (names_of names.now.names block.now.name) (spec.orders (space_of names.now) block.now.name part.entry.orders (item_trees block.now.items)) (items_part items)) }
{
    let fault = earlier(part.fault, items.fault);
    let mut part = BodyPart { fault, ..part };
    let name = names.names.name(block.name);
    let own = with_name(&mut part.own, name);
    let named = with_name(&mut part.named, name);
    let declared = both(own, named);
    let blocks = with_typed(alloc, &mut part.blocks, name, items.trees);
    let orders = and_orders(
        alloc,
        &mut part.orders,
        block.items.as_slice(),
        block.name,
        names,
    );
    let known = both(blocks, orders);
    let (part, _done) = beside(part, both(declared, known))?;
    Ok(part)
}

/// One more block, where no earlier declaration has its name.
fn and_block<'a>(
    alloc: Global,
    part: BodyPart<'a>,
    block: &ConstraintBlock,
    names: &NameSpace<'_, 'a>,
) -> Result<BodyPart<'a>, NoMemory>
    requires vars { length names.now.vars.now.entries < 2 ^ 32 }
    requires loops { length names.now.loops.now < 2 ^ 32 }
    requires depth { ItemsLoopsFit (length names.now.loops.now) (item_trees block.now.items) }
    requires members { MembersFit (space_of names.now) }
    requires literals { ItemsFit (item_trees block.now.items) }
    ensures { IfOk result (λ b. body_part b ≡ spec.body_item first_one (space_of names.now) (body_part part.entry) (tree.block (block_tree block.now))) }
{
    let items = items(alloc, block.items.as_slice(), names, Around::outside());
    let (part, items) = beside(part, items)?;
    if is_among(&part.own, names.names.name(block.name)) {
        return Ok(with_fault(part, items.fault));
    }
    with_block(alloc, part, block, items, names)
}

/// With the names of one more declaration of properties.
fn and_names<'a>(
    part: BodyPart<'a>,
    decls: &[Declarator],
    names: Names<'a>,
) -> Result<BodyPart<'a>, NoMemory>
    ensures { IfOk result (λ b. body_part b ≡ spec.with_names first_one (body_part part.entry) (spec.and_declared (names_of names.entry) (map bytes_of part.entry.own.keys) (map declarator_tree decls.now))) }
{
    let mut part = part;
    let declared = declare(&mut part.own, decls, names);
    let (part, _done) = beside(part, declared)?;
    Ok(part)
}

fn and_item<'a>(
    alloc: Global,
    part: BodyPart<'a>,
    item: &ClassItem,
    names: &NameSpace<'_, 'a>,
) -> Result<BodyPart<'a>, NoMemory>
    requires vars { length names.now.vars.now.entries < 2 ^ 32 }
    requires loops { length names.now.loops.now < 2 ^ 32 }
    requires members { MembersFit (space_of names.now) }
    requires fits { ItemFits (length names.now.loops.now) (class_item_tree item.now) }
    ensures { IfOk result (λ b. body_part b ≡ spec.body_item first_one (space_of names.now) (body_part part.entry) (class_item_tree item.now)) }
{
    match item {
        ClassItem::Property(property) => and_names(part, property.decls.as_slice(), names.names),
        ClassItem::Constraint(block) => and_block(alloc, part, block, names),
    }
}

/// The blocks of a class in order.
fn body<'a>(
    alloc: Global,
    class: &ClassDecl,
    names: &NameSpace<'_, 'a>,
) -> Result<BodyPart<'a>, NoMemory>
    requires vars { length names.now.vars.now.entries < 2 ^ 32 }
    requires loops { length names.now.loops.now < 2 ^ 32 }
    requires members { MembersFit (space_of names.now) }
    requires fits { BodyFits (length names.now.loops.now) (map class_item_tree class.now.items) }
    ensures { IfOk result (λ b. body_part b ≡ spec.body_items first_one (space_of names.now) (spec.no_body first_one) (map class_item_tree class.now.items)) }
{
    let mut part = no_body(alloc);
    for item in class.items.as_slice() {
        part = and_item(alloc, part, item, names)?;
    }
    Ok(part)
}

/// With the blocks of one more class, what it orders, and the first refusal of all so far.
fn and_known<'a>(
    bodies: BodiesPart<'a>,
    blocks: Option<Items<TBlock>>,
    class: ClassOrders<'a>,
    fault: Option<Fault>,
) -> Result<BodiesPart<'a>, NoMemory>
    ensures value { (text : ℕ → List ℕ) → IfOk result (λ s. bodies_part text s ≡ chain_spec.and_class (bodies_part text bodies.entry) (option_map (map block_term) blocks) (class_orders text (all_orders text bodies.entry.orders) class.entry) fault) }
    ensures ranks { (text : ℕ → List ℕ) → AreRanked text bodies.entry.orders → AreRanks (ranks_in class.entry) (class_orders text (all_orders text bodies.entry.orders) class.entry) → IfOk result (λ s. AreRanked text s.orders) }
{
    let mut bodies = bodies;
    let known = and_more(&mut bodies.blocks, blocks);
    let (mut bodies, (class, _done)) = beside(bodies, beside(class, known))?;
    match bodies.orders.push(class) {
        Ok(()) => Ok(BodiesPart { fault, ..bodies }),
        Err(_) => {
            drop(bodies);
            Err(NoMemory)
        }
    }
}

/// With the blocks of one more class.
fn and_body<'a>(
    alloc: Global,
    bodies: BodiesPart<'a>,
    at: ClassAt<'_>,
    part: BodyPart<'a>,
    names: Names<'_>,
) -> Result<BodiesPart<'a>, NoMemory>
    requires { AreRanked (names_of names) bodies.orders }
    ensures value { IfOk result (λ s. bodies_part (names_of names.entry) s ≡ chain_spec.with_class (names_of names.entry) (bodies_part (names_of names.entry) bodies.entry) at.entry.base (body_part part.entry)) }
    ensures ranks { IfOk result (λ s. AreRanked (names_of names.entry) s.orders) }
{
    let before = earlier(bodies.fault, part.fault);
    drop(part.own);
    let chain = bodies.orders.as_slice();
    let check = of_own(alloc, chain, at, part.named, part.orders, before, names);
    let (bodies, (blocks, check)) = beside(bodies, beside(part.blocks, check))?;
    let fault = earlier(before, check.fault);
    and_known(bodies, blocks, check.class, fault)
}

/// With the body of the class of this number.
fn and_class<'a>(
    alloc: Global,
    bodies: BodiesPart<'a>,
    class: &ClassDecl,
    number: usize,
    families: &[Option<Rc<Ranks>>],
    names: &NameSpace<'_, 'a>,
) -> Result<BodiesPart<'a>, NoMemory>
    requires number { number < length names.now.classes.now }
    requires vars { length names.now.vars.now.entries < 2 ^ 32 }
    requires loops { length names.now.loops.now < 2 ^ 32 }
    requires members { MembersFit (space_of names.now) }
    requires fits { BodyFits (length names.now.loops.now) (map class_item_tree class.now.items) }
    requires ranks { AreRanked (names_of names.now.names) bodies.orders }
    ensures value { IfOk result (λ s. bodies_part (names_of names.now.names) s ≡ spec.with_class first_one (space_of names.now) (bodies_part (names_of names.now.names) bodies.entry) number (spec.body first_one (space_of names.now) number (class_tree class.now))) }
    ensures ranks { IfOk result (λ s. AreRanked (names_of names.now.names) s.orders) }
{
    let inside = in_class(names, Region::Block, number);
    let (bodies, part) = beside(bodies, body(alloc, class, &inside))?;
    let at = ClassAt {
        number,
        base: base_of(names.classes, number),
        families,
    };
    and_body(alloc, bodies, at, part, names.names)
}

/// What is known of the blocks of all classes, with their first refusal. `classes`: their declarations in order, whose numbers begin with 0. `names`: what names stand for outside of them.
pub fn class_bodies<'a>(
    alloc: Global,
    classes: &[ClassDecl],
    names: &NameSpace<'_, 'a>,
) -> Result<BodiesPart<'a>, NoMemory>
    requires classes { length classes.now ≤ length names.now.classes.now }
    requires vars { length names.now.vars.now.entries < 2 ^ 32 }
    requires loops { length names.now.loops.now < 2 ^ 32 }
    requires members { MembersFit (space_of names.now) }
    requires fits { BodiesFit (length names.now.loops.now) (map class_tree classes.now) }
    ensures value { IfOk result (λ s. bodies_part (names_of names.now.names) s ≡ spec.bodies first_one (space_of names.now) (spec.no_bodies first_one) 0 (map class_tree classes.now)) }
    ensures ranks { IfOk result (λ s. AreRanked (names_of names.now.names) s.orders) }
{
    let families = family_ranks(alloc, classes, names)?;
    let mut bodies = BodiesPart::none(alloc);
    let mut number = 0;
    for class in classes {
        bodies = and_class(alloc, bodies, class, number, families.as_slice(), names)?;
        number += 1;
    }
    Ok(bodies)
}
