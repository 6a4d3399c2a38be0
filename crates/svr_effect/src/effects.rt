// What a statement does.

ghost use Rattle.std.specs.Prelude.{◌≡◌, ◌≤◌, ◌∷◌, [], None, Some, replicate, IfSome, IfOk, OnOk, OnErr};
ghost use Rattle.svr_limits.specs.declared.limit.TheConstants.{ELEMENT_LIMIT};
ghost use Rattle.svr_typed.specs.ExprTerm.{expr_term, expr_terms};
ghost use Rattle.svr_typed.specs.StmtTerm.{stmt_term, design_term};
ghost use Rattle.svr_world.specs.World.{IsMade, with_numbers, with_script, with_rand_mode, with_block_mode};
ghost use Rattle.svr_world.specs.Fits.{IsShort};
ghost use Rattle.svr_script.specs.Numbered.{assigned};
ghost use Rattle.svr_script.specs.Statement.{all_assigned, effect, is_on, written};
ghost use Rattle.svr_effect.specs.Inherited.{AreClasses, IsNamed, named_by};
ghost use Rattle.svr_effect.specs.Objects.{IsWhole, placed_at};
ghost use Rattle.svr_effect.specs.Stands.{AllCanBe, CanBeComputed, IsWide, Stands, many};

use crate::classes::Classes;
use crate::declared::{width_of_prop, width_of_var};
use crate::values::{all_assigned, assigned, is_on, place_read};
use sqlite_items::Items;
use std::alloc::Global;
use svr_typed::{Design, NoMemory, TExpr, TStmt};
use svr_world::{Change, Replacement, World};

/// A change of one property.
fn one_change(alloc: Global, prop: u32, numbers: Items<u64>) -> Result<Change, NoMemory>
    ensures { IfOk result (λ change. change ≡ record { values = record { prop = prop; numbers = numbers } ∷ []; used = [] }) }
{
    let mut values = Items::new(alloc);
    values.push(Replacement { prop, numbers })?;
    let used = Items::new(alloc);
    Ok(Change { values, used })
}

/// A property has these numbers from now on.
fn replace(
    alloc: Global,
    world: &mut World,
    object: u32,
    prop: u32,
    numbers: Items<u64>,
) -> Result<(), NoMemory>
    requires made { IsMade world.old object }
    requires short { IsShort numbers }
    ensures replaced { OnOk result (world.new ≡ with_numbers world.old object prop numbers) }
    ensures failed { OnErr result (world.new ≡ world.old) }
{
    let change = one_change(alloc, prop, numbers)?;
    world.commit(object, change);
    Ok(())
}

/// A number goes to a place of a property; one that the property does not have takes nothing (IEEE 1800-2017, 7.4.5).
fn write(world: &mut World, object: u32, prop: u32, place: Option<u64>, value: u64)
    requires { IsMade world.old object }
    ensures { world.new ≡ placed_at world.old object prop place value }
{
    let Some(place) = place else {
        return;
    };
    if place >= u64::from(world.size(object, prop)) {
        return;
    }
    world.set(object, prop, place as u32, value);
}

/// A number for a scalar property.
fn set_scalar(
    alloc: Global,
    world: &mut World,
    object: u32,
    prop: u32,
    width: u8,
    value: &TExpr,
) -> Result<(), NoMemory>
    requires made { IsMade world.old object }
    requires wide { IsWide width }
    requires computed { CanBeComputed world.old (expr_term value.now) }
    ensures effect { OnOk result (world.new ≡ written world.old object prop None (assigned world.old width (expr_term value.now))) }
    ensures failed { OnErr result (world.new ≡ world.old) }
{
    let number = assigned(alloc, world, width, value)?;
    world.set(object, prop, 0, number);
    Ok(())
}

/// A number for the element of an array that an index names.
fn set_element(
    alloc: Global,
    world: &mut World,
    object: u32,
    prop: u32,
    index: &TExpr,
    width: u8,
    value: &TExpr,
) -> Result<(), NoMemory>
    requires made { IsMade world.old object }
    requires wide { IsWide width }
    requires index { CanBeComputed world.old (expr_term index.now) }
    requires computed { CanBeComputed world.old (expr_term value.now) }
    ensures effect { OnOk result (world.new ≡ written world.old object prop (Some (expr_term index.now)) (assigned world.old width (expr_term value.now))) }
    ensures failed { OnErr result (world.new ≡ world.old) }
{
    let number = assigned(alloc, world, width, value)?;
    let place = place_read(alloc, world, index)?;
    write(world, object, prop, place, number);
    Ok(())
}

/// Numbers for all elements of an array.
fn set_pattern(
    alloc: Global,
    world: &mut World,
    object: u32,
    prop: u32,
    width: u8,
    values: &[TExpr],
) -> Result<(), NoMemory>
    requires made { IsMade world.old object }
    requires wide { IsWide width }
    requires short { many (expr_terms values.now) ≤ ELEMENT_LIMIT }
    requires computed { AllCanBe world.old (expr_terms values.now) }
    ensures effect { OnOk result (world.new ≡ with_numbers world.old object prop (all_assigned world.old width (expr_terms values.now))) }
    ensures failed { OnErr result (world.new ≡ world.old) }
{
    let numbers = all_assigned(alloc, world, width, values)?;
    replace(alloc, world, object, prop, numbers)
}

/// As many zeros for an array (IEEE 1800-2017, 7.5.1).
fn set_zeros(
    alloc: Global,
    world: &mut World,
    object: u32,
    prop: u32,
    count: u32,
) -> Result<(), NoMemory>
    requires made { IsMade world.old object }
    requires short { count ≤ ELEMENT_LIMIT }
    ensures effect { OnOk result (world.new ≡ with_numbers world.old object prop (replicate count 0)) }
    ensures failed { OnErr result (world.new ≡ world.old) }
{
    let numbers = vec![in alloc; 0; count as usize]?;
    replace(alloc, world, object, prop, Items::from_vec(numbers))
}

/// A number for a script variable.
fn set_var(
    alloc: Global,
    world: &mut World,
    var: u32,
    width: u8,
    value: &TExpr,
) -> Result<(), NoMemory>
    requires wide { IsWide width }
    requires computed { CanBeComputed world.old (expr_term value.now) }
    ensures effect { OnOk result (world.new ≡ with_script world.old var (assigned world.old width (expr_term value.now))) }
    ensures failed { OnErr result (world.new ≡ world.old) }
{
    let number = assigned(alloc, world, width, value)?;
    world.script_set(var, number);
    Ok(())
}

/// The random mode of one property, or of all (IEEE 1800-2017, 18.8).
fn set_rand_mode(
    alloc: Global,
    world: &mut World,
    object: u32,
    prop: Option<u32>,
    on: &TExpr,
) -> Result<(), NoMemory>
    requires made { IsMade world.old object }
    requires computed { CanBeComputed world.old (expr_term on.now) }
    ensures effect { OnOk result (world.new ≡ with_rand_mode world.old object prop (is_on world.old (expr_term on.now))) }
    ensures failed { OnErr result (world.new ≡ world.old) }
{
    let on = is_on(alloc, world, on)?;
    world.rand_mode(object, prop, on);
    Ok(())
}

/// The mode of one block, or of all (IEEE 1800-2017, 18.9).
fn set_block_mode(
    alloc: Global,
    world: &mut World,
    object: u32,
    block: Option<u32>,
    on: &TExpr,
) -> Result<(), NoMemory>
    requires made { IsMade world.old object }
    requires computed { CanBeComputed world.old (expr_term on.now) }
    ensures effect { OnOk result (world.new ≡ with_block_mode world.old object block (is_on world.old (expr_term on.now))) }
    ensures failed { OnErr result (world.new ≡ world.old) }
{
    let on = is_on(alloc, world, on)?;
    world.constraint_mode(object, block, on);
    Ok(())
}

/// Executes a statement that is no call; a `repeat` and a list do nothing themselves. The classes are those of the design, and an object variable that it names is one that some statement of the design names.
pub fn execute(
    alloc: Global,
    design: &Design,
    classes: &Classes,
    world: &mut World,
    stmt: &TStmt,
) -> Result<(), NoMemory>
    requires classes { AreClasses (design_term design.now) classes.now }
    requires named { IfSome (named_by (stmt_term stmt.now)) (IsNamed (design_term design.now)) }
    requires whole { IsWhole world.old }
    requires stands { Stands (design_term design.now) world.old (stmt_term stmt.now) }
    ensures effect { OnOk result (world.new ≡ effect (design_term design.now) (stmt_term stmt.now) world.old) }
    ensures failed { OnErr result (world.new ≡ world.old) }
{
    match stmt {
        TStmt::Make(object) => { world.make(alloc, *object, classes.of_var(design, *object)) }
        TStmt::SetVar(var, value) => {
            set_var(alloc, world, *var, width_of_var(design, *var), value)
        }
        TStmt::SetProp {
            object,
            prop,
            index,
            value,
        } => {
            let width = width_of_prop(design, classes, *object, *prop);
            match index {
                None => set_scalar(alloc, world, *object, *prop, width, value),
                Some(index) => set_element(alloc, world, *object, *prop, index, width, value),
            }
        }
        TStmt::Resize { object, prop, n } => set_zeros(alloc, world, *object, *prop, *n),
        TStmt::Pattern {
            object,
            prop,
            values,
        } => {
            let width = width_of_prop(design, classes, *object, *prop);
            set_pattern(alloc, world, *object, *prop, width, values.as_slice())
        }
        TStmt::RandMode { object, prop, on } => set_rand_mode(alloc, world, *object, *prop, on),
        TStmt::ConstraintMode { object, block, on } => {
            set_block_mode(alloc, world, *object, *block, on)
        }
        TStmt::Call(_) => Ok(()),
        TStmt::Repeat(_, _) => Ok(()),
        TStmt::List(_) => Ok(()),
    }
}
