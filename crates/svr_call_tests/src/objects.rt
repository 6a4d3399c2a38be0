// Objects through their calls.

ghost use Rattle.std.specs.Prelude.{◌≡◌, ◌≤◌, ◌+◌, ◌-◌, ◌^◌, ℕ, IfOk};
ghost use Rattle.svr_limits.specs.declared.limit.TheConstants.{ELEMENT_LIMIT};
ghost use Rattle.svr_world.specs.Fits.{AreShort, AreRising, AreSmall};

use crate::held::{both, copied, let_go, listed};
use sqlite_items::Items;
use std::alloc::Global;
use svr_operator::Rand;
use svr_typed::{
    ArrayKind, Design, EnumType, FlatClass, NoMemory, NumType, Prop, TBlock, TClass, TItem, TStmt,
    TVar, Text, VarKind,
};
use svr_world::{Change, Replacement, Watch, World};

/// Counts samples while there is room for the count.
#[derive(Drop)]
struct Counter {
    taken: u32,
}

impl Watch for Counter {
    ghost Content = { ℕ };

    ghost content = { λ c. c.taken };

    ghost step = { λ n class values. n + 1 };

    ghost left = { λ c. 2 ^ 32 - 1 - c.taken };

    fn after_one(&mut self, _class: u32, _values: &[Items<u64>]) {
        self.taken += 1;
    }
}

/// Two samples of one class.
fn watch_twice<W: Watch>(watch: &mut W, class: u32, values: &[Items<u64>])
    requires { 2 ≤ W.left watch.old }
    ensures { W.content watch.new ≡ W.step (W.step (W.content watch.old) class values.now) class values.now }
{
    watch.after_one(class, values);
    watch.after_one(class, values);
}

fn prop(alloc: Global, array: ArrayKind, first: u64) -> Prop
    ensures { result.array ≡ array }
{
    Prop {
        name: Text::from_vec(Vec::new(alloc)),
        kind: NumType {
            width: 8,
            signed: false,
            members: None,
        },
        rand: Rand::Rand,
        array,
        first,
        low: 0,
        can: true,
        inner: 1,
    }
}

/// A scalar that starts at 7, a fixed array of two, and a queue.
fn props(alloc: Global) -> Result<Items<Prop>, NoMemory>
    ensures { IfOk result (λ props. AreSmall props) }
{
    let scalar = prop(alloc, ArrayKind::Scalar, 7);
    let fixed = prop(alloc, ArrayKind::Fixed(2), 0);
    listed(alloc, [scalar, fixed, prop(alloc, ArrayKind::Dynamic, 0)])
}

/// A block without items.
fn blocks(alloc: Global) -> Result<Items<TBlock>, NoMemory> {
    let name = Text::from_vec(Vec::new(alloc));
    listed(alloc, [TBlock::new(name, Items::<TItem>::new(alloc))])
}

/// The properties and the block.
fn class(alloc: Global) -> Result<FlatClass, NoMemory>
    ensures { IfOk result (λ flat. AreSmall flat.props) }
{
    let (props, blocks) = both(props(alloc), blocks(alloc))?;
    Ok(FlatClass { props, blocks })
}

fn var(alloc: Global, kind: VarKind) -> TVar {
    TVar {
        name: Text::from_vec(Vec::new(alloc)),
        kind,
    }
}

/// A number and an object of the class 3.
fn two_vars(alloc: Global) -> Result<Items<TVar>, NoMemory> {
    let bit = NumType {
        width: 1,
        signed: false,
        members: None,
    };
    let number = var(alloc, VarKind::Number(bit));
    listed(alloc, [number, var(alloc, VarKind::Object(3))])
}

/// The world of two variables, of which nothing was made.
fn blank(alloc: Global) -> Result<World, NoMemory> {
    let vars = two_vars(alloc)?;
    let design = Design::new(
        Items::<EnumType>::new(alloc),
        Items::<TClass>::new(alloc),
        vars,
        Items::<TStmt>::new(alloc),
    );
    let world = World::new(alloc, &design);
    let_go(design);
    world
}

#[test]
fn a_watch_takes_samples(rt: HostRuntime) {
    let mut counter = Counter { taken: 3 };
    watch_twice(&mut counter, 0, &[]);
    assert!(rt; counter.taken == 5);
}

/// The object variable of `two_vars`, and its properties.
const OBJECT: u32 = 1;

const SCALAR: u32 = 0;

const FIXED: u32 = 1;

const QUEUE: u32 = 2;

/// Whether the object is made.
fn make(alloc: Global, world: &mut World) -> bool {
    let class = class(alloc);
    let is_made = match &class {
        Ok(class) => world.make(alloc, OBJECT, class).is_ok(),
        Err(_) => false,
    };
    let_go(class);
    is_made
}

/// Whether the numbers stand at these places: property, index, number.
fn has_numbers(world: &World, table: &[(u32, u32, u64)]) -> bool {
    for (prop, index, number) in table {
        if world.get(OBJECT, *prop, *index) != *number {
            return false;
        }
    }
    true
}

/// Whether the three properties, and one that is none, have these sizes.
fn has_sizes(world: &World, sizes: &[u32; 4]) -> bool {
    for prop in 0..4 {
        if world.size(OBJECT, prop) != sizes[prop as usize] {
            return false;
        }
    }
    true
}

/// Whether the three properties, and one that is none, are switched so.
fn has_modes(world: &World, modes: &[bool; 4]) -> bool {
    for prop in 0..4 {
        if world.prop_mode(OBJECT, prop) != modes[prop as usize] {
            return false;
        }
    }
    true
}

fn starts_with_values(world: &World) -> bool {
    let numbers = [(SCALAR, 0, 7), (FIXED, 0, 0), (FIXED, 1, 0), (3, 0, 0)];
    has_sizes(world, &[1, 2, 0, 0])
        && has_numbers(world, &numbers)
        && world.values(OBJECT).len() == 3
        && world.used(OBJECT, SCALAR).is_empty()
        && world.script() == [0, 0].as_slice()
}

fn starts_switched_on(world: &World) -> bool {
    has_modes(world, &[true, true, true, false])
        && world.block_mode(OBJECT, 0)
        && !world.block_mode(OBJECT, 1)
}

fn is_made_of_its_class(world: &World) -> bool {
    world.is_made(OBJECT) && !world.is_made(0) && world.class_of(OBJECT) == 3
}

fn write(world: &mut World, prop: u32, index: u32, number: u64) {
    if world.is_made(OBJECT) {
        world.set(OBJECT, prop, index, number);
    }
}

/// Whether the write at a place stays, and those at no place do nothing.
fn keeps_writes(world: &mut World) -> bool {
    for (prop, index, number) in &[(FIXED, 1, 9), (FIXED, 2, 8), (QUEUE, 0, 4), (3, 0, 5)] {
        write(world, *prop, *index, *number);
    }
    has_sizes(world, &[1, 2, 0, 0])
        && has_numbers(world, &[(FIXED, 0, 0), (FIXED, 1, 9), (FIXED, 2, 0)])
}

/// Whether the last element is `last` where the queue has this size; then 6 is written behind the first.
fn is_resized(alloc: Global, world: &mut World, size: u32, last: u64) -> bool
    requires low { 1 ≤ size }
    requires high { size ≤ ELEMENT_LIMIT }
{
    if !world.is_made(OBJECT) || world.resize(alloc, OBJECT, QUEUE, size).is_err() {
        return false;
    }
    let found = world.get(OBJECT, QUEUE, size - 1);
    write(world, QUEUE, 1, 6);
    found == last && has_sizes(world, &[1, 2, size, 0])
}

fn keeps_what_fits(alloc: Global, world: &mut World) -> bool {
    is_resized(alloc, world, 3, 0)
        && is_resized(alloc, world, 2, 6)
        && is_resized(alloc, world, 3, 0)
        && has_numbers(world, &[(FIXED, 1, 9), (QUEUE, 1, 6), (QUEUE, 2, 0)])
}

/// Whether a script variable keeps its number, and one that is none does nothing.
fn keeps_script(world: &mut World) -> bool {
    world.script_set(0, 1);
    world.script_set(2, 5);
    world.script() == [1, 0].as_slice() && world.script_get(0) == 1
}

fn keeps_all(alloc: Global, world: &mut World) -> bool {
    keeps_writes(world) && keeps_what_fits(alloc, world) && keeps_script(world)
}

/// Whether the properties are switched so behind the switch of one, or of all.
fn is_switched(world: &mut World, prop: Option<u32>, on: bool, modes: &[bool; 4]) -> bool {
    if world.is_made(OBJECT) {
        world.rand_mode(OBJECT, prop, on);
    }
    has_modes(world, modes)
}

fn is_block_switched(world: &mut World) -> bool {
    if world.is_made(OBJECT) {
        world.constraint_mode(OBJECT, None, false);
    }
    !world.block_mode(OBJECT, 0)
}

/// Switches of a property or of all, and how the properties are switched behind each.
const SWITCHES: [(Option<u32>, bool, [bool; 4]); 4] = [
    (Some(FIXED), false, [true, false, true, false]),
    (None, false, [false, false, false, false]),
    (Some(QUEUE), true, [false, false, true, false]),
    (Some(3), true, [false, false, true, false]),
];

fn are_switched(world: &mut World) -> bool {
    for (prop, on, modes) in &SWITCHES {
        if !is_switched(world, *prop, *on, modes) {
            return false;
        }
    }
    is_block_switched(world)
}

fn replacement(alloc: Global, prop: u32, numbers: &[u64]) -> Result<Replacement, NoMemory>
    ensures { IfOk result (λ r. r.numbers ≡ numbers.now) }
{
    let numbers = copied(alloc, numbers)?;
    Ok(Replacement { prop, numbers })
}

/// The scalar is 2, and the queue has 5 and 6.
fn new_values(alloc: Global) -> Result<Items<Replacement>, NoMemory>
    ensures { IfOk result (λ values. AreShort values) }
{
    let scalar = replacement(alloc, SCALAR, &[2]);
    let (scalar, queue) = both(scalar, replacement(alloc, QUEUE, &[5, 6]))?;
    listed(alloc, [scalar, queue])
}

/// The values 1 and 4 of the scalar are used.
fn used_values(alloc: Global) -> Result<Items<Replacement>, NoMemory>
    ensures { IfOk result (λ used. AreRising used) }
{
    let scalar = replacement(alloc, SCALAR, &[1, 4])?;
    listed(alloc, [scalar])
}

fn change(alloc: Global) -> Result<Change, NoMemory>
    ensures short { IfOk result (λ change. AreShort change.values) }
    ensures rising { IfOk result (λ change. AreRising change.used) }
{
    let (values, used) = both(new_values(alloc), used_values(alloc))?;
    Ok(Change { values, used })
}

fn commit(alloc: Global, world: &mut World) -> Result<(), NoMemory> {
    let change = change(alloc)?;
    if world.is_made(OBJECT) {
        world.commit(OBJECT, change);
    } else {
        let_go(change);
    }
    Ok(())
}

fn is_replaced(world: &World) -> bool {
    let numbers = [(SCALAR, 0, 2), (FIXED, 0, 0), (QUEUE, 0, 5), (QUEUE, 1, 6)];
    has_sizes(world, &[1, 2, 2, 0])
        && has_numbers(world, &numbers)
        && world.used(OBJECT, SCALAR) == [1, 4].as_slice()
        && world.used(OBJECT, QUEUE).is_empty()
}

fn is_new(world: &World) -> bool {
    world.used(OBJECT, SCALAR).is_empty() && has_numbers(world, &[(SCALAR, 0, 7)])
}

/// Whether a change replaces what it names, until the object is made anew.
fn is_changed(alloc: Global, world: &mut World) -> bool {
    commit(alloc, world).is_ok() && is_replaced(world) && make(alloc, world) && is_new(world)
}

/// What is tried of an object.
#[derive(Clone, Copy)]
enum Trial {
    Nothing,
    Start,
    Class,
    Writes,
    Modes,
    Change,
}

/// Whether nothing is made at first, or an object that is just made is as it is to be.
fn is_right(alloc: Global, world: &mut World, trial: Trial) -> bool {
    match trial {
        Trial::Nothing => !world.is_made(OBJECT),
        Trial::Start => {
            make(alloc, world) && starts_with_values(world) && starts_switched_on(world)
        }
        Trial::Class => make(alloc, world) && is_made_of_its_class(world),
        Trial::Writes => make(alloc, world) && keeps_all(alloc, world),
        Trial::Modes => make(alloc, world) && are_switched(world),
        Trial::Change => make(alloc, world) && is_changed(alloc, world),
    }
}

fn holds(alloc: Global, trial: Trial) -> bool {
    let mut world = blank(alloc);
    let is_so = match &mut world {
        Ok(world) => is_right(alloc, world, trial),
        Err(_) => false,
    };
    let_go(world);
    is_so
}

#[test]
fn nothing_is_made_at_first(rt: HostRuntime) {
    assert!(rt; holds(rt.alloc(), Trial::Nothing));
}

#[test]
fn an_object_starts_with_initial_values(rt: HostRuntime) {
    assert!(rt; holds(rt.alloc(), Trial::Start));
}

#[test]
fn an_object_is_made_of_its_class(rt: HostRuntime) {
    assert!(rt; holds(rt.alloc(), Trial::Class));
}

#[test]
fn writes_and_sizes_stay(rt: HostRuntime) {
    assert!(rt; holds(rt.alloc(), Trial::Writes));
}

#[test]
fn modes_are_switched(rt: HostRuntime) {
    assert!(rt; holds(rt.alloc(), Trial::Modes));
}

// Until the object is made anew.
#[test]
fn a_change_replaces_what_it_names(rt: HostRuntime) {
    assert!(rt; holds(rt.alloc(), Trial::Change));
}
