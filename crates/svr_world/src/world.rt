// The world between calls.

ghost use Rattle.std.specs.Prelude.{◌≡◌, ◌≤◌, ◌↔◌, IsTrue, map, slice_index, OnOk, OnErr, IfOk};
ghost use Rattle.std.specs.Option.{option_copied};
ghost use Rattle.std.specs.List.{All};
ghost use Rattle.std.specs.List.Sorted.{IsStrictlyIncreasing};
ghost use Rattle.svr_limits.specs.declared.limit.TheConstants.{ELEMENT_LIMIT};
ghost use Rattle.svr_typed.specs.ClassTerm.{flat_term};
ghost use Rattle.svr_world.specs.World.{found_object, object_of, IsMade, number_at, size_of, used_of, is_prop_on, is_block_on, declared_classes, blank_world, with_object, without_object, with_new_object, with_number, with_size, with_rand_mode, with_block_mode, with_script, with_change};
ghost use Rattle.svr_world.specs.Fits.{IsShort, AreSmall, AreShort, AreRising};

use crate::change::Change;
use crate::memory::push;
use crate::object::Object;
use sqlite_items::Items;
use std::alloc::Global;
use std::marker::Model;
use svr_typed::{Design, FlatClass, NoMemory, TVar, VarKind};

/// For each script variable the number of its class, the object that it holds, if it holds one, and its number. Objects, properties, blocks and script variables are named by their places.
#[derive(Drop)]
pub struct World {
    declared: Vec<u32>,
    objects: Vec<Option<Object>>,
    script: Vec<u64>,
}

impl Model for World {
    ghost use Rattle.svr_world.specs.World.{WorldTerm};

    ghost Value = { WorldTerm };

    ghost view = { λ w. record { declared = w.declared.items; objects = w.objects.items; script = w.script.items } };
}

#[tactic(auto, using(crate::proofs::Made::put_back))]
impl World {
    /// No object is made, and the script variables are 0.
    pub fn new(alloc: Global, design: &Design) -> Result<World, NoMemory>
        ensures { IfOk result (λ w. w ≡ blank_world (declared_classes design.now.vars)) }
    {
        let vars = design.vars.as_slice();
        let declared = declared_classes(alloc, vars)?;
        let objects = no_objects(alloc, vars)?;
        let script = zeros(alloc, vars)?;
        Ok(World {
            declared,
            objects,
            script,
        })
    }

    fn found(&self, object: u32) -> Option<&Object>
        ensures { option_copied result ≡ found_object self.now object }
    {
        match self.objects.get(object as usize) {
            Some(Some(found)) => Some(found),
            _ => None,
        }
    }

    /// Whether the variable holds an object.
    pub fn is_made(&self, object: u32) -> bool
        ensures { IsTrue result ↔ IsMade self.now object }
    {
        self.found(object).is_some()
    }

    /// Takes an object out of its place, where it is object_with.
    fn take(&mut self, object: u32) -> Option<Object>
        ensures found { result ≡ found_object self.old object }
        ensures rest { self.new ≡ without_object self.old object }
    {
        match self.objects.get_mut(object as usize) {
            Some(place) => place.take(),
            None => None,
        }
    }

    /// The variable holds this object from now on.
    fn put(&mut self, object: u32, found: Object)
        ensures { self.new ≡ with_object self.old object found }
    {
        if let Some(place) = self.objects.get_mut(object as usize) {
            *place = Some(found);
        }
    }

    /// A fresh object for a variable (IEEE 1800-2017, 8.7): initial values, all modes on, nothing used. `class` is the class of the variable with what it inherits.
    pub fn make(&mut self, alloc: Global, object: u32, class: &FlatClass) -> Result<(), NoMemory>
        requires { AreSmall class.now.props }
        ensures made { OnOk result (self.new ≡ with_new_object self.old object (flat_term class.now)) }
        ensures failed { OnErr result (self.new ≡ self.old) }
    {
        let fresh = Object::new(alloc, self.declared_class(object), class)?;
        self.put(object, fresh);
        Ok(())
    }

    fn declared_class(&self, object: u32) -> u32
        ensures { result ≡ slice_index self.now.declared object }
    {
        match self.declared.get(object as usize) {
            Some(class) => *class,
            None => 0,
        }
    }

    /// The class of an object.
    pub fn class_of(&self, object: u32) -> u32
        ensures { result ≡ (object_of self.now object).class }
    {
        match self.found(object) {
            Some(found) => found.class(),
            None => 0,
        }
    }

    /// The numbers of an object, as stored bits, by property. No array has more than 2,048 elements.
    pub fn values(&self, object: u32) -> &[Items<u64>]
        ensures values { result.now ≡ (object_of self.now object).values }
        ensures limit { All IsShort result.now }
    {
        match self.found(object) {
            Some(found) => found.values(),
            None => &[],
        }
    }

    /// The number of a property at a place, 0 outside.
    pub fn get(&self, object: u32, prop: u32, index: u32) -> u64
        ensures { result ≡ number_at (object_of self.now object) prop index }
    {
        match self.found(object) {
            Some(found) => found.number(prop, index),
            None => 0,
        }
    }

    /// How many numbers a property has. No array has more than 2,048 elements.
    pub fn size(&self, object: u32, prop: u32) -> u32
        ensures size { result ≡ size_of (object_of self.now object) prop }
        ensures limit { result ≤ ELEMENT_LIMIT }
    {
        match self.found(object) {
            Some(found) => found.size(prop),
            None => 0,
        }
    }

    /// The values of a cyclic property that its cycle has used, in rising order (IEEE 1800-2017, 18.4.2).
    pub fn used(&self, object: u32, prop: u32) -> &[u64]
        ensures used { result.now ≡ used_of (object_of self.now object) prop }
        ensures rising { IsStrictlyIncreasing result.now }
    {
        match self.found(object) {
            Some(found) => found.used(prop),
            None => &[],
        }
    }

    /// Whether the random mode of a property is on (IEEE 1800-2017, 18.8).
    pub fn prop_mode(&self, object: u32, prop: u32) -> bool
        ensures { result ≡ is_prop_on (object_of self.now object) prop }
    {
        match self.found(object) {
            Some(found) => found.is_prop_on(prop),
            None => false,
        }
    }

    /// Whether the mode of a block is on (IEEE 1800-2017, 18.9).
    pub fn block_mode(&self, object: u32, block: u32) -> bool
        ensures { result ≡ is_block_on (object_of self.now object) block }
    {
        match self.found(object) {
            Some(found) => found.is_block_on(block),
            None => false,
        }
    }

    /// Sets one number, as stored bits. A place outside takes nothing.
    pub fn set(&mut self, object: u32, prop: u32, index: u32, value: u64)
        requires { IsMade self.old object }
        ensures { self.new ≡ with_number self.old object prop index value }
    {
        let Some(mut found) = self.take(object) else {
            return;
        };
        found.set(prop, index, value);
        self.put(object, found);
    }

    /// Gives an array or queue `n` elements. Old numbers stay, and new ones are 0.
    #[tactic(auto, using(crate::proofs::Made::put_back, crate::proofs::Made::put_same))]
    pub fn resize(&mut self, alloc: Global, object: u32, prop: u32, n: u32) -> Result<(), NoMemory>
        requires made { IsMade self.old object }
        requires limit { n ≤ ELEMENT_LIMIT }
        ensures with_size { OnOk result (self.new ≡ with_size self.old object prop n) }
        ensures failed { OnErr result (self.new ≡ self.old) }
    {
        let Some(mut found) = self.take(object) else {
            return Ok(());
        };
        let outcome = found.resize(alloc, prop, n);
        self.put(object, found);
        outcome
    }

    /// Switches the random mode of one property, or of all (IEEE 1800-2017, 18.8).
    pub fn rand_mode(&mut self, object: u32, prop: Option<u32>, on: bool)
        requires { IsMade self.old object }
        ensures { self.new ≡ with_rand_mode self.old object prop on }
    {
        let Some(mut found) = self.take(object) else {
            return;
        };
        found.switch_props(prop, on);
        self.put(object, found);
    }

    /// Switches one block, or all (IEEE 1800-2017, 18.9).
    pub fn constraint_mode(&mut self, object: u32, block: Option<u32>, on: bool)
        requires { IsMade self.old object }
        ensures { self.new ≡ with_block_mode self.old object block on }
    {
        let Some(mut found) = self.take(object) else {
            return;
        };
        found.switch_blocks(block, on);
        self.put(object, found);
    }

    /// The number of a script variable, 0 outside.
    pub fn script_get(&self, var: u32) -> u64
        ensures { result ≡ slice_index self.now.script var }
    {
        match self.script.get(var as usize) {
            Some(number) => *number,
            None => 0,
        }
    }

    /// The numbers of the script variables.
    pub fn script(&self) -> &[u64]
        ensures { result.now ≡ self.now.script }
    {
        self.script.as_slice()
    }

    /// Sets the number of a script variable.
    pub fn script_set(&mut self, var: u32, value: u64)
        ensures { self.new ≡ with_script self.old var value }
    {
        if let Some(place) = self.script.get_mut(var as usize) {
            *place = value;
        }
    }

    /// Replaces the lists that the change names, and no other. It takes no memory and cannot fail.
    pub fn commit(&mut self, object: u32, change: Change)
        requires made { IsMade self.old object }
        requires short { AreShort change.values }
        requires rising { AreRising change.used }
        ensures { self.new ≡ with_change self.old object change }
    {
        let Some(mut found) = self.take(object) else {
            return;
        };
        found.change(change);
        self.put(object, found);
    }
}

fn declared_classes(alloc: Global, vars: &[TVar]) -> Result<Vec<u32>, NoMemory>
    ensures { IfOk result (λ classes. classes.items ≡ declared_classes vars.now) }
{
    let mut classes = Vec::with_capacity(alloc, vars.len())?;
    for var in vars {
        let class = match var.kind {
            VarKind::Number(_) => 0,
            VarKind::Object(class) => class,
        };
        push(&mut classes, class)?;
    }
    Ok(classes)
}

fn no_objects(alloc: Global, vars: &[TVar]) -> Result<Vec<Option<Object>>, NoMemory>
    ensures { IfOk result (λ objects. objects.items ≡ map (λ v. None) vars.now) }
{
    let mut objects = Vec::with_capacity(alloc, vars.len())?;
    for var in vars {
        // One for each, whatever it is.
        let _ = var;
        push(&mut objects, None)?;
    }
    Ok(objects)
}

fn zeros(alloc: Global, vars: &[TVar]) -> Result<Vec<u64>, NoMemory>
    ensures { IfOk result (λ numbers. numbers.items ≡ map (λ v. 0) vars.now) }
{
    let numbers = vec![in alloc; 0; vars.len()]?;
    Ok(numbers)
}
