// One object.

ghost use Rattle.std.specs.Prelude.{◌≡◌, ◌≤◌, length, slice_set, OnOk, OnErr, IfOk};
ghost use Rattle.std.specs.List.{All};
ghost use Rattle.std.specs.List.Sorted.{IsStrictlyIncreasing};
ghost use Rattle.svr_limits.specs.declared.limit.TheConstants.{ELEMENT_LIMIT};
ghost use Rattle.svr_typed.specs.ClassTerm.{flat_term};
ghost use Rattle.svr_world.specs.World.{numbers_of, number_at, size_of, used_of, is_prop_on, is_block_on, new_object, with_length, with_mode, object_with};
ghost use Rattle.svr_world.specs.Fits.{IsShort, AreSmall, AreShort, AreRising};

use crate::change::Change;
use crate::lists::{
    all_on, apply, initial_values, list_at, mode_at, nothing_used, set_list, set_number, switch,
    with_length,
};
use sqlite_items::Items;
use std::alloc::Global;
use std::marker::Model;
use svr_typed::{FlatClass, NoMemory};

/// The class of an object, its numbers by property, its modes, and its used values by property. No array has more than 2,048 elements, and used values rise.
#[derive(Drop)]
pub struct Object {
    class: u32,
    values: Vec<Items<u64>>,
    rand_modes: Vec<bool>,
    block_modes: Vec<bool>,
    used: Vec<Items<u64>>,
}

impl Model for Object {
    ghost use Rattle.std.specs.List.{All};
    ghost use Rattle.std.specs.List.Sorted.{IsStrictlyIncreasing};
    ghost use Rattle.svr_world.specs.World.{ObjectTerm};
    ghost use Rattle.svr_world.specs.Fits.{IsShort};

    ghost Value = { ObjectTerm };

    ghost view = { λ x. record { class = x.class; values = x.values.items; rand_modes = x.rand_modes.items; block_modes = x.block_modes.items; used = x.used.items } };

    ghost invariant = { λ x. All IsShort x.values.items × All IsStrictlyIncreasing x.used.items };
}

impl Object {
    /// Initial values, all modes on, nothing used.
    pub fn new(alloc: Global, class: u32, flat: &FlatClass) -> Result<Object, NoMemory>
        requires { AreSmall flat.now.props }
        ensures { IfOk result (λ x. x ≡ new_object class (flat_term flat.now)) }
    {
        let props = flat.props.as_slice();
        let values = initial_values(alloc, props)?;
        let rand_modes = all_on(alloc, props)?;
        let block_modes = all_on(alloc, flat.blocks.as_slice())?;
        let used = nothing_used(alloc, props)?;
        Ok(Object {
            class,
            values,
            rand_modes,
            block_modes,
            used,
        })
    }

    /// The number of its class.
    pub fn class(&self) -> u32
        ensures { result ≡ self.now.class }
    {
        self.class
    }

    /// The numbers of each property: one of a scalar, those of its elements of an array.
    pub fn values(&self) -> &[Items<u64>]
        ensures values { result.now ≡ self.now.values }
        ensures limit { All IsShort result.now }
    {
        self.values.as_slice()
    }

    /// The number of a property at a place, 0 outside.
    pub fn number(&self, prop: u32, index: u32) -> u64
        ensures { result ≡ number_at self.now prop index }
    {
        match list_at(&self.values, prop).get(index as usize) {
            Some(number) => *number,
            None => 0,
        }
    }

    /// How many numbers a property has.
    pub fn size(&self, prop: u32) -> u32
        ensures size { result ≡ size_of self.now prop }
        ensures limit { result ≤ ELEMENT_LIMIT }
    {
        list_at(&self.values, prop).len() as u32
    }

    /// The used values of a property.
    pub fn used(&self, prop: u32) -> &[u64]
        ensures used { result.now ≡ used_of self.now prop }
        ensures rising { IsStrictlyIncreasing result.now }
    {
        list_at(&self.used, prop)
    }

    /// Whether the property is active by `rand_mode` (18.8).
    pub fn is_prop_on(&self, prop: u32) -> bool
        ensures { result ≡ is_prop_on self.now prop }
    {
        mode_at(&self.rand_modes, prop)
    }

    /// Whether the constraint block is active by `constraint_mode` (18.9).
    pub fn is_block_on(&self, block: u32) -> bool
        ensures { result ≡ is_block_on self.now block }
    {
        mode_at(&self.block_modes, block)
    }

    /// One number; nothing outside.
    pub fn set(&mut self, prop: u32, index: u32, value: u64)
        ensures { self.new ≡ record self.old { values = slice_set self.old.values prop (slice_set (numbers_of self.old prop) index value) } }
    {
        set_number(&mut self.values, prop, index, value);
    }

    /// Old numbers stay, and new ones are 0.
    pub fn resize(&mut self, alloc: Global, prop: u32, n: u32) -> Result<(), NoMemory>
        requires { n ≤ ELEMENT_LIMIT }
        ensures with_size { OnOk result (self.new ≡ record self.old { values = slice_set self.old.values prop (with_length n (numbers_of self.old prop)) }) }
        ensures failed { OnErr result (self.new ≡ self.old) }
    {
        let list = with_length(alloc, list_at(&self.values, prop), n)?;
        set_list(&mut self.values, prop, list);
        Ok(())
    }

    /// The random mode of one property, or of all.
    pub fn switch_props(&mut self, prop: Option<u32>, on: bool)
        ensures { self.new ≡ record self.old { rand_modes = with_mode self.old.rand_modes prop on } }
    {
        switch(&mut self.rand_modes, prop, on);
    }

    /// The mode of one block, or of all.
    pub fn switch_blocks(&mut self, block: Option<u32>, on: bool)
        ensures { self.new ≡ record self.old { block_modes = with_mode self.old.block_modes block on } }
    {
        switch(&mut self.block_modes, block, on);
    }

    /// Replaces the lists that the change names, and no other.
    pub fn change(&mut self, change: Change)
        requires short { AreShort change.values }
        requires rising { AreRising change.used }
        ensures { self.new ≡ object_with self.old change }
    {
        apply(&mut self.values, &mut self.used, change);
    }
}
