// Copies of what a frame has of the class and of the script.

ghost use Rattle.std.specs.Prelude.{◌≡◌, IfOk};

use crate::held::both;
use sqlite_items::Items;
use std::alloc::Global;
use svr_flat::copy_items;
use svr_typed::{EnumMember, EnumType, FlatClass, NoMemory, Prop, TBlock, Text};

/// What can be copied where there is memory.
pub(crate) trait Copied: Sized {
    fn copy(&self, alloc: Global) -> Result<Self, NoMemory>
        ensures { IfOk result (λ copy. copy ≡ self.now) };
}

/// A copy of a list.
pub(crate) fn copy_list<T: Copied + Drop>(alloc: Global, items: &[T]) -> Result<Items<T>, NoMemory>
    ensures { IfOk result (λ copies. copies ≡ items.now) }
{
    let mut copies = Items::new(alloc);
    for item in items {
        copies.push(item.copy(alloc)?)?;
    }
    Ok(copies)
}

/// A copy of a list of numbers.
pub(crate) fn copy_numbers(alloc: Global, numbers: &[u64]) -> Result<Items<u64>, NoMemory>
    ensures { IfOk result (λ copy. copy ≡ numbers.now) }
{
    let copy = Items::from_slice(alloc, numbers)?;
    Ok(copy)
}

impl Copied for Items<u64> {
    fn copy(&self, alloc: Global) -> Result<Items<u64>, NoMemory> {
        copy_numbers(alloc, self.as_slice())
    }
}

fn copy_text(alloc: Global, text: &Text) -> Result<Text, NoMemory>
    ensures { IfOk result (λ copy. copy ≡ text.now) }
{
    let bytes = Vec::from_slice(alloc, text.as_bytes())?;
    Ok(Text::from_vec(bytes))
}

impl Copied for Prop {
    fn copy(&self, alloc: Global) -> Result<Prop, NoMemory> {
        let name = copy_text(alloc, &self.name)?;
        Ok(Prop {
            name,
            kind: self.kind,
            rand: self.rand,
            array: self.array,
            first: self.first,
            low: self.low,
            can: self.can,
            inner: self.inner,
        })
    }
}

impl Copied for TBlock {
    fn copy(&self, alloc: Global) -> Result<TBlock, NoMemory> {
        let name = copy_text(alloc, &self.name);
        let items = copy_items(alloc, self.items.as_slice());
        let (name, items) = both(name, items)?;
        Ok(TBlock { name, items })
    }
}

/// A copy of a class with what it inherits.
pub(crate) fn copy_class(alloc: Global, class: &FlatClass) -> Result<FlatClass, NoMemory>
    ensures { IfOk result (λ copy. copy ≡ class.now) }
{
    let props = copy_list(alloc, class.props.as_slice());
    let blocks = copy_list(alloc, class.blocks.as_slice());
    let (props, blocks) = both(props, blocks)?;
    Ok(FlatClass { props, blocks })
}

impl Copied for EnumMember {
    fn copy(&self, alloc: Global) -> Result<EnumMember, NoMemory> {
        let name = copy_text(alloc, &self.name)?;
        Ok(EnumMember {
            name,
            value: self.value,
        })
    }
}

impl Copied for EnumType {
    fn copy(&self, alloc: Global) -> Result<EnumType, NoMemory> {
        let members = copy_list(alloc, self.members.as_slice())?;
        Ok(EnumType {
            base: self.base,
            members,
        })
    }
}
