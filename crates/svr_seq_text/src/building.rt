// A text as far as it is read.

ghost use Rattle.std.specs.Prelude.{◌≡◌, OnOk};
ghost use Rattle.svr_seq_text.specs.Machine as spec;

use crate::place::Deed;
use crate::text::{ActText, PartText, ProdText, RuleText, SeqText};
use sqlite_items::Items;
use std::alloc::{AllocError, Global};
use std::mem;

/// What is read of a text: the start, whole productions, and the parts of the production at hand.
#[derive(Drop)]
pub(crate) struct Building {
    start: Option<u32>,
    prods: Items<ProdText>,
    /// The name and the whole rules of the production at hand.
    name: u32,
    rules: Items<RuleText>,
    /// The whole parts and the weight of the rule at hand.
    parts: Items<PartText>,
    weight: Option<u32>,
    /// The first token and the count of the part at hand, and the acts of a block.
    at: u32,
    count: u32,
    acts: Items<ActText>,
}

impl Building {
    pub(crate) fn new(alloc: Global) -> Building
        ensures { result ≡ spec.nothing }
    {
        Building {
            start: None,
            prods: Items::new(alloc),
            name: 0,
            rules: Items::new(alloc),
            parts: Items::new(alloc),
            weight: None,
            at: 0,
            count: 0,
            acts: Items::new(alloc),
        }
    }

    fn end_block(&mut self, alloc: Global) -> Result<(), AllocError>
        ensures { OnOk result (self.new ≡ spec.with_block self.old) }
    {
        let acts = mem::replace(&mut self.acts, Items::new(alloc));
        let at = self.at;
        self.parts.push(PartText::Block { at, acts })
    }

    fn end_rule(&mut self, alloc: Global) -> Result<(), AllocError>
        ensures { OnOk result (self.new ≡ spec.with_rule self.old) }
    {
        let parts = mem::replace(&mut self.parts, Items::new(alloc));
        let weight = self.weight;
        self.weight = None;
        self.rules.push(RuleText { parts, weight })
    }

    fn end_production(&mut self, alloc: Global) -> Result<(), AllocError>
        ensures { OnOk result (self.new ≡ spec.with_production self.old) }
    {
        let rules = mem::replace(&mut self.rules, Items::new(alloc));
        let name = self.name;
        self.prods.push(ProdText { name, rules })
    }

    fn end_last_rule(&mut self, alloc: Global) -> Result<(), AllocError>
        ensures { OnOk result (self.new ≡ spec.with_production (spec.with_rule self.old)) }
    {
        self.end_rule(alloc)?;
        self.end_production(alloc)
    }

    /// A part without a block.
    fn keep_part(&mut self, part: PartText) -> Result<(), AllocError>
        ensures { OnOk result (self.new ≡ spec.with_part self.old part) }
    {
        self.parts.push(part)
    }

    fn keep_act(&mut self, act: ActText) -> Result<(), AllocError>
        ensures { OnOk result (self.new ≡ spec.with_act self.old act) }
    {
        self.acts.push(act)
    }

    fn keep_repeat(&mut self, name: u32) -> Result<(), AllocError>
        ensures { OnOk result (self.new ≡ spec.with_repeat self.old name) }
    {
        let at = self.at;
        let count = self.count;
        self.keep_part(PartText::Repeat { at, count, name })
    }

    /// Adds what the token of this number says.
    pub(crate) fn keep(&mut self, alloc: Global, deed: Deed, at: u32) -> Result<(), AllocError>
        ensures { OnOk result (self.new ≡ spec.kept self.old deed at) }
    {
        match deed {
            Deed::Skip => {}
            Deed::Start => self.start = Some(at),
            Deed::Production => self.name = at,
            Deed::Open => self.at = at,
            Deed::Count => self.count = at,
            Deed::Weight => self.weight = Some(at),
            Deed::NamePart => return self.keep_part(PartText::Name(at)),
            Deed::RepeatPart => return self.keep_repeat(at),
            Deed::Print => return self.keep_act(ActText::Print(at)),
            Deed::Choose => return self.keep_act(ActText::Choose(at)),
            Deed::Branch => return self.keep_act(ActText::Branch(at)),
            Deed::EndChoice => return self.keep_act(ActText::End),
            Deed::BlockPart => return self.end_block(alloc),
            Deed::EndRule => return self.end_rule(alloc),
            Deed::EndProduction => return self.end_last_rule(alloc),
        }
        Ok(())
    }

    /// The start and the whole productions.
    pub(crate) fn into_text(self) -> SeqText
        ensures { result ≡ spec.text_in self }
    {
        SeqText {
            start: self.start,
            prods: self.prods,
        }
    }
}
