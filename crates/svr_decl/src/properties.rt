// Properties of classes.

ghost use Rattle.std.specs.Prelude.{◌≤◌, IfOk};
ghost use Rattle.svr_tree.specs.DeclTree.{dimension_tree, declarator_tree, property_tree};
ghost use Rattle.svr_reader.specs.Lists as lists;
ghost use Rattle.svr_reader.specs.Answers.{Gives};
ghost use Rattle.svr_reader.specs.Calls.{cap, height_view, heights_view};
ghost use Rattle.svr_decl.specs.DeclRules as rules;

use crate::held::let_go;
use crate::reader::Reader;
use sqlite_items::Items;
use svr_item::{ended, pushed};
use svr_operator::Rand;
use svr_reader::{Cursor, Fixed, ReadFault, listing};
use svr_token::{Mark, Word};
use svr_tree::{Declarator, Dimension, PropertyDecl};

impl Reader {
    // `size` or `first:last`, and the bracket that ends it.
    #[tactic(auto, unfolding(crate::specs::DeclRules::size_or_bounds))]
    fn size_or_bounds(&self, cursor: &mut Cursor<'_>) -> Result<(Dimension, usize), ReadFault>
        ensures gives { Gives (height_view dimension_tree) (rules.within cap self.now.room rules.size_or_bounds cursor.old) result cursor.new }
        ensures low { IfOk result (λ x. x.1 ≤ self.now.room) }
    {
        let (first, first_height) = self.expression(cursor)?;
        if cursor.eat(Fixed::Mark(Mark::Colon)) {
            match self.expression(cursor) {
                Ok((last, last_height)) => {
                    let bounds = Dimension::Bounds(first, last);
                    let found = (bounds, first_height.max(last_height));
                    ended(cursor, found, Fixed::Mark(Mark::CloseBracket))
                }
                Err(fault) => Err(let_go(first, fault)),
            }
        } else {
            let found = (Dimension::Size(first), first_height);
            ended(cursor, found, Fixed::Mark(Mark::CloseBracket))
        }
    }

    // Behind `[`.
    #[tactic(auto, unfolding(crate::specs::DeclRules::dimension))]
    fn dimension(&self, cursor: &mut Cursor<'_>) -> Result<(Dimension, usize), ReadFault>
        ensures gives { Gives (height_view dimension_tree) (rules.within cap self.now.room rules.dimension cursor.old) result cursor.new }
        ensures low { IfOk result (λ x. x.1 ≤ self.now.room) }
    {
        if cursor.eat(Fixed::Mark(Mark::CloseBracket)) {
            return Ok((Dimension::Dynamic, 0));
        }
        if cursor.eat(Fixed::Mark(Mark::Dollar)) {
            let found = (Dimension::Queue, 0);
            return ended(cursor, found, Fixed::Mark(Mark::CloseBracket));
        }
        self.size_or_bounds(cursor)
    }

    // The dimensions behind the first one, with it: one more at most.
    #[tactic(auto, unfolding(crate::specs::DeclRules::dimensions_on))]
    fn dimensions_on(
        &self,
        cursor: &mut Cursor<'_>,
        outer: Dimension,
        outer_height: usize,
    ) -> Result<(Items<Dimension>, usize), ReadFault>
        requires { outer_height ≤ self.now.room }
        ensures gives { Gives (heights_view dimension_tree) (rules.within cap self.now.room (rules.dimensions_on (height_view dimension_tree (outer, outer_height))) cursor.old) result cursor.new }
        ensures low { IfOk result (λ x. x.1 ≤ self.now.room) }
    {
        let dims = pushed(Items::new(self.alloc), outer)?;
        if cursor.eat(Fixed::Mark(Mark::OpenBracket)) {
            match self.dimension(cursor) {
                Ok((inner, inner_height)) => {
                    let dims = pushed(dims, inner)?;
                    Ok((dims, outer_height.max(inner_height)))
                }
                Err(fault) => Err(let_go(dims, fault)),
            }
        } else {
            Ok((dims, outer_height))
        }
    }

    // `[dim [dim]]`
    #[tactic(auto, unfolding(crate::specs::DeclRules::dimensions))]
    fn dimensions(&self, cursor: &mut Cursor<'_>) -> Result<(Items<Dimension>, usize), ReadFault>
        ensures gives { Gives (heights_view dimension_tree) (rules.within cap self.now.room rules.dimensions cursor.old) result cursor.new }
        ensures low { IfOk result (λ x. x.1 ≤ self.now.room) }
    {
        if cursor.eat(Fixed::Mark(Mark::OpenBracket)) {
            let (outer, height) = self.dimension(cursor)?;
            self.dimensions_on(cursor, outer, height)
        } else {
            Ok((Items::new(self.alloc), 0))
        }
    }

    #[tactic(auto, unfolding(crate::specs::DeclRules::declarator))]
    fn declarator(&self, cursor: &mut Cursor<'_>) -> Result<(Declarator, usize), ReadFault>
        ensures gives { Gives (height_view declarator_tree) (rules.within cap self.now.room rules.declarator cursor.old) result cursor.new }
        ensures low { IfOk result (λ x. x.1 ≤ self.now.room) }
    {
        let name = cursor.name()?;
        let (dims, dims_height) = self.dimensions(cursor)?;
        match self.initial(cursor) {
            Ok((value, value_height)) => {
                let height = dims_height.max(value_height);
                Ok((Declarator { name, dims, value }, height))
            }
            Err(fault) => Err(let_go(dims, fault)),
        }
    }

    fn declarators(&self, cursor: &mut Cursor<'_>) -> Result<(Items<Declarator>, usize), ReadFault>
        ensures gives { Gives (heights_view declarator_tree) (rules.within cap self.now.room (lists.listing rules.declarator) cursor.old) result cursor.new }
        ensures low { IfOk result (λ x. x.1 ≤ self.now.room) }
    {
        listing(self.alloc, cursor, |cursor| self.declarator(cursor))
    }

    // Behind the qualifier.
    #[tactic(auto, unfolding(crate::specs::DeclRules::property_on))]
    fn property_on(
        &self,
        cursor: &mut Cursor<'_>,
        rand: Rand,
    ) -> Result<(PropertyDecl, usize), ReadFault>
        ensures gives { Gives (height_view property_tree) (rules.within cap self.now.room (rules.property_on rand) cursor.old) result cursor.new }
        ensures low { IfOk result (λ x. x.1 ≤ self.now.room) }
    {
        let (kind, kind_height) = self.data_type(cursor)?;
        match self.declarators(cursor) {
            Ok((decls, decls_height)) => {
                let height = kind_height.max(decls_height);
                let found = (PropertyDecl { rand, kind, decls }, height);
                ended(cursor, found, Fixed::Mark(Mark::Semicolon))
            }
            Err(fault) => Err(let_go(kind, fault)),
        }
    }

    /// IEEE 1800-2017, A.1.9: `class_property`
    #[tactic(auto, unfolding(crate::specs::DeclRules::property_in))]
    pub fn property(&self, cursor: &mut Cursor<'_>) -> Result<(PropertyDecl, usize), ReadFault>
        ensures gives { Gives (height_view property_tree) (rules.within cap self.now.room rules.property_in cursor.old) result cursor.new }
        ensures low { IfOk result (λ x. x.1 ≤ self.now.room) }
    {
        if cursor.eat(Fixed::Word(Word::Rand)) {
            return self.property_on(cursor, Rand::Rand);
        }
        if cursor.eat(Fixed::Word(Word::Randc)) {
            return self.property_on(cursor, Rand::Randc);
        }
        self.property_on(cursor, Rand::State)
    }
}
