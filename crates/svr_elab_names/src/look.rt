// Looking names up.

ghost use Rattle.std.specs.Prelude.{◌≡◌, ◌==◌, ◌<◌, ◌^◌, length, option_map, map, Some, None};
ghost use Rattle.std.specs.List.{list_any};
ghost use Rattle.svr_elab_names.specs.Names as spec;
ghost use Rattle.svr_elab_names.specs.Tables.{space_of, global_of, prop_of, var_of, loop_of, class_of, bytes_of};
ghost use Rattle.svr_tree.specs.declared.Scope.TheVariants as scope;
ghost use Rattle.svr_token.specs.Names.{names_of};

use crate::meaning::{Found, Meaning, Property};
use crate::space::{ClassNames, Global, LoopName, NameSpace, PropEntry, Region, VarStand};
use indexmap::{IndexMap, IndexSet};
use svr_operator::Fold;
use svr_token::Names;
use svr_tree::Scope;

/// The property of this name.
#[tactic(auto, using(crate::proofs::Entries::prop_found))]
fn property_named(props: &IndexMap<&[u8], PropEntry>, name: &[u8]) -> Option<Property>
    ensures { result ≡ spec.property_named (map prop_of props.now.entries) name.now }
{
    match props.get(name) {
        None => None,
        Some(entry) => Some(entry.property),
    }
}

/// What a global name stands for.
#[tactic(auto, using(crate::proofs::Entries::global_found))]
fn global_named(globals: &IndexMap<&[u8], Global>, name: &[u8]) -> Option<Global>
    ensures { result ≡ spec.global_named (map global_of globals.now.entries) name.now }
{
    match globals.get(name) {
        None => None,
        Some(stands) => Some(*stands),
    }
}

#[tactic(auto, using(crate::proofs::Entries::is_among))]
fn is_among(names: &IndexSet<&[u8]>, name: &[u8]) -> bool
    ensures { result ≡ list_any (spec.is_same name.now) (map bytes_of names.now.keys) }
{
    names.contains(name)
}

impl VarStand {
    /// What a variable of this number stands for.
    fn meaning(self, number: u32) -> Meaning
        ensures { result ≡ spec.stand_meaning number self }
    {
        match self {
            VarStand::OfNumber(kind) => Meaning::VariableOf { number, kind },
            VarStand::OfObject(class) => Meaning::ObjectOf { number, class },
        }
    }
}

/// What a variable stands for. Variables are numbered in order.
#[tactic(auto, using(crate::proofs::Entries::var_found))]
fn variable_named(vars: &IndexMap<&[u8], VarStand>, name: &[u8]) -> Option<Meaning>
    requires { length vars.now.entries < 2 ^ 32 }
    ensures { result ≡ spec.variable_named (map var_of vars.now.entries) name.now }
{
    match vars.get_full(name) {
        None => None,
        Some((number, _, stands)) => Some(stands.meaning(number as u32)),
    }
}

impl LoopName<'_> {
    fn meaning(&self, level: u32) -> Meaning
        ensures { result ≡ spec.loop_meaning level self.now.item }
    {
        match self.item {
            None => Meaning::LoopOf { level },
            Some(property) => Meaning::ItemOf { level, property },
        }
    }
}

/// What the innermost loop of this name stands for.
fn loop_named(loops: &[LoopName<'_>], name: &[u8]) -> Option<Meaning>
    requires { length loops.now < 2 ^ 32 }
    ensures { result ≡ spec.loop_named (map loop_of loops.now) name.now }
{
    let mut level = 0u32;
    for entry in loops {
        if name == entry.name {
            return Some(entry.meaning(level));
        }
        level += 1;
    }
    None
}

impl Region {
    /// Whether names stand in a statement, outside of any constraint.
    pub fn is_statement(self) -> bool
        ensures { result ≡ spec.is_statement self }
    {
        match self {
            Region::Statement => true,
            Region::Declaration | Region::Block | Region::InLine => false,
        }
    }

    /// Whether names stand in an in-line set of a call (18.7).
    pub fn is_in_line(self) -> bool
        ensures { result ≡ spec.is_in_line self }
    {
        match self {
            Region::InLine => true,
            Region::Declaration | Region::Block | Region::Statement => false,
        }
    }
}

/// The array reduction method of this name (IEEE 1800-2017, 7.12.3).
fn fold_named(name: &[u8]) -> Option<Fold>
    ensures { result ≡ spec.fold_named name.now }
{
    if name == b"sum".as_slice() {
        Some(Fold::Sum)
    } else if name == b"product".as_slice() {
        Some(Fold::Product)
    } else if name == b"and".as_slice() {
        Some(Fold::And)
    } else if name == b"or".as_slice() {
        Some(Fold::Or)
    } else if name == b"xor".as_slice() {
        Some(Fold::Xor)
    } else {
        None
    }
}

/// What a word behind a property stands for: the size of an array, or its reduction over its elements.
fn method(
    names: &Names<'_>,
    property: Property,
    object: Option<u32>,
    array: u32,
    name: u32,
) -> Meaning
    ensures { result ≡ spec.method (names_of names.now) property object array name }
{
    if !property.dims.is_array() {
        return Meaning::Wrong { name };
    }
    let word = names.name(name);
    if word == b"size".as_slice() {
        return Meaning::SizeOf { property, object };
    }
    match fold_named(word) {
        None => Meaning::Wrong { name },
        Some(fold) => Meaning::FoldOf {
            property,
            object,
            fold,
            array,
        },
    }
}

/// What one more name makes of a path whose last name so far is `last`.
fn behind(names: &Names<'_>, meaning: Meaning, last: u32, name: u32) -> Meaning
    ensures { result ≡ spec.behind (names_of names.now) meaning last name }
{
    match meaning {
        Meaning::PropertyOf { property, object } => method(names, property, object, last, name),
        Meaning::Wrong { name } => Meaning::Wrong { name },
        Meaning::LoopOf { .. }
        | Meaning::ItemOf { .. }
        | Meaning::MemberOf { .. }
        | Meaning::SizeOf { .. }
        | Meaning::FoldOf { .. }
        | Meaning::VariableOf { .. }
        | Meaning::ObjectOf { .. } => Meaning::Wrong { name },
    }
}

/// What the further names make of a path.
fn and_more(names: &Names<'_>, start: Meaning, first: u32, rest: &[u32]) -> Meaning
    ensures { result ≡ spec.and_more (names_of names.now) start first rest.now }
{
    let mut meaning = start;
    let mut last = first;
    for name in rest {
        meaning = behind(names, meaning, last, *name);
        last = *name;
    }
    meaning
}

/// A property of a class by the number of the class and its name.
fn class_property(classes: &[ClassNames<'_>], class: u32, name: &[u8]) -> Option<Property>
    ensures { result ≡ spec.property_named (spec.class_props (map class_of classes.now) class) name.now }
{
    match classes.get(class as usize) {
        None => None,
        Some(class) => property_named(class.props.as_ref(), name),
    }
}

fn property_of_object(object: u32, property: Option<Property>, name: u32) -> Meaning
    ensures { result ≡ spec.property_of_object object property name }
{
    match property {
        None => Meaning::Wrong { name },
        Some(property) => Meaning::PropertyOf {
            property,
            object: Some(object),
        },
    }
}

impl NameSpace<'_, '_> {
    fn as_property(&self, name: &[u8]) -> Option<Meaning>
        ensures { result ≡ spec.as_property (space_of self.now) name.now }
    {
        if let Some(property) = property_named(self.props, name) {
            return Some(Meaning::PropertyOf {
                property,
                object: None,
            });
        }
        if is_among(self.later, name) {
            Some(Meaning::PropertyOf {
                property: Property::unknown(),
                object: None,
            })
        } else {
            None
        }
    }

    fn as_variable(&self, name: &[u8]) -> Option<Meaning>
        requires { length self.now.vars.now.entries < 2 ^ 32 }
        ensures { result ≡ spec.as_variable (space_of self.now) name.now }
    {
        variable_named(self.vars, name)
    }

    fn as_member(&self, name: &[u8]) -> Option<Meaning>
        ensures { result ≡ spec.as_member (space_of self.now) name.now }
    {
        match global_named(self.globals, name) {
            Some(Global::OfMember(value, kind)) => Some(Meaning::MemberOf { value, kind }),
            Some(Global::OfType(_)) | Some(Global::OfClass(_)) | None => None,
        }
    }

    /// A name behind `local::`, which passes over loops and properties.
    fn local_meaning(&self, name: &[u8]) -> Option<Meaning>
        requires { length self.now.vars.now.entries < 2 ^ 32 }
        ensures { result ≡ spec.first_meaning (space_of self.now) scope.Local name.now }
    {
        if self.region.is_statement() || self.region.is_in_line() {
            if let Some(meaning) = self.as_variable(name) {
                return Some(meaning);
            }
        }
        self.as_member(name)
    }

    fn plain_meaning(&self, name: &[u8]) -> Option<Meaning>
        requires vars { length self.now.vars.now.entries < 2 ^ 32 }
        requires loops { length self.now.loops.now < 2 ^ 32 }
        ensures { result ≡ spec.first_meaning (space_of self.now) scope.Plain name.now }
    {
        if let Some(meaning) = loop_named(self.loops, name) {
            return Some(meaning);
        }
        if let Some(meaning) = self.as_property(name) {
            return Some(meaning);
        }
        if self.region.is_statement() {
            if let Some(meaning) = self.as_variable(name) {
                return Some(meaning);
            }
        }
        if let Some(meaning) = self.as_member(name) {
            return Some(meaning);
        }
        if self.region.is_in_line() {
            self.as_variable(name)
        } else {
            None
        }
    }

    fn first_meaning(&self, place: Scope, name: &[u8]) -> Option<Meaning>
        requires vars { length self.now.vars.now.entries < 2 ^ 32 }
        requires loops { length self.now.loops.now < 2 ^ 32 }
        ensures { result ≡ spec.first_meaning (space_of self.now) place name.now }
    {
        match place {
            Scope::This => self.as_property(name),
            Scope::Local => self.local_meaning(name),
            Scope::Plain => self.plain_meaning(name),
        }
    }

    /// An object variable stands alone or before a property, and in statements only.
    fn object_path(&self, first: u32, object: u32, class: u32, rest: &[u32]) -> Found
        ensures { result ≡ spec.object_path (space_of self.now) first object class rest.now }
    {
        if !self.region.is_statement() {
            return Found {
                meaning: Meaning::Wrong { name: first },
                unmade: None,
            };
        }
        let Some(name) = rest.first() else {
            return Found {
                meaning: Meaning::ObjectOf {
                    number: object,
                    class,
                },
                unmade: None,
            };
        };
        let property = class_property(self.classes, class, self.names.name(*name));
        let start = property_of_object(object, property, *name);
        let unmade = if self.made.contains(&object) {
            None
        } else {
            Some(first)
        };
        Found {
            meaning: and_more(&self.names, start, *name, &rest[1..]),
            unmade,
        }
    }

    /// What a path stands for: the first name by the scope and the region, the others behind it (IEEE 1800-2017, 18.7.1, 8.11 and 23.9).
    pub fn look(&self, place: Scope, path: &[u32]) -> Found
        requires vars { length self.now.vars.now.entries < 2 ^ 32 }
        requires loops { length self.now.loops.now < 2 ^ 32 }
        ensures { result ≡ spec.look (space_of self.now) place path.now }
    {
        let Some(first) = path.first() else {
            return Found {
                meaning: Meaning::Wrong { name: 0 },
                unmade: None,
            };
        };
        let rest = &path[1..];
        match self.first_meaning(place, self.names.name(*first)) {
            None => Found {
                meaning: Meaning::Wrong { name: *first },
                unmade: None,
            },
            Some(Meaning::ObjectOf { number, class }) => {
                self.object_path(*first, number, class, rest)
            }
            Some(meaning) => Found {
                meaning: and_more(&self.names, meaning, *first, rest),
                unmade: None,
            },
        }
    }
}
