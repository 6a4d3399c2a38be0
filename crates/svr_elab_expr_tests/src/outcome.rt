// What elaboration says of a text.

ghost use Rattle.std.specs.Prelude.{◌≡◌, ◌≤◌, map};
ghost use Rattle.std.specs.List.{All};
ghost use Rattle.svr_token.specs.declared.Lexeme.{Lexeme as LexemeType};
ghost use Rattle.svr_token.specs.Tokens.{IsTokenOf};
ghost use Rattle.svr_elab_names.specs.Names.{GlobalName};
ghost use Rattle.svr_elab_names.specs.Tables.{global_of};
ghost use Rattle.svr_elab_part.specs.Fits.{Each, GlobalFits};

use crate::places::{members, properties, variables};
use crate::reading::read;
use indexmap::{IndexMap, IndexSet};
use std::alloc::{AllocError, Global};
use std::rc::Rc;
use svr_elab_expr::value;
use svr_elab_names::{ClassNames, Global as Stands, NameSpace, PropEntry, Region, VarStand};
use svr_elab_part::{Part, Shape};
use svr_lex::lex;
use svr_token::{Names, Token};
use svr_typed::NoMemory;

/// A first refusal, by its number and token, or the size and sign of what is accepted.
#[derive(Clone, Copy, PartialEq, Eq)]
pub enum Outcome {
    Refused(u8, u32),
    Unsigned(u8),
    Signed(u8),
    /// No expression, or one of no known size.
    Nothing,
}

/// Lets go what was held, in the place of a function that knows what it is.
fn let_go<T: Drop>(_held: T) {}

/// What is known of something.
trait Known {
    /// Its refusal, or its size and sign.
    fn tell(&self) -> Outcome;
}

impl Known for Part {
    fn tell(&self) -> Outcome {
        match (self.fault, self.shape) {
            (Some(fault), _) => Outcome::Refused(fault.refusal.number(), fault.token),
            (None, None) => Outcome::Nothing,
            (None, Some(Shape { width, signed })) => if signed {
                Outcome::Signed(width)
            } else {
                Outcome::Unsigned(width)
            },
        }
    }
}

/// What is said of what was found. It is let go here, whatever it is, so that no other function has to.
fn outcome_of<T: Known + Drop>(found: Result<T, NoMemory>) -> Outcome {
    match &found {
        Ok(part) => part.tell(),
        Err(_) => Outcome::Nothing,
    }
}

/// What can be named where a text stands, but enum members, of which there is one.
#[derive(Drop)]
struct Place<'a> {
    region: Region,
    classes: Vec<ClassNames<'a>>,
    props: IndexMap<&'a [u8], PropEntry>,
    vars: IndexMap<&'a [u8], VarStand>,
    made: IndexSet<u32>,
}

// ---- places

/// A constraint block of the class.
fn block_place<'a>(alloc: Global) -> Result<Place<'a>, AllocError> {
    let props = properties(alloc)?;
    Ok(Place {
        region: Region::Block,
        classes: Vec::new(alloc),
        props,
        vars: IndexMap::new(alloc),
        made: IndexSet::new(alloc),
    })
}

/// A set that stands behind a call.
fn set_place<'a>(alloc: Global) -> Result<Place<'a>, AllocError> {
    let props = properties(alloc)?;
    let vars = variables(alloc)?;
    Ok(Place {
        region: Region::InLine,
        classes: Vec::new(alloc),
        props,
        vars,
        made: IndexSet::new(alloc),
    })
}

/// The class alone, with its properties.
fn class<'a>(alloc: Global) -> Result<Vec<ClassNames<'a>>, AllocError> {
    let props = properties(alloc)?;
    let mut classes = Vec::new(alloc);
    classes.push(ClassNames {
        name: b"c",
        base: None,
        props: Rc::new(alloc, props)?,
        inherited: 0,
        blocks: IndexSet::new(alloc),
    })?;
    Ok(classes)
}

/// The first variable has an object.
fn first_made(alloc: Global) -> Result<IndexSet<u32>, AllocError> {
    let mut made = IndexSet::new(alloc);
    made.insert(0u32)?;
    Ok(made)
}

/// A statement, where `p` has an object and `q` has none.
fn statement_place<'a>(alloc: Global) -> Result<Place<'a>, AllocError> {
    let classes = class(alloc)?;
    let vars = variables(alloc)?;
    let made = first_made(alloc)?;
    Ok(Place {
        region: Region::Statement,
        classes,
        props: IndexMap::new(alloc),
        vars,
        made,
    })
}

/// Where a text stands.
#[derive(Clone, Copy)]
enum Site {
    Block,
    Set,
    Statement,
}

fn place_of<'a>(alloc: Global, site: Site) -> Result<Place<'a>, AllocError> {
    match site {
        Site::Block => block_place(alloc),
        Site::Set => set_place(alloc),
        Site::Statement => statement_place(alloc),
    }
}

// ---- texts

fn said<'s, 'a>(
    alloc: Global,
    text: &'a [u8],
    tokens: &'a [Token],
    globals: &'s IndexMap<&'a [u8], Stands>,
    later: &'s IndexSet<&'a [u8]>,
    place: &'s Place<'a>,
) -> Outcome
    requires spelled { All (λ t. (l : LexemeType) × IsTokenOf text.now t l) tokens.now }
    requires members { Each (λ (g : GlobalName). GlobalFits g.stands) (map global_of globals.now.entries) }
{
    if place.vars.len() > 10 {
        return Outcome::Nothing;
    }
    let names = NameSpace {
        names: Names { text, tokens },
        region: place.region,
        globals,
        classes: place.classes.as_slice(),
        props: &place.props,
        later,
        loops: &[],
        vars: &place.vars,
        made: &place.made,
    };
    let tree = read(alloc, text, tokens);
    let outcome = match &tree {
        Ok(tree) => outcome_of(value(alloc, tree, &names)),
        Err(_) => Outcome::Nothing,
    };
    let_go(tree);
    outcome
}

fn at_place<'a>(alloc: Global, text: &'a [u8], tokens: &'a [Token], place: &Place<'a>) -> Outcome
    requires { All (λ t. (l : LexemeType) × IsTokenOf text.now t l) tokens.now }
{
    let globals = members(alloc);
    let later = IndexSet::new(alloc);
    let outcome = match &globals {
        Ok(globals) => said(alloc, text, tokens, globals, &later, place),
        Err(_) => Outcome::Nothing,
    };
    let_go((globals, later));
    outcome
}

/// What is said of a text, which has these tokens. The place is made behind them, since its names live as long.
fn among<'a>(alloc: Global, text: &'a [u8], tokens: &'a [Token], site: Site) -> Outcome
    requires { All (λ t. (l : LexemeType) × IsTokenOf text.now t l) tokens.now }
{
    let place = place_of(alloc, site);
    let outcome = match &place {
        Ok(place) => at_place(alloc, text, tokens, place),
        Err(_) => Outcome::Nothing,
    };
    let_go(place);
    outcome
}

fn told(alloc: Global, text: &[u8], site: Site) -> Outcome {
    if text.len() > 1000 {
        return Outcome::Nothing;
    }
    match lex(alloc, text) {
        Ok(tokens) => among(alloc, text, &tokens, site),
        Err(_) => Outcome::Nothing,
    }
}

/// What elaboration says of a text in a constraint block of the class.
pub fn in_block(alloc: Global, text: &[u8]) -> Outcome {
    told(alloc, text, Site::Block)
}

/// What elaboration says of a text in a set that stands behind a call.
pub fn in_set(alloc: Global, text: &[u8]) -> Outcome {
    told(alloc, text, Site::Set)
}

/// What elaboration says of a text in a statement, where `p` has an object and `q` has none.
pub fn in_statement(alloc: Global, text: &[u8]) -> Outcome {
    told(alloc, text, Site::Statement)
}
