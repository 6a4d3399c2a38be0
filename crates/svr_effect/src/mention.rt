// The properties and script variables that expressions name.

ghost use Rattle.std.specs.Prelude.{◌≡◌, nat_eq, IfOk};
ghost use Rattle.indexmap.specs.IndexSet.{insert_key};
ghost use Rattle.svr_typed.specs.ExprTerm.{expr_term, expr_terms, range_term, range_terms, bound_term};
ghost use Rattle.svr_effect.specs.Mentions as spec;
ghost use Rattle.svr_effect.specs.Named.{mentioned};

use indexmap::IndexSet;
use std::alloc::Global;
use svr_typed::{NoMemory, TBound, TExpr, TNode, TRange};

/// Places of properties among those of all objects, and numbers of script variables, each once.
#[derive(Drop)]
pub(crate) struct Names {
    pub(crate) props: IndexSet<u32>,
    pub(crate) vars: IndexSet<u32>,
}

impl Names {
    pub(crate) fn new(alloc: Global) -> Names
        ensures { mentioned result ≡ spec.nothing }
    {
        Names {
            props: IndexSet::new(alloc),
            vars: IndexSet::new(alloc),
        }
    }
}

/// These numbers with one more, unless it is there.
fn with_number(numbers: IndexSet<u32>, number: u32) -> Result<IndexSet<u32>, NoMemory>
    ensures { IfOk result (λ s. s.keys ≡ insert_key nat_eq numbers.keys number) }
{
    let mut numbers = numbers;
    match numbers.insert(number) {
        Ok(_) => Ok(numbers),
        Err(_) => Err(NoMemory),
    }
}

fn and_prop(names: Names, prop: u32) -> Result<Names, NoMemory>
    ensures { IfOk result (λ n. mentioned n ≡ spec.and_prop (mentioned names) prop) }
{
    let Names { props, vars } = names;
    let props = with_number(props, prop)?;
    Ok(Names { props, vars })
}

fn and_var(names: Names, variable: u32) -> Result<Names, NoMemory>
    ensures { IfOk result (λ n. mentioned n ≡ spec.and_var (mentioned names) variable) }
{
    let Names { props, vars } = names;
    let vars = with_number(vars, variable)?;
    Ok(Names { props, vars })
}

/// With what an expression names.
#[cycle(mention)]
pub(crate) fn mention(e: &TExpr, names: Names) -> Result<Names, NoMemory>
    ensures { IfOk result (λ n. mentioned n ≡ spec.mentions (mentioned names) (expr_term e.now)) }
{
    match &e.node {
        TNode::Number { .. } | TNode::Loop(_) => Ok(names),
        TNode::Prop(prop) => and_prop(names, *prop),
        TNode::Element(prop, index) => mention(index.get(), and_prop(names, *prop)?),
        TNode::Cell(prop, _, first, second) => {
            mention(second.get(), mention(first.get(), and_prop(names, *prop)?)?)
        }
        TNode::Size(prop, _) => and_prop(names, *prop),
        TNode::Reduce(prop, _, body) => mention(body.get(), and_prop(names, *prop)?),
        TNode::Script(variable) => and_var(names, *variable),
        TNode::Of(_, part) => mention(part.get(), names),
        TNode::Select {
            base,
            first,
            last,
            ..
        } => {
            let front = mention(first.get(), mention(base.get(), names)?)?;
            match last {
                None => Ok(front),
                Some(last) => mention(last.get(), front),
            }
        }
        TNode::Unary { arg, .. } => mention(arg.get(), names),
        TNode::Binary { left, right, .. } => mention(right.get(), mention(left.get(), names)?),
        TNode::Choice { test, yes, no } => {
            mention(no.get(), mention(yes.get(), mention(test.get(), names)?)?)
        }
        TNode::Inside { left, set } => mention(left.get(), mention_ranges(set.as_slice(), names)?),
        TNode::Join { parts } => mention_all(parts.as_slice(), names),
        TNode::Copies { count, parts } => {
            mention(count.get(), mention_all(parts.as_slice(), names)?)
        }
        TNode::Sign { arg, .. } => mention(arg.get(), names),
    }
}

#[cycle(mention)]
fn mention_all(parts: &[TExpr], names: Names) -> Result<Names, NoMemory>
    ensures { IfOk result (λ n. mentioned n ≡ spec.all_mention (mentioned names) (expr_terms parts.now)) }
{
    let mut names = names;
    for part in parts {
        names = mention(part, names)?;
    }
    Ok(names)
}

#[cycle(mention)]
fn mention_ranges(set: &[TRange], names: Names) -> Result<Names, NoMemory>
    ensures { IfOk result (λ n. mentioned n ≡ spec.ranges_mention (mentioned names) (range_terms set.now)) }
{
    let mut names = names;
    for range in set {
        names = mention_range(range, names)?;
    }
    Ok(names)
}

#[cycle(mention)]
fn mention_range(range: &TRange, names: Names) -> Result<Names, NoMemory>
    ensures { IfOk result (λ n. mentioned n ≡ spec.range_mentions (mentioned names) (range_term range.now)) }
{
    match range {
        TRange::One(e) => mention(e, names),
        TRange::Span(low, high) => mention_bound(high, mention_bound(low, names)?),
    }
}

#[cycle(mention)]
fn mention_bound(bound: &TBound, names: Names) -> Result<Names, NoMemory>
    ensures { IfOk result (λ n. mentioned n ≡ spec.bound_mentions (mentioned names) (bound_term bound.now)) }
{
    match bound {
        TBound::Value(e) => mention(e, names),
        TBound::Dollar => Ok(names),
    }
}
