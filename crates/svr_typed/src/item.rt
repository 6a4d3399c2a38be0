// Typed constraint items (IEEE 1800-2017, 18.5).

ghost use Rattle.std.specs.Prelude.{◌≡◌, Option, Some, None, option_map};
ghost use Rattle.svr_typed.specs.ExprTerm.{expr_term, range_term, expr_terms};
ghost use Rattle.svr_typed.specs.ItemTerm as term;
ghost use Rattle.svr_typed.specs.ItemTerm.{item_term, item_terms, dist_term, dist_terms, weight_term};

use crate::expr::{TExpr, TRange};
use sqlite_items::Items;
use svr_operator::Share;

/// A member of a `dist` set. Without a weight it is `:= 1`.
#[derive(Drop)]
pub struct TDistItem {
    pub range: TRange,
    pub weight: Option<(Share, TExpr)>,
}

/// A constraint item.
#[derive(Drop)]
pub enum TItem {
    /// An expression, or with `dist` a distribution of its value (IEEE 1800-2017, 18.5.4). `soft`: 18.5.14.
    Plain {
        soft: bool,
        expr: TExpr,
        dist: Option<Items<TDistItem>>,
    },
    /// IEEE 1800-2017, 18.5.5
    Unique {
        members: Items<TExpr>,
    },
    /// IEEE 1800-2017, 18.5.6
    Implies {
        test: TExpr,
        body: Items<TItem>,
    },
    /// `if` (IEEE 1800-2017, 18.5.7)
    Branch {
        test: TExpr,
        yes: Items<TItem>,
        no: Option<Items<TItem>>,
    },
    /// IEEE 1800-2017, 18.5.8.1. `inner` is the second dimension of the array, 1 where it has one; `names`, 1 or 2, is the number of loop variables, of which the second is the inner loop's.
    Foreach {
        array: u32,
        inner: u32,
        names: u8,
        body: Items<TItem>,
    },
    /// `disable soft` (IEEE 1800-2017, 18.5.14.2)
    Disable {
        target: TExpr,
    },
    /// `solve .. before ..` (IEEE 1800-2017, 18.5.10)
    Solve {
        first: Items<TExpr>,
        later: Items<TExpr>,
    },
}

impl TDistItem {
    /// A member and its weight.
    pub fn new(range: TRange, weight: Option<(Share, TExpr)>) -> TDistItem
        ensures { dist_term result ≡ record { range = range_term range; weight = option_map weight_term weight } }
    {
        TDistItem { range, weight }
    }
}

impl TItem {
    /// An expression, or the distribution of its value.
    pub fn plain(soft: bool, expr: TExpr, dist: Option<Items<TDistItem>>) -> TItem
        ensures { item_term result ≡ term.plain soft (expr_term expr) (option_map dist_terms dist) }
    {
        TItem::Plain { soft, expr, dist }
    }

    /// Members no two of which are equal.
    pub fn unique(members: Items<TExpr>) -> TItem
        ensures { item_term result ≡ term.unique (expr_terms members) }
    {
        TItem::Unique { members }
    }

    /// A set under a test.
    pub fn implies(test: TExpr, body: Items<TItem>) -> TItem
        ensures { item_term result ≡ term.implies (expr_term test) (item_terms body) }
    {
        TItem::Implies { test, body }
    }

    /// `if` without `else`.
    pub fn branch(test: TExpr, yes: Items<TItem>) -> TItem
        ensures { item_term result ≡ term.branch (expr_term test) (item_terms yes) term.no_else }
    {
        TItem::Branch {
            test,
            yes,
            no: None,
        }
    }

    /// `if` with `else`.
    pub fn branch_else(test: TExpr, yes: Items<TItem>, no: Items<TItem>) -> TItem
        ensures { item_term result ≡ term.branch (expr_term test) (item_terms yes) (term.else_items (item_terms no)) }
    {
        TItem::Branch {
            test,
            yes,
            no: Some(no),
        }
    }

    /// A set for each index of an array, or with two names for each pair of indexes.
    pub fn foreach(array: u32, inner: u32, names: u8, body: Items<TItem>) -> TItem
        ensures { item_term result ≡ term.foreach array inner names (item_terms body) }
    {
        TItem::Foreach {
            array,
            inner,
            names,
            body,
        }
    }

    /// `disable soft`
    pub fn disable(target: TExpr) -> TItem
        ensures { item_term result ≡ term.disable (expr_term target) }
    {
        TItem::Disable { target }
    }

    /// The first are solved before the later.
    pub fn solve(first: Items<TExpr>, later: Items<TExpr>) -> TItem
        ensures { item_term result ≡ term.solve (expr_terms first) (expr_terms later) }
    {
        TItem::Solve { first, later }
    }
}
