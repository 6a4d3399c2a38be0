// Constraint items (IEEE 1800-2017, A.1.10).

ghost use Rattle.std.specs.Prelude.{◌≡◌, option_map};
ghost use Rattle.svr_tree.specs.ExprTree.{expr_tree, range_tree, expr_trees};
ghost use Rattle.svr_tree.specs.ItemTree as tree;
ghost use Rattle.svr_tree.specs.ItemTree.{item_tree, set_tree, item_trees, dist_tree, dist_item_tree, dist_item_trees, weight_tree};

use crate::expr::{Expr, Range};
use sqlite_items::Items;
use svr_operator::Share;

/// A member of a `dist` set, with `:=` or `:/` and a weight where one is written.
#[derive(Drop)]
pub struct DistItem {
    pub range: Range,
    pub weight: Option<(Share, Expr)>,
}

/// `dist { items }` (IEEE 1800-2017, 18.5.4). `at` is the token `dist`.
#[derive(Drop)]
pub struct Dist {
    pub at: u32,
    pub items: Items<DistItem>,
}

/// A constraint item.
#[cycle(item)]
#[derive(Drop)]
pub enum Item {
    /// `[soft] expr [dist];`
    Plain {
        at: u32,
        soft: bool,
        expr: Expr,
        dist: Option<Dist>,
    },
    /// `unique { members };`
    Unique {
        at: u32,
        members: Items<Expr>,
    },
    /// `test -> body`
    Implies {
        at: u32,
        test: Expr,
        body: Set,
    },
    /// `if (test) yes [else no]`
    Branch {
        at: u32,
        test: Expr,
        yes: Set,
        no: Option<Set>,
    },
    /// `foreach (array[vars]) body`, with a loop variable for each of one or two dimensions (IEEE 1800-2017, 12.7.3)
    Foreach {
        at: u32,
        array: Expr,
        vars: Items<u32>,
        body: Set,
    },
    /// `disable soft target;`
    Disable {
        at: u32,
        target: Expr,
    },
    /// `solve first before later;`
    Solve {
        at: u32,
        first: Items<Expr>,
        later: Items<Expr>,
    },
}

/// A constraint set: one item, or items in braces.
#[cycle(item)]
#[derive(Drop)]
pub struct Set {
    pub braces: bool,
    pub items: Items<Item>,
}

impl DistItem {
    /// A value or range of a distribution, with its weight where one is written.
    pub fn new(range: Range, weight: Option<(Share, Expr)>) -> DistItem
        ensures { dist_item_tree result ≡ record { range = range_tree range; weight = option_map weight_tree weight } }
    {
        DistItem { range, weight }
    }
}

impl Dist {
    /// A distribution, at its `dist` (18.5.4).
    pub fn new(at: u32, items: Items<DistItem>) -> Dist
        ensures { dist_tree result ≡ record { at = at; items = dist_item_trees items } }
    {
        Dist { at, items }
    }
}

impl Item {
    /// An expression that has to hold, `soft` or not, with its distribution where there is one (18.5.3, 18.5.4, 18.5.14).
    pub fn plain(at: u32, soft: bool, expr: Expr, dist: Option<Dist>) -> Item
        ensures { item_tree result ≡ tree.plain at soft (expr_tree expr) (option_map dist_tree dist) }
    {
        Item::Plain {
            at,
            soft,
            expr,
            dist,
        }
    }

    /// Members that are pairwise different (18.5.5).
    pub fn unique(at: u32, members: Items<Expr>) -> Item
        ensures { item_tree result ≡ tree.unique at (expr_trees members) }
    {
        Item::Unique { at, members }
    }

    /// An implication (18.5.6).
    pub fn implies(at: u32, test: Expr, body: Set) -> Item
        ensures { item_tree result ≡ tree.implies at (expr_tree test) (set_tree body) }
    {
        Item::Implies { at, test, body }
    }

    /// `if` without `else` (18.5.7).
    pub fn branch(at: u32, test: Expr, yes: Set) -> Item
        ensures { item_tree result ≡ tree.branch at (expr_tree test) (set_tree yes) tree.no_else }
    {
        Item::Branch {
            at,
            test,
            yes,
            no: None,
        }
    }

    /// `if` with `else` (18.5.7).
    pub fn branch_else(at: u32, test: Expr, yes: Set, no: Set) -> Item
        ensures { item_tree result ≡ tree.branch at (expr_tree test) (set_tree yes) (tree.else_set (set_tree no)) }
    {
        Item::Branch {
            at,
            test,
            yes,
            no: Some(no),
        }
    }

    /// A set for each element of an array (18.5.8).
    pub fn foreach(at: u32, array: Expr, vars: Items<u32>, body: Set) -> Item
        ensures { item_tree result ≡ tree.foreach at (expr_tree array) vars (set_tree body) }
    {
        Item::Foreach {
            at,
            array,
            vars,
            body,
        }
    }

    /// `disable soft` (18.5.14.2).
    pub fn disable(at: u32, target: Expr) -> Item
        ensures { item_tree result ≡ tree.disable at (expr_tree target) }
    {
        Item::Disable { at, target }
    }

    /// `solve .. before` (18.5.10).
    pub fn solve(at: u32, first: Items<Expr>, later: Items<Expr>) -> Item
        ensures { item_tree result ≡ tree.solve at (expr_trees first) (expr_trees later) }
    {
        Item::Solve { at, first, later }
    }
}

impl Set {
    /// Items, in braces or alone.
    pub fn new(braces: bool, items: Items<Item>) -> Set
        ensures { set_tree result ≡ tree.set braces (item_trees items) }
    {
        Set { braces, items }
    }
}
