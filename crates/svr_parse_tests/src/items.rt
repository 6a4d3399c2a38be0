// Items: the tree of one item, heights and faults of the items of a block and of a set.

use crate::text::{Told, is_told, spelled};
use crate::wanted::Wanted;
use sqlite_items::Items;
use std::alloc::Global;
use svr_item::{block_item, block_items, item, set_items};
use svr_operator::Share;
use svr_reader::Cursor;
use svr_tree::{Dist, Expr, Item, Set};

type Row = (&'static [u8], usize, &'static [u8]);

// what stands behind the opening brace of a block, room, and the height with the number of tokens left, or the fault
const BLOCKS: &[Row] = &[
    (b"}", 0, b"high 0, left 0"),
    (b"", 9, b"unexpected 0"),
    (b"; }", 0, b"unexpected 2"),
    (b"n; }", 0, b"deep 3"),
    (b"solve n", 0, b"deep 2"),
    (b"n; }", 1, b"deep 3"),
    (b"n; } n", 2, b"high 2, left 1"),
    (b"n;", 2, b"unexpected 0"),
    (b"solve n before n; n <-> n; }", 3, b"high 3, left 0"),
    (b"solve n, n before n; }", 2, b"high 2, left 0"),
    (b"solve n before n; }", 1, b"deep 6"),
    (b"solve n; }", 2, b"unexpected 2"),
    (b"if (n) solve n", 9, b"unexpected 2"),
    (b"else n; }", 9, b"unexpected 4"),
];

// the same of a set: items that begin with an expression
const STATED: &[Row] = &[
    (b"solve n before n", 9, b"unexpected 4"),
    (b"n -> { } }", 2, b"high 2, left 0"),
    (b"n -> n; }", 3, b"high 3, left 0"),
    (b"n -> n; }", 2, b"deep 3"),
    (b"n -> { n; n; } }", 3, b"high 3, left 0"),
    (b"n -> { n }; }", 9, b"unexpected 3"),
    (b"n -> n -> n; }", 4, b"high 4, left 0"),
    (b"n <-> n; }", 3, b"high 3, left 0"),
    (b"n <-> n; }", 2, b"deep 4"),
    (b"n <-> n dist {", 9, b"unexpected 2"),
    (b"n dist { n := n, n }; }", 2, b"high 2, left 0"),
    (b"n dist { [n : $] :/ 2 }; }", 2, b"high 2, left 0"),
    (b"n dist { }", 9, b"unexpected 1"),
    (b"soft n -> n dist { n }; }", 3, b"high 3, left 0"),
    (b"soft n; }", 1, b"deep 4"),
];

// and those that a word leads
const LED: &[Row] = &[
    (b"if (n) if (n) n; else n; }", 4, b"high 4, left 0"),
    (b"if (n) if (n) n; }", 3, b"deep 3"),
    (b"if (n) n; else { } else }", 9, b"unexpected 2"),
    (b"foreach (n[n]) n; }", 3, b"high 3, left 0"),
    (b"foreach (n[2]", 9, b"unexpected 2"),
    (b"foreach (n[n, n]) n; }", 3, b"high 3, left 0"),
    (b"foreach (n[n, n]) n; }", 2, b"deep 3"),
    (b"foreach (n[n, n, n]) n; }", 9, b"unexpected 7"),
    (b"foreach (n[n, ]) n; }", 9, b"unexpected 5"),
    (b"foreach (n[]) n; }", 9, b"unexpected 5"),
    (b"unique { n, n[n] }; }", 3, b"high 3, left 0"),
    (b"unique { n, n[n] }; }", 2, b"deep 6"),
    (b"unique { }; }", 9, b"unexpected 3"),
    (b"disable soft n; }", 2, b"high 2, left 0"),
    (b"disable n; }", 9, b"unexpected 3"),
    (b"disable soft n; }", 1, b"deep 5"),
];

// items by their height and the number of tokens left
impl Told for Items<Item> {
    fn told(&self, wanted: Wanted, height: usize, left: usize) -> Wanted {
        wanted
            .then_number(b"high ", height)
            .then_number(b", left ", left)
    }
}

fn is_block(alloc: Global, text: &[u8], room: usize, wanted: &'static [u8]) -> bool {
    let lexemes = spelled(alloc, text);
    let mut cursor = Cursor::new(&lexemes);
    let found = block_items(alloc, &mut cursor, room);
    is_told(found, cursor.left(), wanted)
}

fn is_set(alloc: Global, text: &[u8], room: usize, wanted: &'static [u8]) -> bool {
    let lexemes = spelled(alloc, text);
    let mut cursor = Cursor::new(&lexemes);
    let found = set_items(alloc, &mut cursor, room);
    is_told(found, cursor.left(), wanted)
}

#[test]
fn items_of_blocks(rt: HostRuntime) {
    for (text, room, wanted) in BLOCKS {
        assert!(rt; is_block(rt.alloc(), text, *room, wanted));
    }
}

#[test]
fn items_of_sets(rt: HostRuntime) {
    for (text, room, wanted) in STATED {
        assert!(rt; is_set(rt.alloc(), text, *room, wanted));
    }
    for (text, room, wanted) in LED {
        assert!(rt; is_set(rt.alloc(), text, *room, wanted));
    }
}

// ---- trees

// the item of a set, if it stands alone
fn single(set: &Set) -> Option<&Item> {
    match set.items.as_slice() {
        [item] => Some(item),
        _ => None,
    }
}

// the set of items that an item is about
fn body(item: &Item) -> Option<&Set> {
    match item {
        Item::Implies { body, .. } => Some(body),
        Item::Branch { yes, .. } => Some(yes),
        Item::Foreach { body, .. } => Some(body),
        Item::Plain { .. } | Item::Unique { .. } | Item::Disable { .. } | Item::Solve { .. } =>
            None,
    }
}

impl Wanted {
    fn dist(self, dist: &Option<Dist>) -> Wanted {
        let Some(dist) = dist else { return self };
        let mut wanted = self.then_token(b" dist ", dist.at);
        for member in dist.items.as_slice() {
            wanted = match &member.weight {
                Some((Share::Each, _)) => wanted.then(b" :="),
                Some((Share::Whole, _)) => wanted.then(b" :/"),
                None => wanted.then(b" none"),
            };
        }
        wanted
    }

    fn plain(self, soft: bool, value: &Expr, dist: &Option<Dist>) -> Wanted {
        let begun = if soft { self.then(b"soft ") } else { self };
        begun.expr(value).dist(dist)
    }

    fn brace(self, set: &Set) -> Wanted {
        if set.braces { self.then(b"{}") } else { self }
    }

    // the item that stands alone behind `else`, without its own sets
    fn no(self, no: &Option<Set>) -> Wanted {
        let Some(set) = no else { return self };
        let begun = self.then(b" else ").brace(set);
        match single(set) {
            Some(
                Item::Plain {
                    at,
                    soft,
                    expr,
                    dist,
                },
            ) => begun.token_then(*at, b": ").plain(*soft, expr, dist),
            _ => begun,
        }
    }

    // an item without its number and the set that it is about
    fn kind(self, item: &Item) -> Wanted {
        match item {
            Item::Plain {
                soft,
                expr,
                dist,
                ..
            } => self.plain(*soft, expr, dist),
            Item::Unique { members, .. } => self.then_number(b"unique ", members.len()),
            Item::Implies { test, body, .. } => self.expr_then(test, b" -> ").brace(body),
            Item::Branch { test, yes, no, .. } => {
                self.then_expr(b"if ", test)
                    .no(no)
                    .then(b" then ")
                    .brace(yes)
            }
            Item::Foreach {
                array,
                vars,
                body,
                ..
            } => {
                let begun = self.then_expr(b"foreach ", array).then(b"[");
                begun.tokens(vars.as_slice(), b",").then(b"] ").brace(body)
            }
            Item::Disable { target, .. } => self.then_expr(b"disable ", target),
            Item::Solve { first, later, .. } => {
                self.then_number(b"solve ", first.len())
                    .then_number(b" before ", later.len())
            }
        }
    }
}

// the token with which an item begins
fn first_token(item: &Item) -> u32 {
    match item {
        Item::Plain { at, .. }
        | Item::Unique { at, .. }
        | Item::Implies { at, .. }
        | Item::Branch { at, .. }
        | Item::Foreach { at, .. }
        | Item::Disable { at, .. }
        | Item::Solve { at, .. } => *at,
    }
}

// an item, the one item of the set that it is about, and so on
impl Told for Item {
    fn told(&self, wanted: Wanted, _height: usize, _left: usize) -> Wanted {
        let mut wanted = wanted;
        let mut next = Some(self);
        for _level in 0..4 {
            if let Some(item) = next {
                wanted = wanted.token_then(first_token(item), b": ").kind(item);
                next = body(item).and_then(single);
            }
        }
        wanted
    }
}

// an item, and its tree: each expression by its first token
const TREES: &[(&[u8], &[u8])] = &[
    (
        b"if (n) if (n) n; else n;",
        b"0: if 2 then 4: if 6 else 11: 11 then 8: 8",
    ),
    (b"n -> n -> n;", b"0: 0 -> 2: 2 -> 4: 4"),
    (b"soft n -> n;", b"0: soft 1->"),
    (b"n <-> n -> n;", b"0: 0<->"),
    (b"n dist { n := 2, n :/ 2, n };", b"0: 0 dist 1 := :/ none"),
    (b"foreach (n[n]) n;", b"0: foreach 2[4] 7: 7"),
    (b"foreach (n[n, n]) n;", b"0: foreach 2[4,6] 9: 9"),
    (
        b"foreach (n.n[n, n]) { n -> n; }",
        b"0: foreach 2.4[6,8] {}12: 12 -> 14: 14",
    ),
];

fn is_item(alloc: Global, text: &[u8], wanted: &'static [u8]) -> bool {
    let lexemes = spelled(alloc, text);
    let mut cursor = Cursor::new(&lexemes);
    let found = item(alloc, &mut cursor, 128);
    is_told(found, cursor.left(), wanted)
}

fn is_block_item(alloc: Global, text: &[u8], wanted: &'static [u8]) -> bool {
    let lexemes = spelled(alloc, text);
    let mut cursor = Cursor::new(&lexemes);
    let found = block_item(alloc, &mut cursor, 128);
    is_told(found, cursor.left(), wanted)
}

#[test]
fn trees_of_items(rt: HostRuntime) {
    for (text, wanted) in TREES {
        assert!(rt; is_item(rt.alloc(), text, wanted));
    }
    assert!(rt; is_block_item(rt.alloc(), b"solve n before n, n;", b"0: solve 1 before 2"));
}
