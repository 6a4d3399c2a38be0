// Calls of `randomize` (IEEE 1800-2017, 18.6, 18.7 and 18.11).

ghost use Rattle.std.specs.Prelude.{◌≡◌, None, option_map, map};
ghost use Rattle.svr_typed.specs.ItemTerm.{item_term};
ghost use Rattle.svr_typed.specs.StmtTerm.{stmt_term};
ghost use Rattle.svr_elab_fault.specs.Refusals.{first_one};
ghost use Rattle.svr_elab_item.specs.Seen.{items_part};
ghost use Rattle.svr_elab_stmt.specs.Stmts as spec;
ghost use Rattle.svr_elab_stmt.specs.Seen.{stmt_part};
ghost use Rattle.svr_elab_target.specs.Seen.{object_seen, path_seen};

use crate::part::StmtPart;
use indexmap::IndexSet;
use sqlite_items::Items;
use svr_elab_fault::{Fault, earlier};
use svr_elab_item::ItemsPart;
use svr_elab_target::{Object, ObjectPath, unknown_at, use_fault, wrong_rest};
use svr_typed::{CallList, CallStmt, TItem, TStmt};

fn call_tree(
    object: u32,
    list: CallList,
    answer: Option<u32>,
    set: Option<Items<TItem>>,
) -> Option<TStmt>
    ensures { option_map stmt_term result ≡ spec.call_tree object list answer (option_map (map item_term) set) }
{
    match set {
        None => None,
        Some(set) => Some(TStmt::call(CallStmt::new(object, list, set, answer))),
    }
}

/// A call on an object; `refused`: of its list.
pub fn call_on(
    made: &IndexSet<u32>,
    path: ObjectPath<'_>,
    answer: Option<u32>,
    object: Object,
    list: CallList,
    refused: Option<Fault>,
    set: ItemsPart,
) -> StmtPart
    ensures value { stmt_part result ≡ spec.call_on first_one made.now.keys (path_seen path.entry) answer (object_seen object) list refused (items_part set) }
    ensures once { result.count ≡ 1 }
{
    let unused = use_fault(made, path.first, Some(object));
    let more = unknown_at(wrong_rest(path.rest));
    StmtPart {
        tree: call_tree(object.variable, list, answer, set.trees),
        fault: earlier(unused, earlier(more, earlier(refused, set.fault))),
        makes: None,
        count: 1,
    }
}

/// A call on what is no object variable.
pub fn call_on_none(made: &IndexSet<u32>, first: u32) -> StmtPart
    ensures value { stmt_part result ≡ spec.one_stmt first_one None (spec.use_faults first_one made.now.keys first None) }
    ensures once { result.count ≡ 1 }
{
    StmtPart {
        tree: None,
        fault: use_fault(made, first, None),
        makes: None,
        count: 1,
    }
}
