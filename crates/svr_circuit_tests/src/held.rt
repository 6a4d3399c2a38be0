//! Builders and clauses that are let go by generic functions: the drop of a type parameter is
//! proved once, and a caller that hands on what it holds has none of its own.

use std::alloc::Global;
use svr_chain::Cnf;
use svr_gate::{Builder, NoMemory};

pub(crate) fn let_go<T: Drop>(_held: T) {}

/// What a list holds, with one more. Where there is no memory it is left out, and the list is another.
pub(crate) fn added<T: Drop>(list: &mut Vec<T>, item: T) {
    let _unmet = list.push(item).is_err();
}

/// The clauses of a builder, none where there is none.
pub(crate) fn finished(alloc: Global, made: Result<Builder, NoMemory>) -> Cnf {
    match made {
        Ok(builder) => builder.finish(),
        Err(_) => Cnf {
            vars: 0,
            clauses: Vec::new(alloc),
        },
    }
}
