// A formula and the lines of a derivation from it.

use sqlite_items::Items;
use std::marker::Model;
use svr_chain::Clause;

/// A number as a file writes it: a size, and perhaps a minus sign.
#[derive(Clone, Copy, PartialEq, Eq)]
pub struct Number {
    pub negative: bool,
    pub size: u64,
}

/// A line of a derivation.
#[derive(Drop)]
pub enum Line {
    /// A clause under a new identifier, with hints: the identifiers of the clauses from which it follows, in the order of unit propagation. A negative hint would begin a part that resolves on a literal (RAT).
    Lemma {
        id: u64,
        lits: Clause,
        hints: Items<Number>,
    },
    /// The clauses of these identifiers go. The identifier of the line itself names no clause.
    Delete {
        id: u64,
        ids: Items<Number>,
    },
}

/// A formula, whose clauses have the identifiers 1, 2, 3 and so on, and a derivation from it.
#[derive(Drop)]
pub struct LratFile {
    /// The literals are over the variables 1 to `vars`.
    pub vars: u64,
    pub clauses: Vec<Clause>,
    pub lines: Vec<Line>,
}

impl Model for LratFile {
    ghost use Rattle.svr_lrat_file.specs.Views.{FileView};

    ghost Value = { FileView };

    ghost view = { λ f. record { vars = f.vars; clauses = f.clauses.items; lines = f.lines.items } };
}
