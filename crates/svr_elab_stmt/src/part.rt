// What is known of statements.

ghost use Rattle.std.specs.Prelude.{◌≡◌, IfOk};
ghost use Rattle.svr_elab_fault.specs.Refusals.{first_one};
ghost use Rattle.svr_elab_part.specs.Shapes as shapes;
ghost use Rattle.svr_elab_stmt.specs.Stmts as spec;
ghost use Rattle.svr_elab_stmt.specs.Seen.{stmt_part};

use sqlite_items::Items;
use svr_elab_fault::{Fault, earlier};
use svr_elab_form::pushed;
use svr_typed::{NoMemory, TExpr, TStmt};

/// What is known of a statement.
#[derive(Drop)]
pub struct StmtPart {
    /// The typed statement, where each part has one.
    pub tree: Option<TStmt>,
    pub fault: Option<Fault>,
    /// The object variable that has an object behind it, where it is `new`.
    pub makes: Option<u32>,
    /// How many statements run, where more than `STATEMENT_LIMIT` count as one more.
    pub count: u32,
}

/// What is known of statements one behind the other.
#[derive(Drop)]
pub struct StmtsPart {
    pub trees: Option<Items<TStmt>>,
    pub fault: Option<Fault>,
    /// How many statements run, where more than `STATEMENT_LIMIT` count as one more.
    pub count: u32,
}

/// What is known of the values of an assignment pattern.
#[derive(Drop)]
pub struct ValuesPart {
    pub trees: Option<Items<TExpr>>,
    pub fault: Option<Fault>,
    /// How many values there are.
    pub many: u32,
}

/// A list with one more value behind it, where both are known.
pub(crate) fn and_more<T: Drop>(
    list: Option<Items<T>>,
    value: Option<T>,
) -> Result<Option<Items<T>>, NoMemory>
    ensures { IfOk result (λ l. l ≡ shapes.and_more list value) }
{
    match list.zip(value) {
        None => Ok(None),
        Some((list, value)) => Ok(Some(pushed(list, value)?)),
    }
}

impl StmtPart {
    /// With what is refused before it.
    pub fn behind(self, before: Option<Fault>) -> StmtPart
        ensures value { stmt_part result ≡ spec.behind first_one before (stmt_part self) }
        ensures count { result.count ≡ self.count }
    {
        let fault = earlier(before, self.fault);
        StmtPart {
            tree: self.tree,
            fault,
            makes: self.makes,
            count: self.count,
        }
    }
}
