// What the grammar says of any list of tokens: each function has an empty body, and its contract is the statement.

ghost use Rattle.std.specs.Prelude.{◌≡◌, ℕ, List};
ghost use Rattle.svr_tree.specs.Tokens.{Tok};
ghost use Rattle.svr_tree.specs.ScriptTree.{ScriptTree};
ghost use Rattle.svr_tree.specs.Reading.{ReadsScript, IsReading};
ghost use Rattle.svr_reader.specs.Fronts.{HasOneAnswer};

/// Two trees that read the same tokens are equal, however high they are.
pub fn tokens_have_one_tree()
    ensures { (tokens : List Tok) (tree other : ScriptTree) → ReadsScript tree tokens → ReadsScript other tokens → tree ≡ other }
{}

/// Tokens have at most one answer, whatever the limit of height: a tree within it, or a fault of one kind at one place.
pub fn tokens_have_one_answer()
    ensures { (limit : ℕ) (tokens : List Tok) → HasOneAnswer IsReading limit tokens }
{}
