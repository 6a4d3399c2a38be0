// What the grammar says of short texts: each function has an empty body, and its contract is the statement.

ghost use Rattle.std.specs.Prelude.{◌≡◌, ℕ, ◌+◌, ◌<◌, ◌≤◌, [], ◌∷◌};
ghost use Rattle.svr_operator.specs.declared.BinOp.{BinOp};
ghost use Rattle.svr_token.specs.declared.Lexeme.{Lexeme};
ghost use Rattle.svr_token.specs.declared.Word.TheVariants as w;
ghost use Rattle.svr_tree.specs.ExprTree.{ExprTree, binary};
ghost use Rattle.svr_tree.specs.Tokens.{FitsAll};
ghost use Rattle.svr_tree.specs.Operators.{precedence};
ghost use Rattle.svr_tree.specs.ExprGrammar.{IsExpr, expr_spelling, expr_height};
ghost use Rattle.svr_tree.specs.ItemGrammar.{IsItem, item_spelling, item_height};
ghost use Rattle.svr_tree.specs.StmtGrammar.{stmt_spelling, stmt_height};
ghost use Rattle.svr_tree.specs.ScriptGrammar.{spelling};
ghost use Rattle.svr_tree.specs.Reading.{ReadsExpr, ReadsItem, ReadsStmt, IsReading};
ghost use Rattle.svr_tree.specs.Examples as example;

/// `a - b - c` is `(a - b) - c` (IEEE 1800-2017, table 11-2). Both groupings spell the same.
pub fn minus_groups_left()
    ensures left { ReadsExpr example.difference_left example.difference }
    ensures alike { expr_spelling example.difference_right ≡ expr_spelling example.difference_left }
    ensures right { IsExpr example.difference_right → ⊥ }
{}

/// Operators of one level group to the left, but for `->`, `<->` and `? :`.
pub fn one_level_groups_left()
    ensures { (at inner : ℕ) (op next : BinOp) (e f g : ExprTree) → precedence op ≡ precedence next → 1 < precedence op → IsExpr (binary at op e (binary inner next f g)) → ⊥ }
{}

/// `soft a -> b -> c;` has the operator `->`, which groups to the right.
pub fn soft_has_the_operator()
    ensures right { ReadsItem example.soft_right example.soft_implication }
    ensures alike { item_spelling example.soft_left ≡ item_spelling example.soft_right }
    ensures left { IsItem example.soft_left → ⊥ }
{}

/// `a -> b -> c;` is an implication item in an implication item (IEEE 1800-2017, 18.5.6), and `a <-> b -> c;` one expression.
pub fn items_have_the_implication()
    ensures item { ReadsItem example.implication_item example.implication }
    ensures alike { item_spelling example.implication_operator ≡ item_spelling example.implication_item }
    ensures operator { IsItem example.implication_operator → ⊥ }
    ensures equivalence { ReadsItem example.equivalence_item example.equivalence }
{}

/// No expression reads `a inside {1} * 2`. The one tree that spells it has a left operand of too low a level.
pub fn inside_is_no_factor()
    ensures none { (e : ExprTree) → ReadsExpr e example.inside_times → ⊥ }
    ensures spells { FitsAll example.inside_times (expr_spelling example.inside_times_tree) [] }
    ensures level { IsExpr example.inside_times_tree → ⊥ }
{}

/// In `if (a) if (b) c; else d;` the `else` belongs to the second `if`, in `if (a) { if (b) c; } else d;` to the first, which alone can take it (IEEE 1800-2017, 18.5.7).
pub fn else_belongs_to_the_nearest_if()
    ensures second { ReadsItem example.else_of_second example.branches }
    ensures alike { item_spelling example.else_of_first ≡ item_spelling example.else_of_second }
    ensures first { IsItem example.else_of_first → ⊥ }
    ensures braced { ReadsItem example.braced_else example.braced_branches }
{}

/// A `{` behind `->` opens a set, so `a -> {b} == c;` is no item, though `{b} == c;` is one.
pub fn brace_opens_a_set()
    ensures set { ReadsItem example.implied_set_tree example.implied_set }
    ensures join { ReadsItem (example.joined 0) example.joined_text }
    ensures implied { IsItem example.implied_join → ⊥ }
{}

/// `d.sum() with (e)` is an array reduction of the path `d`, with or without a name for an element, and `d.sum()` alone a path (IEEE 1800-2017, 7.12.3).
pub fn reduction_has_a_body()
    ensures reduction { ReadsExpr example.sum_with_tree example.sum_with }
    ensures named { ReadsExpr example.sum_named_tree example.sum_named }
    ensures path { ReadsExpr example.sum_path example.sum_alone }
    ensures height { expr_height example.sum_with_tree ≡ 2 }
{}

/// `foreach (m[i, j])` has two loop variables, and no `foreach` has three (IEEE 1800-2017, 12.7.3).
pub fn foreach_has_two_variables()
    ensures two { ReadsItem (example.loops_of (4 ∷ 6 ∷ [])) example.two_loops }
    ensures none { IsItem (example.loops_of []) → ⊥ }
    ensures three { IsItem (example.loops_of (4 ∷ 6 ∷ 8 ∷ [])) → ⊥ }
{}

/// `v = p.randomize();` is a call and no expression, `v = p.size();` an expression and no call.
pub fn whole_right_side_is_a_call()
    ensures call { ReadsStmt example.answer_call (example.answer_text example.randomize) }
    ensures other { FitsAll (example.answer_text example.randomize) (stmt_spelling example.answer_value) [] → ⊥ }
    ensures value { ReadsStmt example.answer_value (example.answer_text example.x) }
    ensures size { FitsAll (example.answer_text example.x) (stmt_spelling example.answer_call) [] → ⊥ }
{}

/// A module ends with `endmodule`.
pub fn module_ends_with_endmodule()
    ensures reads { IsReading 1 (example.least_text w.EndModule) example.least_script }
    ensures other { FitsAll (example.least_text w.EndProgram) (spelling example.least_script) [] → ⊥ }
{}

/// A pair of parentheses is a level: in `a == (1);` with n pairs the item has height n + 3, so that 125 pairs are within 128 and 126 are not. An empty statement and an empty block have height 1, a call 2.
pub fn parentheses_have_height()
    ensures item { (n : ℕ) → item_height (example.nested_item n) ≡ n + 3 }
    ensures within { item_height (example.nested_item 125) ≤ 128 }
    ensures beyond { 128 < item_height (example.nested_item 126) }
    ensures block { stmt_height example.empty_block ≡ 1 }
    ensures call { stmt_height example.call_tree ≡ 2 }
    ensures reads { ReadsStmt example.call_tree example.call_text }
{}
