// An expression from its text, with what elaboration asks of it.

ghost use Rattle.std.specs.Prelude.{◌≡◌, ◌≤◌, ◌<◌, ◌^◌, length, IfOk};
ghost use Rattle.std.specs.List.{All};
ghost use Rattle.svr_token.specs.declared.Lexeme.{Lexeme as LexemeType};
ghost use Rattle.svr_token.specs.Tokens.{IsTokenOf};
ghost use Rattle.svr_tree.specs.ExprTree.{expr_tree};
ghost use Rattle.svr_reader.specs.Spelled.{AreSpelled};
ghost use Rattle.svr_elab_part.specs.Fits.{LiteralsFit, LoopsFit};

use std::alloc::Global;
use svr_expr::expr;
use svr_reader::{Cursor, ReadFault, lexemes};
use svr_token::{Lexeme, Token};
use svr_tree::{Expr, level};

/// The expression that the lexemes of a text spell, all of them.
#[tactic(auto, using(crate::proofs::Read::literals_read, crate::proofs::Read::loops_read))]
fn spelled(
    alloc: Global,
    text: &[u8],
    tokens: &[Token],
    found: &[Lexeme],
) -> Result<Expr, ReadFault>
    requires spelled { AreSpelled text.now tokens.now found.now }
    requires few { length found.now < 2 ^ 32 }
    ensures literals { IfOk result (λ e. LiteralsFit (expr_tree e)) }
    ensures loops { IfOk result (λ e. LoopsFit 0 (expr_tree e)) }
{
    let mut cursor = Cursor::new(found);
    let (tree, _) = expr(alloc, &mut cursor, 9, level::IMPLICATION)?;
    let left = cursor.left();
    if left > 0 {
        return Err(ReadFault::Unexpected(left));
    }
    Ok(tree)
}

/// The expression that a text of at most a hundred tokens is.
pub fn read(alloc: Global, text: &[u8], tokens: &[Token]) -> Result<Expr, ReadFault>
    requires { All (λ t. (l : LexemeType) × IsTokenOf text.now t l) tokens.now }
    ensures literals { IfOk result (λ e. LiteralsFit (expr_tree e)) }
    ensures loops { IfOk result (λ e. LoopsFit 0 (expr_tree e)) }
{
    let found = lexemes(alloc, text, tokens)?;
    let count = found.len();
    if count > 100 {
        return Err(ReadFault::Unexpected(count));
    }
    spelled(alloc, text, tokens, &found)
}
