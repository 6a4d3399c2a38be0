// The public call.

ghost use Rattle.std.specs.Prelude.{IfOk, IfErr};
ghost use Rattle.svr_token.specs.Names.{name_at};
ghost use Rattle.svr_typed.specs.StmtTerm.{design_term};
ghost use Rattle.svr_tree.specs.ScriptTree.{script_tree};
ghost use Rattle.svr_elab_fit_laws.specs.ReadScripts.{IsReadFrom};
ghost use Rattle.svr_elab.specs.Promise.{Explains};
ghost use Rattle.svr_elaborate.specs.Elaborated.{IsDesignOf};

use std::alloc::Global;
use svr_elab::elab_script;
use svr_elab_fault::ElabFault;
use svr_token::Token;
use svr_tree::Script;
use svr_typed::Design;

/// The design of a script, or its first refusal. The script is the one that the tokens of the text spell.
///
/// `Ok` comes exactly where nothing is refused, with the design that the definition gives, and that design is lawful.
pub fn elaborate(
    alloc: Global,
    text: &[u8],
    tokens: &[Token],
    tree: &Script,
) -> Result<Design, ElabFault>
    requires { IsReadFrom text.now tokens.now (script_tree tree.now) }
    ensures accepted { IfOk result (λ d. IsDesignOf (name_at text.now tokens.now) (script_tree tree.now) (design_term d)) }
    ensures refused { IfErr result (λ e. Explains (name_at text.now tokens.now) (script_tree tree.now) e) }
{
    match elab_script(alloc, text, tokens, tree) {
        Ok(Some(design)) => Ok(design),
        // What is accepted has a design.
        Ok(None) => unreachable!(),
        Err(fault) => Err(fault),
    }
}
