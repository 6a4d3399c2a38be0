// The public call.

ghost use Rattle.std.specs.Prelude.{◌≡◌, None, Some, option_map, IfOk, IfErr};
ghost use Rattle.svr_token.specs.Names.{name_at};
ghost use Rattle.svr_typed.specs.StmtTerm.{design_term};
ghost use Rattle.svr_tree.specs.ScriptTree.{script_tree};
ghost use Rattle.svr_elab_fit_laws.specs.ReadScripts.{IsReadFrom};
ghost use Rattle.svr_elab.specs.Promise.{IsAccepted, Explains, Tells};

use crate::whole::{ScriptPart, script};
use std::alloc::Global;
use svr_elab_fault::ElabFault;
use svr_token::{Names, Token};
use svr_tree::Script;
use svr_typed::Design;

/// The design where nothing is refused, else the refusal.
fn judged(part: ScriptPart) -> Result<Option<Design>, ElabFault>
    ensures clear { IfOk result (λ d. (part.fault ≡ None) × (d ≡ part.design)) }
    ensures told { IfErr result (λ e. Tells part.fault e) }
{
    match part.fault {
        None => Ok(part.design),
        Some(fault) => Err(ElabFault::Refused {
            number: fault.refusal.number(),
            token: fault.token,
        }),
    }
}

/// The design of a script, or its first refusal. The script is the one that the tokens of the text spell.
///
/// `Ok` comes exactly where nothing is refused, with the design that the definition gives.
pub fn elab_script(
    alloc: Global,
    text: &[u8],
    tokens: &[Token],
    tree: &Script,
) -> Result<Option<Design>, ElabFault>
    requires { IsReadFrom text.now tokens.now (script_tree tree.now) }
    ensures accepted { IfOk result (λ d. IsAccepted (name_at text.now tokens.now) (script_tree tree.now) (option_map design_term d)) }
    ensures refused { IfErr result (λ e. Explains (name_at text.now tokens.now) (script_tree tree.now) e) }
{
    let names = Names { text, tokens };
    match script(alloc, names, tree) {
        Err(_) => Err(ElabFault::NoMemory),
        Ok(part) => judged(part),
    }
}
