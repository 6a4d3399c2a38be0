//! An item of a form as clauses.

ghost use Rattle.std.specs.Prelude.{◌≡◌, [], ◌∷◌, IfOk};
ghost use Rattle.svr_frame.specs.Frame.{frame_term};
ghost use Rattle.svr_blast_tests.specs.Sample.{sample_frame};

use crate::form::Form;
use crate::held::let_go;
use crate::items::{item, part_of};
use crate::sample::{sample, slots_of};
use crate::truth::agrees_with;
use std::alloc::{AllocError, Global};
use svr_blast::blast;
use svr_frame::Frame;
use svr_typed::{NoMemory, TExpr};

fn list_of(alloc: Global, e: TExpr) -> Result<Vec<TExpr>, AllocError>
    ensures { IfOk result (λ es. es.items ≡ e ∷ []) }
{
    let mut items = Vec::new(alloc);
    items.push(e)?;
    Ok(items)
}

/// Whether the clauses of an item are true to it in a call; a size has three bits.
fn asked(alloc: Global, frame: &Frame, form: Form) -> Result<bool, NoMemory>
    requires { frame_term frame.now ≡ sample_frame }
{
    let part = part_of(form);
    let slots = slots_of(alloc, part)?;
    let items = list_of(alloc, item(alloc, form)?)?;
    let e = blast(alloc, items, frame, part, &[1, 1, 1, 3, 4, 0], slots, 3);
    let is_so = agrees_with(alloc, &e, form);
    let_go(e);
    Ok(is_so)
}

/// Whether the clauses of an item are true to it at all values of what it reads.
pub(crate) fn agrees(alloc: Global, form: Form) -> bool {
    let frame = sample(alloc);
    let found = match &frame {
        Ok(frame) => asked(alloc, frame, form),
        Err(refused) => Err(*refused),
    };
    let_go(frame);
    match found {
        Ok(is_so) => is_so,
        Err(_) => false,
    }
}
