// The line of a refusal.
ghost use Rattle.std.specs.Prelude.{◌≡◌, IfOk};
ghost use Rattle.std.specs.List.{concat};
ghost use Rattle.svr_status.specs.Lines as spec;
ghost use Rattle.svr_status.specs.Lines.{seen};

use std::alloc::{AllocError, Global};
use svr_refusal::{Place, Refusal};

/// The parts in one text.
pub fn join(alloc: Global, parts: &[&[u8]]) -> Result<Vec<u8>, AllocError>
    ensures { IfOk result (λ v. v.items ≡ concat (seen parts.now)) }
{
    let mut text = Vec::new(alloc);
    for part in parts {
        text.extend_from_slice(part)?;
    }
    Ok(text)
}

/// What stands for the place of a refusal that has none.
pub const NOWHERE: Place = Place { line: 0, column: 0 };

/// The line of a refusal of this number at a place.
pub fn refused_as(alloc: Global, place: Place, number: u8) -> Result<Vec<u8>, AllocError>
    ensures { IfOk result (λ v. v.items ≡ spec.refused_as place number) }
{
    let line = place.line.to_string(alloc)?;
    let column = place.column.to_string(alloc)?;
    let number = number.to_string(alloc)?;
    join(
        alloc,
        &[
            b"refused ",
            line.as_bytes(),
            b":",
            column.as_bytes(),
            b" ",
            number.as_bytes(),
            b"\n",
        ],
    )
}

/// The line of a refusal at a place.
pub fn refused_at(alloc: Global, place: Place, why: Refusal) -> Result<Vec<u8>, AllocError>
    ensures { IfOk result (λ v. v.items ≡ spec.refused_at place why) }
{
    refused_as(alloc, place, why.number())
}
