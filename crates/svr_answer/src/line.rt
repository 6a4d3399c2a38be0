// The line of a load.
ghost use Rattle.std.specs.Prelude.{◌≡◌, IfOk};
ghost use Rattle.svr_answer.specs.Lines as spec;

use std::alloc::{AllocError, Global};
use svr_run::Counts;
use svr_status::join;

/// The line of a load of so many classes, with what its calls answered.
pub fn load_line(alloc: Global, count: u32, counts: Counts) -> Result<Vec<u8>, AllocError>
    ensures { IfOk result (λ v. v.items ≡ spec.load_line count (record { ones = counts.ones; zeros = counts.zeros; given_up = counts.given_up })) }
{
    let count = count.to_string(alloc)?;
    let ones = counts.ones.to_string(alloc)?;
    let zeros = counts.zeros.to_string(alloc)?;
    let given_up = counts.given_up.to_string(alloc)?;
    join(
        alloc,
        &[
            b"load ",
            count.as_bytes(),
            b" one ",
            ones.as_bytes(),
            b" zero ",
            zeros.as_bytes(),
            b" gaveup ",
            given_up.as_bytes(),
            b"\n",
        ],
    )
}
