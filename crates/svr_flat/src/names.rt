// The names of blocks, each once.

ghost use Rattle.std.specs.Prelude.{◌≡◌, map, IfOk};
ghost use Rattle.svr_typed.specs.ClassTerm.{block_terms};
ghost use Rattle.svr_flat.specs.Named.{bytes_of, is_among, and_name, and_names};

use indexmap::IndexSet;
use svr_typed::{NoMemory, TBlock};

/// Whether a name is among these.
#[tactic(auto, using(crate::proofs::Listed::among_keys))]
pub(crate) fn is_among(names: &IndexSet<&[u8]>, name: &[u8]) -> bool
    ensures { result ≡ is_among name.now (map bytes_of names.now.keys) }
{
    names.contains(name)
}

/// These names with one more, unless it is there.
fn with_name<'a>(names: IndexSet<&'a [u8]>, name: &'a [u8]) -> Result<IndexSet<&'a [u8]>, NoMemory>
    ensures { IfOk result (λ s. map bytes_of s.keys ≡ and_name (map bytes_of names.entry.keys) name.now) }
{
    let mut names = names;
    match names.insert(name) {
        Ok(_) => Ok(names),
        Err(_) => Err(NoMemory),
    }
}

/// These names with those of these blocks.
pub(crate) fn with_names<'a>(
    names: IndexSet<&'a [u8]>,
    blocks: &'a [TBlock],
) -> Result<IndexSet<&'a [u8]>, NoMemory>
    ensures { IfOk result (λ s. map bytes_of s.keys ≡ and_names (map bytes_of names.entry.keys) (block_terms blocks.now)) }
{
    let mut names = names;
    for block in blocks {
        names = with_name(names, block.name.as_bytes())?;
    }
    Ok(names)
}
