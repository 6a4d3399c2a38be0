// Marks of nodes.

ghost use Rattle.std.specs.Prelude.{◌≡◌, true, slice_index_or, slice_set};

/// Whether a node was seen, or is none.
pub(crate) fn was_seen(seen: &[bool], node: usize) -> bool
    ensures { result ≡ slice_index_or seen.now node true }
{
    match seen.get(node) {
        Some(flag) => *flag,
        None => true,
    }
}

/// Marks a node.
pub(crate) fn mark(flags: &mut Vec<bool>, node: usize)
    ensures { flags.new.items ≡ slice_set flags.old.items node true }
{
    if node < flags.len() {
        flags[node] = true;
    }
}
