// A law about lines.

ghost use Rattle.svr_seq.specs.Derives.{LinesAreDerived};

/// The names of a line are such that the start derives them.
pub fn lines_are_derived()
    ensures { LinesAreDerived }
{}
