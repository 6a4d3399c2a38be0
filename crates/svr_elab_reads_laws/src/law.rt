// What is read is what is mentioned.

ghost use Rattle.svr_elab_reads_laws.specs.Reads.{AcceptedMentions};

/// In a constraint, an expression in which nothing is refused reads a value that can be random just where its tree mentions one, and so for sizes of arrays that can be random, and for what is cyclic.
pub fn what_is_read_is_mentioned()
    ensures { AcceptedMentions }
{}
