// What follows of the definitions.

ghost use Rattle.svr_seq_lines.specs.Said.{AcceptedTextsAreNotRefused, LinesAreOne};

/// A text that is accepted is not refused.
pub fn accepted_texts_are_not_refused()
    ensures { AcceptedTextsAreNotRefused }
{}

/// With a seed and so many lines a text has one end and one list of lines.
pub fn lines_are_one()
    ensures { LinesAreOne }
{}
