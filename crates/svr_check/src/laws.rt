// What follows of the definitions.

ghost use Rattle.svr_check.specs.Checked.{FilesAreJudged};

/// Of a text that is a file within the limits nothing is said but a verdict.
pub fn a_file_is_judged()
    ensures { FilesAreJudged }
{}
