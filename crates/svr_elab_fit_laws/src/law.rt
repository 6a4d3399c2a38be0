// What is read from a text fits.

ghost use Rattle.svr_elab_fit_laws.specs.ReadScripts.{ReadScriptFits};

/// A script that the tokens of a text spell, within the limit of its height, is what elaboration asks of a script.
pub fn what_is_read_fits()
    ensures { ReadScriptFits }
{}
