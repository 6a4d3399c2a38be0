// What is accepted is typed, and what is read from a text fits.

ghost use Rattle.svr_elab_expr_laws.specs.Accepted.{AcceptedIsTyped};
ghost use Rattle.svr_elab_expr_laws.specs.Known.{AcceptedHasTree};
ghost use Rattle.svr_elab_expr_laws.specs.ReadFits.{SpelledFits, ReadFits, LowFits};

/// An expression in which nothing is refused has a typed tree of the size and sign that are known of it, where the types that it reads are known.
pub fn accepted_is_typed()
    ensures { AcceptedIsTyped }
{}

/// An expression in which nothing is refused has a typed tree, where no declaration that it can name was refused, and none stands further down.
pub fn accepted_has_tree()
    ensures { AcceptedHasTree }
{}

/// The literals of an expression that was read from a text fit their widths, and its lists are not empty (IEEE 1800-2017, 5.7.1 and A.8.1): what `elab` asks of an expression.
pub fn what_is_read_fits()
    ensures read { ReadFits }
    ensures spelled { SpelledFits }
{}

/// Names stand in no more reductions than the expression is high, so a parser that limits the height gives what `elab` asks of loops.
pub fn low_expressions_fit()
    ensures { LowFits }
{}
