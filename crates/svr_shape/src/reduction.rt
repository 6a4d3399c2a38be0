//! Vectors reduced to one literal.

ghost use Rattle.std.specs.Prelude.{◌≡◌, ◌==◌, ◌%◌, IfOk, count_by};
ghost use Rattle.std.specs.List.{list_any, list_all};
ghost use Rattle.svr_chain.specs.Clauses.{AreWithin};
ghost use Rattle.svr_chain.specs.Valuations.{lit_value};
ghost use Rattle.svr_gate.specs.Circuit.{Extends, Tells};

use crate::memory::NoMemory;
use svr_chain::Lit;
use svr_gate::{Builder, table};

/// Whether some literal holds (11.4.9); false of no literals.
pub fn any(b: &mut Builder, x: &[Lit]) -> Result<Lit, NoMemory>
    requires { AreWithin b.old.vars x.now }
    ensures extends { Extends b.old b.new }
    ensures value { IfOk result (λ l. Tells b.new l (λ a. list_any (lit_value a) x.now)) }
{
    let mut any = b.define::<0>(table!(never), [])?;
    for lit in x {
        any = b.define::<2>(table!(either), [any, *lit])?;
    }
    Ok(any)
}

/// Whether each literal holds (11.4.9); true of no literals.
pub fn all(b: &mut Builder, x: &[Lit]) -> Result<Lit, NoMemory>
    requires { AreWithin b.old.vars x.now }
    ensures extends { Extends b.old b.new }
    ensures value { IfOk result (λ l. Tells b.new l (λ a. list_all (lit_value a) x.now)) }
{
    let mut all = b.define::<0>(table!(always), [])?;
    for lit in x {
        all = b.define::<2>(table!(both), [all, *lit])?;
    }
    Ok(all)
}

/// Whether an odd number of literals hold (11.4.9); false of no literals.
pub fn odd(b: &mut Builder, x: &[Lit]) -> Result<Lit, NoMemory>
    requires { AreWithin b.old.vars x.now }
    ensures extends { Extends b.old b.new }
    ensures value { IfOk result (λ l. Tells b.new l (λ a. count_by (lit_value a) x.now % 2 == 1)) }
{
    let mut odd = b.define::<0>(table!(never), [])?;
    for lit in x {
        odd = b.define::<2>(table!(unequal), [odd, *lit])?;
    }
    Ok(odd)
}
