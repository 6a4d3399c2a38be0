//! A gate: a table over some inputs.

ghost use Rattle.std.specs.Prelude.{◌≡◌, ◌==◌, ◌≤◌, ◌<◌, ◌+◌, length};
ghost use Rattle.svr_gate.specs.Keys.{inputs_of, is_symmetric_at, with_order_at, in_order};

use svr_chain::Lit;

/// What stands at the places of a gate that have no input.
pub(crate) const NO_INPUT: Lit = Lit { var: 0, neg: false };

/// A table over `count` inputs, which stand first among the four places.
#[derive(Clone, Copy, PartialEq, Eq, Hash)]
pub struct Gate {
    pub count: usize,
    pub table: u16,
    pub places: [Lit; 4],
}

impl Gate {
    /// The inputs.
    pub(crate) fn inputs(&self) -> &[Lit]
        requires { self.now.count ≤ 4 }
        ensures { result.now ≡ inputs_of self.now }
    {
        &self.places[..self.count]
    }

    /// Whether the table stays the same when the inputs at `place` and behind it change places.
    fn is_symmetric_at(&self, place: usize) -> bool
        requires few { self.now.count ≤ 4 }
        requires at { place < 3 }
        ensures { result ≡ is_symmetric_at self.now place }
    {
        let table = u32::from(self.table);
        for row in 0..1u32 << self.count {
            let is_first_alone = (row >> place) % 4 == 1;
            if is_first_alone && (table >> row) % 2 != (table >> (row + (1 << place))) % 2 {
                return false;
            }
        }
        true
    }

    /// The gate with its inputs at `place` and behind it in order, where its table lets them
    /// change places.
    fn with_order_at(self, place: usize) -> Gate
        requires few { self.count ≤ 4 }
        requires at { place < 3 }
        ensures { result ≡ with_order_at place self }
    {
        let mut gate = self;
        if place + 1 < gate.count
            && gate.places[place + 1].var < gate.places[place].var
            && gate.is_symmetric_at(place)
        {
            gate.places.swap(place, place + 1);
        }
        gate
    }

    /// The gate with its inputs in the order of their variables, as far as its table lets
    /// neighbours change places.
    pub(crate) fn in_order(self) -> Gate
        requires { self.count ≤ 4 }
        ensures { result ≡ in_order self }
    {
        self.with_order_at(0)
            .with_order_at(1)
            .with_order_at(2)
            .with_order_at(0)
            .with_order_at(1)
            .with_order_at(0)
    }
}
