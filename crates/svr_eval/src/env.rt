// The loops around a place.

ghost use Rattle.std.specs.Prelude.{◌≡◌, ◌<◌, ◌≤◌, ◌-◌, [], ◌∷◌, ◌++◌, length, slice_index};
ghost use Rattle.svr_limits.specs.declared.limit.TheConstants.{LOOP_LIMIT};

use std::marker::Model;
use svr_limits::LOOP_LIMIT;

/// The indexes of the loops around a place, at most `LOOP_LIMIT` of them, the innermost last.
#[derive(Clone, Copy)]
pub struct Env {
    depth: u32,
    index: [u32; LOOP_LIMIT],
}

impl Model for Env {
    ghost use Rattle.std.specs.Prelude.{List, ℕ, length};
    ghost use Rattle.std.specs.Coded.{coded_list, coded_ℕ};

    ghost Value = { List ℕ };

    ghost coded = { coded_list coded_ℕ };

    ghost use Rattle.svr_eval.specs.Env.{entries, IsWhole, filled, filled-entries};

    ghost view = { entries };

    ghost invariant = { IsWhole };

    ghost inverse = { filled };

    ghost inverse_ok = { filled-entries };
}

impl Env {
    /// Outside of all loops.
    pub fn new() -> Env
        ensures { result ≡ [] }
    {
        Env {
            depth: 0,
            index: [0; LOOP_LIMIT],
        }
    }

    /// How many loops there are.
    pub fn depth(&self) -> u32
        ensures depth { result ≡ length self.now }
        ensures bound { result ≤ LOOP_LIMIT }
    {
        self.depth
    }

    /// The index of the k-th loop counted outwards, from 0.
    pub fn loop_index(&self, k: u32) -> u32
        requires { k < length self.now }
        ensures { result ≡ slice_index self.now (length self.now - 1 - k) }
    {
        self.index[(self.depth - 1 - k) as usize]
    }

    /// Inside one more loop.
    pub fn inner(&self, index: u32) -> Env
        requires { length self.now < LOOP_LIMIT }
        ensures { result ≡ self.now ++ index ∷ [] }
    {
        let mut indexes = self.index;
        indexes[self.depth as usize] = index;
        Env {
            depth: self.depth + 1,
            index: indexes,
        }
    }
}
