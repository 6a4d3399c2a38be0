// What the definition of a class with what it inherits comes to (IEEE 1800-2017, 8.13 and 18.5.2).

ghost use Rattle.std.specs.Prelude.{◌≡◌, ◌<◌, ℕ, List, [], ◌∷◌, Some, None, slice_get, codes};
ghost use Rattle.svr_typed.specs.ClassTerm.{ClassTerm};
ghost use Rattle.svr_flat.specs.Flat.{derived_class, flat_class_of};
ghost use Rattle.svr_flat.specs.Examples.{bit_prop, block_with, blocks_of_derived, props_of_derived};

/// A class that extends one that stands before it is that class and its own parts; a class that extends none has its own parts alone.
pub fn classes_stand_over_their_bases()
    ensures derived { (cs : List ClassTerm) (n b : ℕ) (c : ClassTerm) → slice_get cs n ≡ Some c → c.base ≡ Some b → b < n → flat_class_of cs n ≡ derived_class (flat_class_of cs b) c }
    ensures first { (cs : List ClassTerm) (n : ℕ) (c : ClassTerm) → slice_get cs n ≡ Some c → c.base ≡ None → flat_class_of cs n ≡ record { props = c.props; blocks = c.blocks } }
{}

/// The worked case of a block that replaces one of the base class: it stands at its own place.
pub fn derived_class_is_as_worked_out()
    ensures blocks { blocks_of_derived ≡ block_with (codes "e") 0 ∷ block_with (codes "c") 1 ∷ [] }
    ensures props { props_of_derived ≡ bit_prop (codes "x") ∷ bit_prop (codes "y") ∷ bit_prop (codes "a") ∷ [] }
{}
