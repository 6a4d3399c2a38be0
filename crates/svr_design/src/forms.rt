// A design with each form of item and of statement, and what is wrong with it where one place holds something else.

ghost use Rattle.std.specs.Prelude.{[], ◌∷◌, None};
ghost use Rattle.svr_design.specs.Lawful.{IsLawful};
ghost use Rattle.svr_design.specs.Examples.{number};
ghost use Rattle.svr_design.specs.Forms.{Places, forms, as_listed};

/// Each form of item and of statement stands in a lawful design.
pub fn each_form_is_lawful()
    ensures { IsLawful (forms as_listed) }
{}

/// Items (IEEE 1800-2017, 18.5).
///
/// - `dealt`: a `dist` is over nothing that can be random.
/// - `weight`: a weight of a `dist` can be random.
/// - `member`: members of `unique` have different sizes.
/// - `guard`: a guard of `disable soft` can be random.
/// - `index`: so can the index of its target.
/// - `names`: two loop variables run over a dynamic array.
/// - `whole`: an array stands where a value is wanted.
/// - `later`: `solve` names a property that is not declared `rand`.
pub fn wrong_items_are_not_lawful()
    ensures dealt { IsLawful (forms (record as_listed { dealt = 2 })) → ⊥ }
    ensures weight { IsLawful (forms (record as_listed { weight = 1 })) → ⊥ }
    ensures member { IsLawful (forms (record as_listed { member = number 3 })) → ⊥ }
    ensures guard { IsLawful (forms (record as_listed { guard = 0 })) → ⊥ }
    ensures index { IsLawful (forms (record as_listed { index = 0 })) → ⊥ }
    ensures names { IsLawful (forms (record as_listed { names = 2 })) → ⊥ }
    ensures whole { IsLawful (forms (record as_listed { whole = 3 })) → ⊥ }
    ensures later { IsLawful (forms (record as_listed { later = 2 })) → ⊥ }
{}

/// Places of statements (IEEE 1800-2017, 7.5.1, 10.9.1, 18.8 and 18.9).
///
/// - `elements`: `new[..]` makes more than 2,048 elements.
/// - `pattern`: a pattern has fewer elements than its fixed array.
/// - `place`: a whole array is given one value.
/// - `mode`: the mode of a property is set that is not there.
/// - `block`: so is that of a block.
pub fn wrong_places_are_not_lawful()
    ensures elements { IsLawful (forms (record as_listed { elements = 2049 })) → ⊥ }
    ensures pattern { IsLawful (forms (record as_listed { pattern = number 1 ∷ number 2 ∷ [] })) → ⊥ }
    ensures place { IsLawful (forms (record as_listed { place = None })) → ⊥ }
    ensures mode { IsLawful (forms (record as_listed { mode = 5 })) → ⊥ }
    ensures block { IsLawful (forms (record as_listed { block = 1 })) → ⊥ }
{}
