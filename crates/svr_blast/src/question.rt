// Clauses for the items of a phase.

ghost use Rattle.std.specs.Prelude.{◌≡◌, ◌≤◌, ℕ, map, sum, IfOk};
ghost use Rattle.std.specs.List.{All};
ghost use Rattle.svr_typed.specs.ExprTerm.{expr_term};
ghost use Rattle.svr_gate.specs.Circuit.{Extends};
ghost use Rattle.svr_eval.specs.Typed.{IsTyped, CanRead};
ghost use Rattle.svr_eval.specs.Reading.{reading_of};
ghost use Rattle.svr_frame.specs.Frame.{frame_term, state_at};
ghost use Rattle.svr_frame.specs.Satisfaction.{is_at, is_size_of};
ghost use Rattle.svr_frame.specs.Phases.{unknowns_of, sought_sizes};
ghost use Rattle.svr_frame.specs.Sound.{IsSound, SizesFit};
ghost use Rattle.svr_vector.specs.Places.{rows};
ghost use Rattle.svr_inputs.specs.Inputs.{AreInputs, read_at, number_row, size_row};
ghost use Rattle.svr_inputs.specs.Served.{IsServed};
ghost use Rattle.svr_encoded.specs.Fixed.{IsFixed};
ghost use Rattle.svr_encoded.specs.Slots.{place_where, positive_bits, widths_of, reading_at};
ghost use Rattle.svr_encoded.specs.Encodes.{AreRising, TellItems, Encodes};
ghost use Rattle.svr_blast.specs.Standing.{StandsIn};

use std::alloc::Global;
use svr_chain::Lit;
use svr_encode::encode_test;
use svr_encoded::{Encoded, positive_rows, slot_widths, table_of, total};
use svr_frame::{Frame, Part, Slot};
use svr_gate::Builder;
use svr_inputs::Inputs;
use svr_typed::TExpr;
use svr_vector::NoMemory;

/// A fresh literal for each item.
fn encode_all(
    alloc: Global,
    b: &mut Builder,
    inputs: &Inputs<'_>,
    items: &[TExpr],
) -> Result<Vec<Lit>, NoMemory>
    requires inputs { AreInputs inputs.now }
    requires room { inputs.now.count ≤ b.old.vars }
    requires typed { All (λ e. IsTyped (expr_term e)) items.now }
    requires ready { All (λ e. IsServed inputs.now 0 (expr_term e)) items.now }
    ensures extends { Extends b.old b.new }
    ensures roots { IfOk result (λ ls. TellItems b.new.clauses ls.items (λ v. read_at inputs.now v) (map expr_term items.now)) }
    ensures apart { IfOk result (λ ls. AreRising b.old.vars ls.items b.new.vars) }
{
    let mut roots = Vec::new(alloc);
    for item in items {
        let told = encode_test(alloc, b, inputs, item)?;
        let root = b.root(told)?;
        roots.push(root)?;
    }
    Ok(roots)
}

/// A fresh literal for each item of a phase, where the inputs are those of the phase.
fn roots_of(
    alloc: Global,
    b: &mut Builder,
    inputs: &Inputs<'_>,
    frame: &Frame,
    part: Part,
    slots: &[Slot],
    size_bits: u8,
    items: &[TExpr],
) -> Result<Vec<Lit>, NoMemory>
    requires sound { IsSound (frame_term frame.now) }
    requires fit { SizesFit (frame_term frame.now) inputs.now.sizes.now }
    requires some_bits { 1 ≤ size_bits }
    requires few_bits { size_bits ≤ 32 }
    requires slots { slots.now ≡ unknowns_of (frame_term frame.now) part inputs.now.sizes.now }
    requires state { inputs.now.state.now ≡ (frame_term frame.now).state }
    requires numbers { (p j : ℕ) → number_row inputs.now.table.now p j ≡ place_where (is_at p j) 0 slots.now }
    requires sizes { (p : ℕ) → size_row inputs.now.table.now p ≡ place_where (is_size_of p) 0 slots.now }
    requires bits { rows inputs.now.bits.now ≡ positive_bits 0 (widths_of (frame_term frame.now) size_bits slots.now) }
    requires count { inputs.now.count ≡ sum (widths_of (frame_term frame.now) size_bits slots.now) }
    requires room { inputs.now.count ≤ b.old.vars }
    requires typed { All (λ e. IsTyped (expr_term e)) items.now }
    requires inside { All (λ e. StandsIn (frame_term frame.now) (expr_term e)) items.now }
    requires readable { All (λ e. CanRead (reading_of (frame_term frame.now).state) 0 (expr_term e)) items.now }
    requires fixed { All (λ e. IsFixed (sought_sizes (frame_term frame.now) part) (expr_term e)) items.now }
    ensures extends { Extends b.old b.new }
    ensures roots { IfOk result (λ ls. TellItems b.new.clauses ls.items (λ v. reading_at (state_at (frame_term frame.now) inputs.now.sizes.now) slots.now (rows inputs.now.bits.now) v) (map expr_term items.now)) }
    ensures apart { IfOk result (λ ls. AreRising b.old.vars ls.items b.new.vars) }
{
    encode_all(alloc, b, inputs, items)
}

/// Clauses over the bits of the unknowns of a phase, which are `slots`, and for each item a literal that is true just where it holds. A size has `size_bits` bits, 1 to 32, and the higher ones of its 32 are 0. The items are closed and meet what is asked of the items of the frame; a bound of a size may stand beside them.
pub fn blast(
    alloc: Global,
    items: Vec<TExpr>,
    frame: &Frame,
    part: Part,
    sizes: &[u32],
    slots: Vec<Slot>,
    size_bits: u8,
) -> Result<Encoded, NoMemory>
    requires sound { IsSound (frame_term frame.now) }
    requires fit { SizesFit (frame_term frame.now) sizes.now }
    requires some_bits { 1 ≤ size_bits }
    requires few_bits { size_bits ≤ 32 }
    requires slots { slots.items ≡ unknowns_of (frame_term frame.now) part sizes.now }
    requires typed { All (λ e. IsTyped (expr_term e)) items.items }
    requires inside { All (λ e. StandsIn (frame_term frame.now) (expr_term e)) items.items }
    requires readable { All (λ e. CanRead (reading_of (frame_term frame.now).state) 0 (expr_term e)) items.items }
    requires fixed { All (λ e. IsFixed (sought_sizes (frame_term frame.now) part) (expr_term e)) items.items }
    ensures { IfOk result (λ e. Encodes (frame_term frame.now) part sizes.now size_bits (map expr_term items.items) e) }
{
    let widths = slot_widths(alloc, frame, &slots, size_bits)?;
    let count = total(&widths);
    let bits = positive_rows(alloc, &widths)?;
    let table = table_of(alloc, &slots)?;
    let mut b = Builder::new(alloc, count)?;
    let inputs = Inputs {
        state: &frame.state,
        sizes,
        table: &table,
        bits: &bits,
        count: u64::from(count),
    };
    let roots = roots_of(
        alloc, &mut b, &inputs, frame, part, &slots, size_bits, &items,
    )?;
    let cnf = b.finish();
    Ok(Encoded {
        items,
        slots,
        bits,
        cnf,
        roots,
    })
}
