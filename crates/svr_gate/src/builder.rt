//! A circuit under construction.

ghost use Rattle.std.specs.Prelude.{◌≡◌, ◌==◌, ◌^◌, ℕ, Bool, ◌+◌, ◌≤◌, ◌<◌, length, [], false, true, if◌then◌else◌, IfOk, OnOk, MatchOption, Ok, None, Some, slice_index_or, ⊤};
ghost use Rattle.std.specs.List.{All};
ghost use Rattle.svr_chain.specs.Clauses.{flip, IsWithin, AreWithin};
ghost use Rattle.svr_chain.specs.Settled.{AreSettled};
ghost use Rattle.svr_chain.specs.Valuations.{lit_value, Meets};
ghost use Rattle.svr_gate.specs.Numbers.{number};
ghost use Rattle.svr_gate.specs.Gates.{table_value};
ghost use Rattle.svr_gate.specs.Keys.{inputs_of, no_input, gate_value, in_order};
ghost use Rattle.svr_gate.specs.Covers.{clause_count};
ghost use Rattle.svr_gate.specs.Folding.{copy_lit, IsConstant, IsProper};
ghost use Rattle.svr_gate.specs.Circuit.{Extends, Tells, known_of, literal_of};
ghost use Rattle.svr_gate.specs.Answers.{open_gate, HasLiteral, Answers, HasOneValue, IsInput, Adds};

use crate::fold::{GateKind, kind_of};
use crate::gate::Gate;
use crate::known::{known_of, open_gate};
use crate::memory::NoMemory;
use crate::row::clauses;
use crate::table;
use indexmap::IndexMap;
use std::alloc::Global;
use std::marker::Model;
use svr_chain::{Clause, Cnf, Lit};

/// Variables and clauses: first the inputs, then gates, each of which is settled by the
/// variables below it. A gate that is defined again is shared.
#[derive(Drop)]
pub struct Builder {
    inputs: u32,
    vars: u64,
    clauses: Vec<Clause>,
    one: Option<Lit>,
    gates: IndexMap<Gate, Lit>,
}

impl Model for Builder {
    ghost use Rattle.svr_gate.specs.Circuit.{Circuit, IsCircuit};

    ghost Value = { Circuit };

    ghost view = { λ b. record { inputs = b.inputs; vars = b.vars; clauses = b.clauses.items; one = b.one; gates = b.gates.entries } };

    ghost invariant = { λ b. IsCircuit (record { inputs = b.inputs; vars = b.vars; clauses = b.clauses.items; one = b.one; gates = b.gates.entries }) };
}

impl Builder {
    /// Variables 1 to `vars`, which are the inputs, and no clause.
    pub fn new(alloc: Global, vars: u32) -> Result<Builder, NoMemory>
        ensures inputs { IfOk result (λ b. b.inputs ≡ vars) }
        ensures vars { IfOk result (λ b. b.vars ≡ vars) }
        ensures clauses { IfOk result (λ b. b.clauses ≡ []) }
        ensures one { IfOk result (λ b. b.one ≡ None) }
        ensures gates { IfOk result (λ b. b.gates ≡ []) }
    {
        Ok(Builder {
            inputs: vars,
            vars: vars as u64,
            clauses: Vec::new(alloc),
            one: None,
            gates: IndexMap::new(alloc),
        })
    }

    /// A literal that is true just where the table has 1 at the row of the inputs: row i is bit i
    /// of `table`, and input j is bit j of i.
    ///
    /// It need not be a new one. Inputs that are known do not count. A gate whose open rows agree
    /// is the constant, and one that equals an input or its negation is that literal. A gate that
    /// the builder has, with inputs in another order where the table allows it, is shared. After
    /// want of memory the builder may hold a gate more.
    pub fn define<const K: usize>(&mut self, table: u16, ins: [Lit; K]) -> Result<Lit, NoMemory>
        requires few { K ≤ 4 }
        requires within { AreWithin self.old.vars ins }
        ensures extends { Extends self.old self.new }
        ensures value { IfOk result (λ l. Tells self.new l (λ a. table_value table (number a ins.entry))) }

        // What is defined again is answered again, and adds nothing.
        ensures answer { IfOk result (λ l. Answers self.new table ins.entry l) }
        ensures again { (l : Lit) → Answers self.old table ins.entry l → (result ≡ Ok l) × (self.new ≡ self.old) }

        // A gate that is folded.
        ensures constant { (v : Bool) → HasOneValue self.old.one table ins.entry v → IfOk result (λ l. known_of self.new.one l ≡ Some v) }
        ensures copy { (j : ℕ) (same : Bool) → IsInput self.old.one table ins.entry j same → (result ≡ Ok (copy_lit same (slice_index_or ins.entry j no_input))) × (self.new ≡ self.old) }

        // Any other gate.
        ensures adds { let gate = open_gate self.old.one table ins.entry in IsProper gate → literal_of self.old.gates (in_order gate) ≡ None → OnOk result (Adds self.old self.new (clause_count gate.count gate.table)) }
    {
        let gate = open_gate(self.one, table, &ins);
        self.literal(gate)
    }

    /// A literal of a fresh variable that always equals this one.
    pub fn root(&mut self, lit: Lit) -> Result<Lit, NoMemory>
        requires { IsWithin self.old.vars lit }
        ensures extends { Extends self.old self.new }
        ensures fresh { IfOk result (λ l. l ≡ record { var = self.new.vars; neg = false }) }
        ensures vars { OnOk result (self.new.vars ≡ self.old.vars + 1) }
        ensures value { IfOk result (λ l. Tells self.new l (λ a. lit_value a lit)) }
    {
        self.fresh_gate(table!(same), &[lit])
    }

    /// What the literal always is, where that is known.
    pub fn known(&self, lit: Lit) -> Option<bool>
        requires { IsWithin self.now.vars lit }
        ensures known { result ≡ known_of self.now.one lit }
        ensures value { MatchOption result ⊤ (λ v. Tells self.now lit (λ _. v)) }
    {
        known_of(self.one, lit)
    }

    /// The variables and the clauses.
    pub fn finish(self) -> Cnf
        ensures vars { result.vars ≡ self.vars }
        ensures clauses { result.clauses.items ≡ self.clauses }
        ensures within { All (AreWithin self.vars) self.clauses }
        ensures settled { AreSettled self.inputs self.vars self.clauses }
    {
        Cnf {
            vars: self.vars,
            clauses: self.clauses,
        }
    }

    /// The literal of a gate, without clauses where it is constant or a copy of an input.
    fn literal(&mut self, gate: Gate) -> Result<Lit, NoMemory>
        requires few { gate.count ≤ 4 }
        requires within { AreWithin self.old.vars (inputs_of gate) }
        ensures extends { Extends self.old self.new }
        ensures value { IfOk result (λ l. Tells self.new l (gate_value gate)) }
        ensures answer { IfOk result (λ l. HasLiteral self.new gate l) }
        ensures again { (l : Lit) → HasLiteral self.old gate l → (result ≡ Ok l) × (self.new ≡ self.old) }
        ensures adds { IsProper gate → literal_of self.old.gates (in_order gate) ≡ None → OnOk result (Adds self.old self.new (clause_count gate.count gate.table)) }
    {
        match kind_of(&gate) {
            GateKind::Constant(value) => self.constant(value),
            GateKind::Copy(lit) => Ok(lit),
            GateKind::Proper => self.shared_gate(gate.in_order()),
        }
    }

    /// A literal that always has this value.
    fn constant(&mut self, value: bool) -> Result<Lit, NoMemory>
        ensures extends { Extends self.old self.new }
        ensures value { IfOk result (λ l. Tells self.new l (λ _. value)) }
        ensures answer { IfOk result (λ l. (o : Lit) × ((self.new.one ≡ Some o) × (l ≡ copy_lit value o))) }
        ensures again { (o : Lit) → self.old.one ≡ Some o → (result ≡ Ok (copy_lit value o)) × (self.new ≡ self.old) }
    {
        let one = self.one()?;
        Ok(if value { one } else { one.flipped() })
    }

    /// The literal that is always true.
    fn one(&mut self) -> Result<Lit, NoMemory>
        ensures extends { Extends self.old self.new }
        ensures value { IfOk result (λ l. Tells self.new l (λ _. true)) }
        ensures answer { IfOk result (λ l. self.new.one ≡ Some l) }
        ensures again { (o : Lit) → self.old.one ≡ Some o → (result ≡ Ok o) × (self.new ≡ self.old) }
    {
        match self.one {
            Some(one) => Ok(one),
            None => {
                let made = self.fresh_gate(table!(always), &[])?;
                self.one = Some(made);
                Ok(made)
            }
        }
    }

    /// The literal of a gate that is shared, or is from now on.
    fn shared_gate(&mut self, gate: Gate) -> Result<Lit, NoMemory>
        requires few { gate.count ≤ 4 }
        requires within { AreWithin self.old.vars (inputs_of gate) }
        ensures extends { Extends self.old self.new }
        ensures value { IfOk result (λ l. Tells self.new l (gate_value gate)) }
        ensures answer { IfOk result (λ l. literal_of self.new.gates gate ≡ Some l) }
        ensures again { (l : Lit) → literal_of self.old.gates gate ≡ Some l → (result ≡ Ok l) × (self.new ≡ self.old) }
        ensures adds { literal_of self.old.gates gate ≡ None → OnOk result (Adds self.old self.new (clause_count gate.count gate.table)) }
    {
        match self.gates.get(&gate).copied() {
            Some(lit) => Ok(lit),
            None => {
                let made = self.fresh_gate(gate.table, gate.inputs())?;
                self.gates.insert(gate, made)?;
                Ok(made)
            }
        }
    }

    /// A gate of its own: a fresh variable, and the clauses of the table.
    fn fresh_gate(&mut self, table: u16, ins: &[Lit]) -> Result<Lit, NoMemory>
        requires few { length ins.now ≤ 4 }
        requires within { AreWithin self.old.vars ins.now }
        ensures extends { Extends self.old self.new }
        ensures fresh { IfOk result (λ l. l ≡ record { var = self.new.vars; neg = false }) }
        ensures adds { OnOk result (Adds self.old self.new (clause_count (length ins.now) table)) }
        ensures kept { (self.new.one ≡ self.old.one) × (self.new.gates ≡ self.old.gates) }
        ensures value { IfOk result (λ l. Tells self.new l (λ a. table_value table (number a ins.now))) }
    {
        let alloc = *self.clauses.allocator();
        let var = self.vars + 1;
        let mut clauses = clauses(alloc, table, ins, var)?;
        self.clauses.append(&mut clauses)?;
        self.vars = var;
        Ok(Lit { var, neg: false })
    }
}
