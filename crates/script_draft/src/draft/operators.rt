//! Lines of operators.
ghost use Rattle.std.specs.Prelude.{◌≡◌, ◌+◌, ◌≤◌, ◌==◌, not, ◌||◌, nat_le, nat_lt, false, None, map, is_none, unwrap_or, IfOk, OnOk, OnErr};
ghost use Rattle.dpc_lists.specs.Lists.{nth, is_nil, list_any, list_all};
ghost use Rattle.dpc_model.specs.Words.{Word};
ghost use Rattle.dpc_model.specs.declared.operators.OpKind.{OpKind};
ghost use Rattle.dpc_model.specs.declared.operators.Wire.TheVariants.{Port};
ghost use Rattle.dpc_model.specs.Columns.{kind_columns, wire_columns};
ghost use Rattle.script_rules.specs.Statements.{OperatorLine};
ghost use Rattle.script_rules.specs.Drafts as spec;
ghost use Rattle.script_rules.specs.Reasons as reason;
ghost use Rattle.script_draft.specs.Columns.{ports_of, outs_of};
ghost use Rattle.script_draft.specs.Names.{names_in};
ghost use Rattle.script_draft.specs.Shapes.{HasShape};

use crate::draft::Draft;
use crate::draft::columns::columns_of_kind;
use crate::draft::sources::name_of_bytes;
use crate::limits::{MOST_COLUMNS, MOST_OPERATORS};
use crate::name_list::NameList;
use crate::shape::Shape;
use dpc_lists::faults::NoMemory;
use dpc_lists::lists::Listed;
use dpc_model::operators::{OpKind, OpSpec, Wire};
use dpc_model::plans::FragSpec;
use script_rules::reasons::Reason;
use std::alloc::Global;

/// Whether an input has fewer columns than are read, or a result has too many.
fn misses(input: u64, reads: u64, output: u64) -> bool
    ensures { result ≡ (not (nat_le reads input) || nat_lt 8 output) }
{
    input < reads || output > MOST_COLUMNS
}

/// Whether the first or the second input has fewer columns than are read, or both have too many.
fn misses_of_two(first: u64, second: u64, left: u64, right: u64) -> bool
    requires first { first ≤ 8 }
    requires second { second ≤ 8 }
    ensures { result ≡ (not (nat_le right second) || (not (nat_le left first) || nat_lt 8 (first + second))) }
{
    second < right || misses(first, left, first + second)
}

/// A further operator of the last fragment.
fn push_operator(frags: &mut Vec<FragSpec>, op: OpSpec) -> Result<(), NoMemory>
    requires { is_nil frags.old.items ≡ false }
    ensures ok { OnOk result (frags.new.items ≡ spec.change_last (spec.with_op op) frags.old.items) }
    ensures err { OnErr result (frags.new.items ≡ frags.old.items) }
{
    let last = frags.len() - 1;
    frags[last].ops.push(op)?;
    Ok(())
}

impl Draft {
    /// Whether some name is nothing that an operator of the last fragment may read.
    fn reads_unknown(&self, inputs: NameList<'_>) -> bool
        ensures { result ≡ list_any (λ w. is_none (spec.wire_named self.now w)) (names_in inputs.entry) }
    {
        let mut names = inputs;
        while let Some(name) = names.next() {
            if self.wire_named(name).is_none() {
                return true;
            }
        }
        false
    }

    /// The columns of the first input, and 0 where there is none.
    fn first_columns(&self, inputs: NameList<'_>) -> u64
        ensures columns { result ≡ nth 0 (reason.input_columns self.now (names_in inputs.entry)) 0 }
        ensures few { result ≤ 8 }
    {
        let mut names = inputs;
        match names.next() {
            Some(name) => self.columns_of_input(name).unwrap_or(0),
            None => 0,
        }
    }

    /// The columns of the second input, and 0 where there is none.
    fn second_columns(&self, inputs: NameList<'_>) -> u64
        ensures columns { result ≡ nth 0 (reason.input_columns self.now (names_in inputs.entry)) 1 }
        ensures few { result ≤ 8 }
    {
        let mut names = inputs;
        match names.next() {
            Some(_) => self.first_columns(names),
            None => 0,
        }
    }

    /// Whether all inputs have so many columns.
    fn all_have(&self, inputs: NameList<'_>, columns: u64) -> bool
        ensures { result ≡ list_all (λ n. n == columns) (reason.input_columns self.now (names_in inputs.entry)) }
    {
        let mut names = inputs;
        while let Some(name) = names.next() {
            if self.columns_of_input(name).unwrap_or(0) != columns {
                return false;
            }
        }
        true
    }

    /// Whether an operator of this shape reads a column that is not there, or its result has too many.
    fn misses_column(&self, inputs: NameList<'_>, shape: Shape) -> bool
        ensures { (name : Word) → (kind : OpKind) → HasShape kind shape
            → result ≡ reason.misses_column self.now (OperatorLine name (names_in inputs.entry) kind) }
    {
        let first = self.first_columns(inputs);
        match shape {
            Shape::Filter(reads, _) => first < reads,
            Shape::Union => !self.all_have(inputs, first),
            Shape::Join(left, right) => {
                let second = self.second_columns(inputs);
                misses_of_two(first, second, left, right)
            }
            Shape::Map(reads, _, columns) => misses(first, reads, columns),
            Shape::Aggregate(_, _, reads, columns) => misses(first, reads, columns),
        }
    }

    /// Whether there is no room for a further operator in the last fragment.
    fn is_full_of_operators(&self) -> bool
        ensures { result ≡ reason.is_full 16 (spec.last_frag self.now).ops }
    {
        match self.last_frag() {
            Some(frag) => frag.ops.len() >= MOST_OPERATORS,
            None => false,
        }
    }

    /// Whether there is no room for an operator of this shape, or it is too large.
    fn passes_limit(&self, shape: Shape) -> bool
        ensures { (kind : OpKind) → HasShape kind shape
            → result ≡ (reason.is_full 16 (spec.last_frag self.now).ops || reason.is_too_large kind) }
    {
        self.is_full_of_operators() || shape.is_too_large()
    }

    /// The least reason against the line of an operator of this shape.
    pub fn fault_of_operator(
        &self,
        name: &[u8],
        inputs: NameList<'_>,
        shape: Shape,
    ) -> Option<Reason>
        ensures { (kind : OpKind) → HasShape kind shape
            → result ≡ reason.first_of_tests (reason.tests_said self.now (OperatorLine name.now (names_in inputs.entry) kind)) }
    {
        if self.is_name_taken(name) {
            Some(Reason::NameTaken)
        } else if self.reads_unknown(inputs) {
            Some(Reason::Unknown)
        } else if self.misses_column(inputs, shape) {
            Some(Reason::NoSuchColumn)
        } else if self.passes_limit(shape) {
            Some(Reason::PastLimit)
        } else {
            None
        }
    }

    /// What an operator reads by these names, and the first port in place of what is not there.
    fn wires(&self, alloc: Global, names: NameList<'_>) -> Result<Vec<Wire>, NoMemory>
        ensures { IfOk result (λ wires. wires.items
            ≡ map (λ w. unwrap_or (spec.wire_named self.now w) (Port 0)) (names_in names.entry)) }
    {
        let mut names = names;
        let mut wires = Vec::new(alloc);
        while let Some(name) = names.next() {
            wires.push(self.wire_named(name).unwrap_or(Wire::Port(0)))?;
        }
        Ok(wires)
    }

    /// The line of an operator.
    pub fn add_operator(
        &mut self,
        alloc: Global,
        name: &[u8],
        inputs: NameList<'_>,
        kind: OpKind,
    ) -> Result<(), NoMemory>
        requires part { is_nil self.old.frags ≡ false }
        requires faultless { reason.first_of_tests (reason.tests_said self.old (OperatorLine name.now (names_in inputs) kind)) ≡ None }
        ensures ok { OnOk result (self.new ≡ spec.and_then self.old (OperatorLine name.now (names_in inputs.entry) kind)) }
        ensures err { OnErr result (self.new ≡ self.old) }
    {
        let first = self.first_columns(inputs);
        let second = self.second_columns(inputs);
        let columns = columns_of_kind(&kind, first, second);
        let reads = Listed::from_vec(self.wires(alloc, inputs)?);
        let name = name_of_bytes(alloc, name)?;
        self.append_operator(OpSpec { name, kind, reads }, columns)?;
        Ok(())
    }

    /// A further operator of the last fragment, whose result has so many columns.
    fn append_operator(&mut self, op: OpSpec, columns: u64) -> Result<(), NoMemory>
        requires part { is_nil self.old.frags ≡ false }
        requires few { columns ≤ 8 }
        requires columns { columns ≡ kind_columns op.kind (map (wire_columns (ports_of self.old) (outs_of self.old)) op.reads) }
        ensures ok { OnOk result (self.new ≡ record self.old { frags = spec.change_last (spec.with_op op) self.old.frags }) }
        ensures err { OnErr result (self.new ≡ self.old) }
    {
        self.outs.push(columns)?;
        match push_operator(&mut self.frags, op) {
            Ok(()) => Ok(()),
            Err(fault) => {
                self.outs.pop();
                Err(fault)
            }
        }
    }
}
