//! A script under way.
ghost use Rattle.std.specs.Prelude.{◌≡◌, None};
ghost use Rattle.dpc_lists.specs.Lists.{nth, last_or};
ghost use Rattle.std.specs.Option.{option_copied};
ghost use Rattle.script_rules.specs.Drafts as spec;

use dpc_model::plans::{ClientSpec, FragSpec, SourceSpec};
use dpc_model::scripts::{Directive, Phase};
use std::alloc::Global;
use std::marker::Model;

mod actors;
mod clients;
mod columns;
mod fragments;
mod links;
mod names;
mod operators;
mod parts;
mod phases;
mod sources;

/// What the lines of a script say so far. Contracts see the record `Draft`.
#[derive(Drop)]
pub struct Draft {
    header: Vec<u64>,
    sources: Vec<SourceSpec>,
    frags: Vec<FragSpec>,
    clients: Vec<ClientSpec>,
    begun: bool,
    phases: Vec<Phase>,
    directives: Vec<Directive>,
    settle: bool,
    /// How many entries all logs have.
    entries: u64,
    /// The numbers of the nodes that are down.
    down: Vec<u64>,
    /// The columns of the fragments before the last one, and of the ports and the operators of the last one.
    earlier: Vec<u64>,
    ports: Vec<u64>,
    outs: Vec<u64>,
}

impl Model for Draft {
    ghost use Rattle.std.specs.Coded.{codes};
    ghost use Rattle.dpc_model.specs.FormulaCode.{coded_formula};
    ghost use Rattle.script_rules.specs.Drafts as spec;
    ghost use Rattle.script_draft.specs.Caches.{CountsEntries, AreDown, HasFewNodes};
    ghost use Rattle.script_draft.specs.Columns.{AreColumns, source_columns};

    ghost Value = { spec.Draft };

    ghost coded = { Prim.hlevel (codes, coded_formula) };

    ghost view = { λ d. record {
      header = d.header.items;
      sources = d.sources.items;
      frags = d.frags.items;
      clients = d.clients.items;
      begun = d.begun;
      phases = d.phases.items;
      directives = d.directives.items;
      settle = d.settle;
    } };

    ghost invariant = { λ d. record {
      entries : CountsEntries d.sources.items d.entries;
      down : AreDown d.phases.items d.directives.items d.down.items;
      nodes : HasFewNodes d.frags.items;
      columns : AreColumns (source_columns d.sources.items) d.frags.items d.earlier.items d.ports.items d.outs.items;
    } };
}

impl Draft {
    /// Before the first line.
    pub fn new(alloc: Global) -> Draft
        ensures { result ≡ spec.nothing_yet }
    {
        Draft {
            header: Vec::new(alloc),
            sources: Vec::new(alloc),
            frags: Vec::new(alloc),
            clients: Vec::new(alloc),
            begun: false,
            phases: Vec::new(alloc),
            directives: Vec::new(alloc),
            settle: false,
            entries: 0,
            down: Vec::new(alloc),
            earlier: Vec::new(alloc),
            ports: Vec::new(alloc),
            outs: Vec::new(alloc),
        }
    }

    /// The number of a line of the header, and another number until it is there.
    fn header_number(&self, place: usize, otherwise: u64) -> u64
        ensures { result ≡ nth otherwise self.now.header place }
    {
        self.header.get(place).copied().unwrap_or(otherwise)
    }

    /// The version, 1 until it is named.
    pub fn version_of(&self) -> u64
        ensures { result ≡ spec.version_of self.now }
    {
        self.header_number(0, 1)
    }

    /// Whether the script is of the version with wide numbers.
    pub fn is_wide(&self) -> bool
        ensures { result ≡ spec.is_wide self.now }
    {
        self.version_of() == 3
    }

    /// The greatest end that there may be.
    pub fn greatest_end(&self) -> u64
        ensures { result ≡ spec.greatest_end self.now }
    {
        if self.is_wide() {
            (1 << 62) - 1
        } else {
            (1 << 40) - 1
        }
    }

    /// The width of a bucket; until it is named, the least that it can be.
    pub fn width_of(&self) -> u64
        ensures { result ≡ spec.width_of self.now }
    {
        self.header_number(1, 1)
    }

    /// The end; until it is named, the greatest that it can be.
    pub fn end_of(&self) -> u64
        ensures { result ≡ spec.end_of self.now }
    {
        self.header_number(3, self.greatest_end())
    }

    /// Whether stable output passes.
    pub fn is_passing(&self) -> bool
        ensures { result ≡ spec.is_passing self.now }
    {
        self.version_of() == 2 || (self.is_wide() && self.header_number(4, 0) == 1)
    }

    /// Whether every line of the header was read.
    pub fn has_header(&self) -> bool
        ensures { result ≡ spec.has_header self.now }
    {
        self.header.len() == if self.is_wide() { 5 } else { 4 }
    }

    /// The fragment whose operators stand behind it, where there is one.
    fn last_frag(&self) -> Option<&FragSpec>
        ensures { option_copied result ≡ last_or None self.now.frags }
    {
        self.frags.last()
    }
}
