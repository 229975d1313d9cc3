//! A plan: sources, fragments of operators, and clients.
use crate::operators::OpSpec;
use crate::tuples::Tuples;
use dpc_lists::exact::Exact;
use dpc_lists::lists::{Listed, Name};
use std::alloc::{AllocError, Global};

/// The most replicas of a fragment.
pub const MOST_REPLICAS: usize = 4;

/// A stream: that of a source, or the output of a fragment.
#[derive(Clone, Copy, PartialEq, Eq)]
pub enum StreamRef {
    Source(u64),
    Frag(u64),
}

#[derive(Drop)]
pub struct SourceSpec {
    pub name: Name,
    pub columns: u64,
    pub log: Tuples,
}

#[derive(Drop)]
pub struct FragSpec {
    pub name: Name,
    pub replicas: u64,
    pub delay: Option<u64>,
    pub inputs: Listed<StreamRef>,
    pub ops: Listed<OpSpec>,
}

#[derive(Drop)]
pub struct ClientSpec {
    pub name: Name,
    pub input: StreamRef,
}

#[derive(Drop)]
pub struct Plan {
    pub version: u64,
    pub passing: bool,
    pub width: u64,
    pub delay: u64,
    pub end: u64,
    pub sources: Listed<SourceSpec>,
    pub frags: Listed<FragSpec>,
    pub clients: Listed<ClientSpec>,
}

impl Exact for StreamRef {
    fn copy(&self, _alloc: Global) -> Result<StreamRef, AllocError> {
        Ok(*self)
    }

    fn same(&self, other: &StreamRef) -> bool {
        *self == *other
    }
}

impl Exact for SourceSpec {
    fn copy(&self, alloc: Global) -> Result<SourceSpec, AllocError> {
        let name = self.name.copy(alloc)?;
        let log = self.log.copy(alloc)?;
        Ok(SourceSpec {
            name,
            columns: self.columns,
            log,
        })
    }

    fn same(&self, other: &SourceSpec) -> bool {
        self.name.same(&other.name) && self.columns == other.columns && self.log.same(&other.log)
    }
}

impl Exact for FragSpec {
    fn copy(&self, alloc: Global) -> Result<FragSpec, AllocError> {
        let name = self.name.copy(alloc)?;
        let inputs = self.inputs.copy(alloc)?;
        let ops = self.ops.copy(alloc)?;
        Ok(FragSpec {
            name,
            replicas: self.replicas,
            delay: self.delay,
            inputs,
            ops,
        })
    }

    fn same(&self, other: &FragSpec) -> bool {
        self.name.same(&other.name)
            && self.replicas == other.replicas
            && self.delay.same(&other.delay)
            && self.inputs.same(&other.inputs)
            && self.ops.same(&other.ops)
    }
}

impl Exact for ClientSpec {
    fn copy(&self, alloc: Global) -> Result<ClientSpec, AllocError> {
        let name = self.name.copy(alloc)?;
        Ok(ClientSpec {
            name,
            input: self.input,
        })
    }

    fn same(&self, other: &ClientSpec) -> bool {
        self.name.same(&other.name) && self.input == other.input
    }
}

impl Exact for Plan {
    fn copy(&self, alloc: Global) -> Result<Plan, AllocError> {
        let sources = self.sources.copy(alloc)?;
        let frags = self.frags.copy(alloc)?;
        let clients = self.clients.copy(alloc)?;
        Ok(Plan {
            version: self.version,
            passing: self.passing,
            width: self.width,
            delay: self.delay,
            end: self.end,
            sources,
            frags,
            clients,
        })
    }

    fn same(&self, other: &Plan) -> bool {
        let numbers = self.version == other.version
            && self.passing == other.passing
            && self.width == other.width
            && self.delay == other.delay
            && self.end == other.end;
        numbers
            && self.sources.same(&other.sources)
            && self.frags.same(&other.frags)
            && self.clients.same(&other.clients)
    }
}
