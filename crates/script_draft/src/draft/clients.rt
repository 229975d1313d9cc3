//! Lines of clients, and what a script is once all is said.
ghost use Rattle.std.specs.Prelude.{◌≡◌, ◌==◌, OnOk, OnErr};
ghost use Rattle.script_rules.specs.Statements.{ClientLine};
ghost use Rattle.script_rules.specs.Drafts as spec;
ghost use Rattle.script_rules.specs.Reasons.{first_of_tests, tests_said};
ghost use Rattle.script_rules.specs.Reading as reading;

use crate::draft::Draft;
use crate::draft::sources::name_of_bytes;
use crate::limits::MOST_CLIENTS;
use dpc_lists::faults::NoMemory;
use dpc_lists::lists::Listed;
use dpc_model::plans::{ClientSpec, Plan, StreamRef};
use dpc_model::scripts::Script;
use script_rules::reasons::Reason;
use std::alloc::Global;

impl Draft {
    /// The least reason against the line of a client.
    pub fn fault_of_client(&self, name: &[u8], stream: &[u8]) -> Option<Reason>
        ensures { result ≡ first_of_tests (tests_said self.now (ClientLine name.now stream.now)) }
    {
        if self.is_name_taken(name) {
            Some(Reason::NameTaken)
        } else if self.stream_named(stream).is_none() {
            Some(Reason::ReadsAhead)
        } else if self.clients.len() >= MOST_CLIENTS {
            Some(Reason::PastLimit)
        } else {
            None
        }
    }

    /// The line of a client.
    pub fn add_client(&mut self, alloc: Global, name: &[u8], stream: &[u8]) -> Result<(), NoMemory>
        ensures ok { OnOk result (self.new ≡ spec.and_then self.old (ClientLine name.now stream.now)) }
        ensures err { OnErr result (self.new ≡ self.old) }
    {
        let input = self.stream_named(stream).unwrap_or(StreamRef::Source(0));
        let name = name_of_bytes(alloc, name)?;
        self.clients.push(ClientSpec { name, input })?;
        Ok(())
    }

    /// The reason against the end of input.
    pub fn fault_of_end(&self) -> Option<Reason>
        ensures { result ≡ reading.fault_of_end self.now }
    {
        if !self.begun || !self.directives.is_empty() {
            Some(Reason::PartMissing)
        } else {
            None
        }
    }

    /// The script, once all is said.
    pub fn into_script(self) -> Script
        ensures { result ≡ spec.script_of self }
    {
        let version = self.version_of();
        let passing = self.is_passing();
        let width = self.width_of();
        let delay = self.header_number(2, 0);
        let end = self.end_of();
        let plan = Plan {
            version,
            passing,
            width,
            delay,
            end,
            sources: Listed::from_vec(self.sources),
            frags: Listed::from_vec(self.frags),
            clients: Listed::from_vec(self.clients),
        };
        Script {
            plan,
            phases: Listed::from_vec(self.phases),
            settle: self.settle,
        }
    }
}
