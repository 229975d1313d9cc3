//! Which actors a link joins.
ghost use Rattle.std.specs.Prelude.{◌≡◌, ℕ, Some, is_some, IfOk, IfSome};
ghost use Rattle.dpc_model.specs.Actors.{reads_from};
ghost use Rattle.dpc_model.specs.declared.scripts.Directive.{Directive};
ghost use Rattle.script_rules.specs.Statements.{LinkLine};
ghost use Rattle.script_rules.specs.Drafts as spec;
ghost use Rattle.script_rules.specs.Reasons as reason;
ghost use Rattle.script_draft.specs.Caches.{fault_in};
ghost use Rattle.script_draft.specs.Nodes.{roles_linked, AreNamed};

use crate::draft::Draft;
use dpc_model::actors::{Role, are_replicas, sends, sends_any};
use script_rules::reasons::Reason;

impl Draft {
    /// Whether an actor reads what another one sends.
    fn reads_from(&self, reader: Role, sender: Role) -> bool
        ensures { result ≡ reads_from (spec.plan_of self.now) reader sender }
    {
        match reader {
            Role::Source(_) | Role::Nobody => false,
            Role::Node(frag, _) => match self.frags.get(frag as usize) {
                Some(frag) => sends_any(frag.inputs.as_slice(), sender),
                None => false,
            },
            Role::Client(client) => match self.clients.get(client as usize) {
                Some(client) => sends(client.input, sender),
                None => false,
            },
        }
    }

    /// Whether a link joins two actors.
    fn are_linked(&self, a: Role, b: Role) -> bool
        ensures { result ≡ roles_linked (spec.plan_of self.now) a b }
    {
        self.reads_from(a, b) || self.reads_from(b, a) || are_replicas(a, b)
    }

    /// The two actors of these names, where a link joins them.
    fn link(&self, a: &[u8], b: &[u8]) -> Option<(u64, u64)>
        ensures found { IfSome result (λ link. AreNamed self.now a.now b.now link.0 link.1) }
        ensures known { is_some result ≡ reason.names_link self.now a.now b.now }
    {
        let x = self.actor(a)?;
        let y = self.actor(b)?;
        if self.are_linked(x.role, y.role) {
            Some((x.number, y.number))
        } else {
            None
        }
    }

    /// The two actors whose link a line names, or the least reason against the line.
    pub fn link_of_line(&self, a: &[u8], b: &[u8]) -> Result<(u64, u64), Reason>
        ensures found { IfOk result (λ link. AreNamed self.now a.now b.now link.0 link.1) }
        ensures fault { (make : ℕ → ℕ → Directive)
            → fault_in result ≡ reason.first_of_tests (reason.tests_said self.now (LinkLine make a.now b.now)) }
    {
        match self.link(a, b) {
            Some(link) => Ok(link),
            None => Err(Reason::Unknown),
        }
    }
}
