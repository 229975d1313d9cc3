//! The sorts of actors that entries name.
ghost use Rattle.std.specs.Prelude.{◌≡◌};
ghost use Rattle.journal_text.specs.Actors.{is_of};

use dpc_model::actors::Role;

/// Which actors an entry may name.
#[derive(Clone, Copy, PartialEq, Eq, Debug)]
pub enum Sort {
    Source,
    Node,
    Any,
}

/// Whether an actor is of a sort.
pub(crate) fn is_of(sort: Sort, role: Role) -> bool
    ensures { result ≡ is_of sort role }
{
    match (sort, role) {
        (_, Role::Nobody) => false,
        (Sort::Any, _) | (Sort::Source, Role::Source(_)) | (Sort::Node, Role::Node(..)) => true,
        _ => false,
    }
}
