//! Which clients two words name.
ghost use Rattle.std.specs.Prelude.{◌≡◌};
ghost use Rattle.pair_commands.specs.Named.{client_named, are_readers, pair_named};

use dpc_model::plans::Plan;

/// The number of the client under a name.
fn client_named(plan: &Plan, name: &[u8]) -> Option<usize>
    ensures { result ≡ client_named plan.now name.now }
{
    plan.clients
        .as_slice()
        .iter()
        .position(|client| client.name.as_slice() == name)
}

/// Whether two clients are not the same one, and read one stream.
fn are_readers(plan: &Plan, first: usize, second: usize) -> bool
    ensures { result ≡ are_readers plan.now first second }
{
    let clients = plan.clients.as_slice();
    match (clients.get(first), clients.get(second)) {
        (Some(one), Some(other)) => first != second && one.input == other.input,
        _ => false,
    }
}

/// The numbers of two clients of one stream under these names.
pub(crate) fn pair_named(plan: &Plan, first: &[u8], second: &[u8]) -> Option<(usize, usize)>
    ensures { result ≡ pair_named plan.now first.now second.now }
{
    let first = client_named(plan, first)?;
    let second = client_named(plan, second)?;
    if are_readers(plan, first, second) {
        Some((first, second))
    } else {
        None
    }
}
