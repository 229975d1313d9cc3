//! The names of rows.
ghost use Rattle.std.specs.Prelude.{◌≡◌, ◌++◌, ◌∷◌, [], map, flat_map, codes, decimal, IfOk, OnOk};
ghost use Rattle.dpc_model.specs.declared.plans.SourceSpec.{SourceSpec as Source};
ghost use Rattle.picture_text.specs.Text.{replica_labels, client_labels, labels_of};

use dpc_lists::exact::copied;
use dpc_lists::faults::NoMemory;
use dpc_lists::lists::{Listed, Name};
use dpc_model::plans::{ClientSpec, FragSpec, Plan, SourceSpec};
use itoa::Buffer;
use std::alloc::Global;

/// A row of this name.
fn put_label(alloc: Global, labels: &mut Vec<Name>, label: &[u8]) -> Result<(), NoMemory>
    ensures { OnOk result (labels.new.items ≡ labels.old.items ++ label.now ∷ []) }
{
    labels.push(Listed::from_vec(copied(alloc, label)?))?;
    Ok(())
}

fn put_sources(
    alloc: Global,
    labels: &mut Vec<Name>,
    sources: &[SourceSpec],
) -> Result<(), NoMemory>
    ensures { OnOk result (labels.new.items ≡ labels.old.items ++ map (λ (s : Source). s.name) sources.now) }
{
    for source in sources {
        put_label(alloc, labels, source.name.as_slice())?;
    }
    Ok(())
}

/// A node's name: its fragment, a dot and its replica's number.
fn node_name(alloc: Global, frag: &[u8], replica: u64) -> Result<Name, NoMemory>
    ensures { IfOk result (λ name. name ≡ frag.now ++ 46 ∷ decimal replica) }
{
    let mut name = copied(alloc, frag)?;
    name.push(b'.')?;
    let mut buffer = Buffer::new();
    name.extend_from_slice(buffer.format(replica).as_bytes())?;
    Ok(Listed::from_vec(name))
}

/// The replicas of a fragment.
fn put_replicas(alloc: Global, labels: &mut Vec<Name>, frag: &FragSpec) -> Result<(), NoMemory>
    ensures { OnOk result (labels.new.items ≡ labels.old.items ++ replica_labels frag.now) }
{
    for replica in 0..frag.replicas {
        labels.push(node_name(alloc, frag.name.as_slice(), replica)?)?;
    }
    Ok(())
}

/// The replicas of all fragments. Where memory ends, nothing is said of the list.
pub fn put_frags(alloc: Global, labels: &mut Vec<Name>, frags: &[FragSpec]) -> Result<(), NoMemory>
    ensures { OnOk result (labels.new.items ≡ labels.old.items ++ flat_map replica_labels frags.now) }
{
    for frag in frags {
        put_replicas(alloc, labels, frag)?;
    }
    Ok(())
}

fn put_client(alloc: Global, labels: &mut Vec<Name>, client: &ClientSpec) -> Result<(), NoMemory>
    ensures { OnOk result (labels.new.items ≡ labels.old.items ++ client_labels client.now) }
{
    put_label(alloc, labels, client.name.as_slice())?;
    put_label(alloc, labels, b"  reads")
}

fn put_clients(
    alloc: Global,
    labels: &mut Vec<Name>,
    clients: &[ClientSpec],
) -> Result<(), NoMemory>
    ensures { OnOk result (labels.new.items ≡ labels.old.items ++ flat_map client_labels clients.now) }
{
    for client in clients {
        put_client(alloc, labels, client)?;
    }
    Ok(())
}

/// The rows of the numbers of phases.
fn put_numbers(alloc: Global, labels: &mut Vec<Name>) -> Result<(), NoMemory>
    ensures { OnOk result (labels.new.items ≡ labels.old.items ++ (codes "phase" ∷ [] ∷ [] ∷ [] ∷ [])) }
{
    put_label(alloc, labels, b"phase")?;
    put_label(alloc, labels, b"")?;
    put_label(alloc, labels, b"")?;
    put_label(alloc, labels, b"")
}

/// The names of all rows from top to bottom.
pub(crate) fn labels_of(alloc: Global, plan: &Plan) -> Result<Vec<Name>, NoMemory>
    ensures { IfOk result (λ labels. labels.items ≡ labels_of plan.now) }
{
    let mut labels = Vec::new(alloc);
    put_numbers(alloc, &mut labels)?;
    put_sources(alloc, &mut labels, plan.sources.as_slice())?;
    put_label(alloc, &mut labels, b"cut links")?;
    put_frags(alloc, &mut labels, plan.frags.as_slice())?;
    put_clients(alloc, &mut labels, plan.clients.as_slice())?;
    Ok(labels)
}
