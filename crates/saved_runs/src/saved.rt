//! What a node has saved.
ghost use Rattle.std.specs.Prelude.{◌≡◌, length, Some};
ghost use Rattle.fragment_mill.specs.Mills.{MillState};
ghost use Rattle.node_model.specs.Stands.{SnapValue};
ghost use Rattle.phase_saves.specs.declared.kept.LastSave.TheVariants as last_save;
ghost use Rattle.saved_runs.specs.declared.saved.Saved.TheVariants as saved;

use phase_saves::kept::LastSave;
use pipeline::snapshots::Snapshot;

/// Nothing; or the last snapshot that it could save needs more bytes than a slot has; or that snapshot's cursor, the
/// number of the first tuple of its output that it keeps, and how many these are.
#[derive(Clone, Copy, PartialEq, Eq, Debug)]
pub enum Saved {
    Never,
    Full,
    Point { cursor: u64, base: u64, kept: u64 },
}

/// What is told where the last save went so, and this is what the disk has.
pub(crate) fn saved_of(last: LastSave, snapshot: Option<Snapshot>) -> Saved
    ensures never { last ≡ last_save.Never → result ≡ saved.Never }
    ensures full { last ≡ last_save.Full → result ≡ saved.Full }
    ensures kept { (v : SnapValue MillState) → last ≡ last_save.Kept → snapshot ≡ Some v → result ≡ saved.Point v.cursor v.base (length v.kept) }
{
    match (last, snapshot) {
        (LastSave::Full, _) => Saved::Full,
        (LastSave::Kept, Some(snapshot)) => Saved::Point {
            cursor: snapshot.cursor,
            base: snapshot.base,
            kept: snapshot.kept_count() as u64,
        },
        _ => Saved::Never,
    }
}
