//! Where things stand, and which phases are shown.
ghost use Rattle.std.specs.Prelude.{◌≡◌, ◌<◌, ◌≤◌, ◌+◌, ◌-◌, ◌*◌, ◌^◌, min, length};
ghost use Rattle.picture_svg.specs.Layout.{each_of, count_of, column_at, step_for, left_at, source_top, replica_top, client_top, height_in};
ghost use Rattle.picture_svg.specs.Svg.{group_at};

use picture_model::columns::Column;

/// A product, which always fits.
pub(crate) fn times(a: u64, b: u64) -> u128
    ensures product { result ≡ a * b }
    ensures small { result < 2 ^ 128 }
{
    u128::from(a) * u128::from(b)
}

/// Of how many phases one is shown.
pub(crate) fn each_of(columns: &[Column]) -> usize
    ensures each { result ≡ each_of columns.now }
    ensures some { 0 < result }
{
    columns.len().div_ceil(600).max(1)
}

/// How many are shown.
pub(crate) fn count_of(columns: &[Column]) -> usize
    ensures { result ≡ count_of columns.now }
{
    columns.len().div_ceil(each_of(columns))
}

/// How wide a phase is, where so many are shown.
pub(crate) fn step_for(count: usize) -> u64
    ensures step { result ≡ step_for count }
    ensures most { result ≤ 40 }
{
    (1200 / count.max(1) as u64).min(40).max(6)
}

/// Where the one in the j-th place begins.
pub(crate) fn left_at(step: u64, j: usize) -> u128
    requires { step ≤ 40 }
    ensures left { result ≡ left_at step j }
    ensures small { result < 2 ^ 72 }
{
    170 + times(step, j as u64)
}

/// The top of a source's lane, or of the links below so many.
pub(crate) fn source_top(s: usize) -> u128
    ensures top { result ≡ source_top s }
    ensures small { result < 2 ^ 80 }
{
    96 + 24 * s as u128
}

/// The top of a replica's lane, below so many sources.
pub(crate) fn replica_top(sources: usize, r: usize) -> u128
    ensures top { result ≡ replica_top sources r }
    ensures small { result < 2 ^ 80 }
{
    source_top(sources) + 24 * (r as u128 + 1)
}

/// The top of a client's lane, below so many sources and replicas.
pub(crate) fn client_top(sources: usize, replicas: usize, c: usize) -> u128
    ensures top { result ≡ client_top sources replicas c }
    ensures small { result < 2 ^ 80 }
{
    replica_top(sources, replicas) + 48 * c as u128
}

/// How high a part of a whole stands in so much room.
pub(crate) fn height_in(room: u64, part: u64, whole: u64) -> u64
    requires { room < 64 }
    ensures { result ≡ height_in room part whole }
{
    if whole == 0 {
        return 0;
    }
    let high = times(room, part) / u128::from(whole);
    high.min(u128::from(room)) as u64
}

/// Which column is shown in the j-th place, of so many.
fn place_at(length: usize, each: usize, j: usize) -> usize
    requires some { 0 < length }
    requires each { 0 < each }
    ensures place { result ≡ min (each * j + (each - 1)) (length - 1) }
    ensures within { result < length }
{
    let last = times(each as u64, j as u64).min(1 << 70) + (each as u128 - 1);
    last.min(length as u128 - 1) as usize
}

/// The column that is shown in the j-th place.
pub(crate) fn column_at(columns: &[Column], j: usize) -> &Column
    requires { j < count_of columns.now }
    ensures { result.now ≡ column_at columns.now j }
{
    &columns[place_at(columns.len(), each_of(columns), j)]
}

/// The columns of which the one in the j-th place is the last.
pub(crate) fn group_at(columns: &[Column], j: usize) -> &[Column]
    ensures { result.now ≡ group_at columns.now j }
{
    let each = each_of(columns);
    let first = times(each as u64, j as u64).min(columns.len() as u128) as usize;
    let behind = columns.split_at(first).1;
    behind.split_at(each.min(behind.len())).0
}
