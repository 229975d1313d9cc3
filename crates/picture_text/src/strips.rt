//! Strips: one for each phase, a letter for each row.
ghost use Rattle.std.specs.Prelude.{◌≡◌, ◌≤◌, ◌<◌, ◌-◌, ◌++◌, length, map, flat_map, drop, IfOk, OnOk};
ghost use Rattle.dpc_lists.specs.Lists.{nth, range_with_len};
ghost use Rattle.picture_model.specs.Points.{first_point};
ghost use Rattle.picture_text.specs.Signs.{state_sign};
ghost use Rattle.picture_text.specs.Strips.{no_column, first_client, source_at, client_at, strip_of, strip_at, column_before, all_strips, looks_same, alike_before, shown, folded, strips_of};

use crate::signs::{client_sign, link_sign, put_number, reads_sign, source_sign, state_sign};
use dpc_lists::exact::copied;
use dpc_lists::faults::NoMemory;
use dpc_lists::lists::Listed;
use picture_model::columns::{ClientPoint, Column, ReplicaState, SourcePoint};
use std::alloc::Global;

/// The letters of a phase from top to bottom; none where it stands for phases that are left out.
pub(crate) type Strip = Listed<u8>;

/// What stands before the first phase.
fn no_column(alloc: Global) -> Column
    ensures { result ≡ no_column }
{
    Column {
        number: 0,
        clock: 0,
        sources: Listed::from_vec(Vec::new(alloc)),
        replicas: Listed::from_vec(Vec::new(alloc)),
        clients: Listed::from_vec(Vec::new(alloc)),
        cuts: 0,
        marks: Listed::from_vec(Vec::new(alloc)),
    }
}

/// The source at a place, or one that sent nothing.
pub fn source_point(sources: &[SourcePoint], i: usize) -> SourcePoint
    ensures { result ≡ nth first_point sources.now i }
{
    match sources.get(i) {
        Some(source) => *source,
        None => SourcePoint { sent: 0, bound: 0 },
    }
}

/// The client at a place, or one that took nothing.
pub fn client_point(clients: &[ClientPoint], i: usize) -> ClientPoint
    ensures { result ≡ nth first_client clients.now i }
{
    match clients.get(i) {
        Some(client) => *client,
        None => ClientPoint {
            stable: 0,
            bound: 0,
            tentative: 0,
            undos: 0,
            dones: 0,
            reads: 0,
            settled: false,
        },
    }
}

/// A letter for each source.
fn put_sources(
    strip: &mut Vec<u8>,
    end: u64,
    before: &[SourcePoint],
    now: &[SourcePoint],
) -> Result<(), NoMemory>
    ensures { OnOk result (strip.new.items
        ≡ strip.old.items ++ map (source_at end before.now now.now) (range_with_len 0 (length now.now))) }
{
    for i in 0..now.len() {
        strip.push(source_sign(end, source_point(before, i), source_point(now, i)))?;
    }
    Ok(())
}

/// A letter for each replica.
fn put_replicas(strip: &mut Vec<u8>, replicas: &[ReplicaState]) -> Result<(), NoMemory>
    ensures { OnOk result (strip.new.items ≡ strip.old.items ++ map state_sign replicas.now) }
{
    for replica in replicas {
        strip.push(state_sign(*replica))?;
    }
    Ok(())
}

/// Two letters of a client.
fn put_client(
    strip: &mut Vec<u8>,
    before: &[ClientPoint],
    now: &[ClientPoint],
    i: usize,
) -> Result<(), NoMemory>
    ensures { OnOk result (strip.new.items ≡ strip.old.items ++ client_at before.now now.now i) }
{
    let client = client_point(now, i);
    strip.push(client_sign(client_point(before, i), client))?;
    strip.push(reads_sign(client))?;
    Ok(())
}

/// Two letters for each client.
fn put_clients(
    strip: &mut Vec<u8>,
    before: &[ClientPoint],
    now: &[ClientPoint],
) -> Result<(), NoMemory>
    ensures { OnOk result (strip.new.items
        ≡ strip.old.items ++ flat_map (client_at before.now now.now) (range_with_len 0 (length now.now))) }
{
    for i in 0..now.len() {
        put_client(strip, before, now, i)?;
    }
    Ok(())
}

/// The strip of a phase, by the one before.
fn strip_of(alloc: Global, end: u64, before: &Column, now: &Column) -> Result<Strip, NoMemory>
    ensures { IfOk result (λ strip. strip ≡ strip_of end before.now now.now) }
{
    let mut strip = Vec::new(alloc);
    put_number(&mut strip, now.number)?;
    put_sources(
        &mut strip,
        end,
        before.sources.as_slice(),
        now.sources.as_slice(),
    )?;
    strip.push(link_sign(now.cuts))?;
    put_replicas(&mut strip, now.replicas.as_slice())?;
    put_clients(
        &mut strip,
        before.clients.as_slice(),
        now.clients.as_slice(),
    )?;
    Ok(Listed::from_vec(strip))
}

/// The strip of the phase at a place.
fn strip_at(alloc: Global, end: u64, columns: &[Column], i: usize) -> Result<Strip, NoMemory>
    requires { i < length columns.now }
    ensures { IfOk result (λ strip. strip ≡ strip_at end columns.now i) }
{
    if i == 0 {
        strip_of(alloc, end, &no_column(alloc), &columns[i])
    } else {
        strip_of(alloc, end, &columns[i - 1], &columns[i])
    }
}

/// The strips of all phases.
fn all_strips(alloc: Global, end: u64, columns: &[Column]) -> Result<Vec<Strip>, NoMemory>
    ensures { IfOk result (λ strips. strips.items ≡ all_strips end columns.now) }
{
    let mut strips = Vec::new(alloc);
    for i in 0..columns.len() {
        strips.push(strip_at(alloc, end, columns, i)?)?;
    }
    Ok(strips)
}

/// What stands behind the number of a phase.
fn letters(strip: &Strip) -> &[u8]
    ensures { result.now ≡ drop 4 strip.now }
{
    let letters = strip.as_slice();
    &letters[letters.len().min(4)..]
}

/// Whether two strips look the same but for their numbers.
fn looks_same(strip: &Strip, other: &Strip) -> bool
    ensures { result ≡ looks_same strip.now other.now }
{
    letters(strip) == letters(other)
}

/// How many strips directly before the one at place i look like it, 4 where there are more; `before` is how
/// many look like the one before it.
fn alike_at(strips: &[Strip], i: usize, before: u64) -> u64
    requires place { i < length strips.now }
    requires before { before ≡ alike_before strips.now (i - 1) }
    ensures { result ≡ alike_before strips.now i }
{
    if i == 0 {
        return 0;
    }
    if looks_same(&strips[i - 1], &strips[i]) {
        before.min(3) + 1
    } else {
        0
    }
}

/// A strip that so many before it look like: it is shown, stands for others without letters, or is left out.
fn put_shown(
    alloc: Global,
    strips: &mut Vec<Strip>,
    alike: u64,
    strip: &Strip,
) -> Result<(), NoMemory>
    ensures { OnOk result (strips.new.items ≡ strips.old.items ++ shown alike strip.now) }
{
    if alike < 3 {
        strips.push(Listed::from_vec(copied(alloc, strip.as_slice())?))?;
    } else if alike == 3 {
        strips.push(Listed::from_vec(Vec::new(alloc)))?;
    }
    Ok(())
}

/// The strips without long quiet stretches.
fn folded(alloc: Global, all: &[Strip]) -> Result<Vec<Strip>, NoMemory>
    ensures { IfOk result (λ strips. strips.items ≡ folded all.now) }
{
    let mut strips = Vec::new(alloc);
    let mut alike: u64 = 0;
    for i in 0..all.len() {
        alike = alike_at(all, i, alike);
        put_shown(alloc, &mut strips, alike, &all[i])?;
    }
    Ok(strips)
}

/// The strips that are shown of columns whose streams end at `end`.
pub(crate) fn strips_of(alloc: Global, end: u64, columns: &[Column]) -> Result<Vec<Strip>, NoMemory>
    ensures { IfOk result (λ strips. strips.items ≡ strips_of end columns.now) }
{
    let all = all_strips(alloc, end, columns)?;
    let strips = folded(alloc, all.as_slice())?;
    Ok(strips)
}
