//! One letter for what an actor did in a phase, or is at its end.
ghost use Rattle.std.specs.Prelude.{◌≡◌, ◌<◌, ◌++◌, OnOk};
ghost use Rattle.picture_text.specs.Signs.{digit_sign, number_signs, source_sign, link_sign, state_sign, correction_sign, holding_sign, client_sign, reads_sign};

use dpc_lists::faults::NoMemory;
use picture_model::columns::{ClientPoint, ReplicaState, SourcePoint};

/// A digit of a number; a space in front of its first one.
fn digit_sign(unit: u64, number: u64) -> u8
    requires { 0 < unit }
    ensures { result ≡ digit_sign unit number }
{
    if unit > 1 && number < unit {
        b' '
    } else {
        b'0' + (number / unit % 10) as u8
    }
}

/// The number of a phase, read downwards.
pub(crate) fn put_number(strip: &mut Vec<u8>, number: u64) -> Result<(), NoMemory>
    ensures { OnOk result (strip.new.items ≡ strip.old.items ++ number_signs number) }
{
    strip.push(digit_sign(1000, number))?;
    strip.push(digit_sign(100, number))?;
    strip.push(digit_sign(10, number))?;
    strip.push(digit_sign(1, number))?;
    Ok(())
}

/// What a source did, whose streams end at `end`.
pub(crate) fn source_sign(end: u64, before: SourcePoint, now: SourcePoint) -> u8
    ensures { result ≡ source_sign end before now }
{
    if before.bound < now.bound {
        b'r'
    } else if before.sent < now.sent {
        b'e'
    } else if now.bound == end {
        b'-'
    } else {
        b'.'
    }
}

/// How many links are cut.
pub fn link_sign(cuts: u64) -> u8
    ensures { result ≡ link_sign cuts }
{
    if cuts == 0 {
        b'.'
    } else if cuts < 10 {
        b'0' + cuts as u8
    } else {
        b'#'
    }
}

/// What a replica is.
pub(crate) fn state_sign(state: ReplicaState) -> u8
    ensures { result ≡ state_sign state }
{
    match state {
        ReplicaState::Stable => b'.',
        ReplicaState::UpFailure => b'U',
        ReplicaState::Stabilization => b'C',
        ReplicaState::Recovering => b'R',
        ReplicaState::Down => b'x',
    }
}

/// Whether a client took undo or rec_done, or else this letter.
fn correction_sign(undone: bool, done: bool, other: u8) -> u8
    ensures { result ≡ correction_sign undone done other }
{
    if undone && done {
        b'*'
    } else if undone {
        b'u'
    } else if done {
        b'd'
    } else {
        other
    }
}

/// What a client holds.
fn holding_sign(before: ClientPoint, now: ClientPoint) -> u8
    ensures { result ≡ holding_sign before now }
{
    if now.tentative > 0 {
        b'~'
    } else if now.settled {
        b'='
    } else if before.stable < now.stable {
        b'+'
    } else if before.bound < now.bound {
        b'+'
    } else {
        b'.'
    }
}

/// What a client took, or holds.
pub(crate) fn client_sign(before: ClientPoint, now: ClientPoint) -> u8
    ensures { result ≡ client_sign before now }
{
    let undone = before.undos < now.undos;
    let done = before.dones < now.dones;
    correction_sign(undone, done, holding_sign(before, now))
}

/// The replica that a client reads.
pub fn reads_sign(now: ClientPoint) -> u8
    ensures { result ≡ reads_sign now }
{
    b'0' + now.reads.min(9) as u8
}
