//! The entry that a line is.
ghost use Rattle.std.specs.Prelude.{◌≡◌, IfOk};
ghost use Rattle.script_words.specs.Numbers.{u64_of};
ghost use Rattle.journal_text.specs.Actors.{actor_of};
ghost use Rattle.journal_text.specs.Entries as spec;
ghost use Rattle.journal_text.specs.declared.sorts.Sort.TheVariants.{Any};

use crate::actors::actor_of;
use crate::lines::{cut, is};
use crate::sorts::Sort;
use dpc_lists::faults::NoMemory;
use dpc_model::messages::Event;
use dpc_model::plans::Plan;
use script_words::spelling::number;

/// An actor of a sort, and a number.
fn actor_and_number(
    plan: &Plan,
    sort: Sort,
    a: &[u8],
    b: &[u8],
) -> Result<Option<(u32, u64)>, NoMemory>
    ensures { IfOk result (λ pair. pair ≡ spec.both (actor_of plan.now sort a.now) (u64_of b.now)) }
{
    let Some(actor) = actor_of(plan, sort, a)? else {
        return Ok(None);
    };
    let Some(number) = number(b) else {
        return Ok(None);
    };
    Ok(Some((actor, number)))
}

/// Two actors.
fn two_actors(plan: &Plan, a: &[u8], b: &[u8]) -> Result<Option<(u32, u32)>, NoMemory>
    ensures { IfOk result (λ pair. pair ≡ spec.both (actor_of plan.now Any a.now) (actor_of plan.now Any b.now)) }
{
    let Some(from) = actor_of(plan, Sort::Any, a)? else {
        return Ok(None);
    };
    let Some(to) = actor_of(plan, Sort::Any, b)? else {
        return Ok(None);
    };
    Ok(Some((from, to)))
}

/// The entry that two words are.
fn entry_of_two(plan: &Plan, word: &[u8], a: &[u8]) -> Result<Option<Event>, NoMemory>
    ensures { IfOk result (λ entry. entry ≡ spec.entry_of_two plan.now word.now a.now) }
{
    if is(word, b"deliver") {
        Ok(number(a).map(|k| Event::Deliver(k)))
    } else if is(word, b"phase") {
        Ok(number(a).map(|p| Event::Phase(p)))
    } else if is(word, b"crash") {
        Ok(actor_of(plan, Sort::Node, a)?.map(|n| Event::Crash(n)))
    } else {
        Ok(None)
    }
}

/// The entry that three words are.
fn entry_of_three(plan: &Plan, word: &[u8], a: &[u8], b: &[u8]) -> Result<Option<Event>, NoMemory>
    ensures { IfOk result (λ entry. entry ≡ spec.entry_of_three plan.now word.now a.now b.now) }
{
    if is(word, b"tick") {
        Ok(actor_and_number(plan, Sort::Any, a, b)?.map(|(a, now)| Event::Tick(a, now)))
    } else if is(word, b"mill") {
        Ok(actor_and_number(plan, Sort::Node, a, b)?.map(|(n, r)| Event::Mill(n, r)))
    } else if is(word, b"emit") {
        Ok(actor_and_number(plan, Sort::Source, a, b)?.map(|(s, t)| Event::Emit(s, t)))
    } else if is(word, b"release") {
        Ok(actor_and_number(plan, Sort::Source, a, b)?.map(|(s, t)| Event::Release(s, t)))
    } else if is(word, b"cut") {
        Ok(two_actors(plan, a, b)?.map(|(a, b)| Event::Cut(a, b)))
    } else if is(word, b"heal") {
        Ok(two_actors(plan, a, b)?.map(|(a, b)| Event::Heal(a, b)))
    } else if is(word, b"restart") {
        Ok(actor_and_number(plan, Sort::Node, a, b)?.map(|(n, inc)| Event::Restart(n, inc)))
    } else {
        Ok(None)
    }
}

/// The entry that a line is. Nothing is copied.
pub fn entry_of(plan: &Plan, line: &[u8]) -> Result<Option<Event>, NoMemory>
    ensures { IfOk result (λ entry. entry ≡ spec.entry_of plan.now line.now) }
{
    let Some(words) = cut(line) else {
        return Ok(None);
    };
    match words.third {
        None => entry_of_two(plan, words.first, words.second),
        Some(third) => entry_of_three(plan, words.first, words.second, third),
    }
}
