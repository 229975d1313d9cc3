//! What a line says, taken into the script under way. No reason stands against the line's words and its part.
ghost use Rattle.std.specs.Prelude.{◌≡◌, ◌<◌, ◌^◌, ℕ, true, drop, take, Some};
ghost use Rattle.script_rules.specs.Drafts.{end_of};
ghost use Rattle.dpc_model.specs.declared.scripts.Directive.{Directive};
ghost use Rattle.script_rules.specs.Reasons.{is_its_part};
ghost use Rattle.script_rules.specs.Statements.{word, number_at, statement_of, BeginLine, SettleLine, SendLine, LinkLine};
ghost use Rattle.script_rules.specs.declared.keywords.Keyword.TheVariants as key;
ghost use Rattle.script_words.specs.Cursors.{words_left};
ghost use Rattle.script_words.specs.Numbers.{u64_of};
ghost use Rattle.script_words.specs.Faultless.{IsFaultless};
ghost use Rattle.script_draft.specs.Names.{names_in};
ghost use Rattle.diagram_reader.specs.Readings.{IsSaid, IsKeyword, sent, joined};

use crate::faults::LineFault;
use crate::operators::{aggregate, filter, join, map, union};
use dpc_model::scripts::Directive;
use script_draft::draft::Draft;
use script_draft::name_list::NameList;
use script_rules::keywords::Keyword;
use script_words::operands::read_values;
use script_words::spelling::number;
use script_words::words::Words;
use std::alloc::Global;

/// The number at a place.
pub fn number_at(words: Words<'_>, place: u64) -> u64
    requires { u64_of (word (words_left words) place) ≡ Some (number_at (words_left words) place) }
    ensures { result ≡ number_at (words_left words.entry) place }
{
    number(words.word(place)).unwrap_or(0)
}

/// So many names from a place on.
pub fn names_at(words: Words<'_>, place: u64, count: u64) -> NameList<'_>
    ensures { names_in result ≡ take count (drop place (words_left words.entry)) }
{
    let mut words = words;
    words.skip(place);
    NameList { words, left: count }
}

/// All names from a place on.
pub fn all_names(words: Words<'_>, place: u64) -> NameList<'_>
    ensures { names_in result ≡ drop place (words_left words.entry) }
{
    let mut words = words;
    words.skip(place);
    NameList {
        words,
        left: words.count(),
    }
}

/// A line of the header.
fn header(draft: &mut Draft, place: u64, words: Words<'_>) -> Result<(), LineFault>
    requires faultless { IsFaultless draft.old (key.Header place) (words_left words) }
    requires place { place < 5 }
    ensures { IsSaid draft.old draft.new (statement_of (key.Header place) (words_left words.entry)) result }
{
    let number = number_at(words, 0);
    if let Some(reason) = draft.fault_of_header(place, number) {
        return Err(LineFault::Refused(reason));
    }
    draft.add_header(number)?;
    Ok(())
}

/// The line of a source.
fn source(alloc: Global, draft: &mut Draft, words: Words<'_>) -> Result<(), LineFault>
    requires faultless { IsFaultless draft.old key.Source (words_left words) }
    requires part { is_its_part draft.old key.Source ≡ true }
    ensures { IsSaid draft.old draft.new (statement_of key.Source (words_left words.entry)) result }
{
    let name = words.word(0);
    let columns = number_at(words, 1);
    if let Some(reason) = draft.fault_of_source(name) {
        return Err(LineFault::Refused(reason));
    }
    draft.add_source(alloc, name, columns)?;
    Ok(())
}

/// The line of a fragment.
fn fragment(alloc: Global, draft: &mut Draft, words: Words<'_>) -> Result<(), LineFault>
    requires { IsFaultless draft.old key.Fragment (words_left words) }
    ensures { IsSaid draft.old draft.new (statement_of key.Fragment (words_left words.entry)) result }
{
    let name = words.word(0);
    let replicas = number_at(words, 1);
    let streams = all_names(words, 2);
    if let Some(reason) = draft.fault_of_fragment(name, streams) {
        return Err(LineFault::Refused(reason));
    }
    draft.add_fragment(alloc, name, replicas, streams)?;
    Ok(())
}

/// The line of a fragment's own delay.
fn patience(draft: &mut Draft, words: Words<'_>) -> Result<(), LineFault>
    requires { IsFaultless draft.old key.Patience (words_left words) }
    ensures { IsSaid draft.old draft.new (statement_of key.Patience (words_left words.entry)) result }
{
    draft.add_patience(number_at(words, 0));
    Ok(())
}

/// The line of a client.
fn client(alloc: Global, draft: &mut Draft, words: Words<'_>) -> Result<(), LineFault>
    ensures { IsSaid draft.old draft.new (statement_of key.Client (words_left words.entry)) result }
{
    let (name, stream) = (words.word(0), words.word(1));
    if let Some(reason) = draft.fault_of_client(name, stream) {
        return Err(LineFault::Refused(reason));
    }
    draft.add_client(alloc, name, stream)?;
    Ok(())
}

/// The beginning of the phases.
fn begin(draft: &mut Draft) -> Result<(), LineFault>
    ensures { IsSaid draft.old draft.new BeginLine result }
{
    if let Some(reason) = draft.fault_of_begin() {
        return Err(LineFault::Refused(reason));
    }
    draft.add_begin();
    Ok(())
}

/// A tick.
fn tick(alloc: Global, draft: &mut Draft, words: Words<'_>) -> Result<(), LineFault>
    requires { IsFaultless draft.old key.Tick (words_left words) }
    ensures { IsSaid draft.old draft.new (statement_of key.Tick (words_left words.entry)) result }
{
    let now = number_at(words, 0);
    if let Some(reason) = draft.fault_of_tick(now) {
        return Err(LineFault::Refused(reason));
    }
    draft.add_tick(alloc, now)?;
    Ok(())
}

/// The end by settling.
fn settle(draft: &mut Draft) -> Result<(), LineFault>
    ensures { IsSaid draft.old draft.new SettleLine result }
{
    draft.add_settle();
    Ok(())
}
/// The source of a line by which it sends, where nothing stands against the line.
fn sender(draft: &Draft, words: Words<'_>) -> Result<u64, LineFault>
    ensures { (make : ℕ → ℕ → Directive) (time : ℕ) → IsSaid draft.now (sent make time draft.now result)
        (SendLine make (word (words_left words.entry) 0) time) result }
{
    match draft.source_of_send(words.word(0)) {
        Ok(source) => Ok(source),
        Err(reason) => Err(LineFault::Refused(reason)),
    }
}

/// A line by which a source emits.
fn emit(draft: &mut Draft, words: Words<'_>) -> Result<(), LineFault>
    requires faultless { IsFaultless draft.old key.Emit (words_left words) }
    requires end { end_of draft.old < 2 ^ 64 }
    ensures { IsSaid draft.old draft.new (statement_of key.Emit (words_left words.entry)) result }
{
    let time = number_at(words, 1);
    match sender(draft, words) {
        Ok(source) => Ok(draft.add_directive(Directive::Emit(source, time))?),
        Err(fault) => Err(fault),
    }
}

/// A line by which a source releases.
fn release(draft: &mut Draft, words: Words<'_>) -> Result<(), LineFault>
    requires faultless { IsFaultless draft.old key.Release (words_left words) }
    requires end { end_of draft.old < 2 ^ 64 }
    ensures { IsSaid draft.old draft.new (statement_of key.Release (words_left words.entry)) result }
{
    let time = number_at(words, 1);
    match sender(draft, words) {
        Ok(source) => Ok(draft.add_directive(Directive::Release(source, time))?),
        Err(fault) => Err(fault),
    }
}

/// The actors of a line on their link, where nothing stands against the line.
fn linked(draft: &Draft, words: Words<'_>) -> Result<(u64, u64), LineFault>
    ensures { (make : ℕ → ℕ → Directive) → IsSaid draft.now (joined make draft.now result)
        (LinkLine make (word (words_left words.entry) 0) (word (words_left words.entry) 1)) result }
{
    match draft.link_of_line(words.word(0), words.word(1)) {
        Ok(link) => Ok(link),
        Err(reason) => Err(LineFault::Refused(reason)),
    }
}

/// A line that cuts a link.
fn cut(draft: &mut Draft, words: Words<'_>) -> Result<(), LineFault>
    ensures { IsSaid draft.old draft.new (statement_of key.Cut (words_left words.entry)) result }
{
    match linked(draft, words) {
        Ok((a, b)) => Ok(draft.add_directive(Directive::Cut(a, b))?),
        Err(fault) => Err(fault),
    }
}

/// A line that heals a link.
fn heal(draft: &mut Draft, words: Words<'_>) -> Result<(), LineFault>
    ensures { IsSaid draft.old draft.new (statement_of key.Heal (words_left words.entry)) result }
{
    match linked(draft, words) {
        Ok((a, b)) => Ok(draft.add_directive(Directive::Heal(a, b))?),
        Err(fault) => Err(fault),
    }
}

/// A line by which a link loses a batch.
fn lose(draft: &mut Draft, words: Words<'_>) -> Result<(), LineFault>
    ensures { IsSaid draft.old draft.new (statement_of key.Lose (words_left words.entry)) result }
{
    match linked(draft, words) {
        Ok((a, b)) => Ok(draft.add_directive(Directive::Lose(a, b))?),
        Err(fault) => Err(fault),
    }
}

/// A line by which a link repeats a batch.
fn repeat(draft: &mut Draft, words: Words<'_>) -> Result<(), LineFault>
    ensures { IsSaid draft.old draft.new (statement_of key.Repeat (words_left words.entry)) result }
{
    match linked(draft, words) {
        Ok((a, b)) => Ok(draft.add_directive(Directive::Repeat(a, b))?),
        Err(fault) => Err(fault),
    }
}

/// A line that crashes a node.
fn crash(draft: &mut Draft, words: Words<'_>) -> Result<(), LineFault>
    ensures { IsSaid draft.old draft.new (statement_of key.Crash (words_left words.entry)) result }
{
    match draft.node_of_line(true, words.word(0)) {
        Ok(node) => {
            draft.add_directive(Directive::Crash(node))?;
            Ok(())
        }
        Err(reason) => Err(LineFault::Refused(reason)),
    }
}

/// A line that restarts a node.
fn restart(draft: &mut Draft, words: Words<'_>) -> Result<(), LineFault>
    ensures { IsSaid draft.old draft.new (statement_of key.Restart (words_left words.entry)) result }
{
    match draft.node_of_line(false, words.word(0)) {
        Ok(node) => {
            draft.add_directive(Directive::Restart(node))?;
            Ok(())
        }
        Err(reason) => Err(LineFault::Refused(reason)),
    }
}

/// A line of a source's log.
fn log(alloc: Global, draft: &mut Draft, words: Words<'_>) -> Result<(), LineFault>
    requires faultless { IsFaultless draft.old key.Log (words_left words) }
    requires end { end_of draft.old < 2 ^ 64 }
    ensures { IsSaid draft.old draft.new (statement_of key.Log (words_left words.entry)) result }
{
    let mut values = words;
    values.skip(2);
    let time = number(words.word(1));
    match draft.source_of_log(words.word(0), time, values.count()) {
        Ok(source) => {
            let vals = read_values(alloc, values)?;
            draft.add_log(source, time.unwrap_or(0), vals)?;
            Ok(())
        }
        Err(reason) => Err(LineFault::Refused(reason)),
    }
}

/// What a line says, taken into the script under way.
pub fn said(
    alloc: Global,
    draft: &mut Draft,
    keyword: Keyword,
    words: Words<'_>,
) -> Result<(), LineFault>
    requires faultless { IsFaultless draft.old keyword (words_left words) }
    requires part { is_its_part draft.old keyword ≡ true }
    requires end { end_of draft.old < 2 ^ 64 }
    requires keyword { IsKeyword keyword }
    ensures { IsSaid draft.old draft.new (statement_of keyword (words_left words.entry)) result }
{
    match keyword {
        Keyword::Header(place) => header(draft, place, words),
        Keyword::Source => source(alloc, draft, words),
        Keyword::Log => log(alloc, draft, words),
        Keyword::Fragment => fragment(alloc, draft, words),
        Keyword::Patience => patience(draft, words),
        Keyword::Filter => filter(alloc, draft, words),
        Keyword::Map => map(alloc, draft, words),
        Keyword::Union => union(alloc, draft, words),
        Keyword::Join => join(alloc, draft, words),
        Keyword::Aggregate => aggregate(alloc, draft, words),
        Keyword::Client => client(alloc, draft, words),
        Keyword::Begin => begin(draft),
        Keyword::Emit => emit(draft, words),
        Keyword::Release => release(draft, words),
        Keyword::Cut => cut(draft, words),
        Keyword::Heal => heal(draft, words),
        Keyword::Lose => lose(draft, words),
        Keyword::Repeat => repeat(draft, words),
        Keyword::Crash => crash(draft, words),
        Keyword::Restart => restart(draft, words),
        Keyword::Tick => tick(alloc, draft, words),
        Keyword::Settle => settle(draft),
    }
}
