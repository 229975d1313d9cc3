//! The first words of lines.
ghost use Rattle.std.specs.Prelude.{◌≡◌, drop, bytes_eq};
ghost use Rattle.script_rules.specs.Keywords as spec;

use script_rules::keywords::Keyword;

/// Whether a word is this one.
#[inline]
pub(crate) fn is(word: &[u8], key: &[u8]) -> bool
    ensures { result ≡ bytes_eq key.now word.now }
{
    key == word
}

/// The keyword that a word is in a version.
pub fn keyword_of(version: u64, word: &[u8]) -> Option<Keyword>
    ensures { result ≡ spec.keyword_of version word.now }
{
    let keyword = plan_keyword(word);
    if keyword.is_none() && version == 3 {
        late_keyword(word)
    } else {
        keyword
    }
}

/// The keywords of the header and of what a plan declares, and those behind them.
fn plan_keyword(word: &[u8]) -> Option<Keyword>
    ensures { result ≡ spec.looked_up spec.keywords word.now }
{
    if is(word, b"borealis") {
        Some(Keyword::Header(0))
    } else if is(word, b"width") {
        Some(Keyword::Header(1))
    } else if is(word, b"delay") {
        Some(Keyword::Header(2))
    } else if is(word, b"end") {
        Some(Keyword::Header(3))
    } else if is(word, b"source") {
        Some(Keyword::Source)
    } else if is(word, b"log") {
        Some(Keyword::Log)
    } else if is(word, b"fragment") {
        Some(Keyword::Fragment)
    } else if is(word, b"filter") {
        Some(Keyword::Filter)
    } else if is(word, b"map") {
        Some(Keyword::Map)
    } else if is(word, b"union") {
        Some(Keyword::Union)
    } else if is(word, b"join") {
        Some(Keyword::Join)
    } else if is(word, b"aggregate") {
        Some(Keyword::Aggregate)
    } else if is(word, b"client") {
        Some(Keyword::Client)
    } else {
        run_keyword(word)
    }
}

/// The keywords of what a run does.
fn run_keyword(word: &[u8]) -> Option<Keyword>
    ensures { result ≡ spec.looked_up (drop 13 spec.keywords) word.now }
{
    if is(word, b"begin") {
        Some(Keyword::Begin)
    } else if is(word, b"emit") {
        Some(Keyword::Emit)
    } else if is(word, b"release") {
        Some(Keyword::Release)
    } else if is(word, b"cut") {
        Some(Keyword::Cut)
    } else if is(word, b"heal") {
        Some(Keyword::Heal)
    } else if is(word, b"lose") {
        Some(Keyword::Lose)
    } else if is(word, b"repeat") {
        Some(Keyword::Repeat)
    } else if is(word, b"crash") {
        Some(Keyword::Crash)
    } else if is(word, b"restart") {
        Some(Keyword::Restart)
    } else if is(word, b"tick") {
        Some(Keyword::Tick)
    } else if is(word, b"settle") {
        Some(Keyword::Settle)
    } else {
        None
    }
}

/// The keywords of version 3 alone.
fn late_keyword(word: &[u8]) -> Option<Keyword>
    ensures { result ≡ spec.looked_up spec.late_keywords word.now }
{
    if is(word, b"passing") {
        Some(Keyword::Header(4))
    } else if is(word, b"patience") {
        Some(Keyword::Patience)
    } else {
        None
    }
}
