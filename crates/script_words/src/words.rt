//! The words of a line.
ghost use Rattle.std.specs.Prelude.{◌≡◌, ◌≢◌, ◌^◌, ◌<◌, ◌≤◌, [], ◌∷◌, ◌++◌, take, drop, length, slice_index, All, MatchOption};
ghost use Rattle.dpc_lists.specs.Lists.{is_nil};
ghost use Rattle.script_rules.specs.Lines as spec;
ghost use Rattle.script_words.specs.Ends.{BeginsWord, EndsInWord};

use memchr::memrchr;

/// The words of a line that were read neither from the front nor from the back.
#[derive(Clone, Copy)]
pub struct Words<'a> {
    pub rest: &'a [u8],
}

impl<'a> Words<'a> {
    ghost use Rattle.script_words.specs.Cursors.{words_left};
    ghost use Rattle.script_rules.specs.Statements.{word};

    /// The words of a line.
    pub fn of(line: &'a [u8]) -> Words<'a>
        ensures { words_left result ≡ spec.words_of line.now }
    {
        Words { rest: line }
    }

    /// The first word, where there is one.
    pub fn next(&mut self) -> Option<&'a [u8]>
        ensures word { MatchOption result (words_left self.old ≡ []) (λ w. words_left self.old ≡ w.now ∷ words_left self.new) }
        ensures rest { words_left self.new ≡ drop 1 (words_left self.old) }
    {
        let line = without_first_spaces(self.rest);
        if line.is_empty() {
            self.rest = line;
            return None;
        }
        let (word, behind) = first_word(line);
        self.rest = behind;
        Some(word)
    }

    /// The last word, where there is one.
    pub fn next_back(&mut self) -> Option<&'a [u8]>
        ensures { MatchOption result (words_left self.old ≡ []) (λ w. words_left self.old ≡ words_left self.new ++ w.now ∷ []) }
    {
        let line = without_last_spaces(self.rest);
        if line.is_empty() {
            return None;
        }
        let (before, word) = last_word(line);
        self.rest = before;
        Some(word)
    }

    /// Lets so many words go.
    pub fn skip(&mut self, n: u64)
        ensures { words_left self.new ≡ drop n (words_left self.old) }
    {
        for _ in 0..n {
            if self.next().is_none() {
                return;
            }
        }
    }

    /// The word at a place from 0, and the empty word past the end.
    pub fn word(&self, i: u64) -> &'a [u8]
        ensures { result.now ≡ word (words_left self.now) i }
    {
        let mut words = *self;
        words.skip(i);
        words.next().unwrap_or(&[])
    }

    /// How many words there are.
    pub fn count(&self) -> u64
        ensures count { result ≡ length (words_left self.now) }
        ensures bound { result < 2 ^ 63 }
    {
        // a line has no more words than bytes
        let most = self.rest.len() as u64;
        let mut words = *self;
        let mut count = 0;
        while count < most && words.next().is_some() {
            count += 1;
        }
        count
    }

    /// Whether there is no word.
    pub fn is_empty(&self) -> bool
        ensures { result ≡ is_nil (words_left self.now) }
    {
        without_first_spaces(self.rest).is_empty()
    }
}

/// A line from its first word on.
fn without_first_spaces(line: &[u8]) -> &[u8]
    ensures words { spec.words_of result.now ≡ spec.words_of line.now }
    ensures begins { result.now ≢ [] → BeginsWord result.now }
{
    let (_, words) = line.split_at(place_of_word(line));
    words
}

/// The word that a line begins with, and what stands behind it.
fn first_word(line: &[u8]) -> (&[u8], &[u8])
    requires { BeginsWord line.now }
    ensures { spec.words_of line.now ≡ result.0.now ∷ spec.words_of result.1.now }
{
    line.split_at(place_of_space(line))
}

/// The place of the first byte that is no space, or the line's length.
fn place_of_word(line: &[u8]) -> usize
    ensures within { result ≤ length line.now }
    ensures before { All (λ b. b ≡ 32) (take result line.now) }
    ensures there { result < length line.now → slice_index line.now result ≢ 32 }
{
    match line.iter().position(|b| *b != b' ') {
        Some(i) => i,
        None => line.len(),
    }
}

/// The place of the first space, or the line's length.
fn place_of_space(line: &[u8]) -> usize
    ensures within { result ≤ length line.now }
    ensures before { All (λ b. b ≢ 32) (take result line.now) }
    ensures there { result < length line.now → slice_index line.now result ≡ 32 }
{
    match line.iter().position(|b| *b == b' ') {
        Some(i) => i,
        None => line.len(),
    }
}

/// A line up to its last word.
fn without_last_spaces(line: &[u8]) -> &[u8]
    ensures words { spec.words_of result.now ≡ spec.words_of line.now }
    ensures ends { result.now ≢ [] → EndsInWord result.now }
{
    let mut end = line.len();
    while end > 0 && line[end - 1] == b' ' {
        end -= 1;
    }
    &line[..end]
}

/// What stands before the word that a line ends in, and the word.
fn last_word(line: &[u8]) -> (&[u8], &[u8])
    requires { EndsInWord line.now }
    ensures { spec.words_of line.now ≡ spec.words_of result.0.now ++ result.1.now ∷ [] }
{
    match memrchr(b' ', line) {
        Some(i) => (&line[..i], &line[i + 1..]),
        None => (&[], line),
    }
}
