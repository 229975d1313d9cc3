//! A line cut at its spaces.
ghost use Rattle.std.specs.Prelude.{◌≡◌, ◌≢◌, true, ◌∷◌, ◌++◌, All, MatchOption, bytes_eq};
ghost use Rattle.script_rules.specs.Lines.{pieces};
ghost use Rattle.journal_text.specs.Entries.{is_of_other_length};
ghost use Rattle.journal_text.specs.Cuts.{words_in};

/// Whether a word is this one.
#[inline]
pub fn is(word: &[u8], key: &[u8]) -> bool
    ensures { result ≡ bytes_eq word.now key.now }
{
    word == key
}

/// What stands in front of the first space, and what stands behind it where there is one.
fn cut_at_space(text: &[u8]) -> (&[u8], Option<&[u8]>)
    ensures front { All (λ b. b ≢ 32) result.0.now }
    ensures parts { MatchOption result.1
        (text.now ≡ result.0.now)
        (λ behind. text.now ≡ result.0.now ++ 32 ∷ behind.now) }
{
    match text.iter().position(|b| *b == b' ') {
        Some(space) => (&text[..space], Some(&text[space + 1..])),
        None => (text, None),
    }
}

/// The words of a line that is cut at each space, where there are two or three.
#[derive(Clone, Copy)]
pub struct Pieces<'a> {
    pub first: &'a [u8],
    pub second: &'a [u8],
    pub third: Option<&'a [u8]>,
}

/// A line of two or three words, each behind one space.
pub fn cut(line: &[u8]) -> Option<Pieces<'_>>
    ensures { MatchOption result (is_of_other_length (pieces 32 line.now) ≡ true) (λ words. pieces 32 line.now ≡ words_in words) }
{
    let (first, behind) = cut_at_space(line);
    let (second, behind) = cut_at_space(behind?);
    let Some(behind) = behind else {
        return Some(Pieces {
            first,
            second,
            third: None,
        });
    };
    let (third, more) = cut_at_space(behind);
    if more.is_some() {
        return None;
    }
    Some(Pieces {
        first,
        second,
        third: Some(third),
    })
}
