//! A line cut at each of its spaces.
ghost use Rattle.std.specs.Prelude.{◌≡◌, ◌↔◌, ◌≢◌, [], ◌∷◌, ◌++◌, All, IsTrue, MatchOption};
ghost use Rattle.recorded_streams.specs.Cuts.{pieces_left};
ghost use Rattle.script_rules.specs.Lines.{pieces};

/// What stands between the spaces of a line, and was not read yet.
#[derive(Clone, Copy)]
pub struct Pieces<'a> {
    pub rest: Option<&'a [u8]>,
}

/// What stands in front of the first space, and what stands behind it where there is one.
fn cut_at_space(text: &[u8]) -> (&[u8], Option<&[u8]>)
    ensures front { All (λ b. b ≢ 32) result.0.now }
    ensures parts { MatchOption result.1
        (text.now ≡ result.0.now)
        (λ behind. text.now ≡ result.0.now ++ 32 ∷ behind.now) }
{
    match text.iter().position(|b| *b == b' ') {
        Some(space) => (&text[..space], Some(&text[space + 1..])),
        None => (text, None),
    }
}

impl<'a> Pieces<'a> {
    /// The pieces of a line.
    pub fn of(line: &'a [u8]) -> Pieces<'a>
        ensures { pieces_left result ≡ pieces 32 line.now }
    {
        Pieces { rest: Some(line) }
    }

    /// The next piece, where there is one.
    pub fn next(&mut self) -> Option<&'a [u8]>
        ensures { MatchOption result
            ((pieces_left self.old ≡ []) × (pieces_left self.new ≡ []))
            (λ piece. pieces_left self.old ≡ piece.now ∷ pieces_left self.new) }
    {
        let (piece, behind) = cut_at_space(self.rest?);
        self.rest = behind;
        Some(piece)
    }

    /// Whether there is none left.
    pub fn is_empty(&self) -> bool
        ensures { IsTrue result ↔ (pieces_left self.now ≡ []) }
    {
        self.rest.is_none()
    }
}
