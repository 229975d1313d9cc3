//! Which lines stand in their part of a script.
ghost use Rattle.std.specs.Prelude.{◌≡◌, not, ◌&&◌};
ghost use Rattle.dpc_lists.specs.Lists.{is_nil};
ghost use Rattle.script_rules.specs.Reasons as reason;

use crate::draft::Draft;
use script_rules::keywords::Keyword;

impl Draft {
    /// Whether a further line may declare something.
    fn declares(&self) -> bool
        ensures { result ≡ reason.declares self.now }
    {
        self.has_header() && !self.begun
    }

    /// Whether a further line may stand among the phases.
    fn runs(&self) -> bool
        ensures { result ≡ reason.runs self.now }
    {
        self.begun && !self.settle
    }

    /// Whether the line before was that of a fragment.
    fn is_fresh(&self) -> bool
        ensures { result ≡ reason.is_fresh self.now }
    {
        match self.last_frag() {
            Some(frag) => frag.ops.is_empty() && frag.delay.is_none(),
            None => true,
        }
    }

    /// Whether a line of this keyword stands in its part.
    pub fn is_its_part(&self, keyword: Keyword) -> bool
        ensures { result ≡ reason.is_its_part self.now keyword }
    {
        match keyword {
            Keyword::Header(place) => place == self.header.len() as u64,
            Keyword::Source | Keyword::Log => {
                self.declares() && self.frags.is_empty() && self.clients.is_empty()
            }
            Keyword::Fragment => self.declares() && self.clients.is_empty(),
            Keyword::Patience => self.declares_in_fragment() && self.is_fresh(),
            Keyword::Filter | Keyword::Map | Keyword::Union | Keyword::Join | Keyword::Aggregate =>
                self.declares_in_fragment(),
            Keyword::Client | Keyword::Begin => self.declares(),
            _ => self.runs(),
        }
    }

    /// Whether a further line may declare something of the last fragment.
    fn declares_in_fragment(&self) -> bool
        ensures { result ≡ (reason.declares self.now && not (is_nil self.now.frags) && is_nil self.now.clients) }
    {
        self.declares() && !self.frags.is_empty() && self.clients.is_empty()
    }
}
