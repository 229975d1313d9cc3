//! Names in a line.
ghost use Rattle.std.specs.Prelude.{◌≡◌, [], ◌∷◌, bytes_eq, MatchOption};
ghost use Rattle.script_rules.specs.Reasons as reason;
ghost use Rattle.script_draft.specs.Names.{names_in};

use script_words::words::Words;

/// The first words of a line's rest, so many, as names.
#[derive(Clone, Copy)]
pub struct NameList<'a> {
    pub words: Words<'a>,
    pub left: u64,
}

impl<'a> NameList<'a> {
    /// The first name, where there is one.
    pub fn next(&mut self) -> Option<&'a [u8]>
        ensures { MatchOption result (names_in self.old ≡ []) (λ name. names_in self.old ≡ name.now ∷ names_in self.new) }
    {
        if self.left == 0 {
            return None;
        }
        self.left -= 1;
        self.words.next()
    }

    /// Whether a name is among them.
    pub fn contains(self, name: &[u8]) -> bool
        ensures { result ≡ reason.is_among name.now (names_in self.entry) }
    {
        let mut names = self;
        while let Some(other) = names.next() {
            if name == other {
                return true;
            }
        }
        false
    }

    /// Whether a name stands twice.
    pub fn has_twice(self) -> bool
        ensures { result ≡ reason.has_twice (names_in self.entry) }
    {
        let mut names = self;
        while let Some(name) = names.next() {
            if names.contains(name) {
                return true;
            }
        }
        false
    }
}
