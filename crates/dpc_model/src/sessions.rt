//! A reader's session at a sender.
use crate::messages::Sess;

/// The newest session of one reader.
#[derive(Clone, Copy, PartialEq, Eq)]
pub struct Sub {
    pub kept: Option<Sess>,
    pub is_open: bool,
    /// How many batches were sent in it.
    pub batches: u64,
}

impl Sub {
    ghost use Rattle.std.specs.Prelude.{◌≡◌, ◌+◌, ◌^◌, ◌<◌};
    ghost use Rattle.dpc_model.specs.Sessions.{no_session, opening_session, tally_of, with_batch, is_newer_than_kept};
    ghost use Rattle.std.specs.Prelude.{true, false, Some};

    /// No session yet.
    pub fn none() -> Sub
        ensures { result ≡ no_session }
    {
        Sub {
            kept: None,
            is_open: false,
            batches: 0,
        }
    }

    /// A session at the opening, to which nothing was sent yet.
    pub fn opening() -> Sub
        ensures { result ≡ opening_session }
    {
        Sub {
            kept: Some(Sess { inc: 1, number: 1 }),
            is_open: true,
            batches: 0,
        }
    }

    /// A session that was just opened, by its first batch.
    pub fn opened(sess: Sess) -> Sub
        ensures { result ≡ record { kept = Some sess; is_open = true; batches = 1 } }
    {
        Sub {
            kept: Some(sess),
            is_open: true,
            batches: 1,
        }
    }

    /// A session that isn't open.
    pub fn shut(sess: Sess) -> Sub
        ensures { result ≡ record { kept = Some sess; is_open = false; batches = 0 } }
    {
        Sub {
            kept: Some(sess),
            is_open: false,
            batches: 0,
        }
    }

    /// The open session with the number of its batches.
    pub fn tally(&self) -> Option<(Sess, u64)>
        ensures { result ≡ tally_of self.now }
    {
        match self.kept {
            Some(sess) => {
                if self.is_open {
                    Some((sess, self.batches))
                } else {
                    None
                }
            }
            None => None,
        }
    }

    /// One batch more, where it is open.
    pub fn count_batch(&mut self)
        requires { self.old.batches + 1 < 2 ^ 64 }
        ensures { self.new ≡ with_batch self.old }
    {
        if self.is_open {
            self.batches += 1;
        }
    }

    /// Whether this session is newer than the one that is kept: by incarnation, then by number.
    pub fn is_older_than(&self, sess: Sess) -> bool
        ensures { result ≡ is_newer_than_kept sess self.now.kept }
    {
        match self.kept {
            None => true,
            Some(kept) => kept.inc < sess.inc || kept.inc == sess.inc && kept.number < sess.number,
        }
    }
}
