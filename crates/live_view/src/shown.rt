//! What readers are shown of a client's stream, and how it grows.
ghost use Rattle.std.specs.Prelude.{◌≡◌, ◌++◌, MatchResult};

use core::mem::replace_with;
use dpc_lists::exact::Exact;
use dpc_lists::lists::Listed;
use dpc_model::tuples::Tuples;
use left_right::Absorb;
use std::alloc::{AllocError, Global};

/// The first stable tuples of a client's stream, and up to where they are all.
#[derive(Drop)]
pub struct Shown {
    /// Whose stream it is. The value has it, since a rule sees the value and the views alone.
    pub client: u64,
    pub bound: u64,
    pub tuples: Tuples,
    /// Where room for more tuples comes from.
    pub alloc: Global,
}

/// What one telling adds: stable tuples, and the greatest boundary.
#[derive(Drop)]
pub struct News {
    pub bound: u64,
    pub tuples: Tuples,
}

/// The tuples with more behind them. It moves these alone, but where room is made for twice as many. Where memory is
/// wanted, both come back.
fn joined(tuples: Tuples, more: Tuples) -> (Tuples, Result<(), Tuples>)
    ensures { MatchResult result.1 (λ _. result.0 ≡ tuples ++ more) (λ back. (back ≡ more) × (result.0 ≡ tuples)) }
{
    let mut all = tuples.into_vec();
    let mut more = more.into_vec();
    let done = all.append(&mut more);
    let all = Listed::from_vec(all);
    match done {
        Ok(()) => (all, Ok(())),
        Err(_) => (all, Err(Listed::from_vec(more))),
    }
}

impl Absorb<News> for Shown {
    type State = Shown;

    ghost use Rattle.live_view.specs.Showing.{with_news};

    ghost state = { λ s. s };

    ghost applied = { with_news };

    fn absorb_first(&mut self, news: &News, _other: &Shown) -> Result<(), AllocError> {
        let more = news.tuples.copy(self.alloc)?;
        let Ok(()) = replace_with(&mut self.tuples, more, joined) else {
            return Err(AllocError);
        };
        self.bound = self.bound.max(news.bound);
        Ok(())
    }

    fn absorb_second(&mut self, news: News, _other: &Shown) -> Result<(), News> {
        let News { bound, tuples } = news;
        match replace_with(&mut self.tuples, tuples, joined) {
            Ok(()) => {
                self.bound = self.bound.max(bound);
                Ok(())
            }
            Err(tuples) => Err(News { bound, tuples }),
        }
    }
}
