//! The choice among the replicas of a stream, by their ranks.
ghost use Rattle.std.specs.Prelude.{◌≡◌, ◌<◌, ◌==◌, length, map, position};
ghost use Rattle.dpc_lists.specs.Lists.{least};
ghost use Rattle.dpc_model.specs.declared.messages.Rank.{Rank};
ghost use Rattle.dpc_model.specs.Replicas.{rank_order, choose as chosen};

use dpc_model::messages::Rank;

/// The place of a rank among the ranks, the best first.
fn order_of(rank: Rank) -> u8
    ensures { result ≡ rank_order rank }
{
    match rank {
        Rank::Stable => 0,
        Rank::UpFailure => 1,
        Rank::Stabilizing => 2,
        Rank::Absent => 3,
    }
}

/// The order of the best rank.
fn best_order(ranks: &[Rank]) -> u8
    ensures { result ≡ least 3 (map rank_order ranks.now) }
{
    let mut best = order_of(Rank::Absent);
    for rank in ranks {
        best = best.min(order_of(*rank));
    }
    best
}

/// The first replica whose rank has this order; `None` exactly where none has.
fn first_of(ranks: &[Rank], order: u8) -> Option<usize>
    ensures { result ≡ position (λ (r : Rank). rank_order r == order) ranks.now }
{
    ranks.iter().position(|rank| order_of(*rank) == order)
}

/// The replica to read from, by the replicas' ranks in order: the current one where no other has a better
/// rank, else the first one of the best rank. It takes no memory.
pub fn choose(current: usize, ranks: &[Rank]) -> usize
    requires { current < length ranks.now }
    ensures { result ≡ chosen current ranks.now }
{
    let best = best_order(ranks);
    if order_of(ranks[current]) == best {
        return current;
    }
    first_of(ranks, best).unwrap_or(current)
}
