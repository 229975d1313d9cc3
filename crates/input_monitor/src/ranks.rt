//! The ranks of a few replicas.
ghost use Rattle.std.specs.Prelude.{◌≡◌, ◌≤◌, length, map};
ghost use Rattle.dpc_model.specs.Replicas.{rank_of};

use crate::watch::Watch;
use dpc_model::messages::Rank;
use dpc_model::plans::MOST_REPLICAS;
use std::marker::Model;

/// The ranks of the replicas of a stream in order. Contracts see the list of them.
#[derive(Drop)]
pub struct Ranks {
    /// Those past the count stand for nobody.
    ranks: [Rank; MOST_REPLICAS],
    count: usize,
}

impl Model for Ranks {
    ghost use Rattle.std.specs.Coded.{codes};
    ghost use Rattle.std.specs.Prelude.{◌≤◌, List, take};
    ghost use Rattle.dpc_model.specs.declared.messages.Rank.{Rank};
    ghost use Rattle.dpc_model.specs.declared.plans.TheConstants.{MOST_REPLICAS};

    ghost Value = { List Rank };

    ghost coded = { Prim.hlevel codes };

    ghost view = { λ r. take r.count r.ranks };

    ghost invariant = { λ r. r.count ≤ MOST_REPLICAS };
}

impl Ranks {
    /// The ranks by what is known of each replica.
    pub(crate) fn of(watches: &[Watch]) -> Ranks
        requires { length watches.now ≤ MOST_REPLICAS }
        ensures { result ≡ map rank_of watches.now }
    {
        let mut ranks = [Rank::Absent; MOST_REPLICAS];
        for (r, watch) in watches.iter().enumerate() {
            ranks[r] = watch.rank();
        }
        Ranks {
            ranks,
            count: watches.len(),
        }
    }

    /// The ranks as a slice.
    pub fn as_slice(&self) -> &[Rank]
        ensures { result.now ≡ self.now }
    {
        &self.ranks[..self.count]
    }
}
