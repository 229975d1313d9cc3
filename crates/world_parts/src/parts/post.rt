//! What an actor sends.
ghost use Rattle.std.specs.Prelude.{◌≡◌, ℕ, Err, OnOk};
ghost use Rattle.world_parts.specs.Counting.{with_posted, IsPastLimits, IsTooLong};
ghost use Rattle.world_parts.specs.declared.faults.EventFault.TheVariants as fault;

use crate::envelopes::{items_in_all, push_mails};
use crate::faults::EventFault;
use crate::parts::WorldParts;
use node_core::packets::Mail;

/// The most envelopes of a run.
const MOST_ENVELOPES: u64 = 8_000_000;

/// The most items in the envelopes of a run.
const MOST_ITEMS: u64 = 4_000_000;

impl WorldParts {
    /// What an actor sends becomes envelopes, where a run may have so many.
    pub(crate) fn post(&mut self, sender: u64, mails: Vec<Mail>) -> Result<(), EventFault>
        ensures ok { OnOk result (self.new ≡ with_posted sender mails.items self.old) }
        ensures within { OnOk result (IsPastLimits (with_posted sender mails.items self.old) → ⊥) }
        ensures long { (envelopes items : ℕ) → result ≡ Err (fault.TooLong envelopes items)
            → IsTooLong envelopes items (with_posted sender mails.items self.old) }
    {
        let _ = &self.items; // the invariant, where nothing is sent
        if mails.is_empty() {
            return Ok(());
        }
        let envelopes = self.envelopes.len() as u64 + mails.len() as u64;
        let Some(added) = items_in_all(mails.as_slice()) else {
            return Err(EventFault::NoMemory);
        };
        let Some(items) = self.items.checked_add(added) else {
            return Err(EventFault::NoMemory);
        };
        if envelopes > MOST_ENVELOPES || items > MOST_ITEMS {
            return Err(EventFault::TooLong { envelopes, items });
        }
        push_mails(&mut self.envelopes, sender, mails)?;
        self.items = items;
        Ok(())
    }
}
