// Reducing the matrix in a slot of a store to one number (document 02, A4: "all are shelf calls too"). Any words may be
// lent.

#![tactic(auto)]

ghost use Rattle.std.specs.Prelude.{◌≡◌, ◌<◌};
ghost use Rattle.limits.specs.Limits.{slot_count};
ghost use Rattle.answers.specs.Results.{total_answer};
ghost use Rattle.slots.specs.Facts.{Store};
ghost use Rattle.model.specs.Effects.{totalled};
ghost use Rattle.model.specs.Calls.{reduce_slot};
ghost use Rattle.store_encoding.specs.Stores.{reply_on};
ghost use Rattle.store_reduce.specs.Totals.{slot_answer};

use answers::Refusal;
use limits::SLOTS;
use operators::Monoid;

// The total of a slot by a monoid's number: 12, then 2, then 13.
pub fn reduce(store: &[u32], slot: usize, monoid: u32) -> Result<u32, Refusal>
    ensures { totalled (total_answer result) ≡ reply_on store.now (reduce_slot slot monoid) }
{
    slots::check(store)?;
    if SLOTS <= slot {
        return Err(Refusal::InvalidStore);
    }
    match operator_codes::monoid_code(monoid) {
        Some(m) => slot_total(m, store, slot),
        None => Err(Refusal::UnknownOperator),
    }
}

// 13, or the total.
fn slot_total(m: Monoid, store: &[u32], slot: usize) -> Result<u32, Refusal>
    requires store { Store store.now }
    requires slot { slot < slot_count }
    ensures { total_answer result ≡ slot_answer m store.now slot }
{
    let words = slots::contents(store, slot);
    if words.is_empty() {
        Err(Refusal::EmptySlot)
    } else {
        Ok(reduce::total_of(m, words))
    }
}
