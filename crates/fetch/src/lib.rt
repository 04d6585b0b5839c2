// The head of the fetch order: of the pages that a reader lacks only the first can be used soonest, so the search looks at one page for each slot. The order
// itself is not made here.

#![tactic(auto)]

ghost use Rattle.std.specs.Prelude.{◌≡◌, ◌+◌, ◌<◌};
ghost use Rattle.rules.specs.Lists.{head};
ghost use Rattle.rules.specs.Valid.{Valid};
ghost use Rattle.rules.specs.Orders.{fetch_order};
ghost use Rattle.rules.specs.Views.{state_of};
ghost use Rattle.fetch.specs.Soonest.{Soonest};

use bits::Joined;
use parts::NEVER;
use rules::View;
use uses::{Pick, Terms};

// The first absent page after the position of the slot's reader, if that is used sooner than the best.
fn sooner<'a>(
    v: View,
    cached: &'a [u64; 128],
    fetching: &'a [u64; 128],
    slot: usize,
    best: Pick,
) -> Pick
    requires valid { Valid (state_of v cached.now fetching.now) }
    requires slot_bound { slot < 16 }
    requires soonest { Soonest (state_of v cached.now fetching.now) slot best }
    ensures { Soonest (state_of v cached.now fetching.now) (slot + 1) result }
{
    let r = v.readers[slot];
    if !parts::is_attached(r) {
        return best;
    }
    let file = r.file as usize;
    let position = r.position as usize;
    let last = r.last as usize;
    let present = Joined(cached, fetching);
    let key = bits::next_bit(&present, 0, file * 1024 + position, last - position);
    if key == file * 1024 + last {
        return best;
    }
    let low = best.value;
    let value = Terms::of(&v).lowered_past_present(slot, r.position, r.pace, key, low);
    if value < low {
        let key = key as u16;
        return Pick { key, value };
    }
    best
}

// The head of the fetch order: of the pages that a reader lacks, only its first can be used soonest.
pub fn next_fetch<'a>(v: View, cached: &'a [u64; 128], fetching: &'a [u64; 128]) -> Option<u16>
    requires { Valid (state_of v cached.now fetching.now) }
    ensures { result ≡ head (fetch_order (state_of v cached.now fetching.now)) }
{
    let mut best = Pick {
        key: 0,
        value: NEVER,
    };
    for slot in 0..16 {
        best = sooner(v, cached, fetching, slot, best);
    }
    if best.value == NEVER {
        return None;
    }
    Some(best.key)
}
