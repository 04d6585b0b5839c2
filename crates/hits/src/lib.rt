// Turns of a Run that meet no F, many at once. Where each reader's next pages are cached, the turns up to the first F only move positions: how many they are
// is found by one search a reader, and where a reader is after them by one division.

#![tactic(auto)]

ghost use Rattle.std.specs.Prelude.{◌≡◌, List, ℕ, ◌≤◌, ◌<◌};
ghost use Rattle.rules.specs.Lists.{total};
ghost use Rattle.rules.specs.Valid.{Valid};
ghost use Rattle.rules.specs.Views.{state_of};
ghost use Rattle.calls.specs.Inner.{Readable};
ghost use Rattle.hits.specs.Hits.{pages_read, reads_of, AllCached, Clear, Advanced};

use rules::{Reader, View};

// How many of so many turns go by before the reader at this seat distance meets F; all, where it gets to its last page over cached ones.
fn turns_before(r: &Reader, cached: &[u64; 128], distance: u64, most: u64) -> u64
    requires { Readable r.now × (distance < 16) }
    ensures { (result ≤ most) × ((n : ℕ) → n ≤ result → AllCached cached.now r.now (pages_read n distance r.now)) }
{
    let left = (r.last - r.position) as usize;
    let key = parts::next_key(*r);
    let stretch = bits::next_bit(cached, 0, key, left) - key;
    if stretch == left {
        return most;
    }
    (distance + 16 * (stretch as u64)).min(most)
}

// How many of so many turns go by before one meets F.
pub fn turns_ahead(v: &View, cached: &[u64; 128], most: u64) -> u64
    requires { (fetching : List ℕ) × Valid (state_of v.now cached.now fetching) }
    ensures { (result ≤ most) × Clear v.now cached.now 16 result }
{
    let mut n = most;
    for (slot, r) in v.readers.iter().enumerate() {
        n = turns_before(r, cached, parts::seat(v.turn, slot), n);
    }
    n
}

// How many pages a reader at this seat distance reads in so many turns.
fn pages_read(r: &Reader, distance: u64, turns: u64) -> u16
    requires { Readable r.now × (distance < 16) × (turns ≤ 16384) }
    ensures { result ≡ pages_read turns distance r.now }
{
    let own = (turns + 15 - distance) / 16;
    own.min((r.last - r.position) as u64) as u16
}

// Moves the positions over so many turns, none of which meets F, and says how many reads they are.
pub fn pass_turns(v: &View, positions: &mut [u16; 16], turns: u64) -> u16
    requires by_index { (cached fetching : List ℕ) × Valid (state_of v.now cached fetching) }
    requires few { turns ≤ 16384 }
    ensures value { result ≡ total 16 (reads_of v.now turns) }
    ensures moved { Advanced v.now turns 16 positions.new }
{
    let mut reads: u16 = 0;
    for (slot, r) in v.readers.iter().enumerate() {
        let pages = pages_read(r, parts::seat(v.turn, slot), turns);
        positions[slot] = r.position + pages;
        reads += pages;
    }
    reads
}
