// Along the look-aheads: one walk for each reader, which carries the count of the pages that are not present, tests each page of the look-ahead once and no
// other, reads each word of the maps that holds one of these once and no other, and lowers the page's number in a table of use keys. A page's number is its
// time for the reader × 16 + the seat distance.

#![tactic(auto)]

ghost use Rattle.std.specs.Prelude.{◌≡◌, ◌≤◌, replicate};
ghost use Rattle.rules.specs.UseTimes.{never, tested};
ghost use Rattle.rules.specs.Questions.{words_read};
ghost use Rattle.rules.specs.Valid.{Valid};
ghost use Rattle.rules.specs.Views.{state_of, no_pages};
ghost use Rattle.walk.specs.Tables.{Keyed, InLookAhead};

mod course;

use bits::Joined;
use course::Course;
use rules::View;

// What the walks count: the pages tested, and the words of the maps that were read: two at one place count as one.
#[derive(Clone, Copy, Default)]
pub struct Tally {
    pub tested: usize,
    pub words: usize,
}

// Walks along the look-ahead of each reader, running or waiting. The table then has every page's use key; one map has the pages that are ahead of a reader,
// the other those that are in a look-ahead. Returns how many pages were tested and how many words of the maps were read.
pub fn use_keys<'a>(
    v: View,
    cached: &'a [u64; 128],
    fetching: &'a [u64; 128],
    ahead: &mut [u64; 128],
    seen: &mut [u64; 128],
    table: &mut [u32; 8192],
) -> Tally
    requires valid { Valid (state_of v cached.now fetching.now) }
    requires blank { (ahead.old ≡ no_pages) × (seen.old ≡ no_pages) × (table.old ≡ replicate 8192 never) }
    ensures few { (result.tested ≤ 16384) × (result.words ≤ 256) }
    ensures report { result.tested ≡ tested (state_of v cached.now fetching.now) }
    ensures words { result.words ≡ words_read (state_of v cached.now fetching.now) }
    ensures keyed { Keyed (state_of v cached.now fetching.now) ahead.new table.new }
    ensures seen { InLookAhead (state_of v cached.now fetching.now) seen.new }
{
    let maps = Joined(cached, fetching);
    let mut tally = Tally::default();
    for slot in 0..16 {
        let r = v.readers[slot];
        if parts::is_attached(r) {
            let course = Course::of(&v, slot);
            let left = (r.last - r.position) as usize;
            let n = course.walk_words(maps, table);
            bits::set_bits(seen, course.from, n.tested);
            bits::set_bits(ahead, course.from, left);
            tally.tested += n.tested;
            tally.words += n.words;
        }
    }
    tally
}
