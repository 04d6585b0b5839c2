// One reader's course along its look-ahead, and the walk along it: page by page in the words of the maps, with the numbers that the table of use keys gets.

ghost use Rattle.std.specs.Prelude.{◌+◌, ◌*◌, ◌<◌, ◌≤◌};

use crate::Tally;
use bits::{Joined, PageMap};
use rules::View;

// What a walk goes by: the key of its first page, how many pages are in reach, how many missing ones end it, what the number grows by at each page and at each
// missing one, and the seat distance. No page in reach has a number as high as that of a page in no look-ahead.
#[derive(Clone, Copy)]
pub struct Course {
    pub from: usize,
    reach: usize,
    most: usize,
    page: u32,
    gap: u32,
    seat: u32,
    ghost one_file: { reach ≤ 1024 },
    ghost in_table: { from + reach ≤ 8192 },
    ghost number_high: { (reach + 1) * page + most * gap + seat < 67108864 },
}

// How far a walk has come: the pages tested, how many of them are not present, and the number of the page after them.
#[derive(Clone, Copy)]
struct Walk {
    tested: usize,
    missing: usize,
    number: u32,
}

impl Course {
    ghost use Rattle.std.specs.Prelude.{◌≡◌, List, ℕ, T, leb, eqb, ◌%◌};
    ghost use Rattle.bits.specs.Map.{digit};
    ghost use Rattle.rules.specs.UseTimes.{pruned};
    ghost use Rattle.rules.specs.declared.State.{State};
    ghost use Rattle.rules.specs.Readers.{attached, reader_in};
    ghost use Rattle.rules.specs.Ranks.{Presents};
    ghost use Rattle.rules.specs.Views.{state_of};
    ghost use Rattle.walk.specs.Walks.{OfValid, OnCourse, one_page, Further, Shown, CourseOf, Along, Walked, spanned};

    // How many missing pages end a look-ahead: L divided by T, and more than a file has where fetches take no time.
    fn most_missing(look: u32, time: u32) -> usize
        ensures most { (s : State) (q : ℕ) → s.look_ahead ≡ look → s.fetch_time ≡ time → q ≤ 1024 → pruned s q ≡ leb result q }
        ensures short { result * time ≤ look }
    {
        look.checked_div(time).unwrap_or(1025) as usize
    }

    // The course of the slot's reader: up to its last page, and K pages.
    pub fn of(v: &View, slot: usize) -> Course
        requires valid { OfValid v.now }
        requires slot_in_bounds { slot < 16 }
        requires here { T (attached (reader_in v.now.readers slot)) }
        ensures { (cached fetching : List ℕ) → CourseOf (state_of v.now cached fetching) slot result }
    {
        let r = v.readers[slot];
        let left = r.last - r.position;
        let near = v.look_ahead / r.pace as u32;
        Course {
            from: parts::next_key(r),
            reach: near.min(left as u32) as usize,
            most: Course::most_missing(v.look_ahead, v.fetch_time),
            page: r.pace as u32 * 16,
            gap: v.fetch_time * 16,
            seat: parts::seat(v.turn, slot) as u32,
        }
    }

    // Tests one page, by its bit in a word of both maps: the count of the pages tested is raised here alone.
    fn test_page(self, word: u64, key: usize, mut p: Walk) -> Walk
        requires { OnCourse self p × (p.tested < self.reach) × (p.missing < self.most) }
        ensures { result ≡ one_page self (eqb (digit word (key % 64)) 1) p }
    {
        p.tested += 1;
        p.number += self.page;
        if !bits::has_digit(word, key % 64) {
            p.missing += 1;
            p.number += self.gap;
        }
        p
    }

    // Walks on over the pages of one word, up to `end` pages in all.
    fn walk_word(self, word: u64, end: usize, at: Walk, table: &mut [u32; 8192]) -> Walk
        requires { OnCourse self at × (at.tested ≤ end) × (end ≤ self.reach) }
        ensures far { OnCourse self result × Further self end at result }
        ensures along { (s : State) (j : ℕ) (first : List ℕ) → CourseOf s j self → Shown s word self.from at.tested end
            → Along s j first table.old at → Along s j first table.new result }
    {
        let mut p = at;
        for key in self.from + at.tested..self.from + end {
            if self.most <= p.missing {
                return p;
            }
            table[key] = table[key].min(p.number);
            p = self.test_page(word, key, p);
        }
        p
    }

    // Walks word by word, over as many pages as are in reach. What q takes for cached is in one of the two maps: they are put together, and the two words at
    // one place are read once for their pages. The count of the words is raised here alone.
    pub fn walk_words(self, maps: Joined, table: &mut [u32; 8192]) -> Tally
        ensures few { result.tested ≤ self.reach }
        ensures words { result.words ≡ spanned self.from result.tested }
        ensures walked { (s : State) (j : ℕ) → CourseOf s j self → Presents s maps.entry.0.now maps.entry.1.now
            → Walked s j table.old table.new result.tested }
    {
        let mut at = Walk {
            tested: 0,
            missing: 0,
            number: self.page + self.seat,
        };
        let mut words: usize = 0;
        while at.tested < self.reach && at.missing < self.most {
            let key = self.from + at.tested;
            let end = self.reach.min(at.tested + 64 - key % 64);
            words += 1;
            at = self.walk_word(maps.word(key / 64), end, at, table);
        }
        Tally {
            tested: at.tested,
            words,
        }
    }
}
