// The page to give up where a page is ahead of no reader: such a page goes before any other, and is found without ranks, from each file's end down.

#![tactic(auto)]

ghost use Rattle.std.specs.Prelude.{◌≡◌, Bool, true, List, ℕ, ◌+◌, ◌<◌, ◌≤◌, slice_index};
ghost use Rattle.rules.specs.declared.Reader.{Reader};
ghost use Rattle.rules.specs.declared.View.{View};
ghost use Rattle.files.specs.Sets.{in_set};
ghost use Rattle.uses.specs.declared.Terms.{Terms};
ghost use Rattle.uses.specs.Seats.{Seated};
ghost use Rattle.uses.specs.Sights.{Sighted, state_under};
ghost use Rattle.rears.specs.Rears.{Least, Back, Free, Rear};

use files::FileSet;
use parts::NEVER;
use uses::{Pick, Sight};

// The least position of the file's readers that still have the page before them; the page itself where none has.
fn least_ahead(sight: &Sight, file: usize, page: usize) -> usize
    requires { file < 8 }
    ensures least { (readers : List Reader) → Seated readers 16 sight.now.seats.now → Least readers file page 16 result }
    ensures low { result ≤ page }
{
    let seats = sight.seats;
    let mut least = page;
    let mut left = seats.slots[file];
    while let Some(slot) = left.pop() {
        if page <= seats.lasts[slot] as usize {
            least = least.min(seats.positions[slot] as usize);
        }
    }
    least
}

// The last cached page of the file that a step back does not pass over: every cached one between it and the page is ahead of a reader. The page itself, if it
// is cached and ahead of none.
fn back_from(sight: &Sight, file: usize, page: usize) -> usize
    requires { (file < 8) × (page ≤ 1024) }
    ensures back { (readers : List Reader) → Seated readers 16 sight.now.seats.now
        → Back readers sight.now.cached.now file page result × (result ≡ page → Free readers file result) }
    ensures low { result ≤ page }
{
    bits::last_set(sight.cached, file * 1024, least_ahead(sight, file, page))
}

// The last cached page of the file that is ahead of no reader; 0 where there is none.
fn behind_all(sight: &Sight, file: usize) -> usize
    requires { file < 8 }
    ensures back { (readers : List Reader) → Seated readers 16 sight.now.seats.now
        → Back readers sight.now.cached.now file (slice_index sight.now.sizes.now file) result × Free readers file result }
    ensures low { result ≤ slice_index sight.now.sizes.now file }
{
    let mut page = sight.sizes[file] as usize;
    let mut next = back_from(sight, file, page);
    while 0 < next && next < page {
        page = next;
        next = back_from(sight, file, page);
    }
    next
}

// The best page so far, or the file's last one that is ahead of no reader, where that is higher.
fn further_behind(sight: &Sight, file: usize, best: Pick) -> Pick
    requires { file < 8 }
    ensures { (t : Terms) (v : View) (fetching : List ℕ) → Sighted t sight.now.sizes.now sight.now.seats.now sight.now.cached.now fetching v
        → (files : ℕ → Bool) → files file ≡ true → Rear (state_under t v sight.now.cached.now fetching) files file best
        → Rear (state_under t v sight.now.cached.now fetching) files (file + 1) result }
{
    let page = behind_all(sight, file);
    if page == 0 {
        return best;
    }
    let value = 2 * NEVER + (page * 8 + file) as u64;
    if best.value < value {
        let key = (file * 1024 + page - 1) as u16;
        return Pick { key, value };
    }
    best
}

// Of the files of a set the page that goes first of those ahead of no reader: by its page, then by its file. The sight's terms and its map of the pages in
// fetch are not read.
pub fn furthest_behind(sight: &Sight, files: FileSet) -> Pick
    ensures { (t : Terms) (v : View) (fetching : List ℕ) → Sighted t sight.now.sizes.now sight.now.seats.now sight.now.cached.now fetching v
        → Rear (state_under t v sight.now.cached.now fetching) (in_set files) 8 result }
{
    let mut best = Pick::NONE;
    for file in files.first()..files.end() {
        if files.has(file) {
            best = further_behind(sight, file, best);
        }
    }
    best
}
