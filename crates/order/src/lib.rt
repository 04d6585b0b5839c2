// The page to give up: the head of the steal order. The order itself is not made here: of a few pages that can come first, the search keeps the best. A page
// ahead of no reader goes before any other, and is found without ranks; else it is the page of the highest rank.

#![tactic(auto)]

ghost use Rattle.std.specs.Prelude.{◌≡◌, ℕ, ◌<◌, T};
ghost use Rattle.rules.specs.Pages.{file_of, page_of};
ghost use Rattle.rules.specs.Valid.{Valid};
ghost use Rattle.rules.specs.UseTimes.{ahead};
ghost use Rattle.rules.specs.Orders.{victim};
ghost use Rattle.rules.specs.Ranks.{victim_among};
ghost use Rattle.rules.specs.Views.{state_of};
ghost use Rattle.parts.specs.Held.{Held};
ghost use Rattle.files.specs.Sets.{in_set};
ghost use Rattle.uses.specs.Shown.{Shows, seen};
ghost use Rattle.order.specs.Searches.{HasShort, AllShort, Over, higher_of, AllAhead, Looked, First};

use files::{FileSet, Shares};
use parts::NEVER;
use rules::View;
use uses::{Pick, Queue, Seats, Sight, Terms};

// ---- the page to give up, by ranks

// The rank of a page ahead of some reader, if it is above the floor; else a number that is not above it either. Asked are the readers queued, which are those
// short of the page. The nearest comes first: it most often reads the page first, and the others then need no count.
fn rank_over(sight: &Sight, queue: &Queue, key: usize, floor: u64) -> u64
    requires { (key < 8192) × AllShort queue.now (page_of key) }
    ensures { (v : View) → Shows sight.now v → HasShort v.readers (file_of key) (page_of key) queue.now → T (ahead (seen sight.now v) key)
        → Over (seen sight.now v) key floor result }
{
    let seats = sight.seats;
    let page = key % 1024 + 1;
    let mut top = NEVER + (page * 8 + key / 1024) as u64;
    let mut at = queue.end;
    while queue.first < at && floor < top {
        at -= 1;
        let number = queue.numbers[at];
        let slot = (number % 16) as usize;
        if page <= seats.lasts[slot] as usize {
            top = sight.lowered(slot, number / 16, seats.paces[slot], key, top);
        }
    }
    top
}

// The best page so far, or this one, where its rank is higher.
fn higher(sight: &Sight, queue: &Queue, key: usize, best: Pick) -> Pick
    requires { (key < 8192) × AllShort queue.now (page_of key) }
    ensures { (v : View) → Shows sight.now v → HasShort v.readers (file_of key) (page_of key) queue.now → T (ahead (seen sight.now v) key)
        → result ≡ higher_of (seen sight.now v) key best }
{
    let rank = rank_over(sight, queue, key, best.value);
    if best.value < rank {
        let key = key as u16;
        return Pick { key, value: rank };
    }
    best
}

// The best page after a look at a file, whose cached pages are all ahead of some reader. Of its pages with no reader between, only the last can be of the
// highest rank. So the last of all is looked at, and then again and again the last up to the nearest reader that was short of the one before. No page up to
// page n ranks above NEVER + n × 8 + file: once the best is that high, the search ends.
fn highest_of(sight: &Sight, file: usize, kept: Pick) -> Pick
    requires { file < 8 }
    ensures { (v : View) → Shows sight.now v → Looked (seen sight.now v) file 0 kept result }
{
    let mut queue = Queue::new();
    queue.add_readers(sight.seats, file);
    let mut best = kept;
    let mut n: usize = 1024;
    while !queue.is_empty() && best.value < NEVER + (n * 8 + file) as u64 {
        n = bits::last_set(sight.cached, file * 1024, n);
        queue.shorten_to(n);
        if let Some(position) = queue.last_position() {
            best = higher(sight, &queue, file * 1024 + n - 1, best);
            n = position;
        }
    }
    best
}

// The page of the highest rank of the files of a set, whose cached pages are all ahead of some reader.
fn highest(sight: &Sight, files: FileSet) -> Pick
    ensures { (v : View) → Shows sight.now v → AllAhead (seen sight.now v) (in_set files) → First (seen sight.now v) (in_set files) result }
{
    let mut best = Pick::NONE;
    for file in files.first()..files.end() {
        if files.has(file) {
            best = highest_of(sight, file, best);
        }
    }
    best
}

// ---- the page to give up

// The page that goes first of the files of a set, with its rank, which is 0 where they have no cached page. A page ahead of no reader goes before any other,
// and is found without ranks.
pub fn first_among(sight: &Sight, files: FileSet) -> Pick
    ensures { (v : View) → Shows sight.now v → First (seen sight.now v) (in_set files) result }
{
    let behind = rears::furthest_behind(sight, files);
    if 0 < behind.value {
        return behind;
    }
    highest(sight, files)
}

// The page to give up among the files of a set.
fn victim_among(sight: &Sight, files: FileSet) -> Option<u16>
    ensures { (v : View) → Shows sight.now v → result ≡ victim_among (in_set files) (seen sight.now v) }
{
    let first = first_among(sight, files);
    if first.value == 0 {
        return None;
    }
    Some(first.key)
}

// The page to give up, by the state's rule.
pub fn victim(v: View, cached: &[u64; 128], fetching: &[u64; 128], held: &[u16; 8]) -> Option<u16>
    requires { Valid (state_of v cached.now fetching.now) × Held cached.now held.now }
    ensures { result ≡ victim (state_of v cached.now fetching.now) }
{
    let shares = Shares::of_view(v);
    let files = FileSet::open(&shares, held);
    let seats = Seats::of(&v.readers);
    let sight = Sight {
        terms: Terms::of(&v),
        sizes: &v.sizes,
        seats: &seats,
        cached,
        fetching,
    };
    victim_among(&sight, files)
}
