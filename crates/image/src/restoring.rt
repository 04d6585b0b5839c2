// Restore: the state of an image's numbers, the tests that refuse an image, and the idle state where one does.

ghost use Rattle.std.specs.Prelude.{◌≡◌, true, false, ◌&&◌, [], map, ◌+◌, ◌*◌, ◌-◌, ◌<◌, ◌≤◌, length, eqb, MatchResult};
ghost use Rattle.bits.specs.Map.{ones};
ghost use Rattle.rules.specs.Lists.{range, every, within};
ghost use Rattle.rules.specs.Views.{state_of, view_of};
ghost use Rattle.rules.specs.Calls.{reply, settings_in};
ghost use Rattle.rules.specs.Readers.{awaits};
ghost use Rattle.rules.specs.Image.{
  rule_number,
  reader_from,
  reader_placed,
  reader_holds,
  gaps_hold,
  restore_whole,
  image_numbers,
  image_length,
};
ghost use Rattle.parts.specs.Files.{sized_with};
ghost use Rattle.parts.specs.Held.{Held};
ghost use Rattle.image.specs.Bytes.{state_in};
ghost use Rattle.image.specs.Tests.{SizesLow, known_condition, readable, mark_in, apart_at, clear_at, clear_above, size_holds, tests};

use crate::bytes::{Number, get_all, numbers_in};
use crate::{
    ATTACHES_AT, CACHED_AT, EXPECTED_AT, FETCHING_AT, FILLER_AT, GAP_AT, IMAGE_LENGTH, MARKS_AT,
    READERS_AT, RULE_AT, SIZES_AT,
};
use rules::{Answer, Condition, NoNumber, Reader, Refusal, Rule, View};
use state::Quay;

// ---- the state of an image's numbers

// The record of a slot, if the number of its condition is one's.
fn reader_in(image: &[u8], slot: usize) -> Result<Reader, NoNumber>
    requires { (length image.now ≡ image_length) × (slot < 16) }
    ensures { MatchResult result
        (λ r. (known_condition (image_numbers image.now) slot ≡ true) × (r ≡ reader_from (image_numbers image.now) slot))
        (λ _. known_condition (image_numbers image.now) slot ≡ false) }
{
    let at = READERS_AT + 8 * slot;
    let condition = Condition::try_from(u8::get(image, at))?;
    Ok(Reader {
        condition,
        file: u8::get(image, at + 1),
        pace: u16::get(image, at + 2),
        position: u16::get(image, at + 4),
        last: u16::get(image, at + 6),
    })
}

fn readers_in(image: &[u8]) -> Result<[Reader; 16], NoNumber>
    requires { length image.now ≡ image_length }
    ensures { MatchResult result
        (λ rs. (every (known_condition (image_numbers image.now)) (range 0 16) ≡ true) × (rs ≡ map (reader_from (image_numbers image.now)) (range 0 16)))
        (λ _. every (known_condition (image_numbers image.now)) (range 0 16) ≡ false) }
{
    let mut readers = [parts::no_reader(); 16];
    for (slot, r) in readers.iter_mut().enumerate() {
        *r = reader_in(image, slot)?;
    }
    Ok(readers)
}

// All of an image's state but the maps, if the numbers of its readers' conditions and of its rule are those of some.
fn view_in(image: &[u8]) -> Result<View, NoNumber>
    requires { length image.now ≡ image_length }
    ensures { MatchResult result (λ v. (readable (image_numbers image.now) ≡ true) × (v ≡ view_of (state_in image.now)))
        (λ _. readable (image_numbers image.now) ≡ false) }
{
    let readers = readers_in(image)?;
    let rule = Rule::try_from(u8::get(image, RULE_AT))?;
    Ok(View {
        frames: u16::get(image, 0),
        turn: u8::get(image, 2),
        look_ahead: u32::get(image, 4),
        fetch_time: u32::get(image, 8),
        sizes: numbers_in(image, SIZES_AT),
        readers,
        marks: numbers_in(image, MARKS_AT),
        rule,
        expected: numbers_in(image, EXPECTED_AT),
        attaches: numbers_in(image, ATTACHES_AT),
    })
}

// Reads both maps into their places.
pub fn read_maps(image: &[u8], cached: &mut [u64; 128], fetching: &mut [u64; 128])
    requires { length image.now ≡ image_length }
    ensures { (cached.new ≡ (state_in image.now).cached) × (fetching.new ≡ (state_in image.now).fetching) }
{
    get_all(cached, image, CACHED_AT);
    get_all(fetching, image, FETCHING_AT);
}

// ---- its tests

// A number for each file, each at most `high`.
fn eight_hold(numbers: &[u16; 8], high: u16) -> bool
    ensures { result ≡ every (within 0 high) numbers.now }
{
    numbers.iter().all(|n| *n <= high)
}

fn settings_hold(v: &View) -> bool
    ensures { result ≡ settings_in v.now.frames v.now.look_ahead v.now.fetch_time v.now.sizes (rule_number v.now.rule) v.now.expected }
{
    parts::within(1, 1024, v.frames as u64)
        && parts::within(1, 2000000, v.look_ahead as u64)
        && v.fetch_time <= 2000000
        && eight_hold(&v.sizes, 1024)
        && eight_hold(&v.expected, 1000)
}

fn is_blank(r: &Reader) -> bool
    ensures { result ≡ (eqb r.now.file 0 && (eqb r.now.pace 0 && (eqb r.now.position 0 && eqb r.now.last 0))) }
{
    r.file == 0 && r.pace == 0 && r.position == 0 && r.last == 0
}

// An attached reader: its file is there, its pace is in range, its last page is in the file, and its position is not past it.
fn reader_placed(r: &Reader, sizes: &[u16; 8]) -> bool
    ensures { result ≡ reader_placed (sized_with sizes.now []) r.now }
{
    if parts::no_file(*sizes, r.file as u64) {
        return false;
    }
    let size = sizes[r.file as usize];
    parts::within(1, 1000, r.pace as u64)
        && !parts::no_range(size, r.position as u64, r.last as u64)
}

// A reader is not at its last page, and its next page is in fetch.
fn reader_awaits(r: &Reader, fetching: &[u64; 128]) -> bool
    requires { (r.now.file < 8) × (r.now.last ≤ 1024) }
    ensures { result ≡ awaits (sized_with [] fetching.now) r.now }
{
    r.position < r.last && bits::has_bit(fetching, parts::next_key(*r))
}

fn reader_holds(r: &Reader, sizes: &[u16; 8], fetching: &[u64; 128]) -> bool
    requires { SizesLow sizes.now }
    ensures { result ≡ reader_holds (sized_with sizes.now fetching.now) r.now }
{
    match r.condition {
        Condition::Empty => is_blank(r),
        Condition::Running => reader_placed(r, sizes),
        Condition::Waiting => reader_placed(r, sizes) && reader_awaits(r, fetching),
    }
}

fn readers_hold(readers: &[Reader; 16], sizes: &[u16; 8], fetching: &[u64; 128]) -> bool
    requires { SizesLow sizes.now }
    ensures { result ≡ every (reader_holds (sized_with sizes.now fetching.now)) readers.now }
{
    readers.iter().all(|r| reader_holds(r, sizes, fetching))
}

// The mark of each slot is at most its position.
fn marks_hold(v: &View) -> bool
    ensures { result ≡ every (mark_in v.now.marks v.now.readers) (range 0 16) }
{
    (0..16).all(|slot| v.marks[slot] <= v.readers[slot].position)
}

// No page is in both maps. The loop has no exit on its way, so that it takes several words at a time.
fn is_apart(cached: &[u64; 128], fetching: &[u64; 128]) -> bool
    ensures { result ≡ every (apart_at cached.now fetching.now) (range 0 8192) }
{
    let mut both: u64 = 0;
    for i in 0..128 {
        both |= cached[i] & fetching[i];
    }
    both == 0
}

// No page is in either map from key `from` on to the end of word `end` - 1.
fn is_clear(cached: &[u64; 128], fetching: &[u64; 128], from: usize, end: usize) -> bool
    requires { (from < end * 64) × (end ≤ 128) }
    ensures { result ≡ every (clear_at cached.now fetching.now) (range from (end * 64 - from)) }
{
    let first = from / 64;
    let mut any = (cached[first] | fetching[first]) >> (from % 64);
    for i in first + 1..end {
        any |= cached[i] | fetching[i];
    }
    any == 0
}

// No bit stands above the size of file f. A file of 1,024 pages has no such bits.
fn file_holds(f: usize, size: u16, cached: &[u64; 128], fetching: &[u64; 128]) -> bool
    requires { (f < 8) × (size ≤ 1024) }
    ensures { result ≡ clear_above cached.now fetching.now f size }
{
    size == 1024 || is_clear(cached, fetching, f * 1024 + size as usize, f * 16 + 16)
}

fn files_hold(sizes: &[u16; 8], cached: &[u64; 128], fetching: &[u64; 128]) -> bool
    requires { SizesLow sizes.now }
    ensures { result ≡ every (size_holds sizes.now cached.now fetching.now) (range 0 8) }
{
    (0..8).all(|f| file_holds(f, sizes[f], cached, fetching))
}

// The 0 bytes that are no slot's are 0.
fn gaps_hold(image: &[u8]) -> bool
    requires { length image.now ≡ image_length }
    ensures { result ≡ gaps_hold (image_numbers image.now) }
{
    u8::get(image, 3) == 0 && u32::get(image, GAP_AT) == 0 && u8::get(image, FILLER_AT) == 0
}

// What was read is a state of the box, of whose frames so many are taken.
fn holds(v: &View, cached: &[u64; 128], fetching: &[u64; 128], taken: u32) -> bool
    requires { taken ≡ ones cached.now 0 8192 }
    ensures { result ≡ tests (state_of v.now cached.now fetching.now) }
{
    // The readers and the maps are tested by sizes that are low.
    if !settings_hold(v) {
        return false;
    }
    v.turn <= 15
        && readers_hold(&v.readers, &v.sizes, fetching)
        && marks_hold(v)
        && taken <= v.frames as u32
        && is_apart(cached, fetching)
        && files_hold(&v.sizes, cached, fetching)
}

// ---- Restore

// Restore of an image as long as Save writes it; any other is refused. The maps are read into their places, whatever these held, and tested there; where the
// image is refused, all becomes idle.
pub fn restore_whole_in(
    v: &mut View,
    cached: &mut [u64; 128],
    fetching: &mut [u64; 128],
    held: &mut [u16; 8],
    image: &[u8],
) -> Answer
    ensures by_rule { reply (state_of v.new cached.new fetching.new) result ≡ restore_whole image.now }
    ensures counted { Held cached.new held.new }
{
    // The length of a lent array is known once it is set, and the count asks for it.
    *held = [0; 8];
    if image.len() == IMAGE_LENGTH {
        read_maps(image, cached, fetching);
        parts::count_held(cached, held);
        if let Ok(view) = view_in(image) {
            if gaps_hold(image) && holds(&view, cached, fetching, parts::taken(held)) {
                *v = view;
                return Answer::Done;
            }
        }
    }
    *v = parts::idle();
    *cached = [0; 128];
    *fetching = [0; 128];
    *held = [0; 8];
    Answer::Refused(Refusal::NoImage)
}

pub fn restore_whole(q: &mut Quay, image: &[u8]) -> Answer
    ensures { reply q.new result ≡ restore_whole image.now }
{
    restore_whole_in(
        &mut q.view,
        &mut q.cached,
        &mut q.fetching,
        &mut q.held,
        image,
    )
}
