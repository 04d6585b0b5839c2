// What the calls, the orders, the walks, the lists and the image all build and ask of readers, files and pages. A reader or a view is made here, by one
// function for each kind of change, or read from an image.

#![tactic(auto)]

ghost use Rattle.std.specs.Prelude.{◌≡◌, false, List, ℕ, ◌+◌, ◌-◌, ◌*◌, ◌/◌, ◌%◌, ◌≤◌, ◌<◌, get_or, length};
ghost use Rattle.bits.specs.Map.{bit, ones, put_bit};
ghost use Rattle.rules.specs.Views.{state_of, no_pages};
ghost use Rattle.rules.specs.Lists.{within};
ghost use Rattle.rules.specs.Pages.{file_of, page_of, key_of};
ghost use Rattle.rules.specs.Readers.{no_reader, attached, next_key, in_condition, onward, paced};
ghost use Rattle.rules.specs.Calls.{fresh, idle, docked};
ghost use Rattle.rules.specs.Orders.{weight_of, weight_sum, standing};
ghost use Rattle.rules.specs.Questions.{slot_at};
ghost use Rattle.parts.specs.Files.{no_file_in, no_page_in, no_range_in, file_in, key_in, slot_in, weight_in, Small};
ghost use Rattle.parts.specs.Held.{Held};
ghost use Rattle.parts.specs.Positions.{moved_to};

use rules::{Condition, Reader, Refusal, Rule, View};

// ---- numbers

// Above every use key: the page is in no look-ahead.
pub const NEVER: u64 = 67108864;

// The seat distance of a slot.
pub fn seat(turn: u8, slot: usize) -> u64
    requires { (turn < 16) × (slot < 16) }
    ensures { result ≡ (slot + 16 - turn) % 16 }
{
    ((slot + 16 - turn as usize) % 16) as u64
}

// The slot at a seat distance.
pub fn slot_at(turn: u8, distance: u32) -> u8
    requires { distance < 16 }
    ensures { result ≡ slot_at turn distance }
{
    ((distance + turn as u32) % 16) as u8
}

// ---- files and pages

// Is n from low to high, both included?
pub fn within(low: u64, high: u64, n: u64) -> bool
    ensures { result ≡ within low high n }
{
    (low..=high).contains(&n)
}

// 3: file above 7 or of size 0.
pub fn no_file(sizes: [u16; 8], file: u64) -> bool
    ensures { result ≡ no_file_in sizes file }
{
    7 < file || sizes[file as usize] == 0
}

// 8: page 0 or above the size. The file is asked for first: 3 is listed before 8.
pub fn no_page(sizes: [u16; 8], file: u64, page: u64) -> bool
    requires { file < 8 }
    ensures { result ≡ no_page_in sizes file page }
{
    !within(1, sizes[file as usize] as u64, page)
}

// 15: last page 0 or above the size, or start above the last. What is not refused fits a size.
pub fn no_range(size: u16, start: u64, last: u64) -> bool
    ensures value { result ≡ no_range_in size start last }
    ensures short { result ≡ false → last < 65536 }
{
    !within(1, size as u64, last) || last < start
}

// The file of a number, if it is there.
pub fn file_in(sizes: [u16; 8], file: u64) -> Result<usize, Refusal>
    ensures { result ≡ file_in sizes file }
{
    if no_file(sizes, file) {
        return Err(Refusal::NoFile);
    }
    Ok(file as usize)
}

// The key of a page, if its file has it.
pub fn key_in(sizes: [u16; 8], file: u64, page: u64) -> Result<usize, Refusal>
    ensures { result ≡ key_in sizes file page }
{
    file_in(sizes, file)?;
    if no_page(sizes, file, page) {
        return Err(Refusal::NoPage);
    }
    Ok(page_key(file, page))
}

// The slot of a number, if there is one.
pub fn slot_in(slot: u64) -> Result<usize, Refusal>
    ensures { result ≡ slot_in slot }
{
    if 15 < slot {
        return Err(Refusal::NoSlot);
    }
    Ok(slot as usize)
}

// The key of a page, whether the file has the page or not.
pub fn page_key(file: u64, page: u64) -> usize
    requires { Small file page }
    ensures { result ≡ key_of file page }
{
    (file * 1024 + page - 1) as usize
}

// The file of a key. Any key has one: those of the maps are below 8,192.
pub fn file_of(key: u16) -> u8
    ensures { result ≡ file_of key }
{
    (key / 1024) as u8
}

// The page of a key, which counts from 1.
pub fn page_of(key: u16) -> u16
    ensures { result ≡ page_of key }
{
    key % 1024 + 1
}

// ---- weights (A.6)

// A file's weight: the readers still to come, times its size.
pub fn weight(expected: u16, attaches: u16, size: u16) -> u64
    ensures value { result ≡ weight_of expected attaches size }
    ensures small { result < 4294967296 }
{
    expected.saturating_sub(attaches) as u64 * size as u64
}

// The sum of the files' weights, or 1 where all are 0.
pub fn weight_sum(expected: [u16; 8], attaches: [u16; 8], sizes: [u16; 8]) -> u64
    ensures { result ≡ weight_sum (weight_in expected attaches sizes) }
{
    let mut sum: u64 = 0;
    for file in 0..8 {
        sum += weight(expected[file], attaches[file], sizes[file]);
    }
    sum.max(1)
}

// The number by which a file is chosen that has so many cached pages and this weight, of this sum.
pub fn standing(frames: u16, sum: u64, weight: u64, file: usize, pages: u64) -> u64
    requires frames_bound { (frames ≤ 1024) × (weight ≤ sum) × (sum ≤ 8192000) }
    requires file_bound { (file < 8) × (pages ≤ 1024) }
    ensures value { result ≡ standing frames sum weight file pages }
    ensures small { result < 274877906944 }
{
    (pages * sum + frames as u64 * (sum - weight)) * 8 + file as u64
}

// ---- how many cached pages each file has

// Counts them.
pub fn count_held(cached: &[u64; 128], held: &mut [u16; 8])
    requires { length held.old ≡ 8 }
    ensures { Held cached.now held.new }
{
    for (file, n) in held.iter_mut().enumerate() {
        *n = bits::count(cached, file * 1024, 1024) as u16;
    }
}

// How many frames are taken.
pub fn taken(held: &[u16; 8]) -> u32
    requires { (f : ℕ) → f < 8 → get_or held.now f 0 ≤ 1024 }
    ensures { (cached : List ℕ) → Held cached held.now → result ≡ ones cached 0 8192 }
{
    let mut taken: u32 = 0;
    for n in held.iter() {
        taken += *n as u32;
    }
    taken
}

// A page that was not cached is cached.
pub fn page_in(held: &mut [u16; 8], key: usize)
    requires { (key < 8192) × (length held.old ≡ 8) × (get_or held.old (key / 1024) 0 ≤ 1024) }
    ensures { (cached : List ℕ) → Held cached held.old → bit cached key ≡ 0 → key / 64 < length cached
        → Held (put_bit cached key 1) held.new }
{
    held[key / 1024] += 1;
}

// A page that was cached is not.
pub fn page_out(held: &mut [u16; 8], key: usize)
    requires { (key < 8192) × (length held.old ≡ 8) × (0 < get_or held.old (key / 1024) 0) }
    ensures { (cached : List ℕ) → Held cached held.old → bit cached key ≡ 1 → key / 64 < length cached
        → Held (put_bit cached key 0) held.new }
{
    held[key / 1024] -= 1;
}

// ---- readers

// The record of an empty slot, all 0.
pub fn no_reader() -> Reader
    ensures { result ≡ no_reader }
{
    Reader {
        condition: Condition::Empty,
        file: 0,
        pace: 0,
        position: 0,
        last: 0,
    }
}

// The record that Attach gives a slot. Attach has tested the numbers.
pub fn docked(file: u8, pace: u16, start: u16, last: u16) -> Reader
    ensures { result ≡ docked file pace start last }
{
    Reader {
        condition: Condition::Running,
        file,
        pace,
        position: start,
        last,
    }
}

// The reader after a Read that answers H.
pub fn onward(r: Reader) -> Reader
    requires { r.position < 65535 }
    ensures { result ≡ onward r }
{
    Reader {
        position: r.position + 1,
        ..r
    }
}

// The reader at another position.
pub fn at_position(r: Reader, position: u16) -> Reader
    ensures { result ≡ moved_to position r }
{
    Reader { position, ..r }
}

// The reader that begins to wait, or runs again.
pub fn in_condition(r: Reader, condition: Condition) -> Reader
    ensures { result ≡ in_condition condition r }
{
    Reader { condition, ..r }
}

// The reader after a Measure.
pub fn paced(r: Reader, pace: u16) -> Reader
    ensures { result ≡ paced pace r }
{
    Reader { pace, ..r }
}

// Is there a reader in the slot? Running and waiting readers count alike.
pub fn is_attached(r: Reader) -> bool
    ensures { result ≡ attached r }
{
    r.condition != Condition::Empty
}

// The key of the page after the reader's position, whether the file has the page or not.
pub fn next_key(r: Reader) -> usize
    ensures { result ≡ next_key r }
{
    page_key(r.file as u64, r.position as u64 + 1)
}

// ---- views

// The view of a state without readers, pages or fetches.
pub fn fresh(
    frames: u16,
    look_ahead: u32,
    fetch_time: u32,
    sizes: [u16; 8],
    rule: Rule,
    expected: [u16; 8],
) -> View
    ensures { state_of result no_pages no_pages ≡ fresh frames look_ahead fetch_time sizes rule expected }
{
    View {
        marks: [0; 16],
        expected,
        attaches: [0; 8],
        frames,
        turn: 0,
        rule,
        look_ahead,
        fetch_time,
        sizes,
        readers: [no_reader(); 16],
    }
}

// The view of the idle state, which a refused Setup or Restore gives and with which the program starts.
pub fn idle() -> View
    ensures { state_of result no_pages no_pages ≡ idle }
{
    fresh(1, 1, 0, [0; 8], Rule::Of1989, [0; 8])
}
