// Setup, Read on one record, Lost, Arrive, Steal, Prefetch, each as its rule has it.

#![tactic(auto)]

ghost use Rattle.std.specs.Prelude.{◌≡◌, true, List, [], map, ℕ, ◌≤◌, ◌<◌, get_or, length, replicate};
ghost use Rattle.bits.specs.Map.{bit, put_bit};
ghost use Rattle.rules.specs.Valid.{Valid};
ghost use Rattle.rules.specs.Views.{state_of, no_pages};
ghost use Rattle.rules.specs.Lists.{within, every};
ghost use Rattle.rules.specs.Readers.{reader_in};
ghost use Rattle.rules.specs.Calls.{
  reply,
  rule_in,
  settings_in,
  setup_of,
  read_running,
  read_of,
  steal_of,
  dropped,
  without,
  woken,
  arrive_of,
  lost_of,
  prefetch_of,
};
ghost use Rattle.parts.specs.Held.{Held};
ghost use Rattle.calls.specs.Inner.{Readable, stepped, open_fetch, CachedIn, eased, arrival_of};

use rules::{Answer, Condition, Reader, Refusal, Rule, View};
use state::Quay;

// What a Read makes of a slot: the record that it has then, and the answer.
#[derive(Clone, Copy)]
pub struct Step {
    pub reader: Reader,
    pub answer: Answer,
}

// ---- Setup

// Is every number at most this high?
fn all_within(high: u64, numbers: &[u64; 8]) -> bool
    ensures { result ≡ every (within 0 high) numbers.now }
{
    numbers.iter().all(|n| *n <= high)
}

// A number of each file, as the state has them.
fn stored(numbers: &[u64; 8]) -> [u16; 8]
    requires { every (within 0 65535) numbers.now ≡ true }
    ensures { result ≡ numbers.now }
{
    let mut kept = [0u16; 8];
    for (file, n) in numbers.iter().enumerate() {
        kept[file] = *n as u16;
    }
    kept
}

// Are the rule and the readers expected in range? A rule above 1 is none of the two (A.6).
fn rule_in(rule: u64, expected: &[u64; 8]) -> bool
    ensures { result ≡ rule_in rule expected.now }
{
    parts::within(0, 1, rule) && all_within(1000, expected)
}

// Are the settings in range?
#[tactic(auto, unfolding(rules::specs::Calls::settings_in))]
fn settings_in(
    frames: u64,
    look_ahead: u64,
    fetch_time: u64,
    sizes: &[u64; 8],
    rule: u64,
    expected: &[u64; 8],
) -> bool
    ensures { result ≡ settings_in frames look_ahead fetch_time sizes.now rule expected.now }
{
    if !parts::within(1, 1024, frames) {
        return false;
    }
    if !parts::within(1, 2000000, look_ahead) {
        return false;
    }
    if !parts::within(0, 2000000, fetch_time) {
        return false;
    }
    if !all_within(1024, sizes) {
        return false;
    }
    rule_in(rule, expected)
}

// Setup of a view, by either rule: in the state after it no page is cached or in fetch, so no maps are asked for.
#[tactic(auto, unfolding(rules::specs::Calls::setup_of, rules::specs::Calls::settings_in))]
pub fn setup_by_rule_in(
    v: &mut View,
    frames: u64,
    look_ahead: u64,
    fetch_time: u64,
    sizes: [u64; 8],
    rule: u64,
    expected: [u64; 8],
) -> Answer
    ensures { reply (state_of v.new no_pages no_pages) result ≡ setup_of frames look_ahead fetch_time sizes rule expected }
{
    if !settings_in(frames, look_ahead, fetch_time, &sizes, rule, &expected) {
        *v = parts::idle();
        return Answer::Refused(Refusal::OutOfRange);
    }
    *v = parts::fresh(
        frames as u16,
        look_ahead as u32,
        fetch_time as u32,
        stored(&sizes),
        Rule::from_number(rule),
        stored(&expected),
    );
    Answer::Done
}

// Setup as a line asks for it: by the 1989 rule, and no readers are expected (A.6).
pub fn setup_in(
    v: &mut View,
    frames: u64,
    look_ahead: u64,
    fetch_time: u64,
    sizes: [u64; 8],
) -> Answer
    ensures { reply (state_of v.new no_pages no_pages) result ≡ setup_of frames look_ahead fetch_time sizes 0 (replicate 8 0) }
{
    setup_by_rule_in(v, frames, look_ahead, fetch_time, sizes, 0, [0; 8])
}

pub fn setup_by_rule(
    q: &mut Quay,
    frames: u64,
    look_ahead: u64,
    fetch_time: u64,
    sizes: [u64; 8],
    rule: u64,
    expected: [u64; 8],
) -> Answer
    ensures { reply q.new result ≡ setup_of frames look_ahead fetch_time sizes rule expected }
{
    let mut view = q.view;
    let answer = setup_by_rule_in(
        &mut view, frames, look_ahead, fetch_time, sizes, rule, expected,
    );
    *q = Quay::empty(view);
    answer
}

pub fn setup(q: &mut Quay, frames: u64, look_ahead: u64, fetch_time: u64, sizes: [u64; 8]) -> Answer
    ensures { reply q.new result ≡ setup_of frames look_ahead fetch_time sizes 0 (replicate 8 0) }
{
    setup_by_rule(q, frames, look_ahead, fetch_time, sizes, 0, [0; 8])
}

// ---- Read

// The Read of a running reader, whose record is `old`. The caller stores the record.
#[tactic(auto, unfolding(rules::specs::Calls::read_running))]
fn read_running(cached: &[u64; 128], fetching: &mut [u64; 128], old: Reader) -> Step
    requires { Readable old }
    ensures { (v : View) (i : ℕ) → old ≡ reader_in v.readers i
        → stepped (state_of v cached.now fetching.old) i result fetching.new
        ≡ read_running (state_of v cached.now fetching.old) i old }
{
    if old.position == old.last {
        return Step {
            reader: old,
            answer: Answer::End,
        };
    }
    let file = old.file;
    let page = old.position + 1;
    let key = parts::next_key(old);
    if bits::has_bit(cached, key) {
        return Step {
            reader: parts::onward(old),
            answer: Answer::Hit { file, page },
        };
    }
    let reader = parts::in_condition(old, Condition::Waiting);
    if bits::has_bit(fetching, key) {
        return Step {
            reader,
            answer: Answer::Wait { file, page },
        };
    }
    bits::set_bit(fetching, key);
    Step {
        reader,
        answer: Answer::Fetch { file, page },
    }
}

// Read on one record. The maps are looked at only for a running reader; the one that waits is not moved by Read but by the end of its fetch.
#[tactic(auto, unfolding(rules::specs::Calls::read_of))]
pub fn read_slot(cached: &[u64; 128], fetching: &mut [u64; 128], old: Reader) -> Step
    requires { Readable old }
    ensures { (v : View) (i : ℕ) → i < 16 → old ≡ reader_in v.readers i
        → stepped (state_of v cached.now fetching.old) i result fetching.new
        ≡ read_of (state_of v cached.now fetching.old) i }
{
    match old.condition {
        Condition::Empty => Step {
            reader: old,
            answer: Answer::Refused(Refusal::SlotEmpty),
        },
        Condition::Running => read_running(cached, fetching, old),
        Condition::Waiting => Step {
            reader: old,
            answer: Answer::Refused(Refusal::ReaderWaits),
        },
    }
}

// ---- the end of a fetch

// The key of a page that is in fetch: what Arrive and Lost are asked for.
fn open_fetch(
    sizes: [u16; 8],
    fetching: &[u64; 128],
    file: u64,
    page: u64,
) -> Result<usize, Refusal>
    requires { get_or sizes file 0 ≤ 1024 }
    ensures { result ≡ open_fetch sizes fetching.now file page }
{
    let key = parts::key_in(sizes, file, page)?;
    if !bits::has_bit(fetching, key) {
        return Err(Refusal::NotInFetch);
    }
    Ok(key)
}

// A reader that waits for the page runs.
#[tactic(auto, unfolding(rules::specs::Calls::woken))]
fn wake_reader(r: Reader, key: usize) -> Reader
    ensures { result ≡ woken key r }
{
    match r.condition {
        Condition::Waiting if parts::next_key(r) == key => {
            parts::in_condition(r, Condition::Running)
        }
        Condition::Empty | Condition::Running | Condition::Waiting => r,
    }
}

// Every reader that waits for the page runs. Inlined, so that the records are not copied on their way in and out.
#[inline(always)]
pub fn wake(readers: [Reader; 16], key: usize) -> [Reader; 16]
    ensures { result ≡ map (woken key) readers }
{
    let mut next = readers;
    for r in next.iter_mut() {
        *r = wake_reader(*r, key);
    }
    next
}

// Lost on any view whose sizes fit, whatever is cached: the page leaves fetch, and every reader that waits for it runs.
#[tactic(auto, unfolding(rules::specs::Calls::lost_of, rules::specs::Calls::for_fetch))]
pub fn lost_in(v: &mut View, fetching: &mut [u64; 128], file: u64, page: u64) -> Answer
    requires { get_or v.old.sizes file 0 ≤ 1024 }
    ensures { (c : List ℕ) → reply (state_of v.new c fetching.new) result ≡ lost_of (state_of v.old c fetching.old) file page }
{
    match open_fetch(v.sizes, fetching, file, page) {
        Ok(key) => {
            bits::clear_bit(fetching, key);
            v.readers = wake(v.readers, key);
            Answer::Done
        }
        Err(why) => Answer::Refused(why),
    }
}

pub fn lost(q: &mut Quay, file: u64, page: u64) -> Answer
    ensures { reply q.new result ≡ lost_of q.old file page }
{
    lost_in(&mut q.view, &mut q.fetching, file, page)
}

// The page chosen, if any, gives up its frame.
fn make_room(cached: &mut [u64; 128], held: &mut [u16; 8], gone: Option<u16>)
    requires cached_len { (length cached.old ≡ 128) × CachedIn cached.old gone }
    requires held { Held cached.old held.old }
    ensures cached_after { cached.new ≡ eased cached.old gone }
    ensures counted { Held cached.new held.new }
{
    if let Some(key) = gone {
        bits::clear_bit(cached, key as usize);
        parts::page_out(held, key as usize);
    }
}

// A page arrives on the maps and the counts: one that is chosen gives up its frame, and the page leaves fetch and is cached.
pub fn put_in(
    cached: &mut [u64; 128],
    fetching: &mut [u64; 128],
    held: &mut [u16; 8],
    key: usize,
    gone: Option<u16>,
)
    requires key_bound { (key < 8192) × (bit cached.old key ≡ 0) }
    requires cached_len { (length cached.old ≡ 128) × CachedIn cached.old gone }
    requires held { Held cached.old held.old }
    ensures cached_after { cached.new ≡ put_bit (eased cached.old gone) key 1 }
    ensures still { fetching.new ≡ without fetching.old key }
    ensures counted { Held cached.new held.new }
{
    make_room(cached, held, gone);
    bits::set_bit(cached, key);
    parts::page_in(held, key);
    bits::clear_bit(fetching, key);
}

// Arrive's answer, which names the page that gave up its frame.
pub fn arrival(gone: Option<u16>) -> Answer
    ensures { result ≡ arrival_of gone }
{
    match gone {
        Some(key) => Answer::Replaced {
            file: parts::file_of(key),
            page: parts::page_of(key),
        },
        None => Answer::Arrived,
    }
}

// The page that gives up its frame for one that arrives: where all frames are taken, the head of the steal order.
fn give_up(q: &Quay) -> Option<u16>
    ensures { result ≡ dropped q.now }
{
    if parts::taken(&q.held) < q.view.frames as u32 {
        return None;
    }
    order::victim(q.view, &q.cached, &q.fetching, &q.held)
}

// The page to give up is chosen before the one that arrives leaves fetch and is cached. So that one is never the one to go, and is present in the choice
// (A.5).
#[tactic(auto, unfolding(rules::specs::Calls::arrive_of, rules::specs::Calls::for_fetch, rules::specs::Calls::landed))]
pub fn arrive(q: &mut Quay, file: u64, page: u64) -> Answer
    ensures { reply q.new result ≡ arrive_of q.old file page }
{
    match open_fetch(q.view.sizes, &q.fetching, file, page) {
        Ok(key) => {
            let gone = give_up(q);
            put_in(&mut q.cached, &mut q.fetching, &mut q.held, key, gone);
            q.view.readers = wake(q.view.readers, key);
            arrival(gone)
        }
        Err(why) => Answer::Refused(why),
    }
}

// ---- Steal and Prefetch: the heads of the two orders, worked out afresh

#[tactic(auto, unfolding(rules::specs::Calls::steal_of))]
pub fn steal(q: &mut Quay) -> Answer
    ensures { reply q.new result ≡ steal_of q.old }
{
    match order::victim(q.view, &q.cached, &q.fetching, &q.held) {
        Some(key) => {
            bits::clear_bit(&mut q.cached, key as usize);
            parts::page_out(&mut q.held, key as usize);
            Answer::Stolen {
                file: parts::file_of(key),
                page: parts::page_of(key),
            }
        }
        None => Answer::Nothing,
    }
}

// Prefetch on any view and maps that make a valid state. No reader waits for the page: one that comes to it before it arrives begins to wait by Read.
#[tactic(auto, unfolding(rules::specs::Calls::prefetch_of))]
pub fn prefetch_in(v: View, cached: &[u64; 128], fetching: &mut [u64; 128]) -> Answer
    requires { Valid (state_of v cached.now fetching.old) }
    ensures { reply (state_of v cached.now fetching.new) result ≡ prefetch_of (state_of v cached.now fetching.old) }
{
    match fetch::next_fetch(v, cached, fetching) {
        Some(key) => {
            bits::set_bit(fetching, key as usize);
            Answer::Fetch {
                file: parts::file_of(key),
                page: parts::page_of(key),
            }
        }
        None => Answer::Nothing,
    }
}

pub fn prefetch(q: &mut Quay) -> Answer
    ensures { reply q.new result ≡ prefetch_of q.old }
{
    prefetch_in(q.view, &q.cached, &mut q.fetching)
}
