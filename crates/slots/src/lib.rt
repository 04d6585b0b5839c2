// Attach, Read, Detach and Measure, the calls of a slot: one record changes, and the others stay.

#![tactic(auto)]

ghost use Rattle.std.specs.Prelude.{◌≡◌, ◌≤◌, ◌<◌, List, ℕ, set};
ghost use Rattle.rules.specs.Valid.{Valid};
ghost use Rattle.rules.specs.Views.{state_of};
ghost use Rattle.rules.specs.Calls.{reply, attach_of, read_of, detach_of, no_interval, measured_pace, measure_of};
ghost use Rattle.slots.specs.Berths.{berth_of, reader_slot};
ghost use Rattle.slots.specs.Others.{OthersStay};

use rules::{Answer, Condition, Reader, Refusal, View};
use state::Quay;

// One record changed, and the fifteen others as they are.
fn with_reader(mut readers: [Reader; 16], slot: usize, r: Reader) -> [Reader; 16]
    requires { slot < 16 }
    ensures { result ≡ set readers slot r }
{
    readers[slot] = r;
    readers
}

// ---- Attach

// What an Attach asks for, its numbers tested: a slot, a file, and the record that the slot gets.
#[derive(Clone, Copy)]
struct Berth {
    slot: usize,
    file: usize,
    reader: Reader,
}

// The berth of such numbers. Whether the slot is empty is asked last: 5 is the last of the refusals.
fn berth_of(
    sizes: [u16; 8],
    slot: u64,
    file: u64,
    pace: u64,
    start: u64,
    last: u64,
) -> Result<Berth, Refusal>
    ensures { result ≡ berth_of sizes slot file pace start last }
{
    let slot = parts::slot_in(slot)?;
    let file = parts::file_in(sizes, file)?;
    if !parts::within(1, 1000, pace) {
        return Err(Refusal::NoPace);
    }
    if parts::no_range(sizes[file], start, last) {
        return Err(Refusal::NoRange);
    }
    Ok(Berth {
        slot,
        file,
        reader: parts::docked(file as u8, pace as u16, start as u16, last as u16),
    })
}

// Attach on any view, whatever its maps. Only an Attach that is carried out counts (A.6).
#[tactic(auto, unfolding(rules::specs::Calls::attach_of))]
pub fn attach_in(v: &mut View, slot: u64, file: u64, pace: u64, start: u64, last: u64) -> Answer
    ensures by_rule { (c f : List ℕ) → reply (state_of v.new c f) result ≡ attach_of (state_of v.old c f) slot file pace start last }
    ensures one_record { (c f : List ℕ) → OthersStay (state_of v.old c f) slot (state_of v.new c f) }
{
    match berth_of(v.sizes, slot, file, pace, start, last) {
        Ok(Berth { slot, file, reader }) => match v.readers[slot].condition {
            Condition::Empty => {
                v.readers = with_reader(v.readers, slot, reader);
                v.marks[slot] = reader.position;
                v.attaches[file] = v.attaches[file].saturating_add(1);
                Answer::Done
            }
            Condition::Running | Condition::Waiting => Answer::Refused(Refusal::SlotTaken),
        },
        Err(why) => Answer::Refused(why),
    }
}

pub fn attach(q: &mut Quay, slot: u64, file: u64, pace: u64, start: u64, last: u64) -> Answer
    ensures by_rule { reply q.new result ≡ attach_of q.old slot file pace start last }
    ensures one_record { OthersStay q.old slot q.new }
{
    attach_in(&mut q.view, slot, file, pace, start, last)
}

// ---- Read

// Read on any view and maps that make a valid state.
#[tactic(auto, unfolding(rules::specs::Calls::read_of))]
pub fn read_in(v: &mut View, cached: &[u64; 128], fetching: &mut [u64; 128], slot: u64) -> Answer
    requires { Valid (state_of v.old cached.now fetching.old) }
    ensures by_rule { reply (state_of v.new cached.now fetching.new) result ≡ read_of (state_of v.old cached.now fetching.old) slot }
    ensures one_record { OthersStay (state_of v.old cached.now fetching.old) slot (state_of v.new cached.now fetching.new) }
{
    match parts::slot_in(slot) {
        Ok(i) => {
            let step = calls::read_slot(cached, fetching, v.readers[i]);
            v.readers[i] = step.reader;
            step.answer
        }
        Err(why) => Answer::Refused(why),
    }
}

pub fn read(q: &mut Quay, slot: u64) -> Answer
    ensures by_rule { reply q.new result ≡ read_of q.old slot }
    ensures one_record { OthersStay q.old slot q.new }
{
    read_in(&mut q.view, &q.cached, &mut q.fetching, slot)
}

// ---- Detach and Measure

// The slot of a reader. One that waits counts as one that runs.
fn reader_slot(readers: &[Reader; 16], slot: u64) -> Result<usize, Refusal>
    ensures { result ≡ reader_slot readers.now slot }
{
    let i = parts::slot_in(slot)?;
    if !parts::is_attached(readers[i]) {
        return Err(Refusal::SlotEmpty);
    }
    Ok(i)
}

// Detach on any view, whatever its maps: a fetch that the reader waited for stays open.
#[tactic(auto, unfolding(rules::specs::Calls::detach_of))]
pub fn detach_in(v: &mut View, slot: u64) -> Answer
    ensures by_rule { (c f : List ℕ) → reply (state_of v.new c f) result ≡ detach_of (state_of v.old c f) slot }
    ensures one_record { (c f : List ℕ) → OthersStay (state_of v.old c f) slot (state_of v.new c f) }
{
    match reader_slot(&v.readers, slot) {
        Ok(i) => {
            v.readers = with_reader(v.readers, i, parts::no_reader());
            v.marks[i] = 0;
            Answer::Done
        }
        Err(why) => Answer::Refused(why),
    }
}

pub fn detach(q: &mut Quay, slot: u64) -> Answer
    ensures by_rule { reply q.new result ≡ detach_of q.old slot }
    ensures one_record { OthersStay q.old slot q.new }
{
    detach_in(&mut q.view, slot)
}

// 16: an interval that is not 1 to 1,000,000 ticks, or more ticks blocked than it has.
fn no_interval(interval: u64, blocked: u64) -> bool
    ensures { result ≡ no_interval interval blocked }
{
    !parts::within(1, 1000000, interval) || interval < blocked
}

// The pace by what a reader has read since its mark. One that has read no page keeps its pace.
#[tactic(auto, unfolding(rules::specs::Calls::measured_pace))]
fn measured_pace(old: Reader, mark: u16, interval: u64, blocked: u64) -> u16
    requires { blocked ≤ interval }
    ensures { result ≡ measured_pace interval blocked old mark }
{
    let n = old.position.saturating_sub(mark);
    if n == 0 {
        return old.pace;
    }
    ((interval - blocked) / n as u64).clamp(1, 1000) as u16
}

// Measure on any view, whatever its maps. The ticks for which a reader waited are blocked ones.
#[tactic(auto, unfolding(rules::specs::Calls::measure_of))]
pub fn measure_in(v: &mut View, slot: u64, interval: u64, blocked: u64) -> Answer
    ensures by_rule { (c f : List ℕ) → reply (state_of v.new c f) result ≡ measure_of (state_of v.old c f) slot interval blocked }
    ensures one_record { (c f : List ℕ) → OthersStay (state_of v.old c f) slot (state_of v.new c f) }
{
    match reader_slot(&v.readers, slot) {
        Ok(_) if no_interval(interval, blocked) => Answer::Refused(Refusal::NoInterval),
        Ok(i) => {
            let old = v.readers[i];
            let pace = measured_pace(old, v.marks[i], interval, blocked);
            v.readers = with_reader(v.readers, i, parts::paced(old, pace));
            v.marks[i] = old.position;
            Answer::Done
        }
        Err(why) => Answer::Refused(why),
    }
}

pub fn measure(q: &mut Quay, slot: u64, interval: u64, blocked: u64) -> Answer
    ensures by_rule { reply q.new result ≡ measure_of q.old slot interval blocked }
    ensures one_record { OthersStay q.old slot q.new }
{
    measure_in(&mut q.view, slot, interval, blocked)
}
