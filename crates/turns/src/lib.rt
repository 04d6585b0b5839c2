// The turns of a Run, of the slots in their order: each with Read and, where that meets F, Arrive and Read again. A turn changes one position, the cached map
// and the files' counts. So the view stays as it is for a leg of turns: the positions are in the seats of the searches, which go along from turn to turn, and
// so does what is known of the files' heads.

#![tactic(auto)]

ghost use Rattle.std.specs.Prelude.{◌≡◌, ℕ, ◌+◌, ◌≤◌, ◌<◌, T, length, slice_index};
ghost use Rattle.rules.specs.declared.State.{State};
ghost use Rattle.rules.specs.Readers.{reader_in, attached};
ghost use Rattle.rules.specs.Calls.{dropped};
ghost use Rattle.rules.specs.Run.{hit_page};
ghost use Rattle.parts.specs.Held.{Held};
ghost use Rattle.parts.specs.Positions.{moved_to};
ghost use Rattle.files.specs.Leads.{SharesOf};
ghost use Rattle.uses.specs.Sights.{under, state_under};
ghost use Rattle.uses.specs.Shown.{Shows, seen};
ghost use Rattle.heads.specs.Heads.{Kept, Forgot, NotRead};
ghost use Rattle.turns.specs.Places.{moved_seat, Following, Coming, Landed, Turning};
ghost use Rattle.turns.specs.Tallies.{Single, Made};
ghost use Rattle.turns.specs.Runs.{Ready, Few, GoesOn, Underway};

use calls::Step;
use files::{FileSet, Shares};
use heads::Heads;
use rules::{Answer, Reader, View};
use uses::{Seats, Sight, Terms};

// What a turn did: 1 if it met F, and 1 if it ended in H.
#[derive(Clone, Copy)]
pub struct Turned {
    pub fetched: u16,
    pub read: u16,
}

// A Run under way: the view after the turns made, its readers' seats and the heads known, and how many turns, fetches and reads were made.
#[derive(Clone, Copy)]
pub struct Run {
    pub view: View,
    pub seats: Seats,
    pub heads: Heads,
    pub turns: u64,
    pub fetches: u16,
    pub reads: u16,
}

// The page that gives up its frame for one that arrives: where all frames are taken, the head of the steal order.
fn give_up(
    sight: &Sight,
    shares: &Option<Shares>,
    held: &[u16; 8],
    heads: &mut Heads,
) -> Option<u16>
    requires { (sight.now.terms.done ≤ 16384) × Held sight.now.cached.now held.now × ((v : View) × Shows sight.now v) }
    ensures { (v : View) → Shows sight.now v → SharesOf (under sight.now.terms v) shares.now → Kept (seen sight.now v) sight.now.terms.done heads.old
        → (result ≡ dropped (seen sight.now v)) × Kept (seen sight.now v) sight.now.terms.done heads.new }
{
    if parts::taken(held) < sight.terms.frames as u32 {
        return None;
    }
    heads.victim(sight, FileSet::open(shares, held))
}

// Run's Arrive, of a page that is in fetch. What goes for it is chosen before it leaves fetch: so it is present in the choice (A.5), and never the one to go.
// That every reader waiting for it runs again is said of the state alone: the seats have positions, and these stay.
fn arrive(
    v: &View,
    terms: Terms,
    shares: &Option<Shares>,
    seats: &Seats,
    heads: &mut Heads,
    cached: &mut [u64; 128],
    fetching: &mut [u64; 128],
    held: &mut [u16; 8],
    file: u8,
    page: u16,
) -> Answer
    requires coming { (w : View) × Coming v.now terms shares.now seats.now heads.old cached.old fetching.old file page w }
    requires done_bound { (terms.done ≤ 16384) × Held cached.old held.old }
    ensures by_rule { (w : View) → Coming v.now terms shares.now seats.now heads.old cached.old fetching.old file page w
        → Landed (state_under terms w cached.old fetching.old) terms.done file page result heads.new cached.new fetching.new }
    ensures counted { Held cached.new held.new }
{
    let sight = Sight {
        terms,
        sizes: &v.sizes,
        seats,
        cached,
        fetching,
    };
    let gone = give_up(&sight, shares, held, heads);
    let key = parts::page_key(file as u64, page as u64);
    calls::put_in(cached, fetching, held, key, gone);
    heads.forget_arrived(key, gone);
    calls::arrival(gone)
}

// A turn ends in a Read: the seat has the position of the record that it left, and the head of the reader's file is known no more.
fn end_turn(
    slot: usize,
    seats: &mut Seats,
    heads: &mut Heads,
    r: Reader,
    step: Step,
    fetched: u16,
) -> Turned
    requires { (slot < 16) × (T (attached r) → r.file < 8) }
    ensures value { result ≡ record { fetched = fetched; read = length (hit_page step.answer) } }
    ensures placed { seats.new ≡ moved_seat seats.old slot step.reader.position }
    ensures forgot { Forgot heads.old (λ f. NotRead f r) heads.new }
{
    seats.positions[slot] = step.reader.position;
    heads.forget_read(r);
    Turned {
        fetched,
        read: u16::from(matches!(step.answer, Answer::Hit { .. })),
    }
}

// One turn. Read refuses an empty slot and changes nothing, so the slot is not looked at before. The reader that waits for its page runs again once that has
// arrived: the second Read is of the same record.
fn turn(
    v: &View,
    terms: Terms,
    shares: &Option<Shares>,
    seats: &mut Seats,
    heads: &mut Heads,
    cached: &mut [u64; 128],
    fetching: &mut [u64; 128],
    held: &mut [u16; 8],
) -> Turned
    requires turning { (w : View) × Turning v.now terms shares.now seats.old heads.old cached.old fetching.old w }
    requires done_bound { (terms.done ≤ 16384) × Held cached.old held.old }
    ensures by_rule { (w : View) → Turning v.now terms shares.now seats.old heads.old cached.old fetching.old w
        → (p : ℕ) × Made terms w seats.old cached.old fetching.old result seats.new heads.new cached.new fetching.new p }
    ensures single { Single result }
    ensures counted { Held cached.new held.new }
{
    let slot = terms.turn as usize;
    let r = parts::at_position(v.readers[slot], seats.positions[slot]);
    let first = calls::read_slot(cached, fetching, r);
    let Answer::Fetch { file, page } = first.answer else {
        return end_turn(slot, seats, heads, r, first, 0);
    };
    heads.forget_fetched(terms.fetch_time, r);
    arrive(
        v, terms, shares, seats, heads, cached, fetching, held, file, page,
    );
    let second = calls::read_slot(cached, fetching, r);
    end_turn(slot, seats, heads, r, second, 1)
}

// The readers at these positions.
fn readers_at(mut readers: [Reader; 16], positions: &[u16; 16]) -> [Reader; 16]
    ensures sixteen { length result ≡ 16 }
    ensures moved { (j : ℕ) → j < 16 → reader_in result j ≡ moved_to (slice_index positions.now j) (reader_in readers j) }
{
    for (j, r) in readers.iter_mut().enumerate() {
        *r = parts::at_position(*r, positions[j]);
    }
    readers
}

// The view after some turns: it is this slot's turn, and the readers are at these positions.
pub fn view_after(v: &View, slot: u8, positions: &[u16; 16]) -> View
    ensures { Following v.now slot positions.now result }
{
    let mut after = *v;
    after.turn = slot;
    after.readers = readers_at(v.readers, positions);
    after
}

impl Run {
    // Some turns more, one after the other. The counts fit: each turn adds at most 1 to either, and there are at most 16,384. Between two turns no page is in
    // fetch.
    pub fn go_on(
        &mut self,
        cached: &mut [u64; 128],
        fetching: &mut [u64; 128],
        held: &mut [u16; 8],
        turns: u64,
    )
        requires ready { Ready self.old cached.old fetching.old × Few self.old }
        requires few { (self.old.turns + turns ≤ 16384) × Held cached.old held.old }
        ensures ready { Ready self.new cached.new fetching.new × Few self.new }
        ensures leg { GoesOn self.old cached.old fetching.old turns self.new cached.new fetching.new }
        ensures gone { (s : State) → Underway s self.old cached.old fetching.old → Underway s self.new cached.new fetching.new }
        ensures all { self.new.turns ≡ self.old.turns + turns }
        ensures counted { Held cached.new held.new }
    {
        let v = self.view;
        let shares = Shares::of_view(v);
        let done = self.turns;
        let mut slot = v.turn;
        for i in 0..turns {
            let mut terms = Terms::of(&v);
            terms.turn = slot;
            terms.done = done + i;
            let q = turn(
                &v,
                terms,
                &shares,
                &mut self.seats,
                &mut self.heads,
                cached,
                fetching,
                held,
            );
            self.fetches += q.fetched;
            self.reads += q.read;
            slot = (slot + 1) % 16;
        }
        self.turns = done + turns;
        self.view = view_after(&v, slot, &self.seats.positions);
    }
}
