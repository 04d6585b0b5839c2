// Run, leg by leg: some turns one by one and, if these met no F, those after them that meet none, at once.

#![tactic(auto)]

ghost use Rattle.std.specs.Prelude.{◌≡◌, List, ℕ, ◌+◌, ◌≤◌, ◌<◌};
ghost use Rattle.rules.specs.declared.State.{State};
ghost use Rattle.rules.specs.declared.Answer.TheVariants.{Ran};
ghost use Rattle.rules.specs.Views.{state_of};
ghost use Rattle.rules.specs.Calls.{reply};
ghost use Rattle.rules.specs.Valid.{Valid};
ghost use Rattle.rules.specs.Run.{turns_of, run_of};
ghost use Rattle.rules.specs.Third.{ThirdStatement};
ghost use Rattle.parts.specs.Held.{Held};
ghost use Rattle.turns.specs.Places.{Quiet};
ghost use Rattle.turns.specs.Tallies.{so_far};
ghost use Rattle.turns.specs.Runs.{Ready, Few, GoesOn, Underway};

use heads::Heads;
use rules::{Answer, Refusal, View};
use state::Quay;
use turns::Run;
use uses::Seats;

// How many turns are made one by one before turns that meet no F are looked for: to look costs about as much as a round of hits, and a new view for each leg a
// little too. So it is two rounds in a Run that has met no F so far, and sixteen in one that has.
fn one_by_one(fetches: u16) -> u64
    ensures { 0 < result }
{
    if fetches == 0 { 32 } else { 256 }
}

// Of so many turns those that go by before one meets F, at once. Readers of any file may have moved: no head is known after them. Not inlined, or its view
// would be on the stack under every choice of a page.
#[inline(never)]
fn pass_hits(run: &mut Run, cached: &[u64; 128], most: u64)
    requires ready { ((fetching : List ℕ) × Ready run.old cached.now fetching) × Few run.old }
    requires few { run.old.turns + most ≤ 16384 }
    ensures ready { ((fetching : List ℕ) → Ready run.old cached.now fetching → Ready run.new cached.now fetching) × Few run.new }
    ensures leg { (fetching : List ℕ) → Ready run.old cached.now fetching → GoesOn run.old cached.now fetching most run.new cached.now fetching }
    ensures gone { (s : State) (fetching : List ℕ) → Underway s run.old cached.now fetching → Underway s run.new cached.now fetching }
    ensures within { (run.old.turns ≤ run.new.turns) × (run.new.turns ≤ run.old.turns + most) }
{
    let v = run.view;
    let turns = hits::turns_ahead(&v, cached, most);
    run.reads += hits::pass_turns(&v, &mut run.seats.positions, turns);
    run.heads = Heads::new();
    let slot = ((v.turn as u64 + turns) % 16) as u8;
    run.view = turns::view_after(&v, slot, &run.seats.positions);
    run.turns += turns;
}

// Some of so many turns: first one by one and, if these met no F, then those after them that meet none.
fn further(
    run: &mut Run,
    cached: &mut [u64; 128],
    fetching: &mut [u64; 128],
    held: &mut [u16; 8],
    most: u64,
)
    requires ready { Ready run.old cached.old fetching.old × Few run.old }
    requires few { run.old.turns + most ≤ 16384 }
    requires held { Held cached.old held.old }
    ensures ready { Ready run.new cached.new fetching.new × Few run.new }
    ensures leg { GoesOn run.old cached.old fetching.old most run.new cached.new fetching.new }
    ensures gone { (s : State) → Underway s run.old cached.old fetching.old → Underway s run.new cached.new fetching.new }
    ensures counted { Held cached.new held.new }
    ensures some { 0 < most → run.old.turns < run.new.turns }
    ensures within { run.new.turns ≤ run.old.turns + most }
{
    let fetches = run.fetches;
    let turns = one_by_one(fetches).min(most);
    run.go_on(cached, fetching, held, turns);
    if turns < most && run.fetches == fetches {
        pass_hits(run, cached, most - turns);
    }
}

// So many turns, leg by leg: the view becomes that after them.
fn make_turns(
    view: &mut View,
    cached: &mut [u64; 128],
    fetching: &mut [u64; 128],
    held: &mut [u16; 8],
    turns: u64,
) -> Answer
    requires valid { Valid (state_of view.old cached.old fetching.old) × Quiet fetching.old }
    requires few { turns ≤ 16384 }
    requires held { Held cached.old held.old }
    ensures told { (fetches reads : ℕ) × (result ≡ Ran fetches reads)
        × (so_far (state_of view.new cached.new fetching.new) fetches reads ≡ turns_of turns (state_of view.old cached.old fetching.old)) }
    ensures counted { Held cached.new held.new }
{
    let mut run = Run {
        view: *view,
        seats: Seats::of(&view.readers),
        heads: Heads::new(),
        turns: 0,
        fetches: 0,
        reads: 0,
    };
    while run.turns < turns {
        let left = turns - run.turns;
        further(&mut run, cached, fetching, held, left);
    }
    *view = run.view;
    Answer::Ran {
        fetches: run.fetches,
        reads: run.reads,
    }
}

// Turns above 16,384 are refused first, then an open fetch. Not inlined, or a C entry would have room for a Run under way on its stack while it restores.
#[inline(never)]
pub fn run(q: &mut Quay, turns: u64) -> Answer
    ensures by_rule { reply q.new result ≡ run_of q.old turns }
    ensures third { ThirdStatement turns q.old result }
{
    if 16384 < turns {
        return Answer::Refused(Refusal::TooManyTurns);
    }
    if bits::count(&q.fetching, 0, 8192) != 0 {
        return Answer::Refused(Refusal::FetchOpen);
    }
    make_turns(
        &mut q.view,
        &mut q.cached,
        &mut q.fetching,
        &mut q.held,
        turns,
    )
}
