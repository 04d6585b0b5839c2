// One line to its call, by its letter and its fields.

#![tactic(auto)]

ghost use Rattle.std.specs.Prelude.{◌≤◌, ◌≡◌, length, take};
ghost use Rattle.rules.specs.Calls.{reply};
ghost use Rattle.rules.specs.Lines.{told, obeyed};
ghost use Rattle.answers.specs.Responses.{Roomy, Gives};

use answers::Order;
use rules::{Answer, Refusal};
use state::Quay;
use text::Command;

// Setup of a view aside: after a refused one the program keeps its old state. Not inlined, or every line would have room for that view on its stack.
#[inline(never)]
fn set_up(q: &mut Quay, fields: &[u64]) -> Answer
    requires { length fields.now ≡ 11 }
    ensures { told (reply q.new result) ≡ obeyed q.old 83 fields.now }
{
    let mut sizes = [0u64; 8];
    sizes.copy_from_slice(&fields[3..]);
    let mut view = q.view;
    let answer = calls::setup_in(&mut view, fields[0], fields[1], fields[2], sizes);
    if answer.carried_out() {
        *q = Quay::empty(view);
    }
    answer
}

// A line that is neither an R line nor an I line. Not inlined, or every R and I line, which most lines are, would clear the room of all these answers.
#[inline(never)]
fn obey_other(q: &mut Quay, c: &Command, out: &mut [u8]) -> usize
    requires roomy { (c.now.count ≤ 11) × Roomy out.old }
    requires no_read { c.now.letter ≡ 82 → c.now.count ≡ 1 → ⊥ }
    requires no_arrive { c.now.letter ≡ 73 → c.now.count ≡ 2 → ⊥ }
    ensures { Gives (obeyed q.old c.now.letter (take c.now.count c.now.fields)) out.old out.new q.new result }
{
    match (c.letter, &c.fields[..c.count]) {
        (b'S', fields) if fields.len() == 11 => answers::tell(set_up(q, fields), out),
        (b'A', [slot, file, pace, start, last]) => answers::tell(
            slots::attach(q, *slot, *file, *pace, *start, *last),
            out,
        ),
        (b'D', [slot]) => answers::tell(slots::detach(q, *slot), out),
        (b'X', [file, page]) => answers::tell(calls::lost(q, *file, *page), out),
        (b'P', []) => answers::tell(calls::prefetch(q), out),
        (b'T', []) => answers::tell(calls::steal(q), out),
        (b'N', [turns]) => answers::tell(run::run(q, *turns), out),
        (b'L', []) => answers::show_order(q, Order::Steal, out),
        (b'Q', []) => answers::show_order(q, Order::Fetch, out),
        (b'C', [file]) => answers::show_clusters(q, *file, out),
        _ => answers::tell(Answer::Refused(Refusal::NoRequest), out),
    }
}

// A line that was taken apart: each letter with its fields has a call, and any other line is refused. Returns how many bytes the answer has. The command is
// lent: a copy of it, just written number by number, would be waited for at every line.
pub fn obey(q: &mut Quay, c: &Command, out: &mut [u8]) -> usize
    requires { (c.now.count ≤ 11) × Roomy out.old }
    ensures { Gives (obeyed q.old c.now.letter (take c.now.count c.now.fields)) out.old out.new q.new result }
{
    match (c.letter, &c.fields[..c.count]) {
        (b'R', [slot]) => answers::tell(slots::read(q, *slot), out),
        (b'I', [file, page]) => answers::tell(calls::arrive(q, *file, *page), out),
        _ => obey_other(q, c, out),
    }
}
