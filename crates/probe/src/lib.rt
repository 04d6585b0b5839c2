// The library's calls to which neither the program nor a C entry leads, each as a function of numbers and lent bytes: for the tests from outside alone, and no
// door of the box.
//
// `probe_restore`: Restore of an image of any length, then Save of the state that it gives, the idle one where it refuses, into a buffer of any length. The
// number is Restore's answer as a C entry has it, 13 or that of O, + 4,294,967,296 × Save's, 12 or that of O.
//
// `probe_setup`: Setup of the numbers frames, L, T, eight sizes, rule and eight E, in this order, then Save of the state that it gives, the idle one where it
// refuses. A number that is missing is 0, and further ones are not looked at. The number is as for `probe_restore`, with Setup's answer, 1 or that of O.
//
// `probe_steal_list` and `probe_fetch_list`: Restore of an image of any length, then the list of the state that it gives. The number is Restore's 13, which
// leaves the lent list, the list's 12, or 4,294,967,296 + count of keys × 65,536 + pages tested.
//
// `probe_when_read`: Restore of an image of any length, then the questions to the state that it gives, two numbers each, file then page; an odd last number is
// none. The call has slices of records; here they are numbers, and the records are made of them: up to 1,025 questions and as many answers, one more than the
// call takes. Before it each answer is 13, which is no row's, and whose number is 0: so 0 is a row that it left; further numbers of the answers are not
// touched. A row's number is the refusal's, 256 behind, 257 not seen, or 4,294,967,296 + time × 256 + slot. The number returned is Restore's 13, which leaves
// the answers, the call's 12, or 4,294,967,296 + count of words.

#![tactic(auto)]

ghost use Rattle.std.specs.Prelude.{◌≡◌, ◌++◌, map, ◌+◌, ◌*◌, ◌≤◌, ◌<◌, get_or, length, take, drop};
ghost use Rattle.rules.specs.Calls.{reply};
ghost use Rattle.rules.specs.Entries.{code};
ghost use Rattle.rules.specs.Listings.{steal_list_of, fetch_list_of};
ghost use Rattle.probe.specs.Asks.{Asks, asked};
ghost use Rattle.probe.specs.Probes.{saved_after, restore_probed, eight_from, setup_probed, order_number, list_probed};
ghost use Rattle.probe.specs.Probes.{questions_in, forecast_number, listing_number, when_asked, when_probed};

use rules::{Answer, Forecast, Keys, Question, Refusal, When};
use state::Quay;

// ---- Save after Restore or Setup

// Save of what a call left: the numbers of both in one.
fn saved_after(done: Answer, q: &Quay, buffer: &mut [u8]) -> u64
    requires { code done < 4294967296 }
    ensures { record { number = result; image = buffer.new } ≡ saved_after (reply q.now done) buffer.old }
{
    let saved = image::save(q, buffer);
    done.number() + 4294967296 * saved.number()
}

#[unsafe(no_mangle)]
pub extern "C" fn probe_restore(image: &[u8], buffer: &mut [u8]) -> u64
    ensures { record { number = result; image = buffer.new } ≡ restore_probed image.now buffer.old }
{
    let mut q = Quay::idle();
    let done = image::restore(&mut q, image);
    saved_after(done, &q, buffer)
}

// The number at a place; 0 where there is none.
fn number_at(numbers: &[u64], i: usize) -> u64
    ensures { result ≡ get_or numbers.now i 0 }
{
    numbers.get(i).copied().unwrap_or(0)
}

// Eight numbers from a place on.
fn eight_from(numbers: &[u64], from: usize) -> [u64; 8]
    requires { from ≤ 12 }
    ensures { result ≡ eight_from numbers.now from }
{
    std::array::from_fn(|i| number_at(numbers, from + i))
}

#[unsafe(no_mangle)]
pub extern "C" fn probe_setup(numbers: &[u64], buffer: &mut [u8]) -> u64
    ensures { record { number = result; image = buffer.new } ≡ setup_probed numbers.now buffer.old }
{
    let mut q = Quay::idle();
    let done = calls::setup_by_rule(
        &mut q,
        number_at(numbers, 0),
        number_at(numbers, 1),
        number_at(numbers, 2),
        eight_from(numbers, 3),
        number_at(numbers, 11),
        eight_from(numbers, 12),
    );
    saved_after(done, &q, buffer)
}

// ---- what Restore gives is asked

// What the box that an image gives is asked, with a list lent for the answer; Restore's own number where it refuses the image.
fn ask<T, F: FnOnce(&Quay, &mut [T]) -> u64>(image: &[u8], lent: &mut [T], question: F) -> u64
    requires { F.IsAlwaysCallable question }
    ensures { (by : _) → Asks F.FnOnce question by → record { number = result; list = lent.new } ≡ asked by image.now lent.old }
{
    let mut q = Quay::idle();
    let done = image::restore(&mut q, image);
    if !done.carried_out() {
        return done.number();
    }
    question(&q, lent)
}

// The number of an order's answer.
fn order_number(r: Result<Keys, Refusal>) -> u64
    ensures { result ≡ order_number r }
{
    match r {
        Ok(keys) => 4294967296 + (keys.count as u64) * 65536 + (keys.tested as u64),
        Err(why) => why.number() as u64,
    }
}

#[unsafe(no_mangle)]
pub extern "C" fn probe_steal_list(image: &[u8], list: &mut [u16]) -> u64
    ensures { record { number = result; list = list.new } ≡ list_probed steal_list_of image.now list.old }
{
    ask(
        image,
        list,
        |q, list| order_number(lists::steal_list(q, list)),
    )
}

#[unsafe(no_mangle)]
pub extern "C" fn probe_fetch_list(image: &[u8], list: &mut [u16]) -> u64
    ensures { record { number = result; list = list.new } ≡ list_probed fetch_list_of image.now list.old }
{
    ask(
        image,
        list,
        |q, list| order_number(lists::fetch_list(q, list)),
    )
}

// ---- when will these be read

// All that the call takes, and one more, for which it refuses them.
const ROWS: usize = 1025;

// An answer before the call: a refusal that no row is given. Its number is 0.
const UNANSWERED: Forecast = Forecast {
    when: Err(Refusal::NoImage),
};

// The questions of numbers, two each.
fn put_questions(numbers: &[u64], questions: &mut [Question])
    requires { 2 * length questions.old ≤ length numbers.now }
    ensures { questions.new ≡ take (length questions.old) (questions_in numbers.now) }
{
    for (i, question) in questions.iter_mut().enumerate() {
        *question = Question {
            file: numbers[2 * i],
            page: numbers[2 * i + 1],
        };
    }
}

// The number of a row.
fn row_number(row: Forecast) -> u64
    ensures { result ≡ forecast_number row }
{
    match row.when {
        Ok(When::At { time, slot }) => 4294967296 + (time as u64) * 256 + (slot as u64),
        Ok(When::Behind) => 256,
        Ok(When::NotSeen) => 257,
        Err(Refusal::NoImage) => 0,
        Err(why) => why.number() as u64,
    }
}

// The numbers of the rows, in front of what the answers had.
fn put_numbers(rows: &[Forecast], answers: &mut [u64])
    requires { length rows.now ≤ length answers.old }
    ensures { answers.new ≡ map forecast_number rows.now ++ drop (length rows.now) answers.old }
{
    for (i, row) in rows.iter().enumerate() {
        answers[i] = row_number(*row);
    }
}

// The number of what the call returns.
fn listing_number(r: Result<u16, Refusal>) -> u64
    ensures { result ≡ listing_number r }
{
    match r {
        Ok(words) => 4294967296 + (words as u64),
        Err(why) => why.number() as u64,
    }
}

// The call, on records made of the numbers.
fn when_asked(q: &Quay, numbers: &[u64], answers: &mut [u64]) -> u64
    ensures { record { number = result; list = answers.new } ≡ when_asked numbers.now q.now answers.old }
{
    let asked = ROWS.min(numbers.len() / 2);
    let room = ROWS.min(answers.len());
    let mut questions = [Question { file: 0, page: 0 }; ROWS];
    put_questions(numbers, &mut questions[..asked]);
    let mut rows = [UNANSWERED; ROWS];
    let words = questions::when_read(q, &questions[..asked], &mut rows[..room]);
    put_numbers(&rows[..room], answers);
    listing_number(words)
}

#[unsafe(no_mangle)]
pub extern "C" fn probe_when_read(image: &[u8], questions: &[u64], answers: &mut [u64]) -> u64
    ensures { record { number = result; list = answers.new }
        ≡ when_probed image.now questions.now answers.old }
{
    ask(
        image,
        answers,
        |q, answers| when_asked(q, questions, answers),
    )
}
