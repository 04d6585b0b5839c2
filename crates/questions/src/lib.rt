// When will these be read? Each reader's look-ahead is walked once for all questions; a row is then looked up. Every decision is made by a function on values.
// The two functions that hold the lent slices of records are straight code: a test of their lengths, and a thin walk over them.

#![tactic(auto)]

ghost use Rattle.std.specs.Prelude.{◌≡◌, ◌++◌, ◌≤◌, map, length, drop};
ghost use Rattle.rules.specs.Listings.{count_in};
ghost use Rattle.rules.specs.Questions.{words_most, questions_of};
ghost use Rattle.rules.specs.Valid.{Valid};
ghost use Rattle.rules.specs.Views.{state_of};
ghost use Rattle.questions.specs.Rows.{Ranged, when_by, answer_by, row_by};

use parts::NEVER;
use rules::{Forecast, Question, Refusal, View, When};
use state::Quay;

// When a page will be read, by its use key and by whether it is ahead of a reader. The use key has the seat distance; the answer has the slot.
#[tactic(auto, unfolding(crate::specs::Rows::when_by))]
fn when_of(used: u32, is_ahead: bool, turn: u8) -> When
    ensures { result ≡ when_by used is_ahead turn }
{
    if (used as u64) < NEVER {
        return When::At {
            time: used / 16,
            slot: parts::slot_at(turn, used % 16),
        };
    }
    if is_ahead {
        return When::NotSeen;
    }
    When::Behind
}

// What is worked out once for all questions: the pages ahead of a reader and the use keys, beside the sizes and the turn.
#[derive(Clone, Copy)]
struct Known<'a> {
    sizes: [u16; 8],
    turn: u8,
    ahead: &'a [u64; 128],
    table: &'a [u32; 8192],
    ghost in_table: { Ranged sizes },
}

impl<'a> Known<'a> {
    // The answer to a question.
    #[tactic(auto, unfolding(crate::specs::Rows::answer_by))]
    fn answer(&self, q: Question) -> Result<When, Refusal>
        ensures { result ≡ answer_by self.now.sizes self.now.turn self.now.ahead.now self.now.table.now q }
    {
        let key = parts::key_in(self.sizes, q.file, q.page)?;
        Ok(when_of(self.table[key], bits::has_bit(self.ahead, key), self.turn))
    }

    // Every row. There are no fewer answers than questions.
    fn answer_rows(&self, questions: &[Question], answers: &mut [Forecast])
        requires { length questions.now ≤ length answers.old }
        ensures { answers.new
            ≡ map (row_by self.now.sizes self.now.turn self.now.ahead.now self.now.table.now) questions.now ++ drop (length questions.now) answers.old }
    {
        for (i, q) in questions.iter().enumerate() {
            answers[i] = Forecast {
                when: self.answer(*q),
            };
        }
    }
}

// When will these be read? Answers each question on any view and maps that make a valid state, and returns how many words of the maps were read for it.
pub fn when_read_in(
    v: View,
    cached: &[u64; 128],
    fetching: &[u64; 128],
    questions: &[Question],
    answers: &mut [Forecast],
) -> Result<u16, Refusal>
    requires { Valid (state_of v cached.now fetching.now) }
    ensures words { (count_in result ≤ words_most (state_of v cached.now fetching.now))
        × (record { answer = result; list = answers.new } ≡ questions_of (state_of v cached.now fetching.now) questions.now answers.old) }
{
    if 1024 < questions.len() || answers.len() < questions.len() {
        return Err(Refusal::NoRoom);
    }
    let mut ahead = [0u64; 128];
    let mut seen = [0u64; 128];
    let mut table = [NEVER as u32; 8192];
    let tally = walk::use_keys(v, cached, fetching, &mut ahead, &mut seen, &mut table);
    let sizes = v.sizes;
    let known = Known {
        sizes,
        turn: v.turn,
        ahead: &ahead,
        table: &table,
    };
    known.answer_rows(questions, answers);
    Ok(tally.words as u16)
}

pub fn when_read(q: &Quay, questions: &[Question], answers: &mut [Forecast]) -> Result<u16, Refusal>
    ensures words { (count_in result ≤ words_most q.now)
        × (record { answer = result; list = answers.new } ≡ questions_of q.now questions.now answers.old) }
{
    when_read_in(q.view, &q.cached, &q.fetching, questions, answers)
}
