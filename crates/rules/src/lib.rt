// The types of the box, and the numbers that stand for them outside. What each call does with them is in specs/, rule by rule: on a whole State. The code has
// a view and the maps, in a box of crate `state`.

#![tactic(auto)]

ghost use Rattle.std.specs.Prelude.{◌≡◌, ◌+◌, ◌*◌, ◌<◌, MatchResult};
ghost use Rattle.rules.specs.Pages.{key_of};
ghost use Rattle.rules.specs.Calls.{rule_of};
ghost use Rattle.rules.specs.Image.{condition_number, rule_number};
ghost use Rattle.rules.specs.Refusals.{refusal_number};
ghost use Rattle.rules.specs.Entries.{code, carried_out};
ghost use Rattle.rules.specs.declared.Answer.TheVariants.{Refused};

// A reader's condition.
#[derive(Clone, Copy, PartialEq, Eq)]
pub enum Condition {
    Empty,
    Running,
    Waiting,
}

// The steal rule: that of 1989, or that of 1993 (A.6).
#[derive(Clone, Copy, PartialEq, Eq)]
pub enum Rule {
    Of1989 = 0,
    Of1993 = 1,
}

impl Rule {
    // The rule of a number. One above 1 has none, and is refused before this is asked.
    pub fn from_number(number: u64) -> Rule
        ensures { result ≡ rule_of number }
    {
        if number == 0 {
            return Rule::Of1989;
        }
        Rule::Of1993
    }
}

// No condition, or no steal rule, has this number.
#[derive(Clone, Copy)]
pub struct NoNumber;

impl From<Condition> for u8 {
    ghost from_gives = { λ c n. n ≡ condition_number c };

    fn from(condition: Condition) -> u8 {
        condition as u8
    }
}

impl TryFrom<u8> for Condition {
    type Error = NoNumber;

    ghost try_from_gives = { λ n r. MatchResult r (λ c. n ≡ condition_number c) (λ _. 2 < n) };

    fn try_from(n: u8) -> Result<Condition, NoNumber> {
        match n {
            0 => Ok(Condition::Empty),
            1 => Ok(Condition::Running),
            2 => Ok(Condition::Waiting),
            _ => Err(NoNumber),
        }
    }
}

impl From<Rule> for u8 {
    ghost from_gives = { λ rule n. n ≡ rule_number rule };

    fn from(rule: Rule) -> u8 {
        rule as u8
    }
}

impl TryFrom<u8> for Rule {
    type Error = NoNumber;

    ghost try_from_gives = { λ n r. MatchResult r (λ rule. n ≡ rule_number rule) (λ _. 1 < n) };

    fn try_from(n: u8) -> Result<Rule, NoNumber> {
        match n {
            0 => Ok(Rule::Of1989),
            1 => Ok(Rule::Of1993),
            _ => Err(NoNumber),
        }
    }
}

// A reader slot's record: the position is the last page read, the pace the ticks for a page, and the last page the one at which the reader is at its end.
#[derive(Clone, Copy)]
pub struct Reader {
    pub condition: Condition,
    pub file: u8,
    pub pace: u16,
    pub position: u16,
    pub last: u16,
}

// The box. A reader's mark, at its slot, is the position from which its pace is measured next. Of each file there is the number of readers expected, and that
// of attaches, up to 65,535. A map has one bit a page, at the page's key. A type of the rules: no function passes it.
#[derive(Drop)]
pub struct State {
    pub frames: u16,
    pub turn: u8,
    pub look_ahead: u32,
    pub fetch_time: u32,
    pub sizes: [u16; 8],
    pub readers: [Reader; 16],
    pub marks: [u16; 16],
    pub rule: Rule,
    pub expected: [u16; 8],
    pub attaches: [u16; 8],
    pub cached: [u64; 128],
    pub fetching: [u64; 128],
}

// A state but its two maps. The marks and the numbers of readers expected and of attaches, which few calls change, come first: behind the readers they would be
// copied with these, in one piece of over 128 bytes, for which the compiler calls a function.
#[derive(Clone, Copy)]
pub struct View {
    pub marks: [u16; 16],
    pub expected: [u16; 8],
    pub attaches: [u16; 8],
    pub frames: u16,
    pub turn: u8,
    pub rule: Rule,
    pub look_ahead: u32,
    pub fetch_time: u32,
    pub sizes: [u16; 8],
    pub readers: [Reader; 16],
}

// Why a call is refused: each with the paper's number for it.
#[derive(Clone, Copy, PartialEq, Eq)]
pub enum Refusal {
    OutOfRange = 1,
    NoSlot = 2,
    NoFile = 3,
    NoPace = 4,
    SlotTaken = 5,
    SlotEmpty = 6,
    ReaderWaits = 7,
    NoPage = 8,
    NotInFetch = 9,
    FetchOpen = 10,
    TooManyTurns = 11,
    NoRoom = 12,
    NoImage = 13,
    NoRequest = 14,
    NoRange = 15,
    NoInterval = 16,
}

impl Refusal {
    // The paper's number.
    pub fn number(self) -> u8
        ensures { result ≡ refusal_number self }
    {
        self as u8
    }
}

// What a call answers. `Replaced` is an arrival that dropped the page it names.
#[derive(Clone, Copy)]
pub enum Answer {
    Refused(Refusal),
    Done,
    Hit { file: u8, page: u16 },
    Wait { file: u8, page: u16 },
    Fetch { file: u8, page: u16 },
    End,
    Nothing,
    Stolen { file: u8, page: u16 },
    Arrived,
    Replaced { file: u8, page: u16 },
    Ran { fetches: u16, reads: u16 },
}

impl From<Refusal> for Answer {
    ghost from_gives = { λ why a. a ≡ Refused why };

    fn from(why: Refusal) -> Answer {
        Answer::Refused(why)
    }
}

impl Answer {
    // The number that a call from C returns: "the refusal's, or the answer letter's ASCII code × 65,536 + ..".
    #[tactic(auto, unfolding(crate::specs::Entries::code))]
    pub fn number(self) -> u64
        ensures { result ≡ code self }
    {
        match self {
            Answer::Refused(why) => why.number() as u64,
            Answer::Done => lettered(b'O', 0),
            Answer::Hit { file, page } => lettered(b'H', page_number(file, page)),
            Answer::Wait { file, page } => lettered(b'W', page_number(file, page)),
            Answer::Fetch { file, page } => lettered(b'F', page_number(file, page)),
            Answer::End => lettered(b'Z', 0),
            Answer::Nothing => lettered(b'U', 0),
            Answer::Stolen { file, page } => lettered(b'S', page_number(file, page)),
            Answer::Arrived => lettered(b'I', 0),
            Answer::Replaced { file, page } => lettered(b'I', page_number(file, page)),
            Answer::Ran { fetches, reads } => 4294967296
                + (fetches as u64) * 65536
                + (reads as u64),
        }
    }

    // Was the call carried out, and not refused?
    pub fn carried_out(self) -> bool
        ensures { result ≡ carried_out self }
    {
        !matches!(self, Answer::Refused(_))
    }
}

// A page's key + 1. No answer names a page 0; of file 0 it would have key 0, as page 1 has.
fn page_number(file: u8, page: u16) -> u32
    ensures { result ≡ key_of file page + 1 }
{
    ((file as u32) * 1024 + page as u32).max(1)
}

// A letter's number: its ASCII code, then the page's number or 0.
fn lettered(letter: u8, n: u32) -> u64
    ensures { result ≡ letter * 65536 + n }
{
    (letter as u64) * 65536 + n as u64
}

// What Steal list and Fetch list count: the keys written, and how many pages the walks along the look-aheads tested.
#[derive(Clone, Copy)]
pub struct Keys {
    pub count: u16,
    pub tested: u16,
}

// A question: when will this page be read? Its numbers are any numbers.
#[derive(Clone, Copy)]
pub struct Question {
    pub file: u64,
    pub page: u64,
}

// When a page will be read: the time and the slot of its use key; or it is ahead of no reader of its file; or ahead of some, and in no look-ahead.
#[derive(Clone, Copy)]
pub enum When {
    At { time: u32, slot: u8 },
    Behind,
    NotSeen,
}

// The record that answers a question; refused, where there is no such file or page.
#[derive(Clone, Copy)]
pub struct Forecast {
    pub when: Result<When, Refusal>,
}

// What a call gives by the rules: the state after it and the answer. A type of the rules: no function passes it.
#[derive(Drop)]
pub struct Reply {
    pub state: State,
    pub answer: Answer,
}
