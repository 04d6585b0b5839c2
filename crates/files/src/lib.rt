// Sets of files, and which files may give up a page. Under the 1989 rule any file with cached pages may give one up, under the 1993 rule the one with the
// highest number alone.

#![tactic(auto)]

ghost use Rattle.std.specs.Prelude.{◌≡◌, List, ℕ, ◌≤◌, ◌<◌, T, eqb, get_or};
ghost use Rattle.parts.specs.Files.{weight_in};

use rules::{Rule, View};

// A set of files: a word with a digit for each file.
#[derive(Clone, Copy)]
pub struct FileSet(pub u64);

impl FileSet {
    ghost use Rattle.rules.specs.Valid.{Valid};
    ghost use Rattle.rules.specs.Orders.{victim};
    ghost use Rattle.rules.specs.Ranks.{victim_among};
    ghost use Rattle.rules.specs.Views.{state_of};
    ghost use Rattle.parts.specs.Held.{Held};
    ghost use Rattle.files.specs.Sets.{in_set, NoFile};
    ghost use Rattle.files.specs.Leads.{SharesOf};

    // The set of one file.
    pub fn of(file: usize) -> FileSet
        requires { file < 8 }
        ensures { (f : ℕ) → f < 8 → in_set result f ≡ eqb f file }
    {
        FileSet(1u64 << file)
    }

    // Is the file in the set?
    pub fn has(self, file: usize) -> bool
        requires { file < 8 }
        ensures { result ≡ in_set self file }
    {
        bits::has_digit(self.0, file)
    }

    // The first file; a number past all files where there is none. An earlier one would do no harm, but would be looked at for nothing; so would a later end.
    pub fn first(self) -> usize
        ensures { NoFile (in_set self) 0 result }
    {
        bits::next_one(self.0, 0)
    }

    // Where the files end: after the last one; 0 where there is none.
    pub fn end(self) -> usize
        ensures { (result ≤ 8) × NoFile (in_set self) result 8 }
    {
        bits::last_one(self.0, 8)
    }

    // The set with a file more.
    fn with(self, file: usize) -> FileSet
        requires { file < 8 }
        ensures { ((f : ℕ) → T (in_set self f) → T (in_set result f)) × T (in_set result file) }
    {
        FileSet(bits::with_digit(self.0, file))
    }

    // A set that has every file with cached pages. One more would do no harm, but would be looked at for nothing.
    fn held(held: &[u16; 8]) -> FileSet
        ensures { (f : ℕ) → f < 8 → 0 < get_or held.now f 0 → T (in_set result f) }
    {
        let mut set = FileSet(0);
        for (file, pages) in held.iter().enumerate() {
            if 0 < *pages {
                set = set.with(file);
            }
        }
        set
    }

    // The files whose pages may go: those that have some under the 1989 rule, the one chosen under the 1993 rule.
    pub fn open(shares: &Option<Shares>, held: &[u16; 8]) -> FileSet
        requires { (f : ℕ) → f < 8 → get_or held.now f 0 ≤ 1024 }
        ensures { (v : View) (cached fetching : List ℕ) → Valid (state_of v cached fetching) → SharesOf v shares.now
            → Held cached held.now → victim_among (in_set result) (state_of v cached fetching) ≡ victim (state_of v cached fetching) }
    {
        let Some(shares) = shares else {
            return FileSet::held(held);
        };
        match shares.chosen(held) {
            Some(file) => FileSet::of(file),
            None => FileSet(0),
        }
    }
}

// The files' weights, of a view of any numbers.
pub fn weights_of(v: &View) -> [u64; 8]
    ensures { (f : ℕ) → f < 8 → get_or result f 0 ≡ weight_in v.now.expected v.now.attaches v.now.sizes f }
{
    let expected = v.expected;
    let attaches = v.attaches;
    let sizes = v.sizes;
    let mut weights = [0u64; 8];
    for (file, weight) in weights.iter_mut().enumerate() {
        *weight = parts::weight(expected[file], attaches[file], sizes[file]);
    }
    weights
}

// The file that leads in the choice of the 1993 rule so far, and its number.
#[derive(Clone, Copy)]
struct Lead {
    file: usize,
    number: u64,
}

// Of what each file has a share under the 1993 rule: the frames, by its weight of the sum, which is 1 where all weights are 0.
#[derive(Clone, Copy)]
pub struct Shares {
    pub frames: u16,
    pub weights: [u64; 8],
    pub sum: u64,
    ghost frames_bound: { frames ≤ 1024 },
    ghost sum_bound: { sum ≤ 8192000 },
    ghost each: { (f : ℕ) → f < 8 → get_or weights f 0 ≤ sum },
}

impl Shares {
    ghost use Rattle.parts.specs.Files.{Weighable};
    ghost use Rattle.files.specs.Leads.{SharesOf, number_in, leading, Foremost};

    // Those of a view; none under the 1989 rule, which asks for no weights.
    pub fn of_view(v: View) -> Option<Shares>
        requires { Weighable v.frames v.expected v.sizes }
        ensures { SharesOf v result }
    {
        let Rule::Of1993 = v.rule else {
            return None;
        };
        Some(Shares {
            frames: v.frames,
            weights: weights_of(&v),
            sum: parts::weight_sum(v.expected, v.attaches, v.sizes),
        })
    }

    // The number of a file with so many cached pages.
    fn number(&self, file: usize, pages: u16) -> u64
        requires { (file < 8) × (pages ≤ 1024) }
        ensures { result ≡ number_in self.now file pages }
    {
        parts::standing(
            self.frames,
            self.sum,
            self.weights[file],
            file,
            pages as u64,
        )
    }

    // The file that leads after a look at one more, with so many cached pages: one with cached pages leads by a higher number.
    fn fuller(&self, file: usize, pages: u16, best: Option<Lead>) -> Option<Lead>
        requires { (file < 8) × (pages ≤ 1024) }
        ensures { result ≡ leading self.now file pages best }
    {
        if pages == 0 {
            return best;
        }
        let number = self.number(file, pages);
        match best {
            Some(lead) if number <= lead.number => best,
            _ => Some(Lead { file, number }),
        }
    }

    // The file that the 1993 rule chooses: of those with cached pages the one with the highest number.
    fn chosen(&self, held: &[u16; 8]) -> Option<usize>
        requires { (f : ℕ) → f < 8 → get_or held.now f 0 ≤ 1024 }
        ensures { Foremost self.now held.now result }
    {
        let mut best = None;
        for (file, pages) in held.iter().enumerate() {
            best = self.fuller(file, *pages, best);
        }
        best.map(|lead| lead.file)
    }
}
