// Each file's head over the turns of a Run: the page of the file that goes first. It is looked up when a page has to go, and stays known until a reader of the
// file has its turn, a page of it moves, or turns are passed at once.

#![tactic(auto)]

ghost use Rattle.std.specs.Prelude.{◌≡◌, ◌≢◌, Some, ℕ, ◌≤◌, ◌<◌, T};
ghost use Rattle.rules.specs.Pages.{file_of};
ghost use Rattle.rules.specs.Readers.{attached};
ghost use Rattle.rules.specs.Ranks.{victim_among};
ghost use Rattle.files.specs.Sets.{in_set};
ghost use Rattle.uses.specs.Shown.{Shows, seen};
ghost use Rattle.heads.specs.Heads.{alone, last_of, HeadIs, NoneKnown, Kept, Forgot, NotRead};

use files::FileSet;
use parts::NEVER;
use rules::{Reader, View};
use uses::{Pick, Sight};

// Of each file the head, where it is known, with a number that stays while nothing of the file moves: the page's rank and, where that is a use key, the turns
// made, as it falls by 1 with every turn of a slot that does not read the file. The number is 0 where the file has no cached page.
#[derive(Clone, Copy)]
pub struct Heads {
    pub known: [Option<Pick>; 8],
}

// The page found, if any, with the number that stays of its rank after so many turns.
fn lasting(found: Pick, done: u64) -> Pick
    requires { done ≤ 16384 }
    ensures { result ≡ last_of done found }
{
    if found.value == 0 || NEVER <= found.value {
        return found;
    }
    Pick {
        key: found.key,
        value: found.value + done,
    }
}

impl Heads {
    // None is known.
    pub fn new() -> Heads
        ensures { NoneKnown result }
    {
        Heads { known: [None; 8] }
    }

    // ---- a head is known no more

    fn forget(&mut self, file: usize)
        requires { file < 8 }
        ensures { Forgot self.old (λ f. f ≢ file) self.new }
    {
        self.known[file] = None;
    }

    // A reader of the file, if the slot has one, has had its turn: it has moved, or is at its end.
    pub fn forget_read(&mut self, r: Reader)
        requires { T (attached r) → r.file < 8 }
        ensures { Forgot self.old (λ f. NotRead f r) self.new }
    {
        if parts::is_attached(r) {
            self.forget(r.file as usize);
        }
    }

    // A reader's page is in fetch. Only where fetches take time do ranks hang on it.
    pub fn forget_fetched(&mut self, fetch_time: u32, r: Reader)
        requires { T (attached r) → r.file < 8 }
        ensures { Forgot self.old (λ f. (0 < fetch_time → NotRead f r)) self.new }
    {
        if 0 < fetch_time {
            self.forget_read(r);
        }
    }

    // A page has arrived, and one has gone for it, if one is chosen.
    pub fn forget_arrived(&mut self, key: usize, gone: Option<u16>)
        requires { (key < 8192) × ((k : ℕ) → gone ≡ Some k → k < 8192) }
        ensures { Forgot self.old (λ f. ((f ≢ file_of key) × ((k : ℕ) → gone ≡ Some k → file_of k ≢ f))) self.new }
    {
        self.forget(key / 1024);
        if let Some(k) = gone {
            self.forget(k as usize / 1024);
        }
    }

    // ---- the page to give up

    // The head of a file: the one known or, where none is, the one looked up, which is known from now on.
    fn head(&mut self, sight: &Sight, file: usize) -> Pick
        requires { (file < 8) × (sight.now.terms.done ≤ 16384) }
        ensures { (v : View) → Shows sight.now v → Kept (seen sight.now v) sight.now.terms.done self.old
            → HeadIs (seen sight.now v) sight.now.terms.done (alone file) 8 result
            × Kept (seen sight.now v) sight.now.terms.done self.new }
    {
        if let Some(head) = self.known[file] {
            return head;
        }
        let head = lasting(
            order::first_among(sight, FileSet::of(file)),
            sight.terms.done,
        );
        self.known[file] = Some(head);
        head
    }

    // The page to give up among the files of a set.
    pub fn victim(&mut self, sight: &Sight, files: FileSet) -> Option<u16>
        requires { sight.now.terms.done ≤ 16384 }
        ensures { (v : View) → Shows sight.now v → Kept (seen sight.now v) sight.now.terms.done self.old
            → (result ≡ victim_among (in_set files) (seen sight.now v))
            × Kept (seen sight.now v) sight.now.terms.done self.new }
    {
        let mut best = Pick::NONE;
        for file in files.first()..files.end() {
            if files.has(file) {
                let head = self.head(sight, file);
                if best.value < head.value {
                    best = head;
                }
            }
        }
        if best.value == 0 {
            return None;
        }
        Some(best.key)
    }
}
