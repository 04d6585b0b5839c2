// A map of pages: one bit a page in 64-bit words. Bits are counted by ones of words, and found by zeros of words.

#![tactic(auto)]

ghost use Rattle.std.specs.Prelude.{◌≡◌, cond, ◌&&◌, ◌||◌, not, [], ◌∷◌, ℕ, ◌+◌, ◌-◌, ◌*◌, ◌/◌, ◌<◌, ◌≤◌, ◌%◌, length, replicate, get_or, List, eqb};
ghost use Rattle.bits.specs.Map.{digit, bit, on, one_of, put_bit, joined, ones, next_bit, last_bit};

// A map as its words are read: one map, or two that are put together word by word.
pub trait PageMap {
    ghost words: { Self → List ℕ };

    // Word i of it.
    fn word(&self, i: usize) -> u64
        requires { i < 128 }
        ensures { result ≡ get_or (words self.now) i 0 };
}

impl PageMap for [u64; 128] {
    ghost words = { λ m. m };

    fn word(&self, i: usize) -> u64 {
        self[i]
    }
}

// Two maps joined: a bit is set where one of them has it.
#[derive(Clone, Copy)]
pub struct Joined<'a>(pub &'a [u64; 128], pub &'a [u64; 128]);

impl<'a> PageMap for Joined<'a> {
    ghost words = { λ e. joined e.0.now e.1.now };

    fn word(&self, i: usize) -> u64 {
        self.0[i] | self.1[i]
    }
}

// Is digit i of the word set?
pub fn has_digit(w: u64, i: usize) -> bool
    requires { i < 64 }
    ensures { result ≡ eqb (digit w i) 1 }
{
    (w >> i) & 1 == 1
}

// The word with digit i set.
pub fn with_digit(w: u64, i: usize) -> u64
    requires { i < 64 }
    ensures { (j : ℕ) → digit result j ≡ cond (eqb j i) 1 (digit w j) }
{
    w | (1u64 << i)
}

// Is the bit of `key` set?
pub fn has_bit(words: &[u64; 128], key: usize) -> bool
    requires { key < 8192 }
    ensures { result ≡ eqb (bit words.now key) 1 }
{
    has_digit(words[key / 64], key % 64)
}

// Sets the bit of `key`.
pub fn set_bit(words: &mut [u64; 128], key: usize)
    requires { key < 8192 }
    ensures { words.new ≡ put_bit words.old key 1 }
{
    words[key / 64] |= 1u64 << (key % 64);
}

// Clears the bit of `key`.
pub fn clear_bit(words: &mut [u64; 128], key: usize)
    requires { key < 8192 }
    ensures { words.new ≡ put_bit words.old key 0 }
{
    words[key / 64] &= !(1u64 << (key % 64));
}

// How many digits of w are set. In the contracts `w ∷ []` is the map of that one word.
fn word_ones(w: u64) -> u32
    ensures { result ≡ ones (w ∷ []) 0 64 }
{
    w.count_ones()
}

// How many of the n digits of w from digit s on are set: the others are shifted out.
fn part_ones(w: u64, s: usize, n: usize) -> u32
    requires { (0 < n) × (s + n ≤ 64) }
    ensures { result ≡ ones (w ∷ []) s n }
{
    word_ones((w >> s) << (64 - n))
}

// How many of the n bits from key `from` on are set, where they are of one word.
fn count_part<M: PageMap>(words: &M, from: usize, n: usize) -> u32
    requires { (from % 64 + n ≤ 64) × (from + n ≤ 8192) }
    ensures { result ≡ ones (M.words words.now) from n }
{
    if n == 0 {
        return 0;
    }
    part_ones(words.word(from / 64), from % 64, n)
}

// How many bits are set in the words from `first` to before `end`.
fn count_words<M: PageMap>(words: &M, first: usize, end: usize) -> u32
    requires { (first ≤ end) × (end ≤ 128) }
    ensures { result ≡ ones (M.words words.now) (first * 64) ((end - first) * 64) }
{
    let mut n: u32 = 0;
    for i in first..end {
        n += word_ones(words.word(i));
    }
    n
}

// How many of the n bits from key `from` on are set: what is left of the first word, whole words, a part of the last. Where `from` is a word's first key,
// as a file's is, there are whole words from there on.
pub fn count<M: PageMap>(words: &M, from: usize, n: usize) -> u32
    requires { from + n ≤ 8192 }
    ensures { result ≡ ones (M.words words.now) from n }
{
    let first = from.div_ceil(64);
    let head = first * 64 - from;
    if n <= head {
        return count_part(words, from, n);
    }
    let end = from + n;
    let tail = end % 64;
    count_part(words, from, head)
        + count_words(words, first, end / 64)
        + count_part(words, end - tail, tail)
}

// The first digit of w from digit s on that is 1, or 64.
pub fn next_one(w: u64, s: usize) -> usize
    requires { s < 64 }
    ensures { result ≡ next_bit (w ∷ []) 1 s (64 - s) }
{
    (s + (w >> s).trailing_zeros() as usize).min(64)
}

// The first digit of w from digit s on that is v, or 64: the first 0 of w is the first 1 of its complement.
fn next_digit(w: u64, v: u64, s: usize) -> usize
    requires { (v ≤ 1) × (s < 64) }
    ensures { result ≡ next_bit (w ∷ []) v s (64 - s) }
{
    if v == 1 {
        return next_one(w, s);
    }
    next_one(!w, s)
}

// Of the n keys from `from` on, the first whose bit is v; from + n where there is none.
pub fn next_bit<M: PageMap>(words: &M, v: u64, from: usize, n: usize) -> usize
    requires { (v ≤ 1) × (from + n ≤ 8192) }
    ensures { result ≡ next_bit (M.words words.now) v from n }
{
    let end = from + n;
    let mut at = from;
    while at < end {
        let i = at / 64;
        let r = next_digit(words.word(i), v, at % 64);
        at = i * 64 + r;
        if r < 64 {
            return at.min(end);
        }
    }
    end
}

// How far the last set one of the m lowest digits of w ends, or 0: the others are shifted out.
pub fn last_one(w: u64, m: usize) -> usize
    requires { (0 < m) × (m ≤ 64) }
    ensures { result ≡ last_bit (w ∷ []) 0 m }
{
    m.saturating_sub((w << (64 - m)).leading_zeros() as usize)
}

// Of the bits of the word that `end` is in, how far the last set one before `end` ends; 0 where there is none.
fn last_part(words: &[u64; 128], end: usize) -> usize
    requires { end ≤ 8192 }
    ensures { result ≡ last_bit words.now (end / 64 * 64) (end % 64) }
{
    let m = end % 64;
    if m == 0 {
        return 0;
    }
    last_one(words[end / 64], m)
}

// The key that follows the last set bit of the words from `first` to before `end`; the first key of them where none is set.
fn last_words(words: &[u64; 128], first: usize, end: usize) -> usize
    requires { (first ≤ end) × (end ≤ 128) }
    ensures { result ≡ first * 64 + last_bit words.now (first * 64) ((end - first) * 64) }
{
    for i in (first..end).rev() {
        let r = last_one(words[i], 64);
        if 0 < r {
            return i * 64 + r;
        }
    }
    first * 64
}

// Of the n keys from `from` on, how far after `from` the last one ends whose bit is set; 0 where there is none: a part of the last word, then whole
// words.
pub fn last_set(words: &[u64; 128], from: usize, n: usize) -> usize
    requires { from + n ≤ 8192 }
    ensures { result ≡ last_bit words.now from n }
{
    let end = from + n;
    let part = last_part(words, end);
    let at = if 0 < part {
        end / 64 * 64 + part
    } else {
        last_words(words, from / 64, end / 64)
    };
    at.saturating_sub(from)
}

// Clears every bit.
pub fn clear_all(words: &mut [u64; 128])
    ensures { words.new ≡ replicate 128 0 }
{
    *words = [0u64; 128];
}

// The word whose n digits from digit s on are set, and no other.
fn mask(s: usize, n: usize) -> u64
    requires { (0 < n) × (s + n ≤ 64) }
    ensures { (i : ℕ) → eqb (digit result i) 1 ≡ one_of s n i }
{
    (!0u64 >> (64 - n)) << s
}

// Sets the n bits from key `from` on, where they are of one word.
fn set_part(words: &mut [u64; 128], from: usize, n: usize)
    requires { (from / 64 < 128) × (0 < n) × (from % 64 + n ≤ 64) }
    ensures { (k : ℕ) → on words.new k ≡ (one_of from n k || on words.old k) }
{
    words[from / 64] |= mask(from % 64, n);
}

// Sets the n bits from key `from` on: a part of the first word, whole words, a part of the last.
pub fn set_bits(words: &mut [u64; 128], from: usize, n: usize)
    requires { from + n ≤ 8192 }
    ensures { (k : ℕ) → on words.new k ≡ (one_of from n k || on words.old k) }
{
    let end = from + n;
    let mut at = from;
    while at < end {
        let m = (64 - at % 64).min(end - at);
        set_part(words, at, m);
        at += m;
    }
}

// Clears the bits that the other map has.
pub fn clear_those(words: &mut [u64; 128], other: &[u64; 128])
    ensures { (k : ℕ) → on words.new k ≡ (on words.old k && not (on other.now k)) }
{
    for (i, w) in words.iter_mut().enumerate() {
        *w &= !other[i];
    }
}
