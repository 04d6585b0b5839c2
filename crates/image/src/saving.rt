// Save: the state's parts, each put into its place of the buffer.

ghost use Rattle.std.specs.Prelude.{◌≡◌, ◌+◌, ◌≤◌, length};
ghost use Rattle.rules.specs.Lists.{each, written};
ghost use Rattle.rules.specs.Valid.{Valid};
ghost use Rattle.rules.specs.Views.{state_of};
ghost use Rattle.rules.specs.Image.{image_of, save_of, encoded, image_length, unmarked_length, rule_number};
ghost use Rattle.image.specs.Bytes.{reader_bytes, settings_fields, tail_bytes};

use crate::bytes::{Number, put_all};
use crate::{
    ATTACHES_AT, CACHED_AT, EXPECTED_AT, FETCHING_AT, FILLER_AT, GAP_AT, IMAGE_LENGTH, MARKS_AT,
    READERS_AT, RULE_AT, SIZES_AT,
};
use rules::{Answer, Reader, Refusal, View};
use state::Quay;

// Writes frames, turn, 0, L and T: the bytes before the sizes.
fn put_settings(buffer: &mut [u8], v: &View)
    requires { 12 ≤ length buffer.old }
    ensures { buffer.new
        ≡ written buffer.old 0 (encoded (settings_fields v.now.frames v.now.turn v.now.look_ahead v.now.fetch_time)) }
{
    v.frames.put(buffer, 0);
    v.turn.put(buffer, 2);
    0u8.put(buffer, 3);
    v.look_ahead.put(buffer, 4);
    v.fetch_time.put(buffer, 8);
}

// Writes a slot's record: 8 bytes.
fn put_reader(buffer: &mut [u8], at: usize, r: Reader)
    requires { at + 8 ≤ length buffer.old }
    ensures { buffer.new ≡ written buffer.old at (reader_bytes r) }
{
    u8::from(r.condition).put(buffer, at);
    r.file.put(buffer, at + 1);
    r.pace.put(buffer, at + 2);
    r.position.put(buffer, at + 4);
    r.last.put(buffer, at + 6);
}

fn put_readers(buffer: &mut [u8], at: usize, readers: &[Reader; 16])
    requires { at + 128 ≤ length buffer.old }
    ensures { buffer.new ≡ written buffer.old at (each reader_bytes readers.now) }
{
    for (slot, r) in readers.iter().enumerate() {
        put_reader(buffer, at + 8 * slot, *r);
    }
}

// Writes the marks, the rule, 0, the readers expected and the attaches: the bytes behind the maps.
fn put_tail(buffer: &mut [u8], v: &View)
    requires { image_length ≤ length buffer.old }
    ensures { buffer.new
        ≡ written buffer.old unmarked_length (tail_bytes v.now.marks (rule_number v.now.rule) v.now.expected v.now.attaches) }
{
    put_all(buffer, MARKS_AT, &v.marks);
    u8::from(v.rule).put(buffer, RULE_AT);
    0u8.put(buffer, FILLER_AT);
    put_all(buffer, EXPECTED_AT, &v.expected);
    put_all(buffer, ATTACHES_AT, &v.attaches);
}

// Save of any view and maps that make a valid state, into a buffer that is as long as an image.
pub fn save_whole_in(v: &View, cached: &[u64; 128], fetching: &[u64; 128], buffer: &mut [u8])
    requires { Valid (state_of v.now cached.now fetching.now) × (length buffer.old ≡ image_length) }
    ensures { buffer.new ≡ image_of (state_of v.now cached.now fetching.now) }
{
    put_settings(buffer, v);
    put_all(buffer, SIZES_AT, &v.sizes);
    put_readers(buffer, READERS_AT, &v.readers);
    0u32.put(buffer, GAP_AT);
    put_all(buffer, CACHED_AT, cached);
    put_all(buffer, FETCHING_AT, fetching);
    put_tail(buffer, v);
}

pub fn save_whole(q: &Quay, buffer: &mut [u8])
    requires { length buffer.old ≡ image_length }
    ensures { buffer.new ≡ image_of q.now }
{
    save_whole_in(&q.view, &q.cached, &q.fetching, buffer);
}

// Save of any view and maps that make a valid state, into a buffer that is long enough, or longer: what it holds behind the image is left.
pub fn save_in(v: &View, cached: &[u64; 128], fetching: &[u64; 128], buffer: &mut [u8]) -> Answer
    requires { Valid (state_of v.now cached.now fetching.now) }
    ensures { record { answer = result; buffer = buffer.new } ≡ save_of (state_of v.now cached.now fetching.now) buffer.old }
{
    if buffer.len() < IMAGE_LENGTH {
        return Answer::Refused(Refusal::NoRoom);
    }
    save_whole_in(v, cached, fetching, &mut buffer[..IMAGE_LENGTH]);
    Answer::Done
}

pub fn save(q: &Quay, buffer: &mut [u8]) -> Answer
    ensures { record { answer = result; buffer = buffer.new } ≡ save_of q.now buffer.old }
{
    save_in(&q.view, &q.cached, &q.fetching, buffer)
}
