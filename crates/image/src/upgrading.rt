// Older images: one without marks, or without a rule, is made into one of the newest length, and then restored like any other.

ghost use Rattle.std.specs.Prelude.{◌≡◌, ◌<◌, ◌++◌, length, replicate};
ghost use Rattle.rules.specs.Views.{state_of};
ghost use Rattle.rules.specs.Calls.{reply};
ghost use Rattle.rules.specs.Image.{last_from, Older, upgraded, restore_of, image_numbers, unmarked_length};
ghost use Rattle.parts.specs.Held.{Held};

use crate::bytes::Number;
use crate::restoring::restore_whole_in;
use crate::{IMAGE_LENGTH, MARKS_AT, READERS_AT, SIZES_AT, UNMARKED_LENGTH, UNRULED_LENGTH};
use rules::{Answer, View};
use state::Quay;

// The last page of a slot in an image without marks. A taken slot may have 0 there, which means its file's size.
fn last_in(image: &[u8], slot: usize) -> u16
    requires { (length image.now ≡ unmarked_length) × (slot < 16) }
    ensures { result ≡ last_from (image_numbers image.now) slot }
{
    let at = READERS_AT + 8 * slot;
    let last = u16::get(image, at + 6);
    if last != 0 {
        return last;
    }
    if u8::get(image, at) == 0 {
        return 0;
    }
    let file = u8::get(image, at + 1) as usize;
    if 7 < file {
        return 0;
    }
    u16::get(image, SIZES_AT + 2 * file)
}

// Puts the marks behind an image that has none, each the slot's position, and fills in the last pages.
fn put_marks(newest: &mut [u8], image: &[u8])
    requires { (length image.now ≡ unmarked_length) × (newest.old ≡ image.now ++ replicate 66 0) }
    ensures { newest.new ≡ upgraded image.now }
{
    for slot in 0..16 {
        let at = READERS_AT + 8 * slot;
        last_in(image, slot).put(newest, at + 6);
        u16::get(image, at + 4).put(newest, MARKS_AT + 2 * slot);
    }
}

// The newest image that an older one is read as: the rule, E and R are 0.
fn upgrade(image: &[u8]) -> [u8; IMAGE_LENGTH]
    requires { Older image.now }
    ensures { result ≡ upgraded image.now }
{
    let mut newest = [0u8; IMAGE_LENGTH];
    newest[..image.len()].copy_from_slice(image);
    if image.len() == UNMARKED_LENGTH {
        put_marks(&mut newest, image);
    }
    newest
}

// Restore of an image of any length, whatever view, maps and counts held. Where it is refused, all becomes idle.
pub fn restore_in(
    v: &mut View,
    cached: &mut [u64; 128],
    fetching: &mut [u64; 128],
    held: &mut [u16; 8],
    image: &[u8],
) -> Answer
    ensures by_rule { reply (state_of v.new cached.new fetching.new) result ≡ restore_of image.now }
    ensures counted { Held cached.new held.new }
{
    if image.len() == UNMARKED_LENGTH || image.len() == UNRULED_LENGTH {
        return restore_whole_in(v, cached, fetching, held, &upgrade(image));
    }
    restore_whole_in(v, cached, fetching, held, image)
}

pub fn restore(q: &mut Quay, image: &[u8]) -> Answer
    ensures { reply q.new result ≡ restore_of image.now }
{
    restore_in(
        &mut q.view,
        &mut q.cached,
        &mut q.fetching,
        &mut q.held,
        image,
    )
}
