// The input in chunks, cut into lines: on lent buffers, the image of the box, the text since the last line end, and room for answers.

#![tactic(auto)]

ghost use Rattle.std.specs.Prelude.{◌≤◌, ◌<◌, ◌≡◌, ◌++◌, length, set, drop};
ghost use Rattle.rules.specs.Calls.{idle};
ghost use Rattle.rules.specs.Lines.{respond_of};
ghost use Rattle.rules.specs.Image.{image_of};
ghost use Rattle.answers.specs.Responses.{Roomy, Gives};
ghost use Rattle.text.specs.Commands.{command_of};
ghost use Rattle.text.specs.Cuts.{text_in, kept};
ghost use Rattle.lines.specs.Sessions.{no_text, ready, gone_in, gone_of, left_in, fed_in, feed_of, finish_of};

use rules::{Answer, Refusal};
use state::Quay;
use text::Command;

// How far a chunk is taken, and how many bytes of answers were written.
#[derive(Drop)]
pub struct Progress {
    pub next: usize,
    pub len: usize,
}

// No answer is longer: a letter, a count, at most 8,192 pairs of at most seven bytes, and a line end.
const ROOM: usize = 57351;

// ---- a chunk line by line

// The line that a piece of a chunk completes, taken apart: it stands behind the text that came before the chunk. One that is too long for its buffer asks
// nothing.
fn command_in(text: &[u8], piece: &[u8]) -> Option<Command>
    requires { length text.now ≡ 201 }
    ensures { result ≡ command_of (text_in text.now ++ piece.now) }
{
    if text[0] == 0 {
        return text::parse(piece);
    }
    let mut line = [0u8; 201];
    line.copy_from_slice(text);
    text::append(&mut line, piece);
    let end = usize::from(line[0]);
    if 200 < end {
        return None;
    }
    text::parse(&line[1..1 + end])
}

// Answers the line that a piece of a chunk completes; the text is empty then. Returns how many bytes the answer has.
fn answer_line(q: &mut Quay, text: &mut [u8], piece: &[u8], out: &mut [u8]) -> usize
    requires { (length text.old ≡ 201) × Roomy out.old }
    ensures gives { Gives (respond_of q.old (text_in text.old ++ piece.now)) out.old out.new q.new result }
    ensures emptied { text.new ≡ set text.old 0 0 }
{
    let asked = command_in(text, piece);
    text[0] = 0;
    match &asked {
        Some(c) => dispatch::obey(q, c, out),
        None => answers::tell(Answer::Refused(Refusal::NoRequest), out),
    }
}

// Where no line ends any more, the bytes that are left go behind the text. Returns how far the chunk is taken then.
fn keep_rest(text: &mut [u8], chunk: &[u8], next: usize, end: usize) -> usize
    requires { (length text.old ≡ 201) × (next ≤ length chunk.now) }
    ensures value { end < length chunk.now → (result ≡ next) × (text.new ≡ text.old) }
    ensures rest { length chunk.now ≤ end → (result ≡ length chunk.now)
        × (text.new ≡ kept text.old (text_in text.old ++ drop next chunk.now)) }
{
    if end < chunk.len() {
        return next;
    }
    text::append(text, &chunk[next..]);
    chunk.len()
}

// Takes lines of the chunk from `next` on, as long as there is room for one more answer. The bytes behind the last line end go behind the text.
fn go_through(
    q: &mut Quay,
    text: &mut [u8],
    chunk: &[u8],
    mut next: usize,
    out: &mut [u8],
) -> Progress
    requires { (length text.old ≡ 201) × (next ≤ length chunk.now) × Roomy out.old }
    ensures { gone_in q.new result text.new out.new ≡ gone_of q.old text.old chunk.now next out.old }
{
    let mut len: usize = 0;
    let mut end = text::line_end(chunk, next);
    while end < chunk.len() && ROOM <= out.len() - len {
        len += answer_line(q, text, &chunk[next..end], &mut out[len..]);
        next = end + 1;
        end = text::line_end(chunk, next);
    }
    next = keep_rest(text, chunk, next, end);
    Progress { next, len }
}

// ---- on lent buffers

// The image of the idle state, with which the program starts.
pub fn idle_image() -> [u8; image::IMAGE_LENGTH]
    ensures { result ≡ image_of idle }
{
    let mut image = [0u8; image::IMAGE_LENGTH];
    image::save_whole(&Quay::idle(), &mut image);
    image
}

// No text, with which the program starts.
pub fn no_text() -> [u8; 201]
    ensures { result ≡ no_text }
{
    [0; 201]
}

// The buffers and the place are such that lines can be taken.
fn ready(text: &[u8], chunk: &[u8], from: usize, out: &[u8]) -> bool
    ensures { result ≡ ready text.now chunk.now from out.now }
{
    if out.len() < ROOM || text.len() != 201 {
        return false;
    }
    from <= chunk.len()
}

// Takes lines of the chunk from `from` on, as long as there is room for one more answer. With an image that Restore refuses, no buffer of 201 bytes for
// the text, a place past the chunk, or a buffer shorter than `ROOM`, none is taken and all is left.
pub fn feed(
    image: &mut [u8],
    text: &mut [u8],
    chunk: &[u8],
    from: usize,
    out: &mut [u8],
) -> Progress
    ensures { fed_in result image.new text.new out.new
        ≡ feed_of image.old text.old chunk.now from out.old }
{
    if !ready(text, chunk, from, out) {
        return Progress { next: from, len: 0 };
    }
    let mut q = Quay::idle();
    if !image::restore_whole(&mut q, image).carried_out() {
        return Progress { next: from, len: 0 };
    }
    let r = go_through(&mut q, text, chunk, from, out);
    image::save_whole(&q, image);
    r
}

// The end of the input: a text that is not empty is one last line, fed as if its line end followed.
pub fn finish(image: &mut [u8], text: &mut [u8], out: &mut [u8]) -> usize
    ensures { left_in result image.new text.new out.new
        ≡ finish_of image.old text.old out.old }
{
    if text.is_empty() || text[0] == 0 {
        return 0;
    }
    feed(image, text, b"\n", 0, out).len
}
