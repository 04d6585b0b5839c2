// The program: lines from standard input, one answer line for each to standard output.

#![tactic(auto)]

ghost use Rattle.std.specs.Prelude.{◌≡◌, Ok, IfOk, ◌≤◌, length};
ghost use Rattle.rules.specs.Calls.{idle};
ghost use Rattle.rules.specs.Image.{image_of};
ghost use Rattle.text.specs.Streams.{Fed, feed};
ghost use Rattle.answers.specs.Responses.{Roomy};
ghost use Rattle.lines.specs.Sessions.{no_text, feed_of, finish_of, StandsIn};
ghost use Rattle.quay.specs.Program.{Stands, answers_in, handed_of, handed_in};

use std::fmt::Write as _;
use std::io::{Read, Stderr, Write};
use std::{fmt, io};

// Reading or writing failed, and standard error says why.
#[derive(Clone, Copy)]
struct Failed;

// Standard error, for the words of an error alone: std writes the system's number behind them, in brackets, which says no more.
#[derive(Drop)]
struct Words {
    to: Stderr,
    ended: bool,
}

impl fmt::Write for Words {
    fn write_str(&mut self, words: &str) -> fmt::Result {
        if words == " (os error " {
            self.ended = true;
        }
        if self.ended {
            return Ok(());
        }
        self.to.write_all(words.as_bytes()).map_err(|_| fmt::Error)
    }
}

// Says on standard error why a call of the system failed.
fn complain(rt: &HostRuntime, reason: io::Error) -> Failed {
    let mut words = Words {
        to: rt.stderr(),
        ended: false,
    };
    let _said = write!(words, "quay: {reason}");
    let _end = rt.stderr().write_all(b"\n");
    Failed
}

// Writes answers, or says why it cannot.
fn put(rt: &HostRuntime, answers: &[u8]) -> Result<(), Failed> {
    rt.stdout()
        .write_all(answers)
        .map_err(|reason| complain(rt, reason))
}

// Reads some bytes, or says why it cannot. At the end of the input there are none.
fn get(rt: &HostRuntime, chunk: &mut [u8]) -> Result<usize, Failed>
    ensures { IfOk result (λ n. n ≤ length chunk.new) }
{
    rt.stdin()
        .read(chunk)
        .map_err(|reason| complain(rt, reason))
}

// Feeds the box a chunk from a place on. What is handed back, to be written, are the answers, and the place is moved on.
fn answers<'a>(
    image: &mut [u8],
    text: &mut [u8],
    chunk: &[u8],
    next: &mut usize,
    out: &'a mut [u8],
) -> &'a [u8]
    ensures { handed_in image.new text.new result.now next.new
        ≡ handed_of (feed_of image.old text.old chunk.now next.old out.old) }
{
    let r = lines::feed(image, text, chunk, *next, out);
    *next = r.next;
    &out[..r.len]
}

// At the end of the input: the answer to the text in hand, if any.
fn last<'a>(image: &mut [u8], text: &mut [u8], out: &'a mut [u8]) -> &'a [u8]
    ensures { result.now ≡ answers_in (finish_of image.old text.old out.old) }
{
    let len = lines::finish(image, text, out);
    &out[..len]
}

// Feeds the box a chunk, and writes the answers.
fn pump(
    rt: &HostRuntime,
    image: &mut [u8],
    text: &mut [u8],
    chunk: &[u8],
    out: &mut [u8],
) -> Result<(), Failed>
    requires { Stands image.old text.old × Roomy out.old }
    ensures stands { Stands image.new text.new }
    ensures whole { (f : Fed) → StandsIn image.old text.old f → result ≡ Ok tt → StandsIn image.new text.new (feed f chunk.now) }
{
    let mut next: usize = 0;
    while next < chunk.len() {
        put(rt, answers(image, text, chunk, &mut next, out))?;
    }
    Ok(())
}

// Reads chunks until the input ends, cannot be read, or an answer cannot be written. Where it cannot be read, the text in hand is no line. A proved loop has
// to end, and nothing says that an input does: so the loop counts its turns, up to a number that no run reaches.
fn serve(
    rt: &HostRuntime,
    image: &mut [u8],
    text: &mut [u8],
    chunk: &mut [u8],
    out: &mut [u8],
) -> Result<(), Failed>
    requires { (image.old ≡ image_of idle) × (text.old ≡ no_text) × Roomy out.old }
{
    for _ in 0..u64::MAX {
        let n = get(rt, chunk)?;
        if n == 0 {
            return put(rt, last(image, text, out));
        }
        pump(rt, image, text, &chunk[..n], out)?;
    }
    Ok(())
}

// Whatever fails, standard error has said why, and the status is 0.
fn main(rt: HostRuntime) {
    let mut image = lines::idle_image();
    let mut text = lines::no_text();
    let mut chunk = [0u8; 65536];
    let mut out = [0u8; 131072];
    let _served = serve(&rt, &mut image, &mut text, &mut chunk, &mut out);
}
