// The entries for the server in C: on numbers and an image, which C passes as the address of its first byte and their count.

#![tactic(auto)]

ghost use Rattle.std.specs.Prelude.{◌≡◌};
ghost use Rattle.rules.specs.Entries.{Call, attach, detach, read, arrive, lost, prefetch, steal, run, measure, enter};
ghost use Rattle.capi.specs.Does.{Does};

use rules::{Answer, Refusal};
use state::Quay;

// As many bytes as an image has. Every entry tests it first, before it fills a box.
const LENGTH: usize = image::IMAGE_LENGTH;

// What every entry is: "each as Restore, call, Save". A refusal leaves the buffer.
fn enter<F: FnOnce(&mut Quay) -> Answer>(image: &mut [u8], call: F) -> u64
    requires { F.IsAlwaysCallable call }
    ensures { (c : Call) → Does F.FnOnce call c → record { number = result; image = image.new } ≡ enter c image.old }
{
    if image.len() != LENGTH {
        return Refusal::NoImage.number() as u64;
    }
    let mut q = Quay::idle();
    let restored = image::restore_whole(&mut q, image);
    if !restored.carried_out() {
        return restored.number();
    }
    let answer = call(&mut q);
    if answer.carried_out() {
        image::save_whole(&q, image);
    }
    answer.number()
}

#[unsafe(no_mangle)]
pub extern "C" fn quay_attach(
    image: &mut [u8],
    slot: u64,
    file: u64,
    pace: u64,
    start: u64,
    last: u64,
) -> u64
    ensures { record { number = result; image = image.new } ≡ enter (attach slot file pace start last) image.old }
{
    enter(image, |q| slots::attach(q, slot, file, pace, start, last))
}

#[unsafe(no_mangle)]
pub extern "C" fn quay_detach(image: &mut [u8], slot: u64) -> u64
    ensures { record { number = result; image = image.new } ≡ enter (detach slot) image.old }
{
    enter(image, |q| slots::detach(q, slot))
}

#[unsafe(no_mangle)]
pub extern "C" fn quay_read(image: &mut [u8], slot: u64) -> u64
    ensures { record { number = result; image = image.new } ≡ enter (read slot) image.old }
{
    enter(image, |q| slots::read(q, slot))
}

#[unsafe(no_mangle)]
pub extern "C" fn quay_arrive(image: &mut [u8], file: u64, page: u64) -> u64
    ensures { record { number = result; image = image.new } ≡ enter (arrive file page) image.old }
{
    enter(image, |q| calls::arrive(q, file, page))
}

#[unsafe(no_mangle)]
pub extern "C" fn quay_lost(image: &mut [u8], file: u64, page: u64) -> u64
    ensures { record { number = result; image = image.new } ≡ enter (lost file page) image.old }
{
    enter(image, |q| calls::lost(q, file, page))
}

#[unsafe(no_mangle)]
pub extern "C" fn quay_prefetch(image: &mut [u8]) -> u64
    ensures { record { number = result; image = image.new } ≡ enter prefetch image.old }
{
    enter(image, |q| calls::prefetch(q))
}

#[unsafe(no_mangle)]
pub extern "C" fn quay_steal(image: &mut [u8]) -> u64
    ensures { record { number = result; image = image.new } ≡ enter steal image.old }
{
    enter(image, |q| calls::steal(q))
}

#[unsafe(no_mangle)]
pub extern "C" fn quay_run(image: &mut [u8], turns: u64) -> u64
    ensures { record { number = result; image = image.new } ≡ enter (run turns) image.old }
{
    enter(image, |q| run::run(q, turns))
}

#[unsafe(no_mangle)]
pub extern "C" fn quay_measure(image: &mut [u8], slot: u64, interval: u64, blocked: u64) -> u64
    ensures { record { number = result; image = image.new } ≡ enter (measure slot interval blocked) image.old }
{
    enter(image, |q| slots::measure(q, slot, interval, blocked))
}
