// Numbers as bytes, the lowest first: put into a buffer, and read from an image.

ghost use Rattle.std.specs.Prelude.{◌≡◌, ◌+◌, ◌*◌, ◌≤◌, ℕ, length, map};
ghost use Rattle.rules.specs.Lists.{range, each, written};
ghost use Rattle.rules.specs.Image.{bytes_of};
ghost use Rattle.image.specs.Bytes.{number_at, number_from, numbers_at};

// A number that is so many bytes wide.
pub(crate) trait Number: Copy {
    const WIDTH: usize;

    ghost WIDTH: { ℕ };

    ghost value: { Self → ℕ };

    ghost of: { ℕ → Self };

    fn put(self, buffer: &mut [u8], at: usize)
        requires { at + WIDTH ≤ length buffer.old }
        ensures { buffer.new ≡ written buffer.old at (bytes_of WIDTH (value self)) };

    fn get(image: &[u8], at: usize) -> Self
        requires { at + WIDTH ≤ length image.now }
        ensures { result ≡ of (number_at WIDTH image.now at) };
}

impl Number for u8 {
    const WIDTH: usize = 1;

    ghost WIDTH = { 1 };

    ghost value = { λ n. n };

    ghost of = { λ n. n };

    fn put(self, buffer: &mut [u8], at: usize) {
        buffer[at] = self;
    }

    fn get(image: &[u8], at: usize) -> u8 {
        image[at]
    }
}

impl Number for u16 {
    const WIDTH: usize = 2;

    ghost WIDTH = { 2 };

    ghost value = { λ n. n };

    ghost of = { λ n. n };

    fn put(self, buffer: &mut [u8], at: usize) {
        buffer[at..at + 2].copy_from_slice(&self.to_le_bytes());
    }

    fn get(image: &[u8], at: usize) -> u16 {
        u16::from_le_bytes([image[at], image[at + 1]])
    }
}

impl Number for u32 {
    const WIDTH: usize = 4;

    ghost WIDTH = { 4 };

    ghost value = { λ n. n };

    ghost of = { λ n. n };

    fn put(self, buffer: &mut [u8], at: usize) {
        buffer[at..at + 4].copy_from_slice(&self.to_le_bytes());
    }

    fn get(image: &[u8], at: usize) -> u32 {
        u32::from_le_bytes([image[at], image[at + 1], image[at + 2], image[at + 3]])
    }
}

impl Number for u64 {
    const WIDTH: usize = 8;

    ghost WIDTH = { 8 };

    ghost value = { λ n. n };

    ghost of = { λ n. n };

    fn put(self, buffer: &mut [u8], at: usize) {
        buffer[at..at + 8].copy_from_slice(&self.to_le_bytes());
    }

    fn get(image: &[u8], at: usize) -> u64 {
        u64::from_le_bytes([
            image[at],
            image[at + 1],
            image[at + 2],
            image[at + 3],
            image[at + 4],
            image[at + 5],
            image[at + 6],
            image[at + 7],
        ])
    }
}

// Puts numbers one after the other: those of the files, the marks, the words of a map.
pub(crate) fn put_all<N: Number>(buffer: &mut [u8], at: usize, numbers: &[N])
    requires { at + N.WIDTH * length numbers.now ≤ length buffer.old }
    ensures { buffer.new ≡ written buffer.old at (each (λ n. bytes_of N.WIDTH (N.value n)) numbers.now) }
{
    for (k, n) in numbers.iter().enumerate() {
        n.put(buffer, at + N::WIDTH * k);
    }
}

// Reads them, each into its place.
pub(crate) fn get_all<N: Number>(numbers: &mut [N], image: &[u8], at: usize)
    requires { at + N.WIDTH * length numbers.old ≤ length image.now }
    ensures { numbers.new ≡ map (λ k. N.of (number_from N.WIDTH image.now at k)) (range 0 (length numbers.old)) }
{
    for (k, n) in numbers.iter_mut().enumerate() {
        *n = N::get(image, at + N::WIDTH * k);
    }
}

// The same into a new array: a number for each file, or the marks.
pub(crate) fn numbers_in<const LEN: usize>(image: &[u8], at: usize) -> [u16; LEN]
    requires { at + 2 * LEN ≤ length image.now }
    ensures { result ≡ numbers_at 2 image.now at LEN }
{
    let mut numbers = [0u16; LEN];
    get_all(&mut numbers, image, at);
    numbers
}
