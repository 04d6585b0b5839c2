// Save and Restore: the state as an image of bytes, and back. `bytes` puts and reads numbers, `saving` and `restoring` the parts of an image, and `upgrading`
// makes an older image into one of the newest length.

#![tactic(auto)]

mod bytes;
mod restoring;
mod saving;
mod upgrading;

pub use restoring::{read_maps, restore_whole, restore_whole_in};
pub use saving::{save, save_in, save_whole, save_whole_in};
pub use upgrading::{restore, restore_in};

// As many bytes as Save writes.
pub const IMAGE_LENGTH: usize = 2274;

// As many as it wrote before there were marks, and then before there was a rule.
const UNMARKED_LENGTH: usize = MARKS_AT;

const UNRULED_LENGTH: usize = RULE_AT;

// Where the sizes, the readers, the 4 bytes of 0, the cached map, the fetch map, the marks, the rule, the 0 byte behind it, the numbers of readers expected and
// those of attaches begin: proved to be so in the rules' one table.
const SIZES_AT: usize = 12;

const READERS_AT: usize = 28;

const GAP_AT: usize = 156;

const CACHED_AT: usize = 160;

const FETCHING_AT: usize = 1184;

const MARKS_AT: usize = 2208;

const RULE_AT: usize = 2240;

const FILLER_AT: usize = 2241;

const EXPECTED_AT: usize = 2242;

const ATTACHES_AT: usize = 2258;
