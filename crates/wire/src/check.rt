// The check of a block: a weighted sum of its bytes, kept in the last four.
ghost use Rattle.std.specs.Prelude.{◌≡◌, ◌+◌, ◌<◌};
ghost use Rattle.wire.specs.Format.{check_sum};

use crate::places::CHECK_AT;

// The sum of (place + 1) × byte over the places below 508; a byte that is not there counts as 0.
pub fn sum(block: &[u8]) -> u32
    ensures { result ≡ check_sum block.now }
{
    // A loop over the bytes with their index, as the format states the sum.
    let mut sum = 0;
    let checked = &block[..block.len().min(CHECK_AT)];
    for (place, byte) in checked.iter().enumerate() {
        sum += weight(place) * u32::from(*byte);
    }
    sum
}

// The weight of a place in the check.
fn weight(place: usize) -> u32
    requires { place < 508 }
    ensures { result ≡ place + 1 }
{
    place as u32 + 1
}
