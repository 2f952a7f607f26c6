// The bytes at a place of a block, as the numbers and codes in it are read from them.
ghost use Rattle.std.specs.Prelude.{◌≡◌, ◌+◌, ◌≤◌};
ghost use Rattle.std.specs.List.{between};
ghost use Rattle.wire.specs.Words.{two_bytes};

use crate::places::BLOCK;

// The bytes from a place on, as many as the array takes.
pub(crate) fn array_at<const N: usize>(block: &[u8; BLOCK], place: usize) -> [u8; N]
    requires { place + N ≤ 512 }
    ensures { result ≡ between place (place + N) block.now }
{
    let mut bytes = [0; N];
    bytes.copy_from_slice(&block[place..place + N]);
    bytes
}

// The number in two bytes from a place on, the lowest byte first.
pub(crate) fn number_at(block: &[u8; BLOCK], place: usize) -> u16
    requires { place + 2 ≤ 512 }
    ensures { result ≡ two_bytes block.now place }
{
    u16::from_le_bytes(array_at(block, place))
}
