// The size of a group.
ghost use Rattle.std.specs.Prelude.{◌≡◌, ◌≤◌};

use wire::{Fault, is_group};

// How many stations a group has: 1 to 16.
#[derive(Clone, Copy)]
pub struct Size {
    n: u8,
    ghost some: { 1 ≤ n },
    ghost few: { n ≤ 16 },
}

impl Size {
    ghost use Rattle.ties.specs.Sizes.{made_for, size_of};

    // The size n, or a refusal of any n outside 1 to 16.
    pub fn new(n: u8) -> Result<Size, Fault>
        ensures { size_of result ≡ made_for n }
    {
        if is_group(n) {
            Ok(Size { n })
        } else {
            Err(Fault::Setting)
        }
    }

    pub fn get(self) -> u8
        ensures { result ≡ self.n }
    {
        self.n
    }
}
