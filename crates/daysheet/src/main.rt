// Reads blocks from standard input and prints a line for each that is refused.
#![tactic(auto)]

ghost use Rattle.std.specs.Prelude.{◌≤◌, length, IfOk};

use sheet::line_for;
use std::io;
use std::io::Read;
use wire::BLOCK;

// Fills the block from the input as far as the input goes, and tells how many bytes came. Each turn
// brings a byte or more, so as many turns suffice as the block has bytes.
fn read_block(input: &mut impl Read, block: &mut [u8]) -> io::Result<usize>
    ensures { IfOk result (λ got. got ≤ length block.new) }
{
    let mut filled = 0;
    for _ in 0..block.len() {
        if filled >= block.len() {
            break;
        }
        let got = input.read(&mut block[filled..])?;
        if got == 0 {
            break;
        }
        filled += got;
    }
    Ok(filled)
}

fn main(rt: HostRuntime) -> io::Result<()> {
    let mut input = rt.stdin();
    // The block stands here and in no vector, so that reading cannot run out of memory.
    let mut block = [0u8; BLOCK];
    // Turns are counted, since a loop with no end needs the bound `Wait`.
    for turn in 0..u64::MAX {
        let got = read_block(&mut input, &mut block)?;
        // The last block may be short, and an empty one is the end.
        if got == 0 {
            break;
        }
        if let Some(line) = line_for(&block[..got]) {
            print!(rt; "{line}")?;
            if turn == 0 {
                break;
            }
        }
    }
    Ok(())
}
