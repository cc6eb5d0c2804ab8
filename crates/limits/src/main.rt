// A sheet of the most blocks, 4,096, is intact; the like of one block more is broken.
#![tactic(auto)]

ghost use Rattle.std.specs.Prelude.{◌≤◌};

use std::io;

// Of the first n blocks.
fn report(rt: &impl Print, blocks: &[[u8; 512]; 4097], n: usize) -> io::Result<()>
    requires { n ≤ 4097 }
{
    match open_layout::check_sheet(blocks[..n].as_flattened()) {
        Some(_) => println!(rt; "intact"),
        None => println!(rt; "broken"),
    }
}

fn put(block: &mut [u8; 512], at: usize, w: u32)
    requires { at ≤ 508 }
{
    block[at..at + 4].copy_from_slice(&w.to_le_bytes());
}

// Blocks of zero bytes have their number as check word.
fn number_blocks(blocks: &mut [[u8; 512]; 4097]) {
    for (k, block) in blocks.iter_mut().enumerate() {
        put(block, 508, k as u32);
    }
}

// Block 0 of a sheet of n words with one string of zeros, of so many octets that it fills the rest; its check word is given.
fn put_first(block: &mut [u8; 512], n: u32, octets: u32, check: u32) {
    put(block, 0, 1);
    put(block, 4, n);
    put(block, 8, 1);
    put(block, 12, octets);
    put(block, 508, check);
}

// 4,096 blocks are intact, the like with one block more are not.
fn report_most(rt: &impl Print) -> io::Result<()> {
    let mut blocks = [[0u8; 512]; 4097];
    number_blocks(&mut blocks);
    put_first(&mut blocks[0], 520192, 2080720, 7342);
    print!(rt; "4096 blocks ")?;
    report(rt, &blocks, 4096)?;
    put_first(&mut blocks[0], 520319, 2081228, 7953);
    print!(rt; "4097 blocks ")?;
    report(rt, &blocks, 4097)
}

fn main(rt: HostRuntime) -> io::Result<()> {
    report_most(&rt)
}
