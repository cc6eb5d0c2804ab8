// Loads the sheet on standard input and prints the six numbers of the answer. The host list is the file `hosts`.
#![tactic(auto)]

use console::{print_numbers, read_file, read_input};
use error::numbers::numbers;
use loader::load;
use std::io;

// 16 blocks hold N = 2,032 words, for which 64 + 8N words of table and of work are enough.
fn report(rt: &impl Print, sheet: &[u8], hosts: &[u8]) -> io::Result<()> {
    let mut table = [0u32; 16320];
    let mut work = [0u32; 16320];
    print_numbers(rt, numbers(load(sheet, hosts, &mut table, &mut work)))
}

fn main(rt: HostRuntime) -> io::Result<()> {
    let mut bytes = [0u8; 8193];
    let mut list = [0u8; 8193];
    let n = read_input(&mut rt.stdin(), &mut bytes);
    let m = read_file(&rt, b"hosts", &mut list);
    report(&rt, &bytes[..n], &list[..m])
}
