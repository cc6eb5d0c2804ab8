// Prints of each file that the arguments name the verdict that `load` gives, as six numbers; the length of an accepted sheet's table
// is left out. The host list is the file `hosts`.
#![tactic(auto)]

use console::{each_argument, print_numbers, read_file};
use error::numbers::numbers;
use loader::load;
use std::fs::Files;
use std::io;

// An accepted sheet gives six zeros, so that what is stored was written from the rules alone.
// 16 blocks hold 2,032 words, for which 16,320 words of table and of work are enough.
fn report(rt: &impl Print, sheet: &[u8], hosts: &[u8]) -> io::Result<()> {
    let mut table = [0u32; 16320];
    let mut work = [0u32; 16320];
    let verdict = load(sheet, hosts, &mut table, &mut work).map(|_| 0);
    print_numbers(rt, numbers(verdict))
}

fn report_file(rt: &(impl Files + Print), name: &[u8]) -> io::Result<()> {
    let mut bytes = [0u8; 8193];
    let mut list = [0u8; 8193];
    let n = read_file(rt, name, &mut bytes);
    let m = read_file(rt, b"hosts", &mut list);
    report(rt, &bytes[..n], &list[..m])
}

fn report_argument(rt: &(impl Files + Print), name: &[u8]) -> io::Result<()> {
    rt.write_all(name)?;
    print!(rt; " ")?;
    report_file(rt, name)
}

fn main(rt: HostRuntime) -> io::Result<()> {
    each_argument(&rt, |name| report_argument(&rt, name))
}
