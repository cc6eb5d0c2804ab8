// Prints of each file that the arguments name the six numbers that `load` answers. The host list is the file `hosts`.
// A name that begins with H is that of a host list: the sheet is then the file `empty`.
#![tactic(auto)]

use console::{argument, print_numbers, read_file};
use error::numbers::numbers;
use loader::load;
use std::env::Env;
use std::fs::Files;
use std::io;

// 16 blocks hold 2,032 words, for which 16,320 words of table and of work are enough.
fn report(rt: &impl Print, sheet: &[u8], hosts: &[u8]) -> io::Result<()> {
    let mut table = [0u32; 16320];
    let mut work = [0u32; 16320];
    print_numbers(rt, numbers(load(sheet, hosts, &mut table, &mut work)))
}

fn report_files(rt: &(impl Files + Print), sheet: &[u8], hosts: &[u8]) -> io::Result<()> {
    let mut bytes = [0u8; 8193];
    let mut list = [0u8; 8193];
    let n = read_file(rt, sheet, &mut bytes);
    let m = read_file(rt, hosts, &mut list);
    report(rt, &bytes[..n], &list[..m])
}

// False past the last argument. The first byte of a name that is too long counts too, so the whole buffer is at hand here.
fn report_argument(rt: &(impl Env + Files + Print), i: usize) -> io::Result<bool> {
    let mut name = [0u8; 4096];
    let Some(n) = argument(rt, i, &mut name) else {
        return Ok(false);
    };
    rt.write_all(&name[..n])?;
    print!(rt; " ")?;
    if name[0] == b'H' {
        report_files(rt, b"empty", &name[..n])?;
    } else {
        report_files(rt, &name[..n], b"hosts")?;
    }
    Ok(true)
}

fn report_arguments(rt: &(impl Env + Files + Print)) -> io::Result<()> {
    for i in 1..usize::MAX {
        if !report_argument(rt, i)? {
            break;
        }
    }
    Ok(())
}

fn main(rt: HostRuntime) -> io::Result<()> {
    report_arguments(&rt)
}
