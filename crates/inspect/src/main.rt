// Prints of each file that the arguments name whether it is an intact sheet, and then N and the counts of its parts:
// strings, types, constants, imports, globals, functions, hooks, start + 1, exports.
#![tactic(auto)]

use blocks::word;
use console::{each_argument, read_file};
use open_layout::Layout;
use std::fs::Files;
use std::io;

fn print_counts(rt: &impl Print, sheet: &[u8], l: Layout) -> io::Result<()> {
    print!(rt; " intact {}", l.words)?;
    let parts = [
        l.strings, l.types, l.consts, l.imports, l.globals, l.funcs, l.hooks, l.start, l.exports,
    ];
    for at in parts {
        print!(rt; " {}", word(sheet, at))?;
    }
    Ok(())
}

fn report(rt: &impl Print, sheet: &[u8]) -> io::Result<()> {
    match open_layout::check_sheet(sheet) {
        Some(l) => print_counts(rt, sheet, l)?,
        None => print!(rt; " broken")?,
    }
    println!(rt; "")
}

// Over 16 blocks, or a file that cannot be opened, count as no bytes.
fn report_file(rt: &(impl Files + Print), name: &[u8]) -> io::Result<()> {
    let mut bytes = [0u8; 8193];
    let n = read_file(rt, name, &mut bytes);
    report(rt, &bytes[..n])
}

fn report_argument(rt: &(impl Files + Print), name: &[u8]) -> io::Result<()> {
    rt.write_all(name)?;
    report_file(rt, name)
}

fn main(rt: HostRuntime) -> io::Result<()> {
    each_argument(&rt, |name| report_argument(&rt, name))
}
