// Reports on each sheet that the arguments name, in that order, under one host list, the file `hosts`: the six numbers and,
// of an accepted sheet, each struct type with how many types descend from it, itself included. Last both sums over all sheets.
#![tactic(auto)]

ghost use Rattle.std.specs.Prelude.{IfOk};
ghost use Rattle.report_lines.specs.Reported.{AddsSheet};
ghost use Rattle.sheet_report.specs.Sums.{SpareBoth, SparesOne};

use console::{argument, print_numbers, read_file};
use error::numbers::numbers;
use report_lines::Totals;
use sheet_report::{add_report, no_totals, report_sheet};
use std::env::Env;
use std::fs::Files;
use std::io;

// The pairs in the first so many words.
fn print_lines(rt: &impl Print, lines: &[u32; 4064], words: usize) -> io::Result<()> {
    for i in 0..2032.min(words.div_ceil(2)) {
        println!(rt; "{} {}", lines[2 * i], lines[2 * i + 1])?;
    }
    Ok(())
}

// Prints the report on one sheet, and adds it to the totals.
fn report_bytes(rt: &impl Print, sheet: &[u8], hosts: &[u8], t: Totals) -> io::Result<Totals>
    requires { SpareBoth t 1 }
    ensures adds_sheet { IfOk result (λ u. AddsSheet hosts.now sheet.now t u) }
    ensures spares_one { IfOk result (λ u. SparesOne t u) }
{
    let mut lines = [0u32; 4064];
    let r = report_sheet(sheet, hosts, &mut lines);
    print_numbers(rt, numbers(r.answer))?;
    print_lines(rt, &lines, r.words)?;
    Ok(add_report(t, r))
}

fn report_file(
    rt: &(impl Files + Print),
    name: &[u8],
    hosts: &[u8],
    t: Totals,
) -> io::Result<Totals>
    requires { SpareBoth t 1 }
    ensures { IfOk result (λ u. SparesOne t u) }
{
    let mut bytes = [0u8; 8193];
    let k = read_file(rt, name, &mut bytes);
    report_bytes(rt, &bytes[..k], hosts, t)
}

// Any number of arguments leaves room in the totals.
fn report_files(rt: &(impl Env + Files + Print), hosts: &[u8]) -> io::Result<Totals> {
    let mut t = no_totals();
    for i in 1..usize::MAX {
        let mut name = [0u8; 4096];
        match argument(rt, i, &mut name) {
            Some(n) => t = report_file(rt, &name[..n], hosts, t)?,
            None => break,
        }
    }
    Ok(t)
}

fn main(rt: HostRuntime) -> io::Result<()> {
    let mut list = [0u8; 8193];
    let m = read_file(&rt, b"hosts", &mut list);
    let t = report_files(&rt, &list[..m])?;
    println!(rt; "{} {}", t.structs, t.sizes)
}
