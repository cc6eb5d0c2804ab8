// The report on one sheet, and the totals over many.
#![tactic(auto)]

ghost use Rattle.std.specs.Prelude.{◌≡◌, [], ◌∷◌, ◌+◌, ◌≤◌, ◌<◌, length, unwrap_or};
ghost use Rattle.families.specs.Counted.{structs_in};
ghost use Rattle.report_lines.specs.Reported.{Reports, total_numbers};
ghost use Rattle.writing.specs.Writing.{written};
ghost use Rattle.sheet_report.specs.Lines.{size_word, line_in, LinesWritten};
ghost use Rattle.sheet_report.specs.Sums.{SpareBoth, AddsReport};

use error::TypeId;
use exact::{add, nothing};
use family_sheets::count_structs;
use loader::load;
use query::family_size;
use report_lines::{SheetReport, Totals};
use writing::push;

// How many words were written, and the sum of the sizes among them.
#[derive(Clone, Copy)]
pub struct FamilyLines {
    pub words: usize,
    pub sizes: u64,
}

fn size_of(table: &[u32], t: u32) -> u32
    ensures value { result ≡ size_word table.now t }
    ensures upper_bound { result < 4294967296 }
{
    family_size(table, TypeId(t)).unwrap_or(0)
}

// A type and its size.
fn write_line(lines: &mut [u32], at: usize, t: u32, n: u32) -> usize
    requires { at + 1 < length lines.old }
    ensures lines_after { lines.new ≡ written lines.old at (t ∷ n ∷ []) }
    ensures value { result ≡ at + 2 }
{
    let next = push(lines, at, t);
    push(lines, next, n)
}

// The line of t, if its size is not 0.
fn write_family(table: &[u32], lines: &mut [u32], t: u32, f: FamilyLines) -> FamilyLines
    requires words_in_bounds { f.words + 1 < length lines.old }
    requires sizes_bound { f.sizes + 4294967296 ≤ 18446744073709551616 }
    ensures lines_after { lines.new ≡ written lines.old f.words (line_in table.now t) }
    ensures words_value { result.words ≡ f.words + length (line_in table.now t) }
    ensures sizes_value { result.sizes ≡ f.sizes + size_word table.now t }
    ensures sizes_bound_2 { result.sizes ≤ f.sizes + 4294967295 }
{
    let n = size_of(table, t);
    if n == 0 {
        return f;
    }
    FamilyLines {
        words: write_line(lines, f.words, t, n),
        sizes: f.sizes + n as u64,
    }
}

// No accepted sheet has 2,032 types where table and work have 16,320 words.
fn write_families(table: &[u32], lines: &mut [u32]) -> FamilyLines
    requires { 4064 ≤ length lines.old }
    ensures lines_written { LinesWritten table.now lines.old 2032 lines.new result }
    ensures sizes_bound { result.sizes < 1000000000000000000 }
{
    let mut f = FamilyLines { words: 0, sizes: 0 };
    for t in 0..2032 {
        f = write_family(table, lines, t, f);
    }
    f
}

// The struct types by the declarations.
fn count_declared(sheet: &[u8]) -> u32
    ensures { result ≡ unwrap_or (structs_in sheet.now) 0 }
{
    count_structs(sheet).unwrap_or(0)
}

// Table and work are enough for 16 blocks, which hold N = 2,032 words; a longer sheet gets 24.
fn report_in(
    sheet: &[u8],
    hosts: &[u8],
    table: &mut [u32; 16320],
    work: &mut [u32; 16320],
    lines: &mut [u32; 4064],
) -> SheetReport
    ensures reports { Reports hosts.now sheet.now lines.old result lines.new }
    ensures sizes_bound { result.sizes < 1000000000000000000 }
{
    let answer = load(sheet, hosts, table, work);
    match answer {
        Ok(_) => {
            let f = write_families(table, lines);
            SheetReport {
                answer,
                words: f.words,
                structs: count_declared(sheet),
                sizes: f.sizes,
            }
        }
        Err(_) => SheetReport {
            answer,
            words: 0,
            structs: 0,
            sizes: 0,
        },
    }
}

// The report on a sheet under a host list, for any bytes.
pub fn report_sheet(sheet: &[u8], hosts: &[u8], lines: &mut [u32; 4064]) -> SheetReport
    ensures reports { Reports hosts.now sheet.now lines.old result lines.new }
    ensures sizes_bound { result.sizes < 1000000000000000000 }
{
    let mut table = [0u32; 16320];
    let mut work = [0u32; 16320];
    report_in(sheet, hosts, &mut table, &mut work, lines)
}

// Over no sheets.
pub fn no_totals() -> Totals
    ensures result_value { total_numbers result ≡ 0 ∷ 0 ∷ [] }
    ensures spare_both { SpareBoth result 18446744073709551615 }
{
    Totals {
        structs: nothing(),
        sizes: nothing(),
    }
}

// One report more.
pub fn add_report(t: Totals, r: SheetReport) -> Totals
    requires spare_both { SpareBoth t 1 }
    requires sizes_bound { r.sizes < 1000000000000000000 }
    ensures { AddsReport t r result }
{
    Totals {
        structs: add(t.structs, r.structs as u64),
        sizes: add(t.sizes, r.sizes),
    }
}
