// Replays stored cases (tests/compare/README.md has their format) by `load`, with slices as long as the case says.
// The six numbers must be the case's, the table's words its words where it is accepted, and every other word of table and work
// as `load` leaves it. Prints how many cases were replayed, how many differed, and which.
#![tactic(auto)]

use console::{argument, open_file, read_full};
use error::numbers::{SixNumbers, numbers};
use loader::load;
use std::io;
use std::io::Read;

// What stands in table and work before: a word that `load` does not write is known by it.
const TABLE_BEFORE: u32 = 2779096485;

const WORK_BEFORE: u32 = 1515870810;

// Lengths and answer of a stored case.
#[derive(Clone, Copy)]
struct Case {
    sheet: usize,
    hosts: usize,
    table: usize,
    work: usize,
    answer: SixNumbers,
    linked: usize,
}

// The first n bytes of buf, from the file; false where there are not as many.
fn read_part(file: &mut impl Read, buf: &mut [u8], n: usize) -> bool {
    match buf.get_mut(..n) {
        Some(part) => read_full(file, part) == n,
        None => false,
    }
}

fn padded(n: usize) -> usize {
    if n < 65536 { (n + 3) / 4 * 4 } else { n }
}

fn read_answer(h: &[u8; 44]) -> SixNumbers {
    SixNumbers {
        kind: u32::from_le_bytes([h[16], h[17], h[18], h[19]]),
        word: u32::from_le_bytes([h[20], h[21], h[22], h[23]]),
        number: u32::from_le_bytes([h[24], h[25], h[26], h[27]]),
        second: u32::from_le_bytes([h[28], h[29], h[30], h[31]]),
        func: u32::from_le_bytes([h[32], h[33], h[34], h[35]]),
        pc: u32::from_le_bytes([h[36], h[37], h[38], h[39]]),
    }
}

fn read_case(h: &[u8; 44]) -> Case {
    Case {
        sheet: u32::from_le_bytes([h[0], h[1], h[2], h[3]]) as usize,
        hosts: u32::from_le_bytes([h[4], h[5], h[6], h[7]]) as usize,
        table: u32::from_le_bytes([h[8], h[9], h[10], h[11]]) as usize,
        work: u32::from_le_bytes([h[12], h[13], h[14], h[15]]) as usize,
        answer: read_answer(h),
        linked: u32::from_le_bytes([h[40], h[41], h[42], h[43]]) as usize,
    }
}

// Every word from that place on is x.
fn is_filled(words: &[u32], from: usize, x: u32) -> bool {
    words.iter().skip(from).all(|w| *w == x)
}

// Word i is the one that is stored.
fn is_stored(words: &[u32], linked: &[u8], i: usize) -> bool {
    if 65536 <= i {
        return false;
    }
    if words.len() <= i {
        return false;
    }
    if linked.len() < 4 * i + 4 {
        return false;
    }
    let p = 4 * i;
    words[i] == u32::from_le_bytes([linked[p], linked[p + 1], linked[p + 2], linked[p + 3]])
}

// The first n words are the stored ones.
fn are_stored(words: &[u32], linked: &[u8], n: usize) -> bool {
    (0..n).all(|i| is_stored(words, linked, i))
}

// How many words of the table an answer says are written.
fn table_words(answer: SixNumbers) -> usize {
    if answer.kind == 0 {
        answer.number as usize
    } else {
        0
    }
}

fn is_table(table: &[u32], linked: &[u8], n: usize) -> bool {
    are_stored(table, linked, n) && is_filled(table, n, TABLE_BEFORE)
}

// Work is as before where no rule was tried, and zero after the rules.
fn is_work(work: &[u32], kind: u32) -> bool {
    match kind {
        1 | 23 | 24 => is_filled(work, 0, WORK_BEFORE),
        _ => is_filled(work, 0, 0),
    }
}

fn is_left(table: &[u32], work: &[u32], linked: &[u8], c: Case) -> bool {
    table_words(c.answer) == c.linked
        && is_table(table, linked, c.linked)
        && is_work(work, c.answer.kind)
}

fn is_loaded(
    sheet: &[u8],
    hosts: &[u8],
    linked: &[u8],
    table: &mut [u32],
    work: &mut [u32],
    c: Case,
) -> bool {
    numbers(load(sheet, hosts, table, work)) == c.answer && is_left(table, work, linked, c)
}

// Each slice is as long as the case says.
fn is_same(
    sheet: &[u8],
    hosts: &[u8],
    linked: &[u8],
    table: &mut [u32],
    work: &mut [u32],
    c: Case,
) -> bool {
    let (Some(sheet), Some(hosts)) = (sheet.get(..c.sheet), hosts.get(..c.hosts)) else {
        return false;
    };
    match (table.get_mut(..c.table), work.get_mut(..c.work)) {
        (Some(table), Some(work)) => is_loaded(sheet, hosts, linked, table, work, c),
        _ => false,
    }
}

// 64 blocks hold 8,128 words, for which 65,088 words are enough; stored cases have up to 100 more.
fn is_same_in(sheet: &[u8; 65536], hosts: &[u8; 65536], linked: &[u8; 262144], c: Case) -> bool {
    let mut table = [TABLE_BEFORE; 65600];
    let mut work = [WORK_BEFORE; 65600];
    is_same(sheet, hosts, linked, &mut table, &mut work, c)
}

// Is a case whose lengths are known the same? Its bytes and its table come next; none where they are not there.
fn replay_case(file: &mut impl Read, c: Case) -> Option<bool> {
    let mut sheet = [0u8; 65536];
    let mut hosts = [0u8; 65536];
    let mut linked = [0u8; 262144];
    if !read_part(file, &mut sheet, padded(c.sheet)) {
        return None;
    }
    if !read_part(file, &mut hosts, padded(c.hosts)) {
        return None;
    }
    if 65536 < c.linked {
        return None;
    }
    if !read_part(file, &mut linked, 4 * c.linked) {
        return None;
    }
    Some(is_same_in(&sheet, &hosts, &linked, c))
}

fn replay_next(file: &mut impl Read) -> Option<bool> {
    let mut head = [0u8; 44];
    if read_full(file, &mut head) != 44 {
        return None;
    }
    replay_case(file, read_case(&head))
}

fn replay_all(rt: &impl Print, file: &mut impl Read, count: u32) -> io::Result<()> {
    let mut different: u32 = 0;
    for i in 0..count {
        match replay_next(file) {
            Some(true) => {}
            Some(false) => {
                println!(rt; "different: case {i}")?;
                different += 1;
            }
            None => return println!(rt; "missing: case {i}"),
        }
    }
    println!(rt; "cases {count}")?;
    println!(rt; "different {different}")
}

// The file begins with its format, 1, and the count of cases.
fn replay_file(rt: &impl Print, file: &mut impl Read) -> io::Result<()> {
    let mut head = [0u8; 8];
    if read_full(file, &mut head) != 8 {
        return Ok(());
    }
    if u32::from_le_bytes([head[0], head[1], head[2], head[3]]) != 1 {
        return Ok(());
    }
    let count = u32::from_le_bytes([head[4], head[5], head[6], head[7]]);
    replay_all(rt, file, count)
}

fn replay_named(rt: HostRuntime, name: &[u8]) -> io::Result<()> {
    match open_file(&rt, name) {
        Ok(mut file) => replay_file(&rt, &mut file),
        Err(e) => {
            rt.stderr().write_all(name)?;
            eprintln!(rt; ": {e}")
        }
    }
}

fn main(rt: HostRuntime) -> io::Result<()> {
    let mut name = [0u8; 4096];
    match argument(&rt, 1, &mut name) {
        Some(n) => replay_named(rt, &name[..n]),
        None => replay_named(rt, b""),
    }
}
