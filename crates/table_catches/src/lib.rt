// The catch table of a function: for each position the lowest-numbered handler that covers it.
// Near-linear: each handler paints the free positions of its range, found by union-find: links with path halving.
#![tactic(auto)]

ghost use Rattle.std.specs.Prelude.{◌≡◌, ℕ, ◌+◌, ◌*◌, ◌≤◌, ◌<◌, length};
ghost use Rattle.region.specs.Region as region;
ghost use Rattle.region.specs.Region.{Off, word_at};
ghost use Rattle.writing.specs.Writing.{written};
ghost use Rattle.table.specs.Records.{no_handler, catch_table};
ghost use Rattle.open_sheet.specs.Ready.{Ready, sheet_words};
ghost use Rattle.rule_frames.specs.Frames.{func_of, Framed};
ghost use Rattle.table_catches.specs.Catch.{catches};
ghost use Rattle.table_catches.specs.Painting.{FindIn, FindOut, PaintIn, PaintOut, AllIn, AllOut};

use blocks::word;
use open_sheet::Opened;
use region::{at, count_up, fill, least, put, widen};
use rule_frames::Frame;
use writing::push;

// The first free position from p on, or len: by path halving, each link on the way becomes the next one's. No `for`: it follows links.
fn find(work: &mut [u32], m: usize, len: usize, p: usize) -> usize
    requires { FindIn work.old m len p }
    ensures { FindOut work.old work.new m len p result }
{
    let mut q = p;
    loop {
        let next = at(work, m + q);
        if next <= q {
            return q;
        }
        let over = at(work, m + next);
        put(work, m + q, over);
        q = over;
    }
}

// Paint the first free position from p on with k, if it is below stop. The result is the position after it.
fn paint_next(
    table: &mut [u32],
    t: usize,
    work: &mut [u32],
    m: usize,
    len: usize,
    k: usize,
    p: usize,
    stop: usize,
) -> usize
    requires paint_in { PaintIn table.old work.old t m len k }
    requires p_lt_stop { (p < stop) × (stop ≤ len) }
    ensures { (p < result) × (result ≤ len + 1) × PaintOut table.old table.new work.old work.new t m len k p result stop }
{
    let q = find(work, m, len, p);
    let next = q + 1;
    if stop <= q {
        return next;
    }
    put(table, t + q, k);
    put(work, m + q, next);
    next
}

// Paint the free positions from start up to stop with k. No `for`: each turn passes what is painted already.
fn paint(
    table: &mut [u32],
    t: usize,
    work: &mut [u32],
    m: usize,
    len: usize,
    k: usize,
    start: usize,
    stop: usize,
)
    requires paint_in { PaintIn table.old work.old t m len k }
    requires stop_le_len { stop ≤ len }
    ensures { PaintOut table.old table.new work.old work.new t m len k start stop stop }
{
    let mut p = start;
    while p < stop {
        p = paint_next(table, t, work, m, len, k, p, stop);
    }
}

// Paint the range of each handler, in order. Handler k is four words from hs + 4 * k on: start, end, and two more.
fn paint_all(
    sheet: &[u8],
    hs: usize,
    h: usize,
    table: &mut [u32],
    t: usize,
    work: &mut [u32],
    m: usize,
    len: usize,
)
    requires all_in { AllIn table.old work.old hs h t m len }
    requires by_index { (q : ℕ) → q < len → word_at table.old t q ≡ no_handler }
    requires by_index_2 { (q : ℕ) → q < len + 1 → word_at work.old m q ≡ q }
    ensures { AllOut sheet.now table.old table.new work.old work.new hs h t m len }
{
    for k in 0..h {
        let start = widen(word(sheet, hs + 4 * k));
        let stop = least(widen(word(sheet, hs + 4 * k + 1)), len);
        paint(table, t, work, m, len, k, start, stop);
    }
}

// The handler of each of len positions, from t on; the links stand from m on.
fn write_positions(
    sheet: &[u8],
    hs: usize,
    h: usize,
    table: &mut [u32],
    t: usize,
    work: &mut [u32],
    m: usize,
    len: usize,
)
    requires { AllIn table.old work.old hs h t m len }
    ensures table_after { table.new ≡ written table.old t (catches sheet.now hs h len) }
    ensures frame { region.Frame (Off m (m + (len + 1))) work.old work.new }
{
    fill(table, t, len, 4294967295);
    count_up(work, m, len + 1);
    paint_all(sheet, hs, h, table, t, work, m, len);
}

// The catch table of a function, from word at of the table on; the answer is the place after it. Words of work below 6 * words stay as they are.
pub fn write_catches(
    sheet: &[u8],
    work: &mut [u32],
    o: Opened,
    c: Frame,
    table: &mut [u32],
    at: usize,
) -> usize
    requires ready { Ready (sheet_words sheet.now o) work.old o }
    requires framed { Framed (sheet_words sheet.now o) c }
    requires c_in_bounds { at + length (catch_table (func_of (sheet_words sheet.now o) c)) ≤ length table.old }
    ensures table_after { table.new ≡ written table.old at (catch_table (func_of (sheet_words sheet.now o) c)) }
    ensures value { result ≡ at + length (catch_table (func_of (sheet_words sheet.now o) c)) }
    ensures frame { region.Frame (λ k. k < 6 * o.layout.words) work.old work.new }
{
    if c.handlers <= 8 {
        return push(table, at, 0);
    }
    let h = widen(c.handlers);
    let len = widen(c.code);
    let second = push(table, at, 1);
    let t = push(table, second, c.code);
    write_positions(
        sheet,
        c.body.handlers + 1,
        h,
        table,
        t,
        work,
        6 * o.layout.words,
        len,
    );
    t + len
}
