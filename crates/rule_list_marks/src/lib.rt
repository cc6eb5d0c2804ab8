// No name twice, found by a mark for each string: one pass sets the marks, one clears them.
#![tactic(auto)]

ghost use Rattle.std.specs.Prelude.{◌≡◌, true, ◌+◌, ◌*◌, ◌≤◌, length};
ghost use Rattle.blocks.specs.Blocks.{words};
ghost use Rattle.open_sheet.specs.Ready.{Ready, sheet_words};
ghost use Rattle.rule_list_marks.specs.Marks.{names_in, names_distinct, valid_members, put_mark, is_new, put_marks, are_new};
ghost use Rattle.rule_list_members.specs.Members.{pairs_at, name_in};

use blocks::word;
use error::StrId;
use open_sheet::Opened;
use rule_list_members::{ListKind, members_hold, name_of};

// Writes v to a name's mark; the marks of `strings` names are from `base` on. Was the mark another?
fn put_mark(work: &mut [u32], base: usize, strings: u32, name: Option<StrId>, v: u32) -> bool
    requires strings_in_bounds { base + strings ≤ length work.old }
    requires name_value { name_in strings name ≡ true }
    ensures value { result ≡ is_new v base work.old name }
    ensures work_after { work.new ≡ put_mark v base work.old name }
{
    match name {
        None => true,
        Some(s) => {
            let i = base + s.0 as usize;
            let old = work[i];
            work[i] = v;
            old != v
        }
    }
}

// Writes v to the mark of each name, in order. Was each mark another just before?
fn put_marks(
    sheet: &[u8],
    work: &mut [u32],
    o: Opened,
    k: ListKind,
    from: usize,
    count: u32,
    v: u32,
) -> bool
    requires count_bound { from + 2 * count ≤ o.layout.words }
    requires strings_in_bounds { 3 * o.layout.words + o.counts.strings ≤ length work.old }
    requires from_value { names_in k o.counts.strings (pairs_at (words sheet.now) count from) ≡ true }
    ensures value { result ≡ are_new k v (3 * o.layout.words) work.old (pairs_at (words sheet.now) count from) }
    ensures work_after { work.new ≡ put_marks k v (3 * o.layout.words) work.old (pairs_at (words sheet.now) count from) }
{
    let base = 3 * o.layout.words;
    let mut p = from;
    let mut new = true;
    for _ in 0..count {
        let name = name_of(k, word(sheet, p), word(sheet, p + 1));
        new &= put_mark(work, base, o.counts.strings, name, v);
        p += 2;
    }
    new
}

// No name stands twice. The marks are zero before and after.
fn are_distinct(
    sheet: &[u8],
    work: &mut [u32],
    o: Opened,
    k: ListKind,
    from: usize,
    count: u32,
) -> bool
    requires ready { Ready (sheet_words sheet.now o) work.old o }
    requires count_bound { from + 2 * count ≤ o.layout.words }
    requires from_value { names_in k o.counts.strings (pairs_at (words sheet.now) count from) ≡ true }
    ensures value { result ≡ names_distinct k (pairs_at (words sheet.now) count from) }
    ensures work_unchanged { work.new ≡ work.old }
{
    let new = put_marks(sheet, work, o, k, from, count, 1);
    put_marks(sheet, work, o, k, from, count, 0);
    new
}

// Each member holds, and no name stands twice.
pub fn are_valid(
    sheet: &[u8],
    work: &mut [u32],
    o: Opened,
    k: ListKind,
    from: usize,
    count: u32,
) -> bool
    requires ready { Ready (sheet_words sheet.now o) work.old o }
    requires count_bound { from + 2 * count ≤ o.layout.words }
    ensures value { result ≡ valid_members k o.counts.strings (pairs_at (words sheet.now) count from) }
    ensures work_unchanged { work.new ≡ work.old }
{
    if !members_hold(sheet, o.layout.words, k, o.counts.strings, from, count) {
        return false;
    }
    are_distinct(sheet, work, o, k, from, count)
}
