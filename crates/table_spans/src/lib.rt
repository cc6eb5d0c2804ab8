// The numbering walk in code: pre, post and chain length of each struct, written as a section of the linked table.
#![tactic(auto)]

ghost use Rattle.std.specs.Prelude.{◌≡◌, [], ◌∷◌, ◌+◌, ◌*◌, ◌≤◌, ◌<◌, length};
ghost use Rattle.region.specs.Region.{Off, Frame};
ghost use Rattle.open_sheet.specs.Ready.{Ready, sheet_words, module_of};
ghost use Rattle.sheet.specs.Editions.{most_of};
ghost use Rattle.parents.specs.Parents.{parents_faults};
ghost use Rattle.table.specs.Table.{spans_of};
ghost use Rattle.writing.specs.Writing.{written};
ghost use Rattle.table_spans.specs.Siblings.{Linking, Linked};
ghost use Rattle.table_spans.specs.Walked.{walks_from, Walks, ListNumbered, Blank};

use error::TypeId;
use open_sheet::Opened;
use region::{copy_word, fill, put, widen};
use rule3_parents::{is_struct, parent_of};
use sheet::most_on_chain;
use writing::push_all;

// A struct becomes the first of its parent's children, a root the first of the roots.
fn link(sheet: &[u8], work: &mut [u32], o: Opened, t: TypeId)
    requires ready { Ready (sheet_words sheet.now o) work.old o }
    requires o_value { parents_faults (most_of (module_of sheet.now o)) (module_of sheet.now o) ≡ [] }
    requires linking { Linking (module_of sheet.now o).types o.layout.words (t.0 + 1) work.old }
    requires t_lt_types { t.0 < o.counts.types }
    ensures linking_2 { Linking (module_of sheet.now o).types o.layout.words t.0 work.new }
    ensures frame { Frame (λ k. Off (4 * o.layout.words) (5 * o.layout.words) k × (k < 6 * o.layout.words)) work.old work.new }
{
    if is_struct(sheet, work, o, t) {
        let list = 4 * o.layout.words + widen(parent_of(sheet, work, o, t));
        copy_word(work, list, 6 * o.layout.words + t.0 as usize);
        put(work, list, t.0 as usize);
    }
}

// Each struct's children and the roots as lists; from the last type down, so that they rise.
fn link_all(sheet: &[u8], work: &mut [u32], o: Opened)
    requires ready { Ready (sheet_words sheet.now o) work.old o }
    requires o_value { parents_faults (most_of (module_of sheet.now o)) (module_of sheet.now o) ≡ [] }
    ensures linked { Linked (module_of sheet.now o).types o work.new }
    ensures frame { Frame (λ k. Off (4 * o.layout.words) (5 * o.layout.words) k × (k < 6 * o.layout.words)) work.old work.new }
{
    let n = o.counts.types;
    fill(work, 4 * o.layout.words, n as usize + 1, n as usize);
    for i in 0..n {
        link(sheet, work, o, TypeId(n - 1 - i));
    }
}

// The three words of a span.
fn store_span(table: &mut [u32], at: usize, pre: usize, post: usize, len: usize)
    requires at_in_bounds { at + 3 ≤ length table.old }
    requires pre_bound { (pre < 4294967296) × ((post < 4294967296) × (len < 4294967296)) }
    ensures { table.new ≡ written table.old at (pre ∷ post ∷ len ∷ []) }
{
    push_all(table, at, [pre as u32, post as u32, len as u32]);
}

// Every type is no struct until the walk enters it.
fn blank_spans(table: &mut [u32], at: usize, n: usize)
    requires { at + 1 + 3 * n ≤ length table.old }
    ensures { Blank at n table.old table.new }
{
    for t in 0..n {
        store_span(table, at + 1 + 3 * t, 4294967295, 0, 0);
    }
}

// Number the structs of a list and those below them, `left` of the `most` on a chain; the answer is the clock after them.
// The sheet is lent for the contract. No `for`: it follows the links to the siblings.
fn visit(
    sheet: &[u8],
    work: &[u32],
    o: Opened,
    table: &mut [u32],
    at: usize,
    list: usize,
    clock: usize,
    left: u32,
    most: u32,
) -> usize
    requires linked { Linked (module_of sheet.now o).types o work.now }
    requires walks { Walks most (module_of sheet.now o).types list clock left }
    requires list_le_types { list ≤ o.counts.types }
    requires types_in_bounds { at + 1 + 3 * o.counts.types ≤ length table.old }
    ensures list_numbered { ListNumbered most (module_of sheet.now o).types at left list table.old table.new }
    ensures value { result ≡ clock + length (walks_from left (module_of sheet.now o).types list 0) }
{
    let mut now = clock;
    let mut t = widen(work[4 * o.layout.words + list]);
    while t < o.counts.types as usize {
        let after = visit(sheet, work, o, table, at, t + 1, now + 1, left - 1, most);
        store_span(
            table,
            at + 1 + 3 * t,
            now,
            after,
            most as usize + 1 - left as usize,
        );
        now = after;
        t = widen(work[6 * o.layout.words + t]);
    }
    now
}

// The count of types, and pre, post and chain length of each; the answer is the next place.
pub fn write_spans(sheet: &[u8], work: &mut [u32], o: Opened, table: &mut [u32], at: usize) -> usize
    requires ready { Ready (sheet_words sheet.now o) work.old o }
    requires o_value { parents_faults (most_of (module_of sheet.now o)) (module_of sheet.now o) ≡ [] }
    requires o_in_bounds { at + length (spans_of (module_of sheet.now o)) ≤ length table.old }
    ensures table_after { table.new ≡ written table.old at (spans_of (module_of sheet.now o)) }
    ensures value { result ≡ at + length (spans_of (module_of sheet.now o)) }
    ensures frame { Frame (λ k. Off (4 * o.layout.words) (5 * o.layout.words) k × (k < 6 * o.layout.words)) work.old work.new }
{
    let n = o.counts.types as usize;
    let most = most_on_chain(o.edition);
    link_all(sheet, work, o);
    put(table, at, n);
    blank_spans(table, at, n);
    visit(sheet, work, o, table, at, 0, 0, most, most);
    at + 1 + 3 * n
}
