// An intact sheet made ready for the rules.
#![tactic(auto)]

ghost use Rattle.std.specs.Prelude.{◌≡◌, ◌+◌, ◌*◌, ◌≤◌, ◌<◌, length};
ghost use Rattle.blocks.specs.Frame.{first_words};
ghost use Rattle.open_layout.specs.LayoutLaws.{Located};
ghost use Rattle.open_layout.specs.Opened.{module_in};
ghost use Rattle.open_index.specs.Index.{index_of};
ghost use Rattle.open_sheet.specs.Filing.{Filed};
ghost use Rattle.open_sheet.specs.Ready.{counts_of, Ready, pos_at};

use blocks::word;
use error::{ConstId, FuncId, StrId, TypeId};
use open_canon::canonical;
use open_index::{Index, index_sheet};
use open_layout::Layout;
use region::{at, fill};
use sorting::contents::Items;

// How many of each there are.
#[derive(Clone, Copy)]
pub struct Counts {
    pub strings: u32,
    pub types: u32,
    pub consts: u32,
    pub imports: u32,
    pub globals: u32,
    pub funcs: u32,
}

#[derive(Clone, Copy)]
pub struct Opened {
    pub edition: u32,
    pub layout: Layout,
    pub index: Index,
    pub counts: Counts,
}

fn count_parts(sheet: &[u8], l: Layout) -> Counts
    requires { Located (first_words sheet.now l.words) (module_in (first_words sheet.now l.words)) l }
    ensures { result ≡ counts_of (module_in (first_words sheet.now l.words)) }
{
    Counts {
        strings: word(sheet, l.strings),
        types: word(sheet, l.types),
        consts: word(sheet, l.consts),
        imports: word(sheet, l.imports),
        globals: word(sheet, l.globals),
        funcs: word(sheet, l.funcs),
    }
}

// Canonical numbers of strings and types in their regions, and marks of strings, all zero.
fn number_parts(sheet: &[u8], e: u32, l: Layout, x: Index, c: Counts, work: &mut [u32]) -> Opened
    requires filed { Filed (first_words sheet.now l.words) work.old l }
    requires words_bound { l.words < 4294967296 }
    requires x_value { x ≡ index_of (first_words sheet.now l.words) l }
    requires c_value { c ≡ counts_of (module_in (first_words sheet.now l.words)) }
    requires e_value { e ≡ (module_in (first_words sheet.now l.words)).edition }
    ensures { (result.layout ≡ l) × Ready (first_words sheet.now l.words) work.new result }
{
    let n = l.words;
    let strings = Items {
        bytes: sheet,
        words: n,
        n: c.strings as usize,
        edges_at: x.strings,
    };
    let types = Items {
        n: c.types as usize,
        edges_at: x.types,
        ..strings
    };
    canonical(strings, work, 4 * n, 5 * n, 1 * n, false);
    canonical(types, work, 4 * n, 5 * n, 2 * n, true);
    fill(work, 3 * n, strings.n, 0);
    Opened {
        edition: e,
        layout: l,
        index: x,
        counts: c,
    }
}

// An intact sheet, made ready in lent words.
pub fn open_sheet(sheet: &[u8], l: Layout, work: &mut [u32]) -> Opened
    requires located { Located (first_words sheet.now l.words) (module_in (first_words sheet.now l.words)) l }
    requires words_bound { l.words < 4294967296 }
    requires words_in_bounds { 64 + 8 * l.words ≤ length work.old }
    ensures { (result.layout ≡ l) × Ready (first_words sheet.now l.words) work.new result }
{
    let x = index_sheet(sheet, l, work);
    let c = count_parts(sheet, l);
    number_parts(sheet, word(sheet, 0), l, x, c, work)
}

// Where a string, a type, a constant, an import, a function stands, by its number. One read each: a trait of numbers would be longer.
pub fn string_at(work: &[u32], o: Opened, s: StrId) -> usize
    requires { o.index.strings + s.0 < length work.now }
    ensures { result ≡ pos_at work.now o.index.strings s.0 }
{
    at(work, o.index.strings + s.0 as usize)
}

pub fn type_at(work: &[u32], o: Opened, t: TypeId) -> usize
    requires { o.index.types + t.0 < length work.now }
    ensures { result ≡ pos_at work.now o.index.types t.0 }
{
    at(work, o.index.types + t.0 as usize)
}

pub fn const_at(work: &[u32], o: Opened, c: ConstId) -> usize
    requires { o.index.consts + c.0 < length work.now }
    ensures { result ≡ pos_at work.now o.index.consts c.0 }
{
    at(work, o.index.consts + c.0 as usize)
}

pub fn import_at(work: &[u32], o: Opened, i: u32) -> usize
    requires { o.index.imports + i < length work.now }
    ensures { result ≡ pos_at work.now o.index.imports i }
{
    at(work, o.index.imports + i as usize)
}

pub fn func_at(work: &[u32], o: Opened, f: FuncId) -> usize
    requires { o.index.funcs + f.0 < length work.now }
    ensures { result ≡ pos_at work.now o.index.funcs f.0 }
{
    at(work, o.index.funcs + f.0 as usize)
}

// The canonical number of a string, of a type.
pub fn canon_string(work: &[u32], o: Opened, s: StrId) -> StrId
    requires { o.layout.words + s.0 < length work.now }
    ensures { result.0 ≡ pos_at work.now o.layout.words s.0 }
{
    StrId(work[o.layout.words + s.0 as usize])
}

pub fn canon_type(work: &[u32], o: Opened, t: TypeId) -> TypeId
    requires { 2 * o.layout.words + t.0 < length work.now }
    ensures { result.0 ≡ pos_at work.now (2 * o.layout.words) t.0 }
{
    TypeId(work[2 * o.layout.words + t.0 as usize])
}
