// Where each string, type, constant, import and function of an intact sheet stands and ends, written to lent words.
#![tactic(auto)]

ghost use Rattle.std.specs.Prelude.{◌≡◌, ℕ, Option, ◌+◌, ◌≤◌, ◌<◌, ◌^◌, length};
ghost use Rattle.std.proofs.Math.Seq.{paste};
ghost use Rattle.blocks.specs.Frame.{first_words};
ghost use Rattle.reader.specs.Reader.{list_of};
ghost use Rattle.reader.specs.Step.{step_of};
ghost use Rattle.reader.specs.Value.{Whole};
ghost use Rattle.open_index.specs.declared.Part.{Part};
ghost use Rattle.open_index.specs.Index.{member_of, edges_of, Indexable, index, index_of};

use blocks::word;
use open_funcs::skip_function;
use open_layout::Layout;
use open_parts::consts::skip_const;
use open_parts::imports::skip_import;
use open_types::skip_type;
use reader::skip_string;

// The parts whose members are reached by number.
#[derive(Clone, Copy)]
pub enum Part {
    Strings,
    Types,
    Consts,
    Imports,
    Funcs,
}

// Writes where each member of the list at `at` stands, and where it ends, to work[base..] alone; gives the word after them.
pub fn index_members<F: Fn(usize) -> Option<usize>>(
    sheet: &[u8],
    n: usize,
    at: usize,
    skip: F,
    work: &mut [u32],
    base: usize,
) -> usize
    ghost part: { Part }
    requires callable { F.IsAlwaysCallable skip }
    requires passes { (p : ℕ) (r : Option ℕ) → F.post skip p r → r ≡ step_of (member_of part (first_words sheet.now n) p) }
    requires whole { Whole (list_of (member_of part) (first_words sheet.now n) at) }
    requires n_bound { n < 2 ^ 32 }
    requires at_in_bounds { base + length (edges_of part (first_words sheet.now n) at) ≤ length work.old }
    ensures value { result ≡ base + length (edges_of part (first_words sheet.now n) at) }
    ensures work_after { work.new ≡ paste work.old base (edges_of part (first_words sheet.now n) at) (length (edges_of part (first_words sheet.now n) at)) }
{
    let end = base + word(sheet, at) as usize;
    let mut p = at + 1;
    for i in base..end {
        work[i] = p as u32;
        p = skip(p).unwrap();
    }
    work[end] = p as u32;
    end + 1
}

// The same of a part by its name.
pub fn index_part(
    sheet: &[u8],
    n: usize,
    part: Part,
    at: usize,
    work: &mut [u32],
    base: usize,
) -> usize
    requires whole { Whole (list_of (member_of part) (first_words sheet.now n) at) }
    requires n_bound { n < 2 ^ 32 }
    requires at_in_bounds { base + length (edges_of part (first_words sheet.now n) at) ≤ length work.old }
    ensures value { result ≡ base + length (edges_of part (first_words sheet.now n) at) }
    ensures work_after { work.new ≡ paste work.old base (edges_of part (first_words sheet.now n) at) (length (edges_of part (first_words sheet.now n) at)) }
{
    match part {
        Part::Strings => index_members(sheet, n, at, |p| skip_string(sheet, n, p), work, base),
        Part::Types => index_members(sheet, n, at, |p| skip_type(sheet, n, p), work, base),
        Part::Consts => index_members(sheet, n, at, |p| skip_const(sheet, n, p), work, base),
        Part::Imports => index_members(sheet, n, at, |p| skip_import(sheet, n, p), work, base),
        Part::Funcs => index_members(sheet, n, at, |p| skip_function(sheet, n, p), work, base),
    }
}

// Where each part's edges begin in the index, and where the index ends.
#[derive(Clone, Copy)]
pub struct Index {
    pub strings: usize,
    pub types: usize,
    pub consts: usize,
    pub imports: usize,
    pub funcs: usize,
    pub end: usize,
}

// The edges of all five parts, side by side from word 0 of work on, and nothing else.
pub fn index_sheet(sheet: &[u8], l: Layout, work: &mut [u32]) -> Index
    requires indexable { Indexable (first_words sheet.now l.words) l }
    requires words_bound { l.words < 2 ^ 32 }
    requires l_in_bounds { length (index (first_words sheet.now l.words) l) ≤ length work.old }
    ensures value { result ≡ index_of (first_words sheet.now l.words) l }
    ensures work_after { work.new ≡ paste work.old 0 (index (first_words sheet.now l.words) l) (length (index (first_words sheet.now l.words) l)) }
{
    let n = l.words;
    let types = index_part(sheet, n, Part::Strings, l.strings, work, 0);
    let consts = index_part(sheet, n, Part::Types, l.types, work, types);
    let imports = index_part(sheet, n, Part::Consts, l.consts, work, consts);
    let funcs = index_part(sheet, n, Part::Imports, l.imports, work, imports);
    let end = index_part(sheet, n, Part::Funcs, l.funcs, work, funcs);
    Index {
        strings: 0,
        types,
        consts,
        imports,
        funcs,
        end,
    }
}
