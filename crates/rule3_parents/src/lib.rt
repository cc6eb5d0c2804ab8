// Rule 3 in code: parents, per type.
#![tactic(auto)]

ghost use Rattle.std.specs.Prelude.{◌≡◌, ◌+◌, ◌<◌, length, get_or};
ghost use Rattle.error.specs.Verdict.{verdict_of, judged_of};
ghost use Rattle.sheet.specs.Module.{type_at, struct_of, is_struct};
ghost use Rattle.sheet.specs.Encode.{encode_type};
ghost use Rattle.open_sheet.specs.Ready.{Ready, Kept, sheet_words, module_of};
ghost use Rattle.parents.specs.Parents.{field_words, parents_faults};
ghost use Rattle.rule3_parents.specs.Child.{parent_word, extends, scan_faults};
ghost use Rattle.rule3_parents.specs.ParentWords.{parent_words, laid_words, chain_in};

use blocks::word;
use error::{LoadError, LoadErrorKind, TypeId, in_module};
use open_sheet::{Opened, type_at};
use region::at;

// Word i of type t.
fn type_word(sheet: &[u8], work: &[u32], o: Opened, t: TypeId, i: usize) -> u32
    requires ready { Ready (sheet_words sheet.now o) work.now o }
    requires t_lt_types { t.0 < o.counts.types }
    requires i_in_bounds { i < length (encode_type (type_at (module_of sheet.now o).types t.0)) }
    ensures { result ≡ get_or (encode_type (type_at (module_of sheet.now o).types t.0)) i 0 }
{
    word(sheet, type_at(work, o, t) + i)
}

pub fn is_struct(sheet: &[u8], work: &[u32], o: Opened, t: TypeId) -> bool
    requires { Ready (sheet_words sheet.now o) work.now o }
    ensures { result ≡ is_struct (type_at (module_of sheet.now o).types t.0) }
{
    t.0 < o.counts.types && type_word(sheet, work, o, t, 0) == 1
}

// The parent + 1, as the sheet has it; 0 for none, and of what is no struct.
pub fn parent_of(sheet: &[u8], work: &[u32], o: Opened, t: TypeId) -> u32
    requires { Ready (sheet_words sheet.now o) work.now o }
    ensures { result ≡ parent_word (type_at (module_of sheet.now o).types t.0) }
{
    if is_struct(sheet, work, o, t) {
        return type_word(sheet, work, o, t, 2);
    }
    0
}

// How many words the fields take.
fn count_words(sheet: &[u8], work: &[u32], o: Opened, t: TypeId) -> usize
    requires { Ready (sheet_words sheet.now o) work.now o }
    ensures { result ≡ length (field_words (struct_of (type_at (module_of sheet.now o).types t.0))) }
{
    if is_struct(sheet, work, o, t) {
        return 2 * type_word(sheet, work, o, t, 3) as usize;
    }
    0
}

// Word i of the fields.
fn field_word(sheet: &[u8], work: &[u32], o: Opened, t: TypeId, i: usize) -> u32
    requires ready { Ready (sheet_words sheet.now o) work.now o }
    requires i_in_bounds { i < length (field_words (struct_of (type_at (module_of sheet.now o).types t.0))) }
    ensures { result ≡ get_or (field_words (struct_of (type_at (module_of sheet.now o).types t.0))) i 0 }
{
    type_word(sheet, work, o, t, 4 + i)
}

// The parents' words of all types, laid side by side in the free words: to follow a chain takes one read a number.
fn lay_parents(sheet: &[u8], work: &mut [u32], o: Opened)
    requires { Ready (sheet_words sheet.now o) work.old o }
    ensures work_after { laid_words o work.new ≡ parent_words (module_of sheet.now o).types }
    ensures kept { Kept o work.old work.new }
{
    for t in 0..o.counts.types {
        let p = parent_of(sheet, work, o, TypeId(t));
        work[5 * o.layout.words + t as usize] = p;
    }
}

// How many numbers are met from t up, at most `left`: one a turn, in one frame. p is a number + 1, as the parents' words are.
// A `while`, as the client asked for: the loop counts what it met, and stops at a root or past the last type.
fn chain_length(parents: &[u32], t: TypeId, left: u32) -> u32
    ensures { result ≡ length (chain_in parents.now left t.0) }
{
    let mut p = t.0 as usize + 1;
    let mut met = 0;
    while met < left {
        met += 1;
        if parents.len() < p {
            return met;
        }
        p = at(parents, p - 1);
        if p == 0 {
            return met;
        }
    }
    met
}

// How many numbers are met from t up, at most one over the limit. Those of the editions are written out: the loop is then unrolled.
fn numbers_met(parents: &[u32], t: TypeId, most: u32) -> u32
    requires { most < 4294967295 }
    ensures { result ≡ length (chain_in parents.now (most + 1) t.0) }
{
    if most == 256 {
        return chain_length(parents, t, 257);
    }
    if most == 64 {
        return chain_length(parents, t, 65);
    }
    chain_length(parents, t, most + 1)
}

// The parent is a struct with no more fields than the child.
fn may_extend(sheet: &[u8], work: &[u32], o: Opened, child: TypeId, parent: TypeId) -> bool
    requires { Ready (sheet_words sheet.now o) work.now o }
    ensures { result ≡ extends (module_of sheet.now o).types parent.0 child.0 }
{
    is_struct(sheet, work, o, parent)
        && count_words(sheet, work, o, parent) <= count_words(sheet, work, o, child)
}

// Type by type: the parent is fit, its fields are the first of the child's, the chain is short.
fn scan_parents(
    sheet: &[u8],
    work: &[u32],
    parents: &[u32],
    o: Opened,
    most: u32,
) -> Result<(), LoadErrorKind>
    requires ready { Ready (sheet_words sheet.now o) work.now o }
    requires parents_value { parents.now ≡ parent_words (module_of sheet.now o).types }
    requires most_bound { most < 4294967295 }
    ensures { result ≡ verdict_of (scan_faults most (module_of sheet.now o).types) }
{
    let mut found = Ok(());
    'types: for t in 0..o.counts.types {
        let p = parents[t as usize];
        if p == 0 {
            continue 'types;
        }
        if !may_extend(sheet, work, o, TypeId(t), TypeId(p - 1)) {
            found = Err(LoadErrorKind::BadParent);
            break 'types;
        }
        let n = count_words(sheet, work, o, TypeId(p - 1));
        for i in 0..n {
            if field_word(sheet, work, o, TypeId(p - 1), i)
                != field_word(sheet, work, o, TypeId(t), i)
            {
                found = Err(LoadErrorKind::BadParent);
                break 'types;
            }
        }
        if most < numbers_met(parents, TypeId(t), most) {
            found = Err(LoadErrorKind::InheritanceTooDeep);
            break 'types;
        }
    }
    found
}

// Rule 3: 16, then 17, at the first type that breaks it.
pub fn check_parents(sheet: &[u8], work: &mut [u32], o: Opened, most: u32) -> Result<(), LoadError>
    requires ready { Ready (sheet_words sheet.now o) work.old o }
    requires most_bound { most < 4294967295 }
    ensures value { result ≡ judged_of (parents_faults most (module_of sheet.now o)) }
    ensures kept { Kept o work.old work.new }
{
    lay_parents(sheet, work, o);
    let from = 5 * o.layout.words;
    let end = from + o.counts.types as usize;
    let shared = &work[..];
    in_module(scan_parents(sheet, shared, &shared[from..end], o, most))
}
