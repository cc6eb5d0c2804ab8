// The functions of the linked table, a record each.
#![tactic(auto)]

ghost use Rattle.std.specs.Prelude.{◌≡◌, [], ◌+◌, ◌*◌, ◌≤◌, ◌<◌, length};
ghost use Rattle.reader.specs.Reader.{encode_list};
ghost use Rattle.open_sheet.specs.Ready.{Ready, sheet_words, module_of};
ghost use Rattle.region.specs.Region as region;
ghost use Rattle.types.specs.Types.{types_faults};
ghost use Rattle.imports.specs.Params.{sig_results};
ghost use Rattle.funcs.specs.Funcs.{func_faults, funcs_faults};
ghost use Rattle.code.specs.Callee.{func_at};
ghost use Rattle.table.specs.Records.{result_word, func_record};
ghost use Rattle.writing.specs.Writing.{written};
ghost use Rattle.rule_frames.specs.Frames.{func_of};
ghost use Rattle.table_funcs.specs.FuncWords.{count_words, head_words, middle_words, tail_words, Sound};

use error::FuncId;
use open_sheet::{Opened, canon_type};
use rule_frames::{Frame, open_frame};
use rule_signatures::{param_count, result_count, results_at};
use rule6_registers::canon_at;
use table_catches::write_catches;
use table_numbers::{write_names, write_type_refs};
use table_values::{write_references, write_values};
use writing::{push, push_all};

// Canonical signature, numbers of registers and parameters.
fn write_counts(
    sheet: &[u8],
    work: &[u32],
    o: Opened,
    c: Frame,
    table: &mut [u32],
    at: usize,
) -> usize
    requires ready { Ready (sheet_words sheet.now o) work.now o }
    requires sound { Sound (sheet_words sheet.now o) c }
    requires c_in_bounds { at + length (count_words (module_of sheet.now o) (func_of (sheet_words sheet.now o) c)) ≤ length table.old }
    ensures table_after { table.new ≡ written table.old at (count_words (module_of sheet.now o) (func_of (sheet_words sheet.now o) c)) }
    ensures value { result ≡ at + length (count_words (module_of sheet.now o) (func_of (sheet_words sheet.now o) c)) }
{
    let sig = canon_type(work, o, c.body.sig);
    let params = param_count(sheet, work, o, c.body.sig);
    push_all(table, at, [sig.0, c.regs, params])
}

// Those, then the registers.
fn write_head(
    sheet: &[u8],
    work: &[u32],
    o: Opened,
    c: Frame,
    table: &mut [u32],
    at: usize,
) -> usize
    requires ready { Ready (sheet_words sheet.now o) work.now o }
    requires sound { Sound (sheet_words sheet.now o) c }
    requires c_in_bounds { at + length (head_words (module_of sheet.now o) (func_of (sheet_words sheet.now o) c)) ≤ length table.old }
    ensures table_after { table.new ≡ written table.old at (head_words (module_of sheet.now o) (func_of (sheet_words sheet.now o) c)) }
    ensures value { result ≡ at + length (head_words (module_of sheet.now o) (func_of (sheet_words sheet.now o) c)) }
{
    let p = write_counts(sheet, work, o, c, table, at);
    write_values(sheet, work, o, c.body.regs + 1, 1, c.regs, table, p)
}

// The result's canonical word + 1, or 0.
fn result_word(sheet: &[u8], work: &[u32], o: Opened, c: Frame) -> u32
    requires ready { Ready (sheet_words sheet.now o) work.now o }
    requires sound { Sound (sheet_words sheet.now o) c }
    ensures { result ≡ result_word (module_of sheet.now o) (sig_results (module_of sheet.now o) (func_of (sheet_words sheet.now o) c).sig) }
{
    let t = c.body.sig;
    if result_count(sheet, work, o, t) == 0 {
        return 0;
    }
    let p = results_at(sheet, work, o, t);
    canon_at(sheet, work, o, p + 1) + 1
}

// Result + 1, the reference registers, captures. Places of registers are below 65,536: none is cut.
fn write_middle(
    sheet: &[u8],
    work: &[u32],
    o: Opened,
    c: Frame,
    table: &mut [u32],
    at: usize,
) -> usize
    requires ready { Ready (sheet_words sheet.now o) work.now o }
    requires sound { Sound (sheet_words sheet.now o) c }
    requires c_in_bounds { at + length (middle_words (module_of sheet.now o) (func_of (sheet_words sheet.now o) c)) ≤ length table.old }
    ensures table_after { table.new ≡ written table.old at (middle_words (module_of sheet.now o) (func_of (sheet_words sheet.now o) c)) }
    ensures value { result ≡ at + length (middle_words (module_of sheet.now o) (func_of (sheet_words sheet.now o) c)) }
{
    let result = result_word(sheet, work, o, c);
    let p = push(table, at, result);
    let q = write_references(
        sheet,
        o.layout.words,
        c.body.regs + 1,
        1,
        c.regs,
        4294967295,
        table,
        p,
    );
    write_values(sheet, work, o, c.body.captures + 1, 1, c.captures, table, q)
}

// Names, type refs, the catch table.
fn write_tail(
    sheet: &[u8],
    work: &mut [u32],
    o: Opened,
    c: Frame,
    table: &mut [u32],
    at: usize,
) -> usize
    requires ready { Ready (sheet_words sheet.now o) work.old o }
    requires sound { Sound (sheet_words sheet.now o) c }
    requires c_in_bounds { at + length (tail_words (module_of sheet.now o) (func_of (sheet_words sheet.now o) c)) ≤ length table.old }
    ensures table_after { table.new ≡ written table.old at (tail_words (module_of sheet.now o) (func_of (sheet_words sheet.now o) c)) }
    ensures value { result ≡ at + length (tail_words (module_of sheet.now o) (func_of (sheet_words sheet.now o) c)) }
    ensures frame { region.Frame (λ k. k < 6 * o.layout.words) work.old work.new }
{
    let p = write_names(sheet, work, o, c.body.names, table, at);
    let q = write_type_refs(sheet, work, o, c.body.type_refs, table, p);
    write_catches(sheet, work, o, c, table, q)
}

// The record of function f.
fn write_func(
    sheet: &[u8],
    work: &mut [u32],
    o: Opened,
    f: FuncId,
    table: &mut [u32],
    at: usize,
) -> usize
    requires ready { Ready (sheet_words sheet.now o) work.old o }
    requires words_bound { o.layout.words ≤ 520192 }
    requires o_value { types_faults (module_of sheet.now o) ≡ [] }
    requires f_lt_funcs { f.0 < o.counts.funcs }
    requires f_value { func_faults (module_of sheet.now o) (func_at (module_of sheet.now o) f.0) ≡ [] }
    requires f_in_bounds { at + length (func_record (module_of sheet.now o) (func_at (module_of sheet.now o) f.0)) ≤ length table.old }
    ensures table_after { table.new ≡ written table.old at (func_record (module_of sheet.now o) (func_at (module_of sheet.now o) f.0)) }
    ensures value { result ≡ at + length (func_record (module_of sheet.now o) (func_at (module_of sheet.now o) f.0)) }
    ensures frame { region.Frame (λ k. k < 6 * o.layout.words) work.old work.new }
{
    let c = open_frame(sheet, work, o, f);
    let p = write_head(sheet, work, o, c, table, at);
    let q = write_middle(sheet, work, o, c, table, p);
    write_tail(sheet, work, o, c, table, q)
}

// The count, then each function's record; the answer is the next place. Words of work below 6 * words stay as they are.
pub fn write_funcs(sheet: &[u8], work: &mut [u32], o: Opened, table: &mut [u32], at: usize) -> usize
    requires ready { Ready (sheet_words sheet.now o) work.old o }
    requires words_bound { o.layout.words ≤ 520192 }
    requires o_value { types_faults (module_of sheet.now o) ≡ [] }
    requires o_value_2 { funcs_faults (module_of sheet.now o) ≡ [] }
    requires o_in_bounds { at + length (encode_list (func_record (module_of sheet.now o)) (module_of sheet.now o).funcs) ≤ length table.old }
    ensures table_after { table.new ≡ written table.old at (encode_list (func_record (module_of sheet.now o)) (module_of sheet.now o).funcs) }
    ensures value { result ≡ at + length (encode_list (func_record (module_of sheet.now o)) (module_of sheet.now o).funcs) }
    ensures frame { region.Frame (λ k. k < 6 * o.layout.words) work.old work.new }
{
    let mut p = push(table, at, o.counts.funcs);
    for f in 0..o.counts.funcs {
        p = write_func(sheet, work, o, FuncId(f), table, p);
    }
    p
}
