// The linked table: eight sections, then the header before them.
#![tactic(auto)]

ghost use Rattle.std.specs.Prelude.{◌≡◌, ◌+◌, ◌*◌, ◌≤◌, ◌<◌, length};
ghost use Rattle.region.specs.Region.{Frame};
ghost use Rattle.open_sheet.specs.Ready.{Ready, sheet_words, module_of};
ghost use Rattle.writing.specs.Writing.{written};
ghost use Rattle.table_all.specs.Parts.{Clear, front_words, back_words, FrontAt, BackAt, Small, header_of, table_by};

use open_sheet::Opened;
use table_funcs::write_funcs;
use table_globals::{write_global_references, write_globals};
use table_hooks::write_hooks;
use table_imports::{write_canon, write_imports};
use table_spans::write_spans;
use table_types::write_types;
use writing::push_all;

// Where the types', imports' and hooks' sections start, and where the last ends.
#[derive(Clone, Copy)]
pub struct Front {
    pub types: usize,
    pub imports: usize,
    pub hooks: usize,
    pub end: usize,
}

// Where the globals', references' and spans' sections start, and where the last ends.
#[derive(Clone, Copy)]
pub struct Back {
    pub globals: usize,
    pub references: usize,
    pub spans: usize,
    pub end: usize,
}

// Functions, types, imports, hooks.
fn write_front(sheet: &[u8], work: &mut [u32], o: Opened, table: &mut [u32], at: usize) -> Front
    requires ready { Ready (sheet_words sheet.now o) work.old o }
    requires words_bound { o.layout.words ≤ 520192 }
    requires clear { Clear (module_of sheet.now o) }
    requires o_in_bounds { at + length (front_words (sheet_words sheet.now o) work.old o) ≤ length table.old }
    ensures table_after { table.new ≡ written table.old at (front_words (sheet_words sheet.now o) work.old o) }
    ensures front_at { FrontAt (sheet_words sheet.now o) work.old o at result }
    ensures frame { Frame (λ k. k < 6 * o.layout.words) work.old work.new }
{
    let types = write_funcs(sheet, work, o, table, at);
    let imports = write_types(sheet, work, o, table, types);
    let hooks = write_imports(sheet, work, o, table, imports);
    let end = write_hooks(sheet, o, table, hooks);
    Front {
        types,
        imports,
        hooks,
        end,
    }
}

// Canonical numbers, globals, the references among them, spans.
fn write_back(sheet: &[u8], work: &mut [u32], o: Opened, table: &mut [u32], at: usize) -> Back
    requires ready { Ready (sheet_words sheet.now o) work.old o }
    requires clear { Clear (module_of sheet.now o) }
    requires o_in_bounds { at + length (back_words (sheet_words sheet.now o)) ≤ length table.old }
    ensures table_after { table.new ≡ written table.old at (back_words (sheet_words sheet.now o)) }
    ensures back_at { BackAt (sheet_words sheet.now o) at result }
{
    let globals = write_canon(sheet, work, o, table, at);
    let references = write_globals(sheet, work, o, table, globals);
    let spans = write_global_references(sheet, o, table, references);
    let end = write_spans(sheet, work, o, table, spans);
    Back {
        globals,
        references,
        spans,
        end,
    }
}

fn write_header(table: &mut [u32], front: Front, back: Back)
    requires in_bounds { 10 ≤ length table.old }
    requires small { Small front back }
    ensures { table.new ≡ written table.old 0 (header_of front back) }
{
    let words = [
        2,
        back.end as u32,
        10,
        front.types as u32,
        front.imports as u32,
        front.hooks as u32,
        front.end as u32,
        back.globals as u32,
        back.references as u32,
        back.spans as u32,
    ];
    push_all(table, 0, words);
}

// The whole table; the answer is its length.
pub fn write_table(sheet: &[u8], work: &mut [u32], o: Opened, table: &mut [u32]) -> usize
    requires ready { Ready (sheet_words sheet.now o) work.old o }
    requires words_bound { o.layout.words ≤ 520192 }
    requires clear { Clear (module_of sheet.now o) }
    requires o_in_bounds { length (table_by (sheet_words sheet.now o) work.old o) ≤ length table.old }
    requires o_len_bound { length (table_by (sheet_words sheet.now o) work.old o) < 4294967296 }
    ensures table_after { table.new ≡ written table.old 0 (table_by (sheet_words sheet.now o) work.old o) }
    ensures value { result ≡ length (table_by (sheet_words sheet.now o) work.old o) }
{
    let f = write_front(sheet, work, o, table, 10);
    let b = write_back(sheet, work, o, table, f.end);
    write_header(table, f, b);
    b.end
}
