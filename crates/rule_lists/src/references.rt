// Parameters by reference: dyn, or a reference to a cell of dyn.
ghost use Rattle.std.specs.Prelude.{◌≡◌, ◌+◌, ◌*◌, ◌≤◌};
ghost use Rattle.blocks.specs.Blocks.{words};
ghost use Rattle.open_sheet.specs.Ready.{Ready, sheet_words, module_of};
ghost use Rattle.imports.specs.Params.{taken_by_reference};
ghost use Rattle.rule_lists.specs.References.{value_from, reference_fits, references_fit};

use blocks::word;
use error::TypeId;
use open_sheet::{Opened, type_at};

// w is the word of a value type.
fn is_taken(sheet: &[u8], work: &[u32], o: Opened, w: u32) -> bool
    requires { Ready (sheet_words sheet.now o) work.now o }
    ensures { result ≡ taken_by_reference (module_of sheet.now o) (value_from w) }
{
    if w < 16 {
        return w == 12;
    }
    let t = TypeId(w - 16);
    if o.counts.types <= t.0 {
        return false;
    }
    let p = type_at(work, o, t);
    if word(sheet, p) != 4 {
        return false;
    }
    word(sheet, p + 1) == 12
}

fn reference_fits(sheet: &[u8], work: &[u32], o: Opened, flags: u32, w: u32) -> bool
    requires { Ready (sheet_words sheet.now o) work.now o }
    ensures { result ≡ reference_fits (module_of sheet.now o) flags w }
{
    flags % 2 != 1 || is_taken(sheet, work, o, w)
}

// `count` parameters from `from` on, as many value types from `values` on.
pub fn references_fit(
    sheet: &[u8],
    work: &[u32],
    o: Opened,
    from: usize,
    values: usize,
    count: u32,
) -> bool
    requires ready { Ready (sheet_words sheet.now o) work.now o }
    requires count_bound { from + 2 * count ≤ o.layout.words }
    requires count_bound_2 { values + count ≤ o.layout.words }
    ensures { result ≡ references_fit (module_of sheet.now o) (words sheet.now) count from values }
{
    let mut p = from;
    let mut q = values;
    for _ in 0..count {
        if !reference_fits(sheet, work, o, word(sheet, p), word(sheet, q)) {
            return false;
        }
        p += 2;
        q += 1;
    }
    true
}
