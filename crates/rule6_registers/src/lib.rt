// Whether the parameters of a signature are the first registers, compared canonically.
#![tactic(auto)]

ghost use Rattle.std.specs.Prelude.{◌≡◌, []};
ghost use Rattle.reader.specs.Reader.{list_of};
ghost use Rattle.reader.specs.Value.{Whole, value_of};
ghost use Rattle.sheet.specs.Module.{dyn};
ghost use Rattle.sheet.specs.Decode.{value_type};
ghost use Rattle.canon.specs.Canon.{canon_word};
ghost use Rattle.types.specs.Types.{value_faults};
ghost use Rattle.funcs.specs.Funcs.{params_first};
ghost use Rattle.open_sheet.specs.Ready.{Ready, sheet_words, module_of};
ghost use Rattle.law_judging.specs.Judging.{list_faults};

use blocks::word;
use error::TypeId;
use open_sheet::{Opened, canon_type};

// The canonical word of the value type at a position.
pub fn canon_at(sheet: &[u8], work: &[u32], o: Opened, at: usize) -> u32
    requires ready { Ready (sheet_words sheet.now o) work.now o }
    requires whole { Whole (value_type (sheet_words sheet.now o) at) }
    requires at_value { value_faults (module_of sheet.now o) (value_of dyn (value_type (sheet_words sheet.now o) at)) ≡ [] }
    ensures { result ≡ canon_word (module_of sheet.now o).types (value_of dyn (value_type (sheet_words sheet.now o) at)) }
{
    let w = word(sheet, at);
    if w < 16 {
        return w;
    }
    let t = TypeId(w - 16);
    let c = canon_type(work, o, t);
    16 + c.0
}

// The parameters are the first registers; each value type is a word.
pub fn params_first(sheet: &[u8], work: &[u32], o: Opened, params_at: usize, regs_at: usize) -> bool
    requires ready { Ready (sheet_words sheet.now o) work.now o }
    requires whole { Whole (list_of value_type (sheet_words sheet.now o) params_at) }
    requires whole_2 { Whole (list_of value_type (sheet_words sheet.now o) regs_at) }
    requires params_at_value { list_faults (value_faults (module_of sheet.now o)) (list_of value_type (sheet_words sheet.now o) params_at) ≡ [] }
    requires regs_at_value { list_faults (value_faults (module_of sheet.now o)) (list_of value_type (sheet_words sheet.now o) regs_at) ≡ [] }
    ensures { result ≡ params_first (module_of sheet.now o) (value_of [] (list_of value_type (sheet_words sheet.now o) params_at)) (value_of [] (list_of value_type (sheet_words sheet.now o) regs_at)) }
{
    let params = word(sheet, params_at) as usize;
    let regs = word(sheet, regs_at) as usize;
    if regs < params {
        return false;
    }
    for i in 0..params {
        let p = canon_at(sheet, work, o, params_at + 1 + i);
        let r = canon_at(sheet, work, o, regs_at + 1 + i);
        if p != r {
            return false;
        }
    }
    true
}
