// Lists of numbers, each a word: strings, types.
ghost use Rattle.std.specs.Prelude.{◌≡◌, length};
ghost use Rattle.error.specs.declared.What.TheVariants.{Types};
ghost use Rattle.error.specs.Answer.{in_range};
ghost use Rattle.error.specs.Verdict.{verdict_of};
ghost use Rattle.reader.specs.Reader;
ghost use Rattle.reader.specs.Reader.{list_of};
ghost use Rattle.reader.specs.Value.{Whole};
ghost use Rattle.open_sheet.specs.Ready.{Opens, sheet_words, module_of};
ghost use Rattle.types.specs.Types.{string_faults};
ghost use Rattle.law_judging.specs.Judging.{list_faults};

use crate::check_each;
use blocks::word;
use error::{LoadErrorKind, StrId, TypeId, string_in, type_in};
use open_sheet::Opened;

// String numbers in order.
pub fn check_strings(sheet: &[u8], o: Opened, at: usize) -> Result<(), LoadErrorKind>
    requires whole { Whole (list_of Reader.word (sheet_words sheet.now o) at) }
    requires opens { Opens (sheet_words sheet.now o) o }
    ensures { result ≡ verdict_of (list_faults (string_faults (module_of sheet.now o)) (list_of Reader.word (sheet_words sheet.now o) at)) }
{
    check_each(word(sheet, at), at + 1, 1, |p| {
        string_in(StrId(word(sheet, p)), o.counts.strings)
    })
}

// Type numbers in order.
pub fn check_type_refs(sheet: &[u8], o: Opened, at: usize) -> Result<(), LoadErrorKind>
    requires whole { Whole (list_of Reader.word (sheet_words sheet.now o) at) }
    requires opens { Opens (sheet_words sheet.now o) o }
    ensures { result ≡ verdict_of (list_faults (in_range Types (length (module_of sheet.now o).types)) (list_of Reader.word (sheet_words sheet.now o) at)) }
{
    check_each(word(sheet, at), at + 1, 1, |p| {
        type_in(TypeId(word(sheet, p)), o.counts.types)
    })
}
