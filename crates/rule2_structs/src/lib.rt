// Rule 2 on structs: field types, field names, methods, the struct's name.
#![tactic(auto)]

ghost use Rattle.std.specs.Prelude.{◌≡◌, []};
ghost use Rattle.error.specs.Verdict.{verdict_of};
ghost use Rattle.reader.specs.Reader.{many, list_of};
ghost use Rattle.reader.specs.Value.{Whole, value_of};
ghost use Rattle.sheet.specs.Module.{coroutine};
ghost use Rattle.sheet.specs.Decode.{field_of, method_of, struct_type};
ghost use Rattle.open_sheet.specs.Ready.{Opens, sheet_words, module_of};
ghost use Rattle.types.specs.Types.{method_faults, type_faults};
ghost use Rattle.law_judging.specs.Judging.{list_faults};
ghost use Rattle.rule2_structs.specs.Parts.{no_method, field_type_faults, field_name_faults, names_faults, fields_faults};

use blocks::word;
use error::{FuncId, LoadErrorKind, StrId, func_in, string_in};
use open_sheet::Opened;
use rule_values::{check_each, check_value};

// The types of fields, each after the field's name.
fn check_field_types(sheet: &[u8], o: Opened, at: usize) -> Result<(), LoadErrorKind>
    requires whole { Whole (list_of field_of (sheet_words sheet.now o) at) }
    requires opens { Opens (sheet_words sheet.now o) o }
    ensures { result ≡ verdict_of (list_faults (field_type_faults (module_of sheet.now o)) (list_of field_of (sheet_words sheet.now o) at)) }
{
    check_each(word(sheet, at), at + 1, 2, |p| check_value(sheet, o, p + 1))
}

// The names of so many fields.
fn check_names(sheet: &[u8], o: Opened, at: usize, count: u32) -> Result<(), LoadErrorKind>
    requires whole { Whole (many count field_of (sheet_words sheet.now o) at) }
    requires opens { Opens (sheet_words sheet.now o) o }
    ensures { result ≡ verdict_of (list_faults (field_name_faults (module_of sheet.now o)) (many count field_of (sheet_words sheet.now o) at)) }
{
    check_each(count, at, 2, |p| {
        string_in(StrId(word(sheet, p)), o.counts.strings)
    })
}

// Slots from 65,536 on have no name.
fn check_field_names(sheet: &[u8], o: Opened, at: usize) -> Result<(), LoadErrorKind>
    requires whole { Whole (list_of field_of (sheet_words sheet.now o) at) }
    requires opens { Opens (sheet_words sheet.now o) o }
    ensures { result ≡ verdict_of (names_faults (module_of sheet.now o) (value_of [] (list_of field_of (sheet_words sheet.now o) at))) }
{
    check_names(sheet, o, at + 1, word(sheet, at).min(65536))
}

// All types before any name.
fn check_fields(sheet: &[u8], o: Opened, at: usize) -> Result<(), LoadErrorKind>
    requires whole { Whole (list_of field_of (sheet_words sheet.now o) at) }
    requires opens { Opens (sheet_words sheet.now o) o }
    ensures { result ≡ verdict_of (fields_faults (module_of sheet.now o) (value_of [] (list_of field_of (sheet_words sheet.now o) at))) }
{
    check_field_types(sheet, o, at)?;
    check_field_names(sheet, o, at)
}

// The function before the name.
fn check_method(sheet: &[u8], o: Opened, at: usize) -> Result<(), LoadErrorKind>
    requires whole { Whole (method_of (sheet_words sheet.now o) at) }
    requires opens { Opens (sheet_words sheet.now o) o }
    ensures { result ≡ verdict_of (method_faults (module_of sheet.now o) (value_of no_method (method_of (sheet_words sheet.now o) at))) }
{
    func_in(FuncId(word(sheet, at + 1)), o.counts.funcs)?;
    string_in(StrId(word(sheet, at)), o.counts.strings)
}

fn check_methods(sheet: &[u8], o: Opened, at: usize) -> Result<(), LoadErrorKind>
    requires whole { Whole (list_of method_of (sheet_words sheet.now o) at) }
    requires opens { Opens (sheet_words sheet.now o) o }
    ensures { result ≡ verdict_of (list_faults (method_faults (module_of sheet.now o)) (list_of method_of (sheet_words sheet.now o) at)) }
{
    check_each(word(sheet, at), at + 1, 2, |p| check_method(sheet, o, p))
}

// What follows a struct's kind word. Its parent is judged by rule 3.
pub fn check_struct(sheet: &[u8], o: Opened, at: usize) -> Result<(), LoadErrorKind>
    requires whole { Whole (struct_type (sheet_words sheet.now o) at) }
    requires opens { Opens (sheet_words sheet.now o) o }
    ensures { result ≡ verdict_of (type_faults (module_of sheet.now o) (value_of coroutine (struct_type (sheet_words sheet.now o) at))) }
{
    check_fields(sheet, o, at + 2)?;
    let fields = word(sheet, at + 2);
    check_methods(sheet, o, at + 3 + 2 * fields as usize)?;
    string_in(StrId(word(sheet, at)), o.counts.strings)
}
