// Kinds of types that instructions make.
ghost use Rattle.std.specs.Prelude.{◌≡◌, ◌<◌, get_or};
ghost use Rattle.error.specs.Answer.{type_kind_word};
ghost use Rattle.error.specs.Verdict.{verdict_of};
ghost use Rattle.sheet.specs.Module.{type_at, kind_word};
ghost use Rattle.open_sheet.specs.Ready.{Ready, sheet_words, module_of};
ghost use Rattle.rule_frames.specs.Frames.{func_of, Framed};
ghost use Rattle.rule7_callees.specs.Callees.{wanted_faults};

use blocks::word;
use error::{LoadErrorKind, TypeId, TypeKind};
use open_sheet::{Opened, type_at};
use rule_frames::Frame;

fn wanted_word(wanted: TypeKind) -> u32
    ensures { result ≡ type_kind_word wanted }
{
    match wanted {
        TypeKind::Struct => 1,
        TypeKind::Array => 2,
        TypeKind::Map => 3,
        TypeKind::Cell => 4,
    }
}

// The kind word of type t; that of a coroutine where there is no such type.
fn type_kind(sheet: &[u8], work: &[u32], o: Opened, t: TypeId) -> u32
    requires { Ready (sheet_words sheet.now o) work.now o }
    ensures { result ≡ kind_word (type_at (module_of sheet.now o).types t.0) }
{
    if t.0 < o.counts.types {
        return word(sheet, type_at(work, o, t));
    }
    6
}

// The type that type ref b names is of the wanted kind.
pub fn check_kind(
    sheet: &[u8],
    work: &[u32],
    o: Opened,
    c: Frame,
    b: u32,
    wanted: TypeKind,
) -> Result<(), LoadErrorKind>
    requires ready { Ready (sheet_words sheet.now o) work.now o }
    requires framed { Framed (sheet_words sheet.now o) c }
    requires b_bound { b < c.type_refs }
    ensures { result ≡ verdict_of (wanted_faults wanted (kind_word (type_at (module_of sheet.now o).types (get_or (func_of (sheet_words sheet.now o) c).type_refs b 0)))) }
{
    let t = word(sheet, c.body.type_refs + 1 + b as usize);
    if type_kind(sheet, work, o, TypeId(t)) == wanted_word(wanted) {
        return Ok(());
    }
    Err(LoadErrorKind::WrongTypeKind(wanted))
}
