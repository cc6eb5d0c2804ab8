// How deep a constant is, or how it is broken first.
#![tactic(auto)]

ghost use Rattle.std.specs.Prelude.{◌≡◌, [], ◌+◌, ◌*◌, ◌≤◌, length};
ghost use Rattle.reader.specs.Reader.{word as word_of, many};
ghost use Rattle.reader.specs.Value.{Whole, value_of};
ghost use Rattle.sheet.specs.Module.{plain};
ghost use Rattle.sheet.specs.Decode.{const_of};
ghost use Rattle.region.specs.Region.{part};
ghost use Rattle.open_sheet.specs.Ready.{Opens, sheet_words, module_of};
ghost use Rattle.rule4_nesting.specs.Nesting.{nesting, const_nesting};

use blocks::word;
use error::{ConstId, LoadErrorKind, StrId, string_in};
use open_sheet::Opened;

// How deep constant c is, whose children are so many words from a place on. The depths so far stand in the free words, by number.
fn nest(
    sheet: &[u8],
    work: &[u32],
    o: Opened,
    most: u32,
    c: ConstId,
    at: usize,
    count: usize,
) -> Result<u32, LoadErrorKind>
    requires whole { Whole (many count word_of (sheet_words sheet.now o) at) }
    requires c_in_bounds { 5 * o.layout.words + c.0 ≤ length work.now }
    ensures { result ≡ nesting most (part (5 * o.layout.words) c.0 work.now) c.0 (value_of [] (many count word_of (sheet_words sheet.now o) at)) }
{
    let mut depth = 0;
    for i in 0..count {
        let child = ConstId(word(sheet, at + i));
        if c.0 <= child.0 {
            return Err(LoadErrorKind::BadConstant);
        }
        let below = work[5 * o.layout.words + child.0 as usize];
        if most <= below {
            return Err(LoadErrorKind::BadConstant);
        }
        depth = depth.max(below + 1);
    }
    Ok(depth)
}

// How deep constant c is, which stands at a place, given the depths of those before it.
pub fn nest_const(
    sheet: &[u8],
    work: &[u32],
    o: Opened,
    most: u32,
    c: ConstId,
    at: usize,
) -> Result<u32, LoadErrorKind>
    requires whole { Whole (const_of (sheet_words sheet.now o) at) }
    requires opens { Opens (sheet_words sheet.now o) o }
    requires c_in_bounds { 5 * o.layout.words + c.0 ≤ length work.now }
    ensures { result ≡ const_nesting (module_of sheet.now o) most (part (5 * o.layout.words) c.0 work.now) c.0 (value_of (plain 0 0) (const_of (sheet_words sheet.now o) at)) }
{
    match word(sheet, at) {
        0 => Ok(0),
        1 => {
            string_in(StrId(word(sheet, at + 1)), o.counts.strings)?;
            Ok(0)
        }
        2 => nest(
            sheet,
            work,
            o,
            most,
            c,
            at + 2,
            word(sheet, at + 1) as usize,
        ),
        _ => nest(
            sheet,
            work,
            o,
            most,
            c,
            at + 2,
            2 * word(sheet, at + 1) as usize,
        ),
    }
}
