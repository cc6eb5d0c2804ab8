// Constants: a kind word, then what it wants.
ghost use Rattle.std.specs.Prelude.{◌≡◌};
ghost use Rattle.blocks.specs.Frame.{first_words};
ghost use Rattle.reader.specs.Reader.{list_of};
ghost use Rattle.reader.specs.Step.{step_of};
ghost use Rattle.sheet.specs.Decode.{const_of};

use blocks::word;
use reader::skip_records;
use sheet_reader::skip_part;

#[tactic(auto, using(crate::proofs::ConstSteps::consts))]
pub fn skip_const(sheet: &[u8], n: usize, at: usize) -> Option<usize>
    ensures { result ≡ step_of (const_of (first_words sheet.now n) at) }
{
    if n <= at {
        return None;
    }
    let left = n - at;
    match word(sheet, at) {
        0 if 2 < left => Some(at + 3),
        1 if 1 < left => Some(at + 2),
        2 => skip_records(sheet, n, at + 1, 1),
        3 => skip_records(sheet, n, at + 1, 2),
        _ => None,
    }
}

pub fn skip_consts(sheet: &[u8], n: usize, at: usize) -> Option<usize>
    ensures { result ≡ step_of (list_of const_of (first_words sheet.now n) at) }
{
    skip_part(sheet, n, at, |p| skip_const(sheet, n, p))
}
