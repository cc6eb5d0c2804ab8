// The struct types of a sheet in bytes, counted from its declarations.
#![tactic(auto)]

ghost use Rattle.std.specs.Prelude.{◌≡◌};
ghost use Rattle.blocks.specs.Frame.{first_words};
ghost use Rattle.families.specs.Counted.{structs_in};
ghost use Rattle.family_sheets.specs.Declared.{structs_at};

use blocks::word;
use open_layout::check_sheet;
use open_types::skip_type;
use sheet_reader::next_word;

// One declaration after the other, of the list that stands at a position; no span is read.
#[tactic(auto, using(crate::proofs::CountSteps::counting))]
fn count_listed(sheet: &[u8], n: usize, at: usize) -> Option<u32>
    ensures { result ≡ structs_at (first_words sheet.now n) at }
{
    let (types, mut p) = next_word(sheet, n, at)?;
    let mut count = 0u32;
    for _ in 0..types {
        let kind = word(sheet, p);
        p = skip_type(sheet, n, p)?;
        if kind == 1 {
            count += 1;
        }
    }
    Some(count)
}

// How many struct types the sheet declares, for any bytes.
pub fn count_structs(sheet: &[u8]) -> Option<u32>
    ensures { result ≡ structs_in sheet.now }
{
    let l = check_sheet(sheet)?;
    count_listed(sheet, l.words, l.types)
}
