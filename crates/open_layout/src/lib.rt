// The layout of a sheet: broken, or where its parts stand.
#![tactic(auto)]

ghost use Rattle.std.specs.Prelude.{◌≡◌};
ghost use Rattle.open_layout.specs.Layout.{layout};

pub mod parts;

use crate::parts::check_words;

// Where the nine parts stand: lists at their counts, start at its word. `words` is N.
#[derive(Clone, Copy)]
pub struct Layout {
    pub words: usize,
    pub strings: usize,
    pub types: usize,
    pub consts: usize,
    pub imports: usize,
    pub globals: usize,
    pub funcs: usize,
    pub hooks: usize,
    pub start: usize,
    pub exports: usize,
}

// Kind 1 where it is broken. One pass over the bytes for the blocks, one over the words for the parts.
#[tactic(auto, using(crate::proofs::LayoutSteps::frames))]
pub fn check_sheet(sheet: &[u8]) -> Option<Layout>
    ensures { result ≡ layout sheet.now }
{
    let n = blocks::read_frame(sheet, 2)?;
    check_words(sheet, n)
}
