// A sheet and the position of its next word, in one struct.
#![tactic(auto)]

ghost use Rattle.std.specs.Prelude.{◌≡◌, ℕ, Option, ◌+◌, ◌<◌, ◌^◌, get_or};
ghost use Rattle.blocks.specs.Blocks.{words};
ghost use Rattle.blocks.specs.Frame.{first_words};
ghost use Rattle.reader.specs.Reader.{word};
ghost use Rattle.reader.specs.Step.{list_past};
ghost use Rattle.sheet_reader.specs.Taken.{taken_of};

// The lent bytes and where the next word stands.
#[derive(Clone, Copy)]
pub struct Reader<'a> {
    pub sheet: &'a [u8],
    pub at: usize,
}

impl<'a> Reader<'a> {
    pub fn new(sheet: &'a [u8], at: usize) -> Reader<'a>
        ensures { (result.sheet ≡ sheet.entry) × (result.at ≡ at) }
    {
        Reader { sheet, at }
    }

    // The next word.
    pub fn word(self) -> u32
        ensures { result ≡ get_or (words self.entry.sheet.now) self.entry.at 0 }
    {
        blocks::word(self.sheet, self.at)
    }

    // Past so many words.
    pub fn skip(self, count: usize) -> Reader<'a>
        requires { self.at + count < 2 ^ 64 }
        ensures { (result.sheet ≡ self.entry.sheet) × (result.at ≡ self.entry.at + count) }
    {
        Reader {
            sheet: self.sheet,
            at: self.at + count,
        }
    }

    // Where the next word stands.
    pub fn position(self) -> usize
        ensures { result ≡ self.entry.at }
    {
        self.at
    }
}

// The next of n words and the position after it.
pub fn next_word(sheet: &[u8], n: usize, at: usize) -> Option<(u32, usize)>
    ensures { result ≡ taken_of (word (first_words sheet.now n) at) }
{
    if n <= at {
        return None;
    }
    let r = Reader::new(sheet, at);
    Some((r.word(), r.skip(1).position()))
}

// A part: its count, then as many members, each passed by `skip`.
pub fn skip_part<F: Fn(usize) -> Option<usize>>(
    sheet: &[u8],
    n: usize,
    at: usize,
    skip: F,
) -> Option<usize>
    ghost past: { ℕ → Option ℕ }
    requires callable { F.IsAlwaysCallable skip }
    requires passes { (p : ℕ) (r : Option ℕ) → F.post skip p r → r ≡ past p }
    ensures { result ≡ list_past past (first_words sheet.now n) at }
{
    let (count, from) = next_word(sheet, n, at)?;
    let mut p = from;
    for _ in 0..count {
        p = skip(p)?;
    }
    Some(p)
}
