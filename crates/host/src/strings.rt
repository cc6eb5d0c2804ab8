// Strings that were read before: no UTF-8 is looked at again. n says in which words they stand.
ghost use Rattle.std.specs.Prelude.{◌≡◌, Some};
ghost use Rattle.blocks.specs.Frame.{first_words};
ghost use Rattle.reader.specs.Text.{string};
ghost use Rattle.reader.specs.Step.{step_of};
ghost use Rattle.reader.specs.Value.{Whole};

use blocks::word;

// Where a string ends: its length says it.
pub fn end_of(bytes: &[u8], n: usize, at: usize) -> usize
    requires { Whole (string (first_words bytes.now n) at) }
    ensures { Some result ≡ step_of (string (first_words bytes.now n) at) }
{
    at + 1 + (word(bytes, at) as usize + 3) / 4
}
