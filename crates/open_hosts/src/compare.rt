// The order of strings and of pairs, by their words.
ghost use Rattle.std.specs.Prelude.{◌≡◌, ◌<◌};
ghost use Rattle.blocks.specs.Frame.{first_words};
ghost use Rattle.reader.specs.Text.{string};
ghost use Rattle.reader.specs.Value.{Whole};
ghost use Rattle.host.specs.Listed.{text_at};
ghost use Rattle.open_hosts.specs.Sorted.{entry_count, Edged};
ghost use Rattle.open_hosts.specs.PairOrder.{pair_order};
ghost use Rattle.open_hosts.specs.EdgedLaws.{entry_of};
ghost use Rattle.open_hosts.specs.RangeOrder.{text_order};

use host::strings::end_of;
use region::at;
use sorting::contents::compare_words;
use std::cmp::Ordering;

// The order of two strings: by length, then by words.
fn compare_strings(one: &[u8], n: usize, p: usize, other: &[u8], m: usize, q: usize) -> Ordering
    requires whole { Whole (string (first_words one.now n) p) }
    requires whole_2 { Whole (string (first_words other.now m) q) }
    ensures { result ≡ text_order (first_words one.now n) p (first_words other.now m) q }
{
    let p_end = end_of(one, n, p);
    let q_end = end_of(other, m, q);
    compare_words(one, n, p, p_end, other, m, q, q_end)
}

// The list, how many of its words count, and its index.
#[derive(Clone, Copy)]
pub struct Hosts<'a> {
    pub bytes: &'a [u8],
    pub n: usize,
    pub index: &'a [u32],
}

impl<'a> Hosts<'a> {
    // How the module and the name that stand in the sheet, of `words` words, compare with those of an entry.
    pub fn compare_entry(
        self,
        entry: usize,
        sheet: &[u8],
        words: usize,
        module: usize,
        name: usize,
    ) -> Ordering
        requires edged { Edged (first_words self.bytes.now self.n) self.index.now }
        requires bound { entry < entry_count (first_words self.bytes.now self.n) }
        requires whole { Whole (string (first_words sheet.now words) «module») }
        requires whole_2 { Whole (string (first_words sheet.now words) name) }
        ensures { result ≡ pair_order (text_at (first_words sheet.now words) «module») (text_at (first_words sheet.now words) name)
            (entry_of (first_words self.entry.bytes.now self.entry.n) entry) }
    {
        let p = at(self.index, entry);
        let by_name = || {
            let q = end_of(self.bytes, self.n, p);
            compare_strings(sheet, words, name, self.bytes, self.n, q)
        };
        compare_strings(sheet, words, module, self.bytes, self.n, p).then_with(by_name)
    }
}
