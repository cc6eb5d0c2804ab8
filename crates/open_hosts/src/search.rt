// A pair among the entries, by binary search in their order.
ghost use Rattle.std.specs.Prelude.{◌≡◌, ◌<◌, eqb};
ghost use Rattle.blocks.specs.Frame.{first_words};
ghost use Rattle.reader.specs.Text.{string};
ghost use Rattle.reader.specs.Value.{Whole};
ghost use Rattle.host.specs.Host.{lookup};
ghost use Rattle.host.specs.Listed.{hosts_in, text_at};
ghost use Rattle.open_hosts.specs.Sorted.{entry_count, Edged, SortedHosts};
ghost use Rattle.open_hosts.specs.EdgedLaws.{entry_of};

use crate::compare::Hosts;
use crate::order::entry_count;
use blocks::word;
use host::entries::kind_of;
use region::at;
use std::cmp::Ordering;

impl<'a> Hosts<'a> {
    // The number of the entry with the module and the name that stand in the sheet; where there is none, the number of entries.
    // By hand: the library's search asks that its closure take any word, and `compare_entry` takes an entry's number.
    pub fn find_place(self, sheet: &[u8], words: usize, module: usize, name: usize) -> usize
        requires sorted_hosts { SortedHosts (first_words self.bytes.now self.n) self.index.now }
        requires whole { Whole (string (first_words sheet.now words) «module») }
        requires whole_2 { Whole (string (first_words sheet.now words) name) }
        ensures { result ≡ lookup (hosts_in (first_words self.entry.bytes.now self.entry.n))
            (text_at (first_words sheet.now words) «module») (text_at (first_words sheet.now words) name) }
    {
        let count = entry_count(self.bytes, self.n);
        let mut lo = 0;
        let mut hi = count;
        while lo < hi {
            let mid = lo + (hi - lo) / 2;
            let entry = at(self.index, count + 1 + mid);
            match self.compare_entry(entry, sheet, words, module, name) {
                Ordering::Less => hi = mid,
                Ordering::Equal => return entry,
                Ordering::Greater => lo = mid + 1,
            }
        }
        count
    }

    // Is the entry's kind that of a scheduler?
    pub fn is_scheduler(self, entry: usize) -> bool
        requires edged { Edged (first_words self.bytes.now self.n) self.index.now }
        requires bound { entry < entry_count (first_words self.bytes.now self.n) }
        ensures { result ≡ eqb (entry_of (first_words self.entry.bytes.now self.entry.n) entry).kind 1 }
    {
        word(
            self.bytes,
            kind_of(self.bytes, self.n, at(self.index, entry)),
        ) == 1
    }
}
