// Pairs that stand twice: in the order of the entries they are neighbours.
ghost use Rattle.std.specs.Prelude.{◌≡◌, ◌<◌};
ghost use Rattle.blocks.specs.Frame.{first_words};
ghost use Rattle.host.specs.Host.{pairs_distinct};
ghost use Rattle.host.specs.Listed.{hosts_in};
ghost use Rattle.open_hosts.specs.Sorted.{entry_count, Edged, Arranged};
ghost use Rattle.open_hosts.specs.OrderLaws.{same_pair};

use crate::compare::Hosts;
use crate::order::entry_count;
use host::strings::end_of;
use region::at;

impl<'a> Hosts<'a> {
    // Do two entries, given by their numbers, have one module and name?
    fn same_pair(self, x: usize, y: usize) -> bool
        requires edged { Edged (first_words self.bytes.now self.n) self.index.now }
        requires x_bound { (x < entry_count (first_words self.bytes.now self.n)) × (y < entry_count (first_words self.bytes.now self.n)) }
        ensures { result ≡ same_pair (first_words self.entry.bytes.now self.entry.n) x y }
    {
        let p = at(self.index, x);
        let name = end_of(self.bytes, self.n, p);
        self.compare_entry(y, self.bytes, self.n, p, name).is_eq()
    }

    // No pair stands twice: no two neighbours in the order have one pair.
    pub fn is_distinct(self) -> bool
        requires { Arranged (first_words self.bytes.now self.n) self.index.now }
        ensures { result ≡ pairs_distinct (hosts_in (first_words self.entry.bytes.now self.entry.n)) }
    {
        let count = entry_count(self.bytes, self.n);
        for i in 1..count {
            let x = at(self.index, count + i);
            let y = at(self.index, count + 1 + i);
            if self.same_pair(x, y) {
                return false;
            }
        }
        true
    }
}
