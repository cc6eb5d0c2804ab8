// The index of an intact list: where each entry stands, then the entries' numbers by content.
ghost use Rattle.std.specs.Prelude.{◌≡◌, ◌+◌, ◌*◌, ◌≤◌, length};
ghost use Rattle.blocks.specs.Frame.{first_words};
ghost use Rattle.reader.specs.Reader.{list_of};
ghost use Rattle.reader.specs.Value.{Whole};
ghost use Rattle.host.specs.Host.{host_fn};
ghost use Rattle.open_hosts.specs.Sorted.{entry_count, Edged, Arranged};

use blocks::word;
use host::entries::kind_of;
use region::{put, widen};
use sorting::contents::Items;

// How many entries the list has.
pub fn entry_count(hosts: &[u8], n: usize) -> usize
    requires { Whole (list_of host_fn (first_words hosts.now n) 2) }
    ensures { result ≡ entry_count (first_words hosts.now n) }
{
    widen(word(hosts, 2))
}

// Writes where each entry stands, and where the last one ends.
fn index_entries(hosts: &[u8], n: usize, index: &mut [u32])
    requires whole { Whole (list_of host_fn (first_words hosts.now n) 2) }
    requires n_bound { n ≤ 520192 }
    requires n_in_bounds { 3 * entry_count (first_words hosts.now n) + 1 ≤ length index.old }
    ensures { Edged (first_words hosts.now n) index.new }
{
    let count = entry_count(hosts, n);
    let mut p = 3;
    for i in 0..count {
        put(index, i, p);
        p = kind_of(hosts, n, p) + 1;
    }
    put(index, count, p);
}

// Writes the index of an intact list of n words.
pub fn sort_entries(hosts: &[u8], n: usize, index: &mut [u32])
    requires whole { Whole (list_of host_fn (first_words hosts.now n) 2) }
    requires n_bound { n ≤ 520192 }
    requires n_in_bounds { 3 * entry_count (first_words hosts.now n) + 1 ≤ length index.old }
    ensures { Arranged (first_words hosts.now n) index.new }
{
    index_entries(hosts, n, index);
    let count = entry_count(hosts, n);
    let items = Items {
        bytes: hosts,
        words: n,
        n: count,
        edges_at: 0,
    };
    let from = items.sort(index, count + 1, 2 * count + 1);
    if from == count + 1 {
        return;
    }
    index.copy_within(from..from + count, count + 1);
}
