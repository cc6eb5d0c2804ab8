// A sorted index of the host list in lent words: pairs are tested, and imports are found by binary search.
#![tactic(auto)]

ghost use Rattle.std.specs.Prelude.{◌≡◌, ◌≤◌, ◌<◌, length};
ghost use Rattle.blocks.specs.Frame.{first_words};
ghost use Rattle.reader.specs.Reader.{list_of};
ghost use Rattle.reader.specs.Text.{string};
ghost use Rattle.reader.specs.Value.{Whole};
ghost use Rattle.host.specs.Host.{host_fn};
ghost use Rattle.host.specs.Listed.{listed_of, found, hosts_in, text_at};
ghost use Rattle.host.specs.Seek.{listed_in};
ghost use Rattle.open_hosts.specs.Sorted.{Roomy, SortedHosts, SortedIf};

mod compare;
mod order;
mod pairs;
mod search;

use crate::compare::Hosts;
use crate::order::{entry_count, sort_entries};
use host::entries::skip_entries;

// Of more entries two are the pair of empty strings.
const MOST_ENTRIES: usize = 130047;

// The entries fill the n words, and no pair stands twice.
fn check_entries(hosts: &[u8], n: usize, index: &mut [u32]) -> Option<usize>
    requires n_bound { n ≤ 520192 }
    requires roomy { Roomy hosts.now (length index.old) }
    ensures value { result ≡ listed_in n (first_words hosts.now n) }
    ensures sorted_if { SortedIf result hosts.now index.new }
{
    let end = skip_entries(hosts, n, 2)?;
    if end != n {
        return None;
    }
    if MOST_ENTRIES < entry_count(hosts, n) {
        return None;
    }
    sort_entries(hosts, n, index);
    let list = Hosts {
        bytes: hosts,
        n,
        index,
    };
    list.is_distinct().then_some(n)
}

// Kind 23 where it is broken, else the index of the list.
pub fn check_hosts(hosts: &[u8], index: &mut [u32]) -> Option<usize>
    requires { Roomy hosts.now (length index.old) }
    ensures value { result ≡ listed_of hosts.now }
    ensures sorted_if { SortedIf result hosts.now index.new }
{
    let n = blocks::read_frame(hosts, 1)?;
    check_entries(hosts, n, index)
}

// The function with the module and name that stand in the sheet, of `words` words; the host list has n.
pub fn lookup(
    hosts: &[u8],
    n: usize,
    index: &[u32],
    sheet: &[u8],
    words: usize,
    module: usize,
    name: usize,
) -> Option<(usize, bool)>
    requires whole { Whole (list_of host_fn (first_words hosts.now n) 2) }
    requires sorted_hosts { SortedHosts (first_words hosts.now n) index.now }
    requires whole_2 { Whole (string (first_words sheet.now words) «module») }
    requires whole_3 { Whole (string (first_words sheet.now words) name) }
    ensures { result ≡ found (hosts_in (first_words hosts.now n)) (text_at (first_words sheet.now words) «module»)
        (text_at (first_words sheet.now words) name) }
{
    let list = Hosts {
        bytes: hosts,
        n,
        index,
    };
    let place = list.find_place(sheet, words, module, name);
    if entry_count(hosts, n) <= place {
        return None;
    }
    Some((place, list.is_scheduler(place)))
}
