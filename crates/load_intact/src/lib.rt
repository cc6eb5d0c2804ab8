// An intact sheet under an intact host list: the rules, then the linked table.
#![tactic(auto)]

ghost use Rattle.std.specs.Prelude.{◌≡◌, ◌+◌, ◌*◌, ◌≤◌, length};
ghost use Rattle.blocks.specs.Blocks.{words};
ghost use Rattle.blocks.specs.Frame.{first_words};
ghost use Rattle.host.specs.Listed.{hosts_in};
ghost use Rattle.open_hosts.specs.Sorted.{SortedHosts};
ghost use Rattle.open_layout.specs.LayoutLaws.{Located};
ghost use Rattle.open_layout.specs.Opened.{module_in};
ghost use Rattle.open_sheet.specs.Ready.{Ready, sheet_words, module_of};
ghost use Rattle.rules.specs.OpenedLaws.{Zeroed};
ghost use Rattle.load_intact.specs.Linking.{Fits, answered, table_left};

use error::LoadError;
use open_layout::Layout;
use open_sheet::{Opened, open_sheet};
use region::fill;
use rules::check_module;
use table_all::write_table;

// The rules, and where they hold the table.
fn link_module(
    sheet: &[u8],
    hosts: &[u8],
    n: usize,
    index: &[u32],
    o: Opened,
    table: &mut [u32],
    work: &mut [u32],
) -> Result<u32, LoadError>
    requires ready { Ready (sheet_words sheet.now o) work.old o }
    requires words_bound { o.layout.words ≤ 520192 }
    requires sorted_hosts { SortedHosts (first_words hosts.now n) index.now }
    requires fits { Fits (hosts_in (first_words hosts.now n)) (module_of sheet.now o) table.old }
    ensures value { result ≡ answered (hosts_in (first_words hosts.now n)) (module_of sheet.now o) }
    ensures table_after { table.new ≡ table_left (hosts_in (first_words hosts.now n)) (module_of sheet.now o) table.old }
{
    check_module(sheet, work, o, hosts, n, index)?;
    let end = write_table(sheet, work, o, table);
    Ok(end as u32)
}

// Work is zero after the rules.
pub fn load_intact(
    sheet: &[u8],
    l: Layout,
    hosts: &[u8],
    n: usize,
    index: &[u32],
    table: &mut [u32],
    work: &mut [u32],
) -> Result<u32, LoadError>
    requires located { Located (first_words sheet.now l.words) (module_in (first_words sheet.now l.words)) l }
    requires words_bound { l.words ≤ 520192 }
    requires words_in_bounds { 64 + 8 * l.words ≤ length work.old }
    requires sorted_hosts { SortedHosts (first_words hosts.now n) index.now }
    requires fits { Fits (hosts_in (first_words hosts.now n)) (module_in (first_words sheet.now l.words)) table.old }
    ensures value { result ≡ answered (hosts_in (first_words hosts.now n)) (module_in (first_words sheet.now l.words)) }
    ensures table_after { table.new ≡ table_left (hosts_in (first_words hosts.now n)) (module_in (first_words sheet.now l.words)) table.old }
    ensures zeroed { Zeroed work.old work.new }
{
    let o = open_sheet(sheet, l, work);
    let a = link_module(sheet, hosts, n, index, o, table, work);
    fill(work, 0, work.len(), 0);
    a
}
