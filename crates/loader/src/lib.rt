// Loading and linking: the call.
#![tactic(auto)]

ghost use Rattle.std.specs.Prelude.{◌≡◌, length};
ghost use Rattle.open_hosts.specs.Sorted.{Roomy};
ghost use Rattle.load.specs.Load.{load, table_after, work_after};

use blocks::word;
use error::LoadError;
use load_intact::load_intact;
use open_inputs::{check_inputs, refuse};

// As load, with N words for the index of the host list: a short list has a small one, so that little is zeroed for it.
fn load_with<const N: usize>(
    sheet: &[u8],
    hosts: &[u8],
    table: &mut [u32],
    work: &mut [u32],
    index: &mut [u32; N],
) -> Result<u32, LoadError>
    requires { Roomy hosts.now N }
    ensures value { result ≡ load sheet.now hosts.now (length table.old) (length work.old) }
    ensures table_after { table.new ≡ table_after sheet.now hosts.now table.old work.old }
    ensures work_after { work.new ≡ work_after sheet.now hosts.now table.old work.old }
{
    match check_inputs(sheet, hosts, table.len(), work.len(), index) {
        Ok((l, n)) => load_intact(sheet, l, hosts, n, index, table, work),
        Err(kind) => Err(refuse(kind)),
    }
}

// It could call itself, so it is not inlined: its large frame is on the stack only where it runs, and a short list takes little.
fn load_most(
    sheet: &[u8],
    hosts: &[u8],
    table: &mut [u32],
    work: &mut [u32],
    left: usize,
) -> Result<u32, LoadError>
    ensures value { result ≡ load sheet.now hosts.now (length table.old) (length work.old) }
    ensures table_after { table.new ≡ table_after sheet.now hosts.now table.old work.old }
    ensures work_after { work.new ≡ work_after sheet.now hosts.now table.old work.old }
{
    if 0 < left {
        return load_most(sheet, hosts, table, work, left - 1);
    }
    let mut index = [0u32; 390142];
    load_with(sheet, hosts, table, work, &mut index)
}

// The verdict on any sheet and host list; where it is accepted, the linked table.
pub fn load(
    sheet: &[u8],
    hosts: &[u8],
    table: &mut [u32],
    work: &mut [u32],
) -> Result<u32, LoadError>
    ensures value { result ≡ load sheet.now hosts.now (length table.old) (length work.old) }
    ensures table_after { table.new ≡ table_after sheet.now hosts.now table.old work.old }
    ensures work_after { work.new ≡ work_after sheet.now hosts.now table.old work.old }
{
    if word(hosts, 2) <= 512 {
        let mut index = [0u32; 1537];
        return load_with(sheet, hosts, table, work, &mut index);
    }
    // No slice is so long that this is not 0.
    load_most(sheet, hosts, table, work, hosts.len() / 9223372036854775808)
}
