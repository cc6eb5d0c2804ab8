// The tests before any rule, in their order: 1, 23, 24.
#![tactic(auto)]

ghost use Rattle.std.specs.Prelude.{◌≡◌, length};
ghost use Rattle.error.specs.Answer.{in_module};
ghost use Rattle.open_layout.specs.Layout.{layout};
ghost use Rattle.host.specs.Listed.{listed_of};
ghost use Rattle.open_hosts.specs.Sorted.{Roomy};
ghost use Rattle.open_inputs.specs.Inputs.{inputs_of};
ghost use Rattle.open_inputs.specs.Indexed.{IndexedIf};

use error::{LoadError, LoadErrorKind};
use load::is_long_enough;
use open_hosts::check_hosts;
use open_layout::{Layout, check_sheet};

// Sheet and host list as bytes, table and work by their lengths; the index of an intact host list is written.
pub fn check_inputs(
    sheet: &[u8],
    hosts: &[u8],
    table: usize,
    work: usize,
    index: &mut [u32],
) -> Result<(Layout, usize), LoadErrorKind>
    requires { Roomy hosts.now (length index.old) }
    ensures value { result ≡ inputs_of (layout sheet.now) (listed_of hosts.now) table work }
    ensures indexed_if { IndexedIf result hosts.now index.new }
{
    let l = check_sheet(sheet).ok_or(LoadErrorKind::Decode)?;
    let n = check_hosts(hosts, index).ok_or(LoadErrorKind::BadHostList)?;
    if !is_long_enough(l.words, table, work) {
        return Err(LoadErrorKind::ShortSlice);
    }
    Ok((l, n))
}

// Refused before any rule: no place.
pub fn refuse(kind: LoadErrorKind) -> LoadError
    ensures { result ≡ in_module kind }
{
    LoadError {
        kind,
        func: 0,
        pc: 0,
    }
}
