// Entries of the host list: module, name, kind.
ghost use Rattle.std.specs.Prelude.{◌≡◌, Some, ◌+◌};
ghost use Rattle.blocks.specs.Frame.{first_words};
ghost use Rattle.reader.specs.Reader.{code_below, list_of};
ghost use Rattle.reader.specs.Step.{step_of};
ghost use Rattle.reader.specs.Value.{Whole};
ghost use Rattle.host.specs.Host.{host_fn};

use crate::strings::end_of;
use blocks::word;
use reader::{skip_list, skip_string};

// 0 user or 1 scheduler.
#[tactic(auto, using(crate::proofs::EntrySteps::kinds))]
fn skip_kind(hosts: &[u8], n: usize, at: usize) -> Option<usize>
    ensures { result ≡ step_of (code_below 2 (first_words hosts.now n) at) }
{
    if n <= at {
        return None;
    }
    match word(hosts, at) {
        0..=1 => Some(at + 1),
        _ => None,
    }
}

// Module, name, kind.
#[tactic(auto, using(crate::proofs::EntrySteps::entering))]
fn skip_entry(hosts: &[u8], n: usize, at: usize) -> Option<usize>
    ensures { result ≡ step_of (host_fn (first_words hosts.now n) at) }
{
    let name = skip_string(hosts, n, at)?;
    let kind = skip_string(hosts, n, name)?;
    skip_kind(hosts, n, kind)
}

pub fn skip_entries(hosts: &[u8], n: usize, at: usize) -> Option<usize>
    ensures { result ≡ step_of (list_of host_fn (first_words hosts.now n) at) }
{
    skip_list(hosts, n, at, |p| skip_entry(hosts, n, p))
}

// The word of an entry's kind, its last.
pub fn kind_of(hosts: &[u8], n: usize, at: usize) -> usize
    requires { Whole (host_fn (first_words hosts.now n) at) }
    ensures { Some (result + 1) ≡ step_of (host_fn (first_words hosts.now n) at) }
{
    end_of(hosts, n, end_of(hosts, n, at))
}
