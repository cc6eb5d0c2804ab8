// The rules in their order.
#![tactic(auto)]

ghost use Rattle.std.specs.Prelude.{◌≡◌, [], ◌*◌, ◌≤◌};
ghost use Rattle.blocks.specs.Frame.{first_words};
ghost use Rattle.error.specs.Verdict.{judged_of};
ghost use Rattle.host.specs.Listed.{hosts_in};
ghost use Rattle.open_hosts.specs.Sorted.{SortedHosts};
ghost use Rattle.region.specs.Region.{Off, Frame};
ghost use Rattle.open_sheet.specs.Ready.{Ready, Captured, Kept, Above, sheet_words, module_of};
ghost use Rattle.types.specs.Types.{types_faults};
ghost use Rattle.sheet.specs.Editions.{most_of};
ghost use Rattle.parents.specs.Parents.{parents_faults};
ghost use Rattle.rule5_imports.specs.Links.{LinkedIf};
ghost use Rattle.rule7_arguments.specs.Arguments.{Tallied};
ghost use Rattle.load.specs.Load.{faults_of};
ghost use Rattle.rules.specs.Groups.{front_faults, record_faults, body_faults, end_faults, LinksKept};

use error::LoadError;
use open_sheet::Opened;
use rule_bodies::index_captures;
use rule2_types::check_types;
use rule3_parents::check_parents;
use rule4_consts::check_consts;
use rule5_globals::check_globals;
use rule5_imports::check_imports;
use rule6_funcs::check_funcs;
use rule7_arguments::index_fewest;
use rule7_code::check_codes;
use rule8_exports::check_exports;
use rule8_hooks::check_hooks;
use rule8_start::check_start;
use sheet::most_on_chain;

// Parents, with at most as many on a chain as the edition allows.
fn check_chains(sheet: &[u8], work: &mut [u32], o: Opened) -> Result<(), LoadError>
    requires { Ready (sheet_words sheet.now o) work.old o }
    ensures value { result ≡ judged_of (parents_faults (most_of (module_of sheet.now o)) (module_of sheet.now o)) }
    ensures kept { Kept o work.old work.new }
{
    check_parents(sheet, work, o, most_on_chain(o.edition))
}

// Types, parents, constants at most 64 deep; the first fault.
fn check_front(sheet: &[u8], work: &mut [u32], o: Opened) -> Result<(), LoadError>
    requires { Ready (sheet_words sheet.now o) work.old o }
    ensures value { result ≡ judged_of (front_faults (module_of sheet.now o)) }
    ensures kept { Kept o work.old work.new }
{
    check_types(sheet, work, o)?;
    check_chains(sheet, work, o)?;
    check_consts(sheet, work, o, 64)
}

// Imports with their places in the host list, globals, every function's record.
fn check_records(
    sheet: &[u8],
    work: &mut [u32],
    o: Opened,
    hosts: &[u8],
    n: usize,
    index: &[u32],
) -> Result<(), LoadError>
    requires ready { Ready (sheet_words sheet.now o) work.old o }
    requires o_value { types_faults (module_of sheet.now o) ≡ [] }
    requires sorted_hosts { SortedHosts (first_words hosts.now n) index.now }
    ensures value { result ≡ judged_of (record_faults (hosts_in (first_words hosts.now n)) (module_of sheet.now o)) }
    ensures kept { Kept o work.old work.new }
    ensures linked_if { LinkedIf result (hosts_in (first_words hosts.now n)) (sheet_words sheet.now o) work.new o }
{
    check_imports(sheet, work, o, hosts, n, index)?;
    check_globals(sheet, o)?;
    check_funcs(sheet, work, o)
}

// Every hook, start, exports.
fn check_ends(sheet: &[u8], work: &mut [u32], o: Opened) -> Result<(), LoadError>
    requires ready { Ready (sheet_words sheet.now o) work.old o }
    requires captured { Captured (sheet_words sheet.now o) work.old o }
    ensures value { result ≡ judged_of (end_faults (module_of sheet.now o)) }
    ensures above { Above o work.old work.new }
{
    check_hooks(sheet, work, o)?;
    check_start(sheet, work, o)?;
    check_exports(sheet, work, o)
}

// What code is judged by: the captures of functions and the fewest arguments of imports, each counted once.
fn tally(sheet: &[u8], work: &mut [u32], o: Opened)
    requires { Ready (sheet_words sheet.now o) work.old o }
    ensures frame { Frame (Off (4 * o.layout.words) (5 * o.layout.words)) work.old work.new }
    ensures tallied { Tallied (sheet_words sheet.now o) work.new o }
{
    index_captures(sheet, work, o);
    index_fewest(sheet, work, o);
}

// Every function's code, then what comes after it.
fn check_bodies(sheet: &[u8], work: &mut [u32], o: Opened) -> Result<(), LoadError>
    requires ready { Ready (sheet_words sheet.now o) work.old o }
    requires words_bound { o.layout.words ≤ 520192 }
    ensures value { result ≡ judged_of (body_faults (module_of sheet.now o)) }
    ensures links_kept { LinksKept o work.old work.new }
{
    tally(sheet, work, o);
    check_codes(sheet, work, o)?;
    check_ends(sheet, work, o)
}

// All rules; where they hold, work has the place of each import in the host list.
pub fn check_module(
    sheet: &[u8],
    work: &mut [u32],
    o: Opened,
    hosts: &[u8],
    n: usize,
    index: &[u32],
) -> Result<(), LoadError>
    requires ready { Ready (sheet_words sheet.now o) work.old o }
    requires words_bound { o.layout.words ≤ 520192 }
    requires sorted_hosts { SortedHosts (first_words hosts.now n) index.now }
    ensures value { result ≡ judged_of (faults_of (hosts_in (first_words hosts.now n)) (module_of sheet.now o)) }
    ensures ready_2 { Ready (sheet_words sheet.now o) work.new o }
    ensures linked_if { LinkedIf result (hosts_in (first_words hosts.now n)) (sheet_words sheet.now o) work.new o }
{
    check_front(sheet, work, o)?;
    check_records(sheet, work, o, hosts, n, index)?;
    check_bodies(sheet, work, o)
}
