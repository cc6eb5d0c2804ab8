// Rule 5 in code: imports, each linked to its place in the host list.
#![tactic(auto)]

ghost use Rattle.std.specs.Prelude.{◌≡◌, ◌<◌, length};
ghost use Rattle.blocks.specs.Frame.{first_words};
ghost use Rattle.error.specs.Verdict.{verdict_of, judged_of};
ghost use Rattle.reader.specs.Reader.{list_of};
ghost use Rattle.reader.specs.Value.{Whole, value_of};
ghost use Rattle.sheet.specs.Decode.{param_list};
ghost use Rattle.host.specs.Host.{host_fn};
ghost use Rattle.host.specs.Listed.{found_at, hosts_in};
ghost use Rattle.open_hosts.specs.Sorted.{SortedHosts};
ghost use Rattle.imports.specs.Imports.{host_entry, import_faults, imports_faults};
ghost use Rattle.code.specs.Callee.{import_at};
ghost use Rattle.open_sheet.specs.Ready.{Ready, Kept, sheet_words, module_of};
ghost use Rattle.rule_signatures.specs.Signature.{HasSig};
ghost use Rattle.rule5_imports.specs.Links.{linked_of, names_faults, head_faults, HeadHolds, takes_dyn, scheduler_takes, tail_faults, host_faults, unresolved, broken_imports, EntriesIf, LinkedIf};

use blocks::word;
use error::{LoadError, LoadErrorKind, StrId, TypeId, in_module, string_in};
use open_hosts::lookup;
use open_sheet::{Opened, import_at, string_at};
use region::least;
use rule_lists::check_params;
use rule_signatures::{check_signature, is_one_dyn, params_at, results_at};

// The words of import i: module, name, signature, and then its parameter list.
fn import_module(sheet: &[u8], work: &[u32], o: Opened, i: u32) -> StrId
    requires ready { Ready (sheet_words sheet.now o) work.now o }
    requires i_lt_imports { i < o.counts.imports }
    ensures { result.0 ≡ (import_at (module_of sheet.now o) i).module_name }
{
    StrId(word(sheet, import_at(work, o, i)))
}

fn import_name(sheet: &[u8], work: &[u32], o: Opened, i: u32) -> StrId
    requires ready { Ready (sheet_words sheet.now o) work.now o }
    requires i_lt_imports { i < o.counts.imports }
    ensures { result.0 ≡ (import_at (module_of sheet.now o) i).name }
{
    StrId(word(sheet, import_at(work, o, i) + 1))
}

pub fn import_sig(sheet: &[u8], work: &[u32], o: Opened, i: u32) -> TypeId
    requires ready { Ready (sheet_words sheet.now o) work.now o }
    requires i_lt_imports { i < o.counts.imports }
    ensures { result.0 ≡ (import_at (module_of sheet.now o) i).sig }
{
    TypeId(word(sheet, import_at(work, o, i) + 2))
}

pub fn import_params(sheet: &[u8], work: &[u32], o: Opened, i: u32) -> usize
    requires ready { Ready (sheet_words sheet.now o) work.now o }
    requires i_lt_imports { i < o.counts.imports }
    ensures whole { Whole (param_list (sheet_words sheet.now o) result) }
    ensures result_value { value_of None (param_list (sheet_words sheet.now o) result) ≡ (import_at (module_of sheet.now o) i).params }
{
    import_at(work, o, i) + 3
}

// The larger of the two names is a string.
fn check_names(sheet: &[u8], work: &[u32], o: Opened, i: u32) -> Result<(), LoadErrorKind>
    requires ready { Ready (sheet_words sheet.now o) work.now o }
    requires i_lt_imports { i < o.counts.imports }
    ensures { result ≡ verdict_of (names_faults (module_of sheet.now o) (import_at (module_of sheet.now o) i)) }
{
    let a = import_module(sheet, work, o, i);
    let b = import_name(sheet, work, o, i);
    if a.0 < b.0 {
        return string_in(b, o.counts.strings);
    }
    string_in(a, o.counts.strings)
}

// The signature, then the names.
fn check_head(sheet: &[u8], work: &[u32], o: Opened, i: u32) -> Result<(), LoadErrorKind>
    requires ready { Ready (sheet_words sheet.now o) work.now o }
    requires i_lt_imports { i < o.counts.imports }
    ensures { result ≡ verdict_of (head_faults (module_of sheet.now o) (import_at (module_of sheet.now o) i)) }
{
    let t = import_sig(sheet, work, o, i);
    check_signature(sheet, work, o, t)?;
    check_names(sheet, work, o, i)
}

// The host function with the module and name of import i.
fn find_host(
    sheet: &[u8],
    work: &[u32],
    o: Opened,
    hosts: &[u8],
    n: usize,
    index: &[u32],
    i: u32,
) -> Option<(usize, bool)>
    requires ready { Ready (sheet_words sheet.now o) work.now o }
    requires i_lt_imports { i < o.counts.imports }
    requires head_holds { HeadHolds (module_of sheet.now o) (import_at (module_of sheet.now o) i) }
    requires sorted_hosts { SortedHosts (first_words hosts.now n) index.now }
    ensures { result ≡ found_at (hosts_in (first_words hosts.now n)) (host_entry (module_of sheet.now o) (hosts_in (first_words hosts.now n)) (import_at (module_of sheet.now o) i)) }
{
    let a = import_module(sheet, work, o, i);
    let b = import_name(sheet, work, o, i);
    let p = string_at(work, o, a);
    let q = string_at(work, o, b);
    lookup(hosts, n, index, sheet, o.layout.words, p, q)
}

fn missing(sheet: &[u8], work: &[u32], o: Opened, i: u32) -> LoadErrorKind
    requires ready { Ready (sheet_words sheet.now o) work.now o }
    requires i_lt_imports { i < o.counts.imports }
    ensures { result ≡ unresolved (import_at (module_of sheet.now o) i) }
{
    let a = import_module(sheet, work, o, i);
    let b = import_name(sheet, work, o, i);
    LoadErrorKind::UnresolvedImport(a, b)
}

// Signature t takes one dyn to dyn.
fn takes_dyn(sheet: &[u8], work: &[u32], o: Opened, t: TypeId) -> bool
    requires ready { Ready (sheet_words sheet.now o) work.now o }
    requires has_sig { HasSig (module_of sheet.now o) t.0 }
    ensures { result ≡ takes_dyn (module_of sheet.now o) t.0 }
{
    let p = params_at(sheet, work, o, t);
    let q = results_at(sheet, work, o, t);
    is_one_dyn(sheet, o.layout.words, p) && is_one_dyn(sheet, o.layout.words, q)
}

// Any signature does for what is no scheduler.
fn scheduler_takes(sheet: &[u8], work: &[u32], o: Opened, t: TypeId, scheduler: bool) -> bool
    requires ready { Ready (sheet_words sheet.now o) work.now o }
    requires has_sig { HasSig (module_of sheet.now o) t.0 }
    ensures { result ≡ scheduler_takes (module_of sheet.now o) scheduler t.0 }
{
    !scheduler || takes_dyn(sheet, work, o, t)
}

// The scheduler's signature, then the parameter list.
fn check_tail(
    sheet: &[u8],
    work: &mut [u32],
    o: Opened,
    i: u32,
    scheduler: bool,
) -> Result<(), LoadErrorKind>
    requires ready { Ready (sheet_words sheet.now o) work.old o }
    requires i_lt_imports { i < o.counts.imports }
    requires head_holds { HeadHolds (module_of sheet.now o) (import_at (module_of sheet.now o) i) }
    ensures value { result ≡ verdict_of (tail_faults (module_of sheet.now o) scheduler (import_at (module_of sheet.now o) i)) }
    ensures work_unchanged { work.new ≡ work.old }
{
    let t = import_sig(sheet, work, o, i);
    if !scheduler_takes(sheet, work, o, t, scheduler) {
        return Err(LoadErrorKind::BadSignature);
    }
    let at = import_params(sheet, work, o, i);
    let p = params_at(sheet, work, o, t);
    check_params(sheet, work, o, at, p)
}

// A place in the host list is below its count, and so a word.
fn entry_word(hosts: &[u8], n: usize, k: usize) -> u32
    requires whole { Whole (list_of host_fn (first_words hosts.now n) 2) }
    requires k_in_bounds { k < length (hosts_in (first_words hosts.now n)) }
    ensures { result ≡ k }
{
    let count = word(hosts, 2) as usize;
    least(k, count) as u32
}

// Import i names the host function at place k.
fn link_found(
    sheet: &[u8],
    work: &mut [u32],
    o: Opened,
    i: u32,
    k: u32,
    scheduler: bool,
) -> Result<u32, LoadErrorKind>
    requires ready { Ready (sheet_words sheet.now o) work.old o }
    requires i_lt_imports { i < o.counts.imports }
    requires head_holds { HeadHolds (module_of sheet.now o) (import_at (module_of sheet.now o) i) }
    ensures value { result ≡ linked_of (tail_faults (module_of sheet.now o) scheduler (import_at (module_of sheet.now o) i)) k }
    ensures work_unchanged { work.new ≡ work.old }
{
    check_tail(sheet, work, o, i, scheduler)?;
    Ok(k)
}

// Import i whose signature and names are there.
fn link_named(
    sheet: &[u8],
    work: &mut [u32],
    o: Opened,
    hosts: &[u8],
    n: usize,
    index: &[u32],
    i: u32,
) -> Result<u32, LoadErrorKind>
    requires ready { Ready (sheet_words sheet.now o) work.old o }
    requires i_lt_imports { i < o.counts.imports }
    requires head_holds { HeadHolds (module_of sheet.now o) (import_at (module_of sheet.now o) i) }
    requires sorted_hosts { SortedHosts (first_words hosts.now n) index.now }
    ensures value { result ≡ linked_of (host_faults (hosts_in (first_words hosts.now n)) (module_of sheet.now o) (import_at (module_of sheet.now o) i)) (host_entry (module_of sheet.now o) (hosts_in (first_words hosts.now n)) (import_at (module_of sheet.now o) i)) }
    ensures work_unchanged { work.new ≡ work.old }
{
    let Some((k, scheduler)) = find_host(sheet, work, o, hosts, n, index, i) else {
        return Err(missing(sheet, work, o, i));
    };
    let entry = entry_word(hosts, n, k);
    link_found(sheet, work, o, i, entry, scheduler)
}

// Signature, names, lookup, scheduler, parameter list.
fn link_import(
    sheet: &[u8],
    work: &mut [u32],
    o: Opened,
    hosts: &[u8],
    n: usize,
    index: &[u32],
    i: u32,
) -> Result<u32, LoadErrorKind>
    requires ready { Ready (sheet_words sheet.now o) work.old o }
    requires i_lt_imports { i < o.counts.imports }
    requires sorted_hosts { SortedHosts (first_words hosts.now n) index.now }
    ensures value { result ≡ linked_of (import_faults (hosts_in (first_words hosts.now n)) (module_of sheet.now o) (import_at (module_of sheet.now o) i)) (host_entry (module_of sheet.now o) (hosts_in (first_words hosts.now n)) (import_at (module_of sheet.now o) i)) }
    ensures work_unchanged { work.new ≡ work.old }
{
    check_head(sheet, work, o, i)?;
    link_named(sheet, work, o, hosts, n, index, i)
}

// Imports in order; the place of each is stored in the free words.
fn link_each(
    sheet: &[u8],
    work: &mut [u32],
    o: Opened,
    hosts: &[u8],
    n: usize,
    index: &[u32],
) -> Result<(), LoadErrorKind>
    requires ready { Ready (sheet_words sheet.now o) work.old o }
    requires sorted_hosts { SortedHosts (first_words hosts.now n) index.now }
    ensures value { result ≡ verdict_of (broken_imports (hosts_in (first_words hosts.now n)) (module_of sheet.now o)) }
    ensures kept { Kept o work.old work.new }
    ensures entries_if { EntriesIf result (hosts_in (first_words hosts.now n)) (sheet_words sheet.now o) work.new o }
{
    for i in 0..o.counts.imports {
        let k = link_import(sheet, work, o, hosts, n, index, i)?;
        work[5 * o.layout.words + i as usize] = k;
    }
    Ok(())
}

pub fn check_imports(
    sheet: &[u8],
    work: &mut [u32],
    o: Opened,
    hosts: &[u8],
    n: usize,
    index: &[u32],
) -> Result<(), LoadError>
    requires ready { Ready (sheet_words sheet.now o) work.old o }
    requires sorted_hosts { SortedHosts (first_words hosts.now n) index.now }
    ensures value { result ≡ judged_of (imports_faults (hosts_in (first_words hosts.now n)) (module_of sheet.now o)) }
    ensures kept { Kept o work.old work.new }
    ensures linked_if { LinkedIf result (hosts_in (first_words hosts.now n)) (sheet_words sheet.now o) work.new o }
{
    in_module(link_each(sheet, work, o, hosts, n, index))
}
