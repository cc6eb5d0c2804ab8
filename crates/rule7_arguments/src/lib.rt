// How many arguments an import takes: the most by its signature, the fewest counted once for each import.
#![tactic(auto)]

ghost use Rattle.std.specs.Prelude.{◌≡◌, ◌+◌, ◌*◌, ◌≤◌, ◌<◌, length, get_or};
ghost use Rattle.blocks.specs.Blocks.{words};
ghost use Rattle.code.specs.Callee.{import_at};
ghost use Rattle.code.specs.Code.{most_arguments, fewest_arguments};
ghost use Rattle.region.specs.Region.{Off, Frame};
ghost use Rattle.open_sheet.specs.Ready.{Ready, sheet_words, module_of};
ghost use Rattle.rule_list_members.specs.Members.{pairs_at};
ghost use Rattle.rule7_arguments.specs.Arguments.{mandatory_one, mandatory_in, fewest_at, Fewest};

use blocks::word;
use open_sheet::Opened;
use rule_signatures::param_count;
use rule5_imports::{import_params, import_sig};
use sheet::may_leave_out;

// The most arguments of import j: as many as its signature has parameters.
pub fn most_arguments(sheet: &[u8], work: &[u32], o: Opened, j: u32) -> u32
    requires ready { Ready (sheet_words sheet.now o) work.now o }
    requires j_lt_imports { j < o.counts.imports }
    ensures { result ≡ most_arguments (module_of sheet.now o) (import_at (module_of sheet.now o) j) }
{
    param_count(sheet, work, o, import_sig(sheet, work, o, j))
}

// 1 for a mandatory parameter, 0 for an optional one.
fn mandatory_one(flags: u32) -> u32
    ensures { result ≡ mandatory_one flags }
{
    if flags / 2 % 2 == 1 { 0 } else { 1 }
}

// How many of `count` parameters from `from` on are mandatory; n is a bound of their words.
fn count_mandatory(sheet: &[u8], n: usize, from: usize, count: u32) -> u32
    requires { from + 2 * count ≤ n }
    ensures { result ≡ mandatory_in (pairs_at (words sheet.now) count from) }
{
    let mut found = 0;
    for i in 0..count {
        found += mandatory_one(word(sheet, from + 2 * i as usize));
    }
    found
}

// The fewest arguments of import j: those that its list does not let be left out.
fn fewest_of(sheet: &[u8], work: &[u32], o: Opened, j: u32) -> u32
    requires ready { Ready (sheet_words sheet.now o) work.now o }
    requires j_lt_imports { j < o.counts.imports }
    ensures { result ≡ fewest_arguments (module_of sheet.now o) (import_at (module_of sheet.now o) j) }
{
    if !may_leave_out(o.edition) {
        return most_arguments(sheet, work, o, j);
    }
    let at = import_params(sheet, work, o, j);
    if word(sheet, at) == 0 {
        return most_arguments(sheet, work, o, j);
    }
    let count = word(sheet, at + 1);
    count_mandatory(sheet, o.layout.words, at + 2, count)
}

// Writes the fewest arguments of each import, after the captures' counts, and nothing else.
pub fn index_fewest(sheet: &[u8], work: &mut [u32], o: Opened)
    requires { Ready (sheet_words sheet.now o) work.old o }
    ensures frame { Frame (Off (fewest_at o) (fewest_at o + o.counts.imports)) work.old work.new }
    ensures fewest { Fewest (sheet_words sheet.now o) work.new o }
{
    let base = 4 * o.layout.words + o.counts.funcs as usize;
    for j in 0..o.counts.imports {
        work[base + j as usize] = fewest_of(sheet, work, o, j);
    }
}

// The fewest arguments of import j, as counted in lent words.
pub fn fewest_arguments(work: &[u32], o: Opened, j: u32) -> u32
    requires { fewest_at o + j < length work.now }
    ensures { result ≡ get_or work.now (fewest_at o + j) 0 }
{
    work[4 * o.layout.words + o.counts.funcs as usize + j as usize]
}
