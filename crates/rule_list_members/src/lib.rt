// What is wanted of each member of a parameter list or a call shape.
#![tactic(auto)]

ghost use Rattle.std.specs.Prelude.{◌≡◌, false, ◌+◌, ◌*◌, ◌≤◌};
ghost use Rattle.blocks.specs.Blocks.{words};
ghost use Rattle.rule_list_members.specs.Members.{pairs_at, is_listed, is_late, is_early, is_in_order, late_after, name_of, name_in, member_holds, members_hold};

use blocks::word;
use error::StrId;

// Whose members: of a parameter list, flags and name + 1; of a call shape, kind and name.
#[derive(Clone, Copy)]
pub enum ListKind {
    Params,
    Args,
}

// Flags 1 by reference and 2 optional; kinds 0 positional, 1 named, 2 spread.
fn is_listed(k: ListKind, first: u32) -> bool
    ensures { result ≡ is_listed k first }
{
    match k {
        ListKind::Params => first < 4,
        ListKind::Args => first < 3,
    }
}

// Optional, or named.
fn is_late(k: ListKind, first: u32) -> bool
    ensures { result ≡ is_late k first }
{
    match k {
        ListKind::Params => first / 2 % 2 == 1,
        ListKind::Args => first == 1,
    }
}

// Mandatory, or positional.
fn is_early(k: ListKind, first: u32) -> bool
    ensures { result ≡ is_early k first }
{
    match k {
        ListKind::Params => first / 2 % 2 != 1,
        ListKind::Args => first == 0,
    }
}

// A parameter's name is a number + 1, 0 for none; an argument's is read if it is named.
pub fn name_of(k: ListKind, first: u32, second: u32) -> Option<StrId>
    ensures { result ≡ name_of k first second }
{
    match k {
        ListKind::Params => second.checked_sub(1).map(StrId),
        ListKind::Args => (first == 1).then_some(StrId(second)),
    }
}

fn name_in(name: Option<StrId>, strings: u32) -> bool
    ensures { result ≡ name_in strings name }
{
    match name {
        None => true,
        Some(s) => s.0 < strings,
    }
}

// `late`: one that is optional or named was before it.
fn is_in_order(k: ListKind, late: bool, first: u32) -> bool
    ensures { result ≡ is_in_order k late first }
{
    !(late && is_early(k, first))
}

fn member_holds(k: ListKind, strings: u32, late: bool, first: u32, second: u32) -> bool
    ensures { result ≡ member_holds k strings late first second }
{
    is_listed(k, first)
        && is_in_order(k, late, first)
        && name_in(name_of(k, first, second), strings)
}

fn late_after(k: ListKind, late: bool, first: u32) -> bool
    ensures { result ≡ late_after k late first }
{
    late || is_late(k, first)
}

// Each of `count` members from `from` on; n is a bound of their words.
pub fn members_hold(
    sheet: &[u8],
    n: usize,
    k: ListKind,
    strings: u32,
    from: usize,
    count: u32,
) -> bool
    requires { from + 2 * count ≤ n }
    ensures { result ≡ members_hold k strings false (pairs_at (words sheet.now) count from) }
{
    let mut p = from;
    let mut late = false;
    for _ in 0..count {
        let first = word(sheet, p);
        if !member_holds(k, strings, late, first, word(sheet, p + 1)) {
            return false;
        }
        late = late_after(k, late, first);
        p += 2;
    }
    true
}
