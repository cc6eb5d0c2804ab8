// The queries on a linked table: who descends from whom, how many do, and how long a chain is.
#![tactic(auto)]

ghost use Rattle.std.specs.Prelude.{◌≡◌, ◌+◌, ◌*◌, ◌≤◌, ◌<◌, length, get_or};
ghost use Rattle.descends.specs.Descends.{spans_start, span_count, is_linked, is_within, descends};
ghost use Rattle.descends.specs.Lengths.{chain_length_in};
ghost use Rattle.descends.specs.Sizes.{size_in};
ghost use Rattle.query.specs.Spans.{span_of};

use descends::QueryError;
use error::TypeId;
use region::at;

// A word of the table.
pub fn word_at(table: &[u32], start: usize) -> usize
    requires { start < length table.now }
    ensures value { result ≡ get_or table.now start 0 }
    ensures upper_bound { result < 4294967296 }
{
    table[start] as usize
}

// Edition 2, and a spans section inside the L words. Three times a count of 32 bits does not wrap.
pub fn is_linked(table: &[u32]) -> bool
    ensures { result ≡ is_linked table.now }
{
    if table.len() < 10 {
        return false;
    }
    if at(table, 0) != 2 {
        return false;
    }
    let end = at(table, 1);
    let start = at(table, 9);
    if table.len() < end {
        return false;
    }
    if start < 10 {
        return false;
    }
    if end <= start {
        return false;
    }
    3 * word_at(table, start) < end - start
}

// Both numbers are known, and pre(a) ≤ pre(t) < post(a).
fn is_within(table: &[u32], start: usize, count: usize, t: u32, a: u32) -> bool
    requires start_value { start ≡ spans_start table.now }
    requires count_value { count ≡ span_count table.now }
    requires count_in_bounds { start + 1 + 3 * count ≤ length table.now }
    ensures { result ≡ is_within table.now t a }
{
    if count <= t as usize {
        return false;
    }
    if count <= a as usize {
        return false;
    }
    let first = start + 1;
    let own = first + 3 * a as usize;
    let pre = at(table, first + 3 * t as usize);
    if pre < at(table, own) {
        return false;
    }
    pre < at(table, own + 1)
}

// 1 where t is a or descends from it, 0 where not, 25 where the words are no linked table: a number, as C and the statements have it.
#[tactic(auto, using(crate::proofs::QuerySteps::querying))]
pub fn descends(table: &[u32], t: TypeId, a: TypeId) -> u32
    ensures { result ≡ descends table.now t.0 a.0 }
{
    if !is_linked(table) {
        return 25;
    }
    let start = at(table, 9);
    u32::from(is_within(table, start, at(table, start), t.0, a.0))
}

// Where the span of a type stands: none for a number that is no type.
#[tactic(auto, using(crate::proofs::SizeSteps::spanning))]
fn span_of(table: &[u32], t: TypeId) -> Result<Option<usize>, QueryError>
    ensures { result ≡ span_of table.now t.0 }
{
    if !is_linked(table) {
        return Err(QueryError::NotLinked);
    }
    let start = at(table, 9);
    if at(table, start) <= t.0 as usize {
        return Ok(None);
    }
    Ok(Some(start + 1 + 3 * t.0 as usize))
}

// How many types descend from a, itself included: post minus pre, and 0 where a is no struct type or no type at all.
// On words that no load wrote post may be below pre.
pub fn family_size(table: &[u32], a: TypeId) -> Result<u32, QueryError>
    ensures { result ≡ size_in table.now a.0 }
{
    match span_of(table, a)? {
        Some(own) => Ok(table[own + 1].saturating_sub(table[own])),
        None => Ok(0),
    }
}

// How many numbers the chain of t has: 1 at a root, 0 where t is no struct type or no type at all.
pub fn chain_length(table: &[u32], t: TypeId) -> Result<u32, QueryError>
    ensures { result ≡ chain_length_in table.now t.0 }
{
    match span_of(table, t)? {
        Some(own) => Ok(table[own + 2]),
        None => Ok(0),
    }
}
