// The calls for C and Rust, which paqlluri_c exports: an answer of several numbers goes into lent words.
#![tactic(auto)]

ghost use Rattle.std.specs.Prelude.{◌≡◌, length};
ghost use Rattle.error.specs.Answer.{numbers};
ghost use Rattle.load.specs.Load.{load, table_after, work_after};
ghost use Rattle.descends.specs.Descends.{descends};
ghost use Rattle.descends.specs.Sizes.{size_in, size_numbers};
ghost use Rattle.families.specs.Counted.{structs_in, count_numbers};

use descends::QueryError;
use error::TypeId;
use error::numbers::numbers;

pub mod lengths;
pub mod nearest;

// Loads a sheet under a host list; answers the six numbers.
#[tactic(auto, using(crate::proofs::Six::six))]
pub fn paqlluri_load(
    sheet: &[u8],
    hosts: &[u8],
    table: &mut [u32],
    work: &mut [u32],
    answer: &mut [u32; 6],
)
    ensures answer_after { answer.new ≡ numbers (load sheet.now hosts.now (length table.old) (length work.old)) }
    ensures table_after { table.new ≡ table_after sheet.now hosts.now table.old work.old }
    ensures work_after { work.new ≡ work_after sheet.now hosts.now table.old work.old }
{
    let n = numbers(loader::load(sheet, hosts, table, work));
    *answer = [n.kind, n.word, n.number, n.second, n.func, n.pc];
}

// 1 where t is a or descends from it, 0 where not, 25 where the words are no linked table.
pub fn paqlluri_descends(table: &[u32], t: u32, a: u32) -> u32
    ensures { result ≡ descends table.now t a }
{
    query::descends(table, TypeId(t), TypeId(a))
}

// Kind, 0 or 25, and how many types descend from a, itself included: 0 where a is no struct type.
#[tactic(auto, using(crate::proofs::Two::sizes))]
pub fn paqlluri_family_size(table: &[u32], a: u32, answer: &mut [u32; 2])
    ensures { answer.new ≡ size_numbers (size_in table.now a) }
{
    *answer = match query::family_size(table, TypeId(a)) {
        Ok(n) => [0, n],
        Err(QueryError::NotLinked) => [25, 0],
    };
}

// Kind, 0 or 1, and how many struct types the sheet declares.
#[tactic(auto, using(crate::proofs::Two::counts))]
pub fn paqlluri_count_structs(sheet: &[u8], answer: &mut [u32; 2])
    ensures { answer.new ≡ count_numbers (structs_in sheet.now) }
{
    *answer = match family_sheets::count_structs(sheet) {
        Some(n) => [0, n],
        None => [1, 0],
    };
}
