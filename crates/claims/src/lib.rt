// What is claimed of the calls is what their contracts say: each call of load is `Loads`, each family query is `Asks`, and so on.
#![tactic(auto)]

ghost use Rattle.calls.specs.Calls.{Loads, LoadsNumbers, Asks, AsksLength};
ghost use Rattle.family_calls.specs.FamilyCalls.{AsksSize, AsksSizeNumbers, CountsStructs, CountsNumbers};
ghost use Rattle.family_calls.specs.LengthCalls.{AsksLengthNumbers};
ghost use Rattle.family_calls.specs.NearestCalls.{AsksNearest, AsksNearestNumbers};

use descends::QueryError;
use error::{LoadError, TypeId};
use family_sheets::count_structs;
use loader::load;
use paqlluri::lengths::paqlluri_chain_length;
use paqlluri::nearest::paqlluri_nearest;
use paqlluri::{paqlluri_count_structs, paqlluri_descends, paqlluri_family_size, paqlluri_load};
use query::{chain_length, descends, family_size};
use query_nearest::nearest;

pub fn call(
    sheet: &[u8],
    hosts: &[u8],
    table: &mut [u32],
    work: &mut [u32],
) -> Result<u32, LoadError>
    ensures { Loads sheet.now hosts.now table.old work.old
        result table.new work.new }
{
    load(sheet, hosts, table, work)
}

pub fn ask(table: &[u32], t: TypeId, a: TypeId) -> u32
    ensures { Asks table.now t.0 a.0 result }
{
    descends(table, t, a)
}

pub fn ask_size(table: &[u32], a: TypeId) -> Result<u32, QueryError>
    ensures { AsksSize table.now a.0 result }
{
    family_size(table, a)
}

pub fn ask_length(table: &[u32], t: TypeId) -> Result<u32, QueryError>
    ensures { AsksLength table.now t.0 result }
{
    chain_length(table, t)
}

pub fn ask_nearest(table: &[u32], t: TypeId, u: TypeId) -> Result<Option<TypeId>, QueryError>
    ensures { AsksNearest table.now t.0 u.0 result }
{
    nearest(table, t, u)
}

pub fn count(sheet: &[u8]) -> Option<u32>
    ensures { CountsStructs sheet.now result }
{
    count_structs(sheet)
}

// The same of the calls for C and Rust.
pub fn call_numbers(
    sheet: &[u8],
    hosts: &[u8],
    table: &mut [u32],
    work: &mut [u32],
    answer: &mut [u32; 6],
)
    ensures { LoadsNumbers sheet.now hosts.now table.old work.old
        answer.new table.new work.new }
{
    paqlluri_load(sheet, hosts, table, work, answer);
}

pub fn ask_number(table: &[u32], t: u32, a: u32) -> u32
    ensures { Asks table.now t a result }
{
    paqlluri_descends(table, t, a)
}

pub fn ask_size_numbers(table: &[u32], a: u32, answer: &mut [u32; 2])
    ensures { AsksSizeNumbers table.now a answer.new }
{
    paqlluri_family_size(table, a, answer);
}

pub fn ask_length_numbers(table: &[u32], t: u32, answer: &mut [u32; 2])
    ensures { AsksLengthNumbers table.now t answer.new }
{
    paqlluri_chain_length(table, t, answer);
}

pub fn ask_nearest_numbers(table: &[u32], t: u32, u: u32, answer: &mut [u32; 2])
    ensures { AsksNearestNumbers table.now t u answer.new }
{
    paqlluri_nearest(table, t, u, answer);
}

pub fn count_numbers(sheet: &[u8], answer: &mut [u32; 2])
    ensures { CountsNumbers sheet.now answer.new }
{
    paqlluri_count_structs(sheet, answer);
}
