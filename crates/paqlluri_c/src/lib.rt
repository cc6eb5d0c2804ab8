#![tactic(auto)]
// The exports of libpaqlluri.a: each is the call of paqlluri of that name. A slice is a pointer and a length.
ghost use Rattle.std.specs.Prelude.{◌≡◌, length};
ghost use Rattle.error.specs.Answer.{numbers};
ghost use Rattle.load.specs.Load.{load, table_after, work_after};
ghost use Rattle.descends.specs.Descends.{descends};
ghost use Rattle.descends.specs.Sizes.{size_in, size_numbers};
ghost use Rattle.descends.specs.Lengths.{chain_length_in, length_numbers};
ghost use Rattle.descends.specs.Nearest.{nearest_in, nearest_numbers};
ghost use Rattle.families.specs.Counted.{structs_in, count_numbers};

// Loads a sheet under a host list; answers the six numbers.
#[unsafe(no_mangle)]
pub extern "C" fn paqlluri_load(
    sheet: &[u8],
    hosts: &[u8],
    table: &mut [u32],
    work: &mut [u32],
    answer: &mut [u32; 6],
)
    ensures answer_after { answer.new ≡ numbers (load sheet.now hosts.now (length table.old) (length work.old)) }
    ensures table_after { table.new ≡ table_after sheet.now hosts.now table.old work.old }
    ensures work_after { work.new ≡ work_after sheet.now hosts.now table.old work.old }
{
    paqlluri::paqlluri_load(sheet, hosts, table, work, answer);
}

// 1 where t is a or descends from it, 0 where not, 25 where the words are no linked table.
#[unsafe(no_mangle)]
pub extern "C" fn paqlluri_descends(table: &[u32], t: u32, a: u32) -> u32
    ensures { result ≡ descends table.now t a }
{
    paqlluri::paqlluri_descends(table, t, a)
}

// Kind, 0 or 25, and how many types descend from a, itself included: 0 where a is no struct type.
#[unsafe(no_mangle)]
pub extern "C" fn paqlluri_family_size(table: &[u32], a: u32, answer: &mut [u32; 2])
    ensures { answer.new ≡ size_numbers (size_in table.now a) }
{
    paqlluri::paqlluri_family_size(table, a, answer);
}

// Kind, 0 or 25, and how many numbers the chain of t has: 1 at a root, 0 where t is no struct type.
#[unsafe(no_mangle)]
pub extern "C" fn paqlluri_chain_length(table: &[u32], t: u32, answer: &mut [u32; 2])
    ensures { answer.new ≡ length_numbers (chain_length_in table.now t) }
{
    paqlluri::lengths::paqlluri_chain_length(table, t, answer);
}

// Kind, 0 where it was found, 1 where there is none or 25, and the nearest family of t and u, 0 unless found.
#[unsafe(no_mangle)]
pub extern "C" fn paqlluri_nearest(table: &[u32], t: u32, u: u32, answer: &mut [u32; 2])
    ensures { answer.new ≡ nearest_numbers (nearest_in table.now t u) }
{
    paqlluri::nearest::paqlluri_nearest(table, t, u, answer);
}

// Kind, 0 or 1, and how many struct types the sheet declares.
#[unsafe(no_mangle)]
pub extern "C" fn paqlluri_count_structs(sheet: &[u8], answer: &mut [u32; 2])
    ensures { answer.new ≡ count_numbers (structs_in sheet.now) }
{
    paqlluri::paqlluri_count_structs(sheet, answer);
}
