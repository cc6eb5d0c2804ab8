// Types: a kind word, then what it wants.
#![tactic(auto)]

ghost use Rattle.std.specs.Prelude.{◌≡◌};
ghost use Rattle.blocks.specs.Frame.{first_words};
ghost use Rattle.reader.specs.Reader.{list_of};
ghost use Rattle.reader.specs.Step.{step_of};
ghost use Rattle.sheet.specs.Module.{TypeDef};
ghost use Rattle.sheet.specs.Decode.{value_type, field_of, func_type, struct_type, of_two, type_def};

use blocks::word;
use reader::{skip_list, skip_records};
use sheet_reader::skip_part;

// A value type; 13 to 15 are unlisted.
pub fn skip_value(sheet: &[u8], n: usize, at: usize) -> Option<usize>
    ensures { result ≡ step_of (value_type (first_words sheet.now n) at) }
{
    if n <= at {
        return None;
    }
    match word(sheet, at) {
        13..=15 => None,
        _ => Some(at + 1),
    }
}

pub fn skip_values(sheet: &[u8], n: usize, at: usize) -> Option<usize>
    ensures { result ≡ step_of (list_of value_type (first_words sheet.now n) at) }
{
    skip_list(sheet, n, at, |p| skip_value(sheet, n, p))
}

// A field: its name, then its type.
fn skip_field(sheet: &[u8], n: usize, at: usize) -> Option<usize>
    ensures { result ≡ step_of (field_of (first_words sheet.now n) at) }
{
    if n <= at {
        return None;
    }
    skip_value(sheet, n, at + 1)
}

fn skip_fields(sheet: &[u8], n: usize, at: usize) -> Option<usize>
    ensures { result ≡ step_of (list_of field_of (first_words sheet.now n) at) }
{
    skip_list(sheet, n, at, |p| skip_field(sheet, n, p))
}

// Parameters, then results.
fn skip_func_type(sheet: &[u8], n: usize, at: usize) -> Option<usize>
    ensures { result ≡ step_of (func_type (first_words sheet.now n) at) }
{
    let p = skip_values(sheet, n, at)?;
    skip_values(sheet, n, p)
}

// Name and parent, then fields and methods.
#[tactic(auto, using(crate::proofs::TypeSteps::structs))]
fn skip_struct(sheet: &[u8], n: usize, at: usize) -> Option<usize>
    ensures { result ≡ step_of (struct_type (first_words sheet.now n) at) }
{
    if n <= at {
        return None;
    }
    if n <= at + 1 {
        return None;
    }
    let p = skip_fields(sheet, n, at + 2)?;
    skip_records(sheet, n, p, 2)
}

// Key, then value.
fn skip_two(sheet: &[u8], n: usize, at: usize) -> Option<usize>
    ensures { result ≡ step_of (of_two TypeDef.map (first_words sheet.now n) at) }
{
    let p = skip_value(sheet, n, at)?;
    skip_value(sheet, n, p)
}

pub fn skip_type(sheet: &[u8], n: usize, at: usize) -> Option<usize>
    ensures { result ≡ step_of (type_def (first_words sheet.now n) at) }
{
    if n <= at {
        return None;
    }
    match word(sheet, at) {
        0 => skip_func_type(sheet, n, at + 1),
        1 => skip_struct(sheet, n, at + 1),
        2 => skip_value(sheet, n, at + 1),
        3 => skip_two(sheet, n, at + 1),
        4 => skip_value(sheet, n, at + 1),
        5 => skip_two(sheet, n, at + 1),
        6 => Some(at + 1),
        _ => None,
    }
}

pub fn skip_types(sheet: &[u8], n: usize, at: usize) -> Option<usize>
    ensures { result ≡ step_of (list_of type_def (first_words sheet.now n) at) }
{
    skip_part(sheet, n, at, |p| skip_type(sheet, n, p))
}
