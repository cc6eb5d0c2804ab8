// Where the parts of a sheet stand, three at a time.
ghost use Rattle.std.specs.Prelude.{◌≡◌};
ghost use Rattle.blocks.specs.Frame.{first_words};
ghost use Rattle.reader.specs.Reader.{list_of};
ghost use Rattle.reader.specs.Text.{string};
ghost use Rattle.reader.specs.Step.{step_of};
ghost use Rattle.open_layout.specs.Parts.{first_parts, middle_parts, last_parts};

use crate::Layout;
use open_funcs::skip_functions;
use open_parts::consts::skip_consts;
use open_parts::imports::{skip_globals, skip_imports};
use open_parts::tail::{skip_exports, skip_hooks};
use open_types::skip_types;
use reader::skip_string;
use sheet_reader::{next_word, skip_part};

pub fn skip_strings(sheet: &[u8], n: usize, at: usize) -> Option<usize>
    ensures { result ≡ step_of (list_of string (first_words sheet.now n) at) }
{
    skip_part(sheet, n, at, |p| skip_string(sheet, n, p))
}

// Hooks, start and exports; the exports end at n.
#[tactic(auto, using(crate::proofs::LayoutSteps::lasts))]
fn check_last(
    sheet: &[u8],
    n: usize,
    types: usize,
    consts: usize,
    imports: usize,
    globals: usize,
    funcs: usize,
    hooks: usize,
) -> Option<Layout>
    ensures { result ≡ last_parts n (first_words sheet.now n) types consts imports globals funcs hooks }
{
    let start = skip_hooks(sheet, n, hooks)?;
    let (_, exports) = next_word(sheet, n, start)?;
    let end = skip_exports(sheet, n, exports)?;
    if end != n {
        return None;
    }
    Some(Layout {
        words: n,
        strings: 2,
        types,
        consts,
        imports,
        globals,
        funcs,
        hooks,
        start,
        exports,
    })
}

// Imports, globals and functions, then the rest.
#[tactic(auto, using(crate::proofs::LayoutSteps::middles))]
fn check_middle(
    sheet: &[u8],
    n: usize,
    types: usize,
    consts: usize,
    imports: usize,
) -> Option<Layout>
    ensures { result ≡ middle_parts n (first_words sheet.now n) types consts imports }
{
    let globals = skip_imports(sheet, n, imports)?;
    let funcs = skip_globals(sheet, n, globals)?;
    let hooks = skip_functions(sheet, n, funcs)?;
    check_last(sheet, n, types, consts, imports, globals, funcs, hooks)
}

// Strings, types and constants, then the rest; the first two words are edition and N.
#[tactic(auto, using(crate::proofs::LayoutSteps::firsts))]
pub fn check_words(sheet: &[u8], n: usize) -> Option<Layout>
    ensures { result ≡ first_parts n (first_words sheet.now n) }
{
    let types = skip_strings(sheet, n, 2)?;
    let consts = skip_types(sheet, n, types)?;
    let imports = skip_consts(sheet, n, consts)?;
    check_middle(sheet, n, types, consts, imports)
}
