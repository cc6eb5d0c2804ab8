// The six numbers of an answer.
ghost use Rattle.std.specs.Prelude.{◌≡◌, [], ◌∷◌, ◌++◌};
ghost use Rattle.error.specs.Answer.{what_word, type_kind_word, kind_numbers, numbers};
ghost use Rattle.error.specs.Numbers.{six_of};

use crate::{LoadError, LoadErrorKind, TypeKind, What};
use std::fmt;

#[derive(Clone, Copy, PartialEq, Eq)]
pub struct SixNumbers {
    pub kind: u32,
    pub word: u32,
    pub number: u32,
    pub second: u32,
    pub func: u32,
    pub pc: u32,
}

// With single spaces between them.
impl fmt::Display for SixNumbers {
    fn fmt<W: fmt::Write>(&self, f: &mut fmt::Formatter<W>) -> fmt::Result {
        write!(
            f,
            "{} {} {} {} {} {}",
            self.kind, self.word, self.number, self.second, self.func, self.pc
        )
    }
}

fn what_word(what: What) -> u32
    ensures { result ≡ what_word what }
{
    match what {
        What::Types => 1,
        What::Functions => 2,
        What::Strings => 3,
        What::Constants => 4,
        What::Registers => 5,
        What::Imports => 6,
        What::Globals => 7,
        What::BranchTargets => 8,
        What::TableTargets => 9,
        What::Tables => 10,
        What::Names => 11,
        What::TypeRefs => 12,
        What::Captures => 13,
        What::CallShapes => 14,
    }
}

fn type_kind_word(wanted: TypeKind) -> u32
    ensures { result ≡ type_kind_word wanted }
{
    match wanted {
        TypeKind::Struct => 1,
        TypeKind::Array => 2,
        TypeKind::Map => 3,
        TypeKind::Cell => 4,
    }
}

fn at(kind: u32, word: u32, number: u32, second: u32, func: u32, pc: u32) -> SixNumbers
    ensures { six_of result ≡ kind ∷ word ∷ number ∷ second ∷ func ∷ pc ∷ [] }
{
    SixNumbers {
        kind,
        word,
        number,
        second,
        func,
        pc,
    }
}

fn refusal(k: LoadErrorKind, func: u32, pc: u32) -> SixNumbers
    ensures { six_of result ≡ kind_numbers k ++ (func ∷ pc ∷ []) }
{
    match k {
        LoadErrorKind::Decode => at(1, 0, 0, 0, func, pc),
        LoadErrorKind::UnresolvedImport(m, n) => at(2, 0, m.0, n.0, func, pc),
        LoadErrorKind::OutOfRange(what, i) => at(3, what_word(what), i, 0, func, pc),
        LoadErrorKind::BadSignature => at(4, 0, 0, 0, func, pc),
        LoadErrorKind::ParamMismatch => at(5, 0, 0, 0, func, pc),
        LoadErrorKind::EmptyCode => at(6, 0, 0, 0, func, pc),
        LoadErrorKind::FallsThrough => at(7, 0, 0, 0, func, pc),
        LoadErrorKind::ArityMismatch { expected, found } => at(8, 0, expected, found, func, pc),
        LoadErrorKind::CalleeHasCaptures => at(9, 0, 0, 0, func, pc),
        LoadErrorKind::PromoteNotDynamic => at(10, 0, 0, 0, func, pc),
        LoadErrorKind::WrongTypeKind(wanted) => at(11, type_kind_word(wanted), 0, 0, func, pc),
        LoadErrorKind::BadModifier => at(12, 0, 0, 0, func, pc),
        LoadErrorKind::InvalidHandler => at(13, 0, 0, 0, func, pc),
        LoadErrorKind::CatchNotDyn => at(14, 0, 0, 0, func, pc),
        LoadErrorKind::TailCallInTry => at(15, 0, 0, 0, func, pc),
        LoadErrorKind::BadParent => at(16, 0, 0, 0, func, pc),
        LoadErrorKind::InheritanceTooDeep => at(17, 0, 0, 0, func, pc),
        LoadErrorKind::BadConstant => at(18, 0, 0, 0, func, pc),
        LoadErrorKind::BadHook(hook) => at(19, 0, hook, 0, func, pc),
        LoadErrorKind::BadStart => at(20, 0, 0, 0, func, pc),
        LoadErrorKind::BadParamList => at(21, 0, 0, 0, func, pc),
        LoadErrorKind::BadCallShape => at(22, 0, 0, 0, func, pc),
        LoadErrorKind::BadHostList => at(23, 0, 0, 0, func, pc),
        LoadErrorKind::ShortSlice => at(24, 0, 0, 0, func, pc),
        LoadErrorKind::NotLinked => at(25, 0, 0, 0, func, pc),
        LoadErrorKind::MissedStruct => at(26, 0, 0, 0, func, pc),
        LoadErrorKind::ExportNameOutOfRange(name) => at(27, 0, name.0, 0, func, pc),
        LoadErrorKind::DuplicateExport(i) => at(28, 0, i, 0, func, pc),
    }
}

// Of an answer: kind, word, number, second, function + 1, position + 1; unused ones are 0.
pub fn numbers(a: Result<u32, LoadError>) -> SixNumbers
    ensures { six_of result ≡ numbers a }
{
    match a {
        Ok(l) => at(0, 0, l, 0, 0, 0),
        Err(e) => refusal(e.kind, e.func, e.pc),
    }
}
