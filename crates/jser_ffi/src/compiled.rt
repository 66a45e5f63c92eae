//! A filter that was read once, and the check of bytes under it.
ghost use Rattle.std.specs.Prelude.{◌≡◌, ◌⊎◌, IfOk, IfErr};
ghost use Rattle.jser_ffi.specs.Compiling.{IsCompiled, IsCompiledFile, IsFilterOf, IsTableOf, TextIsFaulty, TextsAreFaulty, ModulesAreFaulty, SaysFileMisuse, SaysMisuse};
ghost use Rattle.jser_ffi.specs.Told.{Says, Zeros};

use crate::answer::{Answer, NO_MEMORY, bare, misuse};
use crate::checks::checked;
use crate::misuse::{
    FILE_IS_NO_TEXT, FILTER_IS_NO_TEXT, MODULES_ARE_NO_TEXT, NO_PATTERN, UNKNOWN_FLAG, file_answer,
    filter_answer, modules_answer,
};
use crate::way::way_of;
use jser_check::{HeldGate, Holds};
use jser_filter::{Filter, Modules};
use jser_settings::{FileTextFault, filter_text_of, has_pattern};
use jser_shared::SharedFilter;
use std::alloc::{AllocError, Global};
use std::str;

/// A filter that was read once, and how it is asked.
#[derive(Drop)]
pub struct Compiled {
    /// The filter, with its table of modules and how it is applied to a name.
    pub applied: HeldGate<SharedFilter>,
    /// Whether it is asked about every class name that can be read at any place of the bytes.
    pub anywhere: bool,
    pub(crate) alloc: Global,
}

/// The filter of a text and of a table of modules, asked as the flags say.
///
/// # Errors
///
/// The answer: of a misuse, or that memory ran out.
pub(crate) fn compile(
    alloc: Global,
    text: &[u8],
    modules: &[u8],
    flags: u32,
) -> Result<Compiled, Answer>
    ensures compiled { IfOk result (IsCompiled flags text.now modules.now) }
    ensures misuse { IfErr result (λ answer. answer.status ≡ 2 → SaysMisuse flags text.now modules.now answer) }
    ensures known { IfErr result (λ answer. (answer.status ≡ 2) ⊎ (answer.status ≡ 3)) }
    ensures zeros { IfErr result Zeros }
{
    let Some(way) = way_of(flags) else {
        return Err(misuse(UNKNOWN_FLAG, 0));
    };
    if way.needs_pattern && !has_pattern(text) {
        return Err(misuse(NO_PATTERN, 0));
    }
    let filter = match filter_with(alloc, text, modules) {
        Ok(filter) => filter,
        Err(answer) => return Err(answer),
    };
    match SharedFilter::new(alloc, filter) {
        Ok(shared) => Ok(Compiled {
            applied: HeldGate::new(shared, way.options),
            anywhere: way.anywhere,
            alloc,
        }),
        Err(_) => Err(bare(NO_MEMORY)),
    }
}

/// The filter of a file of these bytes and of a table of modules, asked as the flags say.
///
/// # Errors
///
/// The answer: of a misuse, or that memory ran out.
#[tactic(auto, using(crate::proofs::CompileLemmas::file_misuse, crate::proofs::CompileLemmas::file_compiled, crate::proofs::CompileLemmas::no_file_text, crate::proofs::CompileLemmas::file_line))]
pub(crate) fn compile_file(
    alloc: Global,
    file: &[u8],
    modules: &[u8],
    flags: u32,
) -> Result<Compiled, Answer>
    ensures compiled { IfOk result (IsCompiledFile flags file.now modules.now) }
    ensures misuse { IfErr result (λ answer. answer.status ≡ 2 → SaysFileMisuse flags file.now modules.now answer) }
    ensures known { IfErr result (λ answer. (answer.status ≡ 2) ⊎ (answer.status ≡ 3)) }
    ensures zeros { IfErr result Zeros }
{
    match filter_text_of(alloc, file) {
        Ok(text) => match compile(alloc, text.as_bytes(), modules, flags) {
            Ok(compiled) => Ok(compiled),
            Err(answer) => Err(answer),
        },
        Err(FileTextFault::NoText) => Err(misuse(FILE_IS_NO_TEXT, 0)),
        Err(FileTextFault::Faulty(fault)) => Err(file_answer(fault)),
        Err(FileTextFault::OutOfMemory) => Err(bare(NO_MEMORY)),
    }
}

/// The filter of a text with a table of modules.
///
/// # Errors
///
/// The answer: of a misuse, or that memory ran out.
pub(crate) fn filter_with(alloc: Global, text: &[u8], modules: &[u8]) -> Result<Filter, Answer>
    ensures pieces { IfOk result (λ filter. IsFilterOf text.now filter.pieces) }
    ensures table { IfOk result (λ filter. IsTableOf modules.now filter.modules) }
    ensures faulty { IfErr result (λ answer. answer.status ≡ 2 → TextsAreFaulty text.now modules.now answer) }
    ensures known { IfErr result (λ answer. (answer.status ≡ 2) ⊎ (answer.status ≡ 3)) }
    ensures zeros { IfErr result Zeros }
{
    let filter = match filter_of(alloc, text) {
        Ok(filter) => filter,
        Err(answer) => return Err(answer),
    };
    match table_of(alloc, modules) {
        Ok(table) => Ok(filter.with_modules(table)),
        Err(answer) => Err(answer),
    }
}

/// The filter of a text.
fn filter_of(alloc: Global, text: &[u8]) -> Result<Filter, Answer>
    ensures filter { IfOk result (λ filter. IsFilterOf text.now filter.pieces) }
    ensures faulty { IfErr result (λ answer. answer.status ≡ 2 → TextIsFaulty text.now answer) }
    ensures known { IfErr result (λ answer. (answer.status ≡ 2) ⊎ (answer.status ≡ 3)) }
    ensures zeros { IfErr result Zeros }
{
    let Ok(text) = str::from_utf8(text) else {
        return Err(misuse(FILTER_IS_NO_TEXT, 0));
    };
    match Filter::parse(alloc, text) {
        Ok(filter) => Ok(filter),
        Err(fault) => Err(filter_answer(fault)),
    }
}

/// The table of modules of a text.
fn table_of(alloc: Global, text: &[u8]) -> Result<Modules, Answer>
    ensures table { IfOk result (IsTableOf text.now) }
    ensures faulty { IfErr result (λ answer. answer.status ≡ 2 → ModulesAreFaulty text.now answer) }
    ensures known { IfErr result (λ answer. (answer.status ≡ 2) ⊎ (answer.status ≡ 3)) }
    ensures zeros { IfErr result Zeros }
{
    let Ok(text) = str::from_utf8(text) else {
        return Err(misuse(MODULES_ARE_NO_TEXT, 0));
    };
    match Modules::parse(alloc, text) {
        Ok(table) => Ok(table),
        Err(fault) => Err(modules_answer(fault)),
    }
}

impl Compiled {
    /// The gate of a stream, which shares the filter. It takes no memory.
    ///
    /// # Errors
    ///
    /// Where the filter has too many owners.
    pub(crate) fn gate(&self) -> Result<HeldGate<SharedFilter>, AllocError>
        ensures { IfOk result (λ gate. gate ≡ self.now.applied) }
    {
        match self.applied.holder().share() {
            Ok(shared) => Ok(HeldGate::new(shared, self.applied.options())),
            Err(error) => Err(error),
        }
    }

    /// The answer to a check of bytes.
    pub(crate) fn check(&self, bytes: &[u8]) -> Answer
        ensures says { Says self.now bytes.now result }
        ensures zeros { Zeros result }
    {
        let filter = self.applied.holder().filter();
        let gate = HeldGate::new(filter, self.applied.options());
        checked(self.alloc, bytes, gate, self.anywhere)
    }
}
