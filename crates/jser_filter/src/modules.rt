//! The table of modules: which module each package is in.
ghost use Rattle.std.specs.Prelude.{List, ◌≡◌, ◌==◌, ◌≢◌, ℕ, ◌<◌, [], length, option_map, option_and_then, map, None, IfOk, IfErr, OnOk, ◌++◌, ◌∷◌};
ghost use Rattle.jser_prim.specs.ModifiedUtf8.{utf16_units};
ghost use Rattle.jser_filter.specs.Cuts.{cut, part_now, both_now};
ghost use Rattle.jser_filter.specs.Tables.{module_of, entry_of, view_sides, read_sides, read_line, lines_of, table_of, fault_in, IsLineCause, AreSoundLines, IsFirstLineFault};

use crate::cut::{cut, next_part};
use crate::fault::{ModulesCause, ModulesFault};
use indexmap::IndexMap;
use jser_prim::units_of;
use std::alloc::{AllocError, Global};
use std::fmt;
use std::marker::Model;

/// A table from packages to modules.
#[derive(Drop)]
pub struct Modules {
    /// The module of each package, in the order of the lines.
    entries: IndexMap<Vec<u16>, Vec<u16>>,
}

impl Model for Modules {
    ghost use Rattle.std.specs.Prelude.{map};
    ghost use Rattle.jser_filter.specs.Tables.{ModuleTable, view_entry};

    ghost Value = { ModuleTable };

    ghost view = { λ a. map view_entry a.entries.entries };
}

const EQUALS: u16 = 0x3D;

const LINE_FEED: u16 = 0x0A;

/// Says how many entries the table has, and not which.
impl fmt::Debug for Modules {
    fn fmt<W: fmt::Write>(&self, f: &mut fmt::Formatter<W>) -> fmt::Result {
        f.debug_struct("Modules")
            .field("entries", &self.entries.len())
            .finish_non_exhaustive()
    }
}

impl Modules {
    /// The empty table. It allocates nothing.
    pub fn none(alloc: Global) -> Modules
        ensures { result ≡ [] }
    {
        Modules {
            entries: IndexMap::new(alloc),
        }
    }

    /// Reads a table of modules from lines `package=module`.
    ///
    /// # Errors
    ///
    /// The first faulty line, with the first of its causes. `OutOfMemory` is told at the line for which memory
    /// ran out, and at line 0 for what is made of the whole text; no earlier line is faulty then.
    pub fn parse(alloc: Global, text: &str) -> Result<Modules, ModulesFault>
        ensures table { IfOk result (λ modules. modules ≡ table_of (lines_of (utf16_units text.now))) }
        ensures sound { IfOk result (λ _. AreSoundLines (lines_of (utf16_units text.now))) }
        ensures fault { IfErr result (IsFirstLineFault (lines_of (utf16_units text.now))) }
    {
        match units_of(alloc, text) {
            Ok(units) => read_lines(alloc, &units),
            Err(_) => Err(no_memory_at_first()),
        }
    }

    /// Whether no package has a module.
    pub fn is_empty(&self) -> bool
        ensures { result ≡ (length self.now == 0) }
    {
        self.entries.is_empty()
    }

    /// The module of a package, if the table has it. It allocates nothing. Where there are no packages, none is hashed.
    pub fn get(&self, package: &[u16]) -> Option<&[u16]>
        ensures { option_map part_now result ≡ module_of self.now «package».now }
    {
        if self.entries.is_empty() {
            return None;
        }
        match self.entries.get(package) {
            Some(module) => Some(module.as_slice()),
            None => None,
        }
    }

    /// The module of a package, if there is one and the table has it.
    pub(crate) fn of_package(&self, package: Option<&[u16]>) -> Option<&[u16]>
        ensures { option_map part_now result ≡ option_and_then (module_of self.now) (option_map part_now «package».entry) }
    {
        match package {
            Some(package) => self.get(package),
            None => None,
        }
    }

    /// Adds what a line says.
    fn add_line(&mut self, alloc: Global, units: &[u16]) -> Result<(), ModulesCause>
        ensures added { OnOk result (self.new ≡ self.old ++ table_of (read_line units.now ∷ [])) }
        ensures sound { OnOk result (fault_in self.old (read_line units.now) ≡ None) }
        ensures cause { IfErr result (IsLineCause (fault_in self.old (read_line units.now))) }
    {
        if units.is_empty() {
            return Ok(());
        }
        let Some((package, module)) = read_sides(units) else {
            return Err(ModulesCause::BadLine);
        };
        if self.get(package).is_some() {
            return Err(ModulesCause::PackageTwice);
        }
        match self.add(alloc, package, module) {
            Ok(()) => Ok(()),
            Err(_) => Err(ModulesCause::OutOfMemory),
        }
    }

    /// Adds an entry.
    fn add(&mut self, alloc: Global, package: &[u16], module: &[u16]) -> Result<(), AllocError>
        requires { module_of self.old «package».now ≡ None }
        ensures { OnOk result (self.new ≡ self.old ++ entry_of «package».now «module».now ∷ []) }
    {
        let package = package.to_vec(alloc)?;
        let module = module.to_vec(alloc)?;
        match self.entries.insert(package, module) {
            Ok(_) => Ok(()),
            Err(_) => Err(AllocError),
        }
    }
}

/// The fault where there is no memory for the text as a whole.
fn no_memory_at_first() -> ModulesFault
    ensures { (text : List ℕ) → IsFirstLineFault (lines_of text) result }
{
    ModulesFault {
        line: 0,
        cause: ModulesCause::OutOfMemory,
    }
}

/// Reads the lines of a table of modules.
fn read_lines(alloc: Global, units: &[u16]) -> Result<Modules, ModulesFault>
    ensures entries { IfOk result (λ modules. modules ≡ table_of (lines_of units.now)) }
    ensures sound { IfOk result (λ _. AreSoundLines (lines_of units.now)) }
    ensures fault { IfErr result (IsFirstLineFault (lines_of units.now)) }
{
    let mut modules = Modules::none(alloc);
    let mut rest = Some(units);
    let mut number: usize = 0;
    'lines: while let Some(text) = rest {
        let (line, more) = next_part(text, LINE_FEED);
        if let Err(cause) = modules.add_line(alloc, line) {
            return Err(ModulesFault {
                line: number,
                cause,
            });
        }
        number += 1;
        rest = more;
    }
    Ok(modules)
}

/// The two sides of the one `=` of a line, neither of them empty.
fn read_sides(units: &[u16]) -> Option<(&[u16], &[u16])>
    ensures { view_sides (option_map both_now result) ≡ read_sides (cut 0x3D units.now) }
{
    match cut(units, EQUALS) {
        Some(([], _) | (_, [])) | None => None,
        Some((package, module)) if cut(module, EQUALS).is_some() => None,
        Some(sides) => Some(sides),
    }
}
