//! The names of classes that can be read at some place of a stream, and are none of its checked names.
ghost use Rattle.std.specs.Prelude.{◌≡◌, ◌<◌, [], ◌∷◌, IfOk, length, true};
ghost use Rattle.jser_anywhere.specs.NamesIn.{names_in};
ghost use Rattle.jser_table.specs.Names.{view_element};
ghost use Rattle.jser_commands.specs.Hidden.{hidden_of, is_class, is_hidden, is_unchecked, once_each};
ghost use Rattle.jser_names.specs.Counts.{names_counted};
ghost use Rattle.jser_shown.specs.Counting.{tally_all};
ghost use Rattle.jser_commands.specs.Places.{KeepsPlaces, NotesPlace};

use jser_anywhere::Names;
use jser_names::{Keyed, NameCounts};
use jser_table::{Element, element_of};
use std::alloc::{AllocError, Global};
use std::marker::Model;

/// The classes of the names that can be read at any place of these bytes and are not checked, in the order in which they can first
/// be read, each with the number of places where it can be. They are counted under this key.
pub(crate) fn hidden_names(
    alloc: Global,
    keyed: Keyed,
    bytes: &[u8],
    checked: &NameCounts,
) -> Result<NameCounts, AllocError>
    ensures { IfOk result (λ hidden. hidden ≡ tally_all [] (hidden_of (names_counted checked.now) (once_each [] (names_in 0 bytes.now)))) }
{
    let mut places = Places::new(alloc, bytes.len())?;
    let mut hidden = NameCounts::new(alloc, keyed);
    let mut names = Names::new(bytes);
    'names: while let Some(stand) = names.next() {
        if places.note(stand.at) && is_hidden(checked, names.text(), names.units()) {
            hidden.count(names.units())?;
        }
    }
    Ok(hidden)
}

/// Whether neither this name, as it stands, nor that of its class is one of those counted.
#[tactic(auto, using(crate::proofs::HiddenLemmas::text_counted, crate::proofs::HiddenLemmas::text_uncounted))]
fn is_hidden(checked: &NameCounts, text: &[u16], class: &[u16]) -> bool
    ensures { result ≡ is_hidden (names_counted checked.now) text.now class.now }
{
    !checked.has(text) && is_unchecked(checked, class)
}

/// Whether this is the name of a class that is none of those counted.
#[tactic(auto, using(crate::proofs::HiddenLemmas::counted_is, crate::proofs::HiddenLemmas::uncounted_is))]
fn is_unchecked(checked: &NameCounts, name: &[u16]) -> bool
    ensures { result ≡ is_unchecked (names_counted checked.now) name.now }
{
    !checked.has(name) && is_class(element_of(name))
}

/// Whether this is a class, or an array of one.
fn is_class(element: Element<'_>) -> bool
    ensures { result ≡ is_class (view_element element.entry) }
{
    match element {
        Element::Primitive => false,
        Element::Name(_) | Element::Malformed => true,
    }
}

/// Which places of some bytes were noted.
#[derive(Drop)]
struct Places {
    noted: Vec<bool>,
}

impl Model for Places {
    ghost use Rattle.std.specs.Prelude.{List, Bool};

    ghost Value = { List Bool };

    ghost view = { λ a. a.noted.items };
}

impl Places {
    /// The places of so many bytes, of which none was noted.
    fn new(alloc: Global, count: usize) -> Result<Places, AllocError>
        ensures { IfOk result (λ places. KeepsPlaces places [] × (length places ≡ count)) }
    {
        let noted = vec![in alloc; false; count]?;
        Ok(Places { noted })
    }

    /// Notes a place, and returns whether it was not noted before.
    fn note(&mut self, at: usize) -> bool
        requires { at < length self.old }
        ensures { NotesPlace at self.old self.new result }
    {
        let is_new = !self.noted[at];
        self.noted[at] = true;
        is_new
    }
}
