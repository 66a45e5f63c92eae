//! What a scan is reading: a descriptor's name, and rows of texts.
ghost use Rattle.std.specs.Prelude.{◌≡◌, ◌∷◌, Some, None, List, ℕ, Bool, length, IfSome, false};
ghost use Rattle.std.specs.Option.{option_map};
ghost use Rattle.jser_anywhere.specs.Stages.{descriptor, row, in_name};
ghost use Rattle.jser_anywhere.specs.Texts.{Fits, take_byte};
ghost use Rattle.jser_anywhere.specs.Steps.{AtFits, as_name, at_hidden, at_onward, at_taken, at_with, new_text, one_less, text_begins, text_class, text_hidden, text_onward, text_with, name_onward, name_with};

use crate::class::named_class;
use crate::hidden::Judge;
use crate::recent::left_of;
use crate::text::{Place, Taken};

/// A text that is being read.
#[derive(Clone, Copy, Debug)]
pub(crate) struct Text {
    /// How many bytes follow the next one.
    pub(crate) left: u16,
    /// Where in a group the next byte stands.
    pub(crate) group: Place,
    /// How many of the units that are kept come before it; `None` where it is no name.
    pub(crate) skip: Option<usize>,
}

/// A descriptor's name.
#[derive(Clone, Copy, Debug)]
pub(crate) struct Name {
    /// The place of its 72.
    pub(crate) place: u64,
    /// Its text.
    pub(crate) text: Text,
}

/// A row of texts.
#[derive(Clone, Copy, Debug)]
pub(crate) struct Row {
    /// The place of its 7D.
    pub(crate) place: u64,
    /// How many texts may follow the next one, or the one that is being read.
    pub(crate) more: u16,
    /// What comes next.
    pub(crate) at: RowAt,
}

/// What comes next of a row.
#[derive(Clone, Copy, Debug)]
pub(crate) enum RowAt {
    /// The length of a text.
    Between,
    /// The rest of a length with this first byte.
    Halfway(u8),
    /// A text is being read.
    Text(Text),
}

/// Whether the byte can occur in the text of a loadable name. The first byte of a length never can.
pub(crate) fn in_name(byte: u8) -> bool
    ensures { result ≡ in_name byte }
{
    byte >= 0x24
}

impl Text {
    /// A text of a length that was just read, behind so many units.
    pub(crate) fn new(kept: usize, left: u16) -> Text
        ensures { result ≡ new_text kept left }
    {
        Text {
            left,
            group: Place::First,
            skip: Some(kept),
        }
    }

    /// The text behind this byte, which is one of its bytes.
    fn with_byte(self, byte: u8) -> Option<Text>
        ensures { Fits self.group → result ≡ text_with self byte (take_byte self.group byte) }
    {
        let skip = if in_name(byte) { self.skip } else { None };
        let group = match self.group.take(byte) {
            Taken::Refused => return None,
            Taken::Part(group) => group,
            Taken::Unit(_) => Place::First,
        };
        Some(Text {
            left: self.left,
            group,
            skip,
        })
    }

    /// What the byte leads to, if it may be one of a name.
    fn as_name(self, byte: u8) -> Taken
        ensures { Fits self.group → result ≡ as_name self byte }
    {
        if self.skip.is_some() && in_name(byte) {
            self.group.take(byte)
        } else {
            Taken::Refused
        }
    }

    /// The class that the name names which ended with the last byte, if one did.
    fn class<'k>(self, kept: &'k [u16]) -> Option<&'k [u16]>
        ensures { option_map (λ name. name.now) result ≡ text_class self kept.now }
    {
        if self.left > 0 {
            return None;
        }
        let Some(skip) = self.skip else {
            return None;
        };
        if !self.group.is_first() {
            return None;
        }
        let (_, units) = kept.split_at(skip.min(kept.len()));
        named_class(units)
    }

    /// The place of the name that ended with the last byte, if one did and it does not pass.
    fn hidden<J: Judge>(self, place: u64, kept: &[u16], judge: &J) -> Option<u64>
        ensures { result ≡ text_hidden (J.passes judge.now) place self kept.now }
    {
        match self.class(kept) {
            Some(name) if !judge.passes(name) => Some(place),
            _ => None,
        }
    }

    /// The class that the name names which ended with the last byte, if one did and it does not pass.
    fn hidden_class<'k, J: Judge>(self, kept: &'k [u16], judge: &J) -> Option<&'k [u16]>
        ensures { IfSome result (λ name. J.passes judge.now name.now ≡ false) }
    {
        match self.class(kept) {
            Some(name) if !judge.passes(name) => Some(name),
            _ => None,
        }
    }

    /// After the byte that it has taken.
    fn onward(self) -> Text
        ensures { result ≡ one_less self }
    {
        Text {
            left: self.left.saturating_sub(1),
            group: self.group,
            skip: self.skip,
        }
    }
}

impl Name {
    /// The name behind this byte, if it can be one of a name.
    pub(crate) fn with_byte(self, byte: u8) -> Option<Name>
        ensures { Fits self.text.group → result ≡ name_with (Some self) byte }
    {
        if !in_name(byte) {
            return None;
        }
        match self.text.with_byte(byte) {
            Some(text) => Some(Name {
                place: self.place,
                text,
            }),
            None => None,
        }
    }

    /// What the byte leads to.
    pub(crate) fn taken(self, byte: u8) -> Taken
        ensures { Fits self.text.group → result ≡ as_name self.text byte }
    {
        self.text.as_name(byte)
    }

    /// The place of the name, if it ended with the last byte and does not pass.
    pub(crate) fn hidden<J: Judge>(self, kept: &[u16], judge: &J) -> Option<u64>
        ensures { result ≡ text_hidden (J.passes judge.now) self.place self.text kept.now }
    {
        self.text.hidden(self.place, kept, judge)
    }

    /// The class that it names, if its place is this one, and it ended with the last byte and does not pass.
    pub(crate) fn hidden_class<'k, J: Judge>(
        self,
        place: u64,
        kept: &'k [u16],
        judge: &J,
    ) -> Option<&'k [u16]>
        ensures { IfSome result (λ name. J.passes judge.now name.now ≡ false) }
    {
        if self.place == place {
            self.text.hidden_class(kept, judge)
        } else {
            None
        }
    }

    /// After the byte that it has taken.
    pub(crate) fn onward(self) -> Option<Name>
        ensures { result ≡ name_onward (Some self) }
    {
        if self.text.left == 0 {
            None
        } else {
            Some(Name {
                place: self.place,
                text: self.text.onward(),
            })
        }
    }
}

impl Row {
    /// The row behind this byte, if the text that is being read can have it.
    pub(crate) fn with_byte(self, byte: u8) -> Option<Row>
        ensures { AtFits self.at → result ≡ at_with self self.at byte }
    {
        match self.at {
            RowAt::Between => Some(self.at(self.more, RowAt::Between)),
            RowAt::Halfway(high) => Some(self.at(self.more, RowAt::Halfway(high))),
            RowAt::Text(text) => {
                if byte < 0x20 {
                    return None;
                }
                match text.with_byte(byte) {
                    Some(text) => Some(self.at(self.more, RowAt::Text(text))),
                    None => None,
                }
            }
        }
    }

    /// What the byte leads to, in a text that may be a name.
    pub(crate) fn taken(self, byte: u8) -> Taken
        ensures { AtFits self.at → result ≡ at_taken self.at byte }
    {
        match self.at {
            RowAt::Between | RowAt::Halfway(_) => Taken::Refused,
            RowAt::Text(text) => text.as_name(byte),
        }
    }

    /// The place of the row, if a name of it ended with the last byte and does not pass.
    pub(crate) fn hidden<J: Judge>(self, kept: &[u16], judge: &J) -> Option<u64>
        ensures { result ≡ at_hidden (J.passes judge.now) self.place self.at kept.now }
    {
        match self.at {
            RowAt::Between | RowAt::Halfway(_) => None,
            RowAt::Text(text) => text.hidden(self.place, kept, judge),
        }
    }

    /// The class that a name of it names, if its place is this one, and the name ended with the last byte and does not pass.
    pub(crate) fn hidden_class<'k, J: Judge>(
        self,
        place: u64,
        kept: &'k [u16],
        judge: &J,
    ) -> Option<&'k [u16]>
        ensures { IfSome result (λ name. J.passes judge.now name.now ≡ false) }
    {
        match self.at {
            RowAt::Text(text) if self.place == place => text.hidden_class(kept, judge),
            _ => None,
        }
    }

    /// After a byte that its text has taken; a text that begins has `kept` units before it.
    pub(crate) fn onward(self, byte: u8, kept: usize) -> Option<Row>
        ensures { result ≡ at_onward self self.at byte kept }
    {
        match self.at {
            RowAt::Between => {
                if in_name(byte) {
                    None
                } else {
                    Some(self.at(self.more, RowAt::Halfway(byte)))
                }
            }
            RowAt::Halfway(high) => match left_of(high, byte) {
                Some(left) => Some(self.at(self.more, RowAt::Text(Text::new(kept, left)))),
                None => None,
            },
            RowAt::Text(text) => self.text_onward(text),
        }
    }

    /// After the last byte of a text the next length, and after another one the rest of it.
    fn text_onward(self, text: Text) -> Option<Row>
        ensures { result ≡ text_onward self text }
    {
        if text.left == 0 {
            if text.group.is_first() && self.more >= 1 {
                Some(self.at(self.more - 1, RowAt::Between))
            } else {
                None
            }
        } else {
            Some(self.at(self.more, RowAt::Text(text.onward())))
        }
    }

    fn at(self, more: u16, at: RowAt) -> Row
        ensures { result ≡ record { place = self.place; more = more; at = at } }
    {
        Row {
            place: self.place,
            more,
            at,
        }
    }
}
