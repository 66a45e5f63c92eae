//! Options of a line that exclude one another. clap is told of no rule between arguments, so that what it takes is known in
//! full.
ghost use Rattle.std.specs.Prelude.{◌≡◌};
ghost use Rattle.jser_line.specs.Clashes.{clash_in, clash_of, clash_of_forms, clash_of_layout, first_clash, form_in, is_named, no_forms};
ghost use Rattle.jser_line.specs.Args.{filters_asked};
ghost use Rattle.jser_line.specs.App.{line_asks, records_asked};

use crate::args::{Filters, Forms};
use crate::line::Line;
use crate::records::Records;
use jser_inputs::Form;

/// Two options that are both given, and exclude one another.
#[derive(Clone, Copy, PartialEq, Eq, Debug)]
pub enum Clash {
    /// `--filter` and `--filter-file`.
    Filters,
    /// `--hex` and `--base64`.
    HexAndBase64,
    /// `--hex` and `--base64url`.
    HexAndBase64Url,
    /// `--base64` and `--base64url`.
    BothBase64,
    /// `--frames` and another form.
    FramesAndForm,
    /// `--sized` and another form.
    SizedAndForm,
    /// `--frames` or `--sized`, and `--zero` or `--field`, which are of lines.
    LinesAlone,
    /// `--copy`, and a form that is not base64.
    Base64Alone,
    /// `--copy` and `--pass`.
    CopyAndPass,
}

impl Forms {
    /// No form: the input is bytes as they are.
    fn none() -> Forms
        ensures { result ≡ no_forms }
    {
        Forms {
            hex: false,
            base64: false,
            base64url: false,
        }
    }

    /// The form. Where several are asked for, which is a clash, it is the first of hexadecimal, base64 and base64url.
    pub fn form(self) -> Form
        ensures { result ≡ form_in self }
    {
        if self.hex {
            Form::Hex
        } else if self.base64 {
            Form::Base64
        } else if self.base64url {
            Form::Base64Url
        } else {
            Form::Binary
        }
    }

    /// Whether one is asked for.
    fn is_named(self) -> bool
        ensures { result ≡ is_named self }
    {
        self.hex || self.base64 || self.base64url
    }
}

impl Line {
    /// The first two options that exclude one another.
    pub fn clash(&self) -> Option<Clash>
        ensures { result ≡ clash_in (line_asks self.now) }
    {
        match self {
            Line::Check { filters, forms, .. }
            | Line::List { filters, forms, .. }
            | Line::Scan { filters, forms, .. }
            | Line::Explain { filters, forms, .. } => clash_of(filters, *forms),
            Line::Records(records) => first_clash(
                clash_of(&records.filters, records.forms),
                clash_of_layout(records),
            ),
            Line::Find(find) => clash_of(&find.filters, Forms::none()),
            Line::Show { forms, .. } | Line::Suggest { forms, .. } => clash_of_forms(*forms),
        }
    }
}

/// The clash of a filter and a form.
fn clash_of(filters: &Filters, forms: Forms) -> Option<Clash>
    ensures { result ≡ clash_of (filters_asked filters.now) forms }
{
    match (&filters.text, &filters.file) {
        (Some(_), Some(_)) => Some(Clash::Filters),
        _ => clash_of_forms(forms),
    }
}

/// The first of two.
fn first_clash(first: Option<Clash>, second: Option<Clash>) -> Option<Clash>
    ensures { result ≡ first_clash first second }
{
    match first {
        Some(clash) => Some(clash),
        None => second,
    }
}

/// The clash of words that say how records lie in an input.
fn clash_of_layout(records: &Records) -> Option<Clash>
    ensures { result ≡ clash_of_layout (records_asked records.now) }
{
    if records.frames && (records.sized || records.forms.is_named()) {
        Some(Clash::FramesAndForm)
    } else if records.sized && records.forms.is_named() {
        Some(Clash::SizedAndForm)
    } else if (records.frames || records.sized) && (records.zero || records.field.is_some()) {
        Some(Clash::LinesAlone)
    } else if records.copy && (records.frames || records.sized || records.forms.hex) {
        Some(Clash::Base64Alone)
    } else if records.copy && records.pass {
        Some(Clash::CopyAndPass)
    } else {
        None
    }
}

/// The clash of two forms.
fn clash_of_forms(forms: Forms) -> Option<Clash>
    ensures { result ≡ clash_of_forms forms }
{
    if forms.hex && forms.base64 {
        Some(Clash::HexAndBase64)
    } else if forms.hex && forms.base64url {
        Some(Clash::HexAndBase64Url)
    } else if forms.base64 && forms.base64url {
        Some(Clash::BothBase64)
    } else {
        None
    }
}
