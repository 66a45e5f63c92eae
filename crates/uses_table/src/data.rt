//! The data of an object, section after section.
ghost use Rattle.std.specs.Prelude.{◌≡◌, ◌<◌, length, slice_get, option_map};
ghost use Rattle.std.specs.List.{list_any};
ghost use Rattle.jser_table.specs.Chains.{chain_in, has_write_method};
ghost use Rattle.jser_table.specs.Codes.{size_of, primitive_codes};
ghost use Rattle.jser_table.specs.Sections.{HasSection, layer_of, filled_layers, IsOn};

use jser_table::{ChainNumber, SectionNumber, Sections, Table};

/// Whether some class of an object's chain writes an annotation into its data.
pub fn has_annotation(table: &Table, chain: ChainNumber) -> bool
    requires { chain < length table.now.chains }
    ensures { result ≡ list_any (λ layer. has_write_method layer.flags) (filled_layers (chain_in table.now.chains chain)) }
{
    let Some(Sections { first, last }) = table.sections(chain) else {
        return false;
    };
    let mut at = Some(first);
    'sections: while let Some(section) = at {
        if table.section(section).is_annotated {
            return true;
        }
        at = table.next_section(last, section);
    }
    false
}

/// What `has_annotation` tells, by steps that keep the sections which come next.
pub fn finds_annotation(table: &mut Table, chain: ChainNumber) -> bool
    requires { chain < length table.old.chains }
    ensures is { result ≡ list_any (λ layer. has_write_method layer.flags) (filled_layers (chain_in table.old.chains chain)) }
    ensures same { table.new ≡ table.old }
{
    let Some(Sections { first, last }) = table.sections(chain) else {
        return false;
    };
    let mut at = Some(first);
    'sections: while let Some(section) = at {
        if table.section(section).is_annotated {
            return true;
        }
        at = table.pass_section(last, section);
    }
    false
}

/// How many bytes the first raw value of a section has, if it has one.
pub fn first_size(table: &Table, section: SectionNumber) -> Option<u8>
    requires { HasSection table.now.chains section }
    ensures { result ≡ option_map size_of (slice_get (primitive_codes (layer_of table.now.chains section).codes) 0) }
{
    if table.section(section).prims == 0 {
        return None;
    }
    Some(table.prim_size(section, 0))
}
