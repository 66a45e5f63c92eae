//! The first bytes of a text: all of them, or one more than a limit allows.
ghost use Rattle.std.specs.Prelude.{◌≡◌, [], IfOk};
ghost use Rattle.jser_shown.specs.Counting.{tally_lines};
ghost use Rattle.jser_commands.specs.Limits.{BeginsText, IsFrontOf};
ghost use Rattle.jser_commands.specs.Lines.{words_on};

use crate::list::write_names;
use jser_filter::Filter;
use jser_index::{GraphFault, Index};
use jser_names::NameCounts;
use jser_prim::Front;
use std::alloc::{AllocError, Global};

/// The first bytes of a text.
#[derive(Drop)]
pub struct Start {
    /// These bytes.
    pub bytes: Vec<u8>,
    /// Whether they are all. Where they are not, and are no more than the limit allows, memory had run out.
    pub whole: bool,
}

/// The first bytes of the text of `show` of a stream: one more than the limit allows, if it has so many. The walk along the
/// stream stops there. Takes memory for these bytes, and what `Index::show` takes.
///
/// # Errors
///
/// Where memory ran out.
pub fn start_of_show(
    alloc: Global,
    values: bool,
    graph: &Index<&[u8]>,
    limit: u64,
) -> Result<Start, AllocError>
    ensures { IfOk result (IsFrontOf values graph.now) }
{
    let mut front = front_for(alloc, limit);
    match graph.show(alloc, values, &mut front) {
        Ok(_) => Ok(Start {
            bytes: front.into_bytes(),
            whole: true,
        }),
        Err(GraphFault::Write { .. }) => Ok(Start {
            bytes: front.into_bytes(),
            whole: false,
        }),
        Err(GraphFault::OutOfMemory { .. }) => Err(AllocError),
    }
}

/// The first bytes of the text of `list` of these names, with what the filter says of each: one more than the limit allows, if
/// it has so many. Takes memory for these bytes.
pub fn start_of_list(alloc: Global, filter: &Filter, names: &NameCounts, limit: u64) -> Start
    ensures { BeginsText result (tally_lines (words_on filter.now) names.now) }
{
    let mut front = front_for(alloc, limit);
    match write_names(filter, names, &mut front) {
        Ok(()) => Start {
            bytes: front.into_bytes(),
            whole: true,
        },
        Err(_) => Start {
            bytes: front.into_bytes(),
            whole: false,
        },
    }
}

/// Takes one byte more than the limit allows.
fn front_for(alloc: Global, limit: u64) -> Front
    ensures { result.bytes ≡ [] }
{
    Front::new(alloc, (limit as usize).saturating_add(1))
}
