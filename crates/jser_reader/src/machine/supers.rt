//! Superclass places: the end of a descriptor, and of those round it whose superclass it is.
ghost use Rattle.std.specs.Prelude.{◌≡◌, ◌∷◌, IsTrue, slice_get, None};
ghost use Rattle.std.specs.Option.{ForSome};
ghost use Rattle.jser_table.specs.Entries.{is_closed, chain_at};
ghost use Rattle.jser_verdict.specs.Reasons.{handle_space};
ghost use Rattle.jser_verdict.specs.Verdicts.{told_if};
ghost use Rattle.jser_reader.specs.Handlers.{Tells, is_full};
ghost use Rattle.jser_reader.specs.Fitting.{HasDescriptor};
ghost use Rattle.jser_reader.specs.declared.frame.Frame.{Frame};
ghost use Rattle.jser_reader.specs.Stacks.{tail_of};
ghost use Rattle.jser_reader.specs.Frames.{head_layer};
ghost use Rattle.jser_reader.specs.Closing.{ClosesTop, ClosesOne, PopsLayer, closing_reason, closed_state, made_state};

use crate::frame::{Frame, Owner, Role};
use crate::machine::Machine;
use crate::machine::flow::Flow;
use jser_table::{Class, KeptLayer, LayerKind};

/// What came of closing a descriptor.
#[derive(Clone, Copy)]
enum Closing {
    /// No descriptor waits for this one: the owner's data has begun, a value has ended, or the machine has stopped.
    Ended(Flow),
    /// It is the superclass of the descriptor that is on top now.
    Superclass(u32),
}

impl Machine {
    /// Takes the layer of the innermost open descriptor, and puts that of the next one in its place.
    #[tactic(auto, using(crate::proofs::CloseLemmas::next_layer, crate::proofs::CloseLemmas::last_layer, crate::proofs::LayerLemmas::layer_taken, crate::proofs::LayerLemmas::no_layers))]
    #[inline(always)]
    fn pop_layer(&mut self) -> KeptLayer
        ensures layer { result ≡ head_layer self.old.layers }
        ensures rest { PopsLayer self.old self.new }
    {
        let outer = match self.outer.pop() {
            Some(layer) => layer,
            None => KeptLayer::bare(LayerKind::Other, 0),
        };
        std::mem::replace(&mut self.layer, outer)
    }

    /// Closes the descriptor on top, which has this number, and takes it off.
    #[tactic(auto, using(crate::proofs::CloseLemmas::is_open))]
    #[inline(always)]
    fn close_top(&mut self, number: u32, role: Role, parent: Option<u32>)
        requires top { self.old.frames ≡ Frame.Descriptor number role ∷ tail_of self.old.frames }
        requires parent { ForSome parent (λ p. IsTrue (is_closed (slice_get self.old.table.entries p))) }
        ensures { ClosesTop number role parent self.old self.new }
    {
        let _ = &self.alloc;
        let layer = self.pop_layer();
        self.frames.pop();
        self.table.close_kept(number, layer, parent);
    }

    /// The class with this number has been read: its owner's handle is assigned.
    #[tactic(auto, using(crate::proofs::SuperLemmas::owner_found, crate::proofs::SuperLemmas::not_there, crate::proofs::SuperLemmas::not_class, crate::proofs::SuperLemmas::not_open))]
    #[inline(always)]
    fn owner_of(&mut self, number: u32, owner: Owner) -> Flow
        requires closed { IsTrue (is_closed (slice_get self.old.table.entries number)) }
        ensures { Tells (told_if (is_full self.old) handle_space None) (made_state self.old owner (chain_at self.old.table.entries number)) result self.old self.new }
    {
        self.owner = owner;
        match self.table.class_at(number) {
            Class::Closed(chain) => self.begin_owner(chain),
            Class::NotThere => unreachable!(),
            Class::NoClass => unreachable!(),
            Class::Open => unreachable!(),
        }
    }

    /// Closes the descriptor on top, and begins what waited for it, if that is not the descriptor round it.
    #[tactic(auto, using(crate::proofs::SuperLemmas::value_closed, crate::proofs::SuperLemmas::owner_closed, crate::proofs::SuperLemmas::super_closed, crate::proofs::SuperLemmas::entry_closed))]
    #[inline(always)]
    fn close_one(&mut self, number: u32, role: Role, parent: Option<u32>) -> Closing
        requires top { self.old.frames ≡ Frame.Descriptor number role ∷ tail_of self.old.frames }
        requires parent { ForSome parent (λ p. IsTrue (is_closed (slice_get self.old.table.entries p))) }
        ensures { ClosesOne result parent self.old self.new }
    {
        self.close_top(number, role, parent);
        match role {
            Role::Value => Closing::Ended(self.ended()),
            Role::ClassOf(owner) => Closing::Ended(self.owner_of(number, owner)),
            Role::Superclass { .. } => Closing::Superclass(number),
        }
    }

    /// The superclass place of the descriptor on top has ended, with this class in it, or with NULL: the descriptor is
    /// closed, and those round it whose superclass it is; and what waited for them goes on.
    #[tactic(auto, using(crate::proofs::SuperLemmas::closes_last, crate::proofs::SuperLemmas::closes_more, crate::proofs::SuperLemmas::closes_shorter, crate::proofs::SuperLemmas::closes_open, crate::proofs::SuperLemmas::closing_starts, crate::proofs::SuperLemmas::none_open, crate::proofs::SuperLemmas::other_open))]
    #[inline(always)]
    pub(super) fn close(&mut self, parent: Option<u32>) -> Flow
        requires { ForSome parent (λ p. IsTrue (is_closed (slice_get self.old.table.entries p))) }
        ensures { Tells (closing_reason self.old) (closed_state self.old parent) result self.old self.new }
    {
        let mut above = parent;
        'closing: while let Some(frame) = self.frames.top() {
            let Frame::Descriptor { number, role } = frame else {
                return self.ended();
            };
            match self.close_one(number, role, above) {
                Closing::Ended(flow) => return flow,
                Closing::Superclass(closed) => above = Some(closed),
            }
        }
        self.ended()
    }
}
