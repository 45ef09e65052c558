//! The depth view: the level of each node.

ghost use Rattle.std.specs.Prelude.{◌≡◌, IfOk, refl};

use crate::following::Follow;
use crate::rule::Rule;
use lnet_gates::{Gate, Node};
use lnet_model::{Cut, Event, ViewKind, ViewSpec};
use lnet_store::{Look, Store, View, Visits};
use std::alloc::{AllocError, Global};

/// The value of a rule that asks for levels alone: nothing.
#[derive(Clone, Copy, Debug, PartialEq, Eq)]
pub struct NoValue;

/// The rule that asks for levels alone.
#[derive(Clone, Copy, Debug, PartialEq, Eq)]
pub struct LevelsAlone;

impl Rule for LevelsAlone {
    type Value = NoValue;

    ghost first_of = { λ r n. record {} };

    ghost gives = { λ r n g rs. record {} };

    fn first(&self, n: Node) -> NoValue {
        NoValue
    }

    fn of(&self, n: Node, gate: &Gate, values: &[NoValue]) -> NoValue {
        NoValue
    }

    ghost agrees = { λ r n g V W same. refl };
}

/// A view that keeps the level of each live node: 0 for the constant and the inputs, and for a gate one more than the greatest
/// of its fanins' levels.
///
/// Memory: four lists of an optional `u32` each, by number or by level; and the stack while it is attached.
pub struct DepthView {
    follow: Follow<LevelsAlone>,
}

impl Drop for DepthView {
    /// Lets its fields go. Where a value ends this is called; a derived one would be written out there.
    fn drop(self) {
        let Self { follow: _ } = self;
    }
}

impl DepthView {
    ghost use Rattle.lnet_views.specs.DepthViews.{depth_spec};

    /// A detached view, with memory for no number. It takes no memory yet.
    pub fn new(alloc: Global) -> Result<DepthView, AllocError>
        ensures detached { IfOk result (λ v. ⟦<DepthView as View>⟧.spec_of v ≡ None) }
    {
        let follow = Follow::new(alloc)?;
        Ok(DepthView { follow })
    }
}

impl View for DepthView {
    ghost use Rattle.lnet_model.specs.declared.view_spec.ViewKind.TheVariants.{Depth};
    ghost use Rattle.lnet_views.specs.Follows.{answers_in, room_in};
    ghost use Rattle.lnet_views.specs.DepthViews.{depth_spec, levels_in};

    ghost kind_of = { λ v. Depth };

    ghost spec_of = { λ v. depth_spec v.follow.rule };

    ghost kept = { λ v. levels_in (answers_in v.follow.kept) };

    ghost room = { λ v. room_in v.follow.kept };

    fn kind(&self) -> ViewKind {
        ViewKind::Depth
    }

    fn spec(&self) -> Option<ViewSpec> {
        if self.follow.is_attached() {
            Some(ViewSpec::Depth)
        } else {
            None
        }
    }

    fn attach(&mut self, store: &Store, spec: ViewSpec) -> Result<(), AllocError> {
        self.follow.attach(store, LevelsAlone)?;
        Ok(())
    }

    fn detach(&mut self) {
        self.follow.detach();
    }

    fn reserve(&mut self, numbers: u32) -> Result<(), AllocError> {
        self.follow.reserve(numbers)
    }

    fn after(&mut self, look: Look, event: &Event, visits: &mut Visits) {
        self.follow.after(look, event, visits);
    }

    fn level(&self, n: Node) -> Option<u32> {
        self.follow.level(n)
    }

    fn fanout_len(&self, n: Node) -> Option<u32> {
        None
    }

    fn fanout_at(&self, n: Node, i: u32) -> Option<(Node, u8)> {
        None
    }

    fn cut_len(&self, n: Node) -> Option<u8> {
        None
    }

    fn cut_at(&self, n: Node, i: u8) -> Option<Cut> {
        None
    }
}
