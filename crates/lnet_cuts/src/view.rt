//! The cut view: the cuts of each node.

ghost use Rattle.std.specs.Prelude.{◌≡◌, IfOk, None, option_map};
ghost use Rattle.lnet_model.specs.Answers.{kind_for};
ghost use Rattle.lnet_model.specs.declared.view_spec.ViewKind.TheVariants as kinds;
ghost use Rattle.lnet_model.specs.declared.view_spec.ViewSpec.TheVariants as specs;

use crate::rule::CutsByRule;
use lnet_gates::Node;
use lnet_model::{Cut, CutRule, Event, ViewKind, ViewSpec};
use lnet_store::{Look, Store, View, Visits};
use lnet_views::Follow;
use std::alloc::{AllocError, Global};

/// A view that keeps the cuts of each live node by a cut rule, and its level.
///
/// Memory: a list of 1,232 bytes for each number; four lists of an optional `u32` each, by number or by level; and the stack
/// while it is attached.
#[derive(Drop)]
pub struct CutView {
    follow: Follow<CutsByRule>,
    rule: Option<CutRule>,
    ghost same: { rule ≡ option_map (λ r. r.rule) follow.rule },
}

impl CutView {
    /// A detached view, with memory for no number. It takes no memory yet.
    pub fn new(alloc: Global) -> Result<CutView, AllocError>
        ensures detached { IfOk result (λ v. ⟦<CutView as View>⟧.spec_of v ≡ None) }
    {
        let follow = Follow::new(alloc)?;
        Ok(CutView { follow, rule: None })
    }
}

/// The cut rule of a spec for cuts.
fn rule_of(spec: ViewSpec) -> CutRule
    requires { kind_for spec ≡ kinds.Cuts }
    ensures { spec ≡ specs.Cuts result }
{
    match spec {
        ViewSpec::Cuts(rule) => rule,
        _ => unreachable!(),
    }
}

impl View for CutView {
    ghost use Rattle.lnet_model.specs.declared.view_spec.ViewKind.TheVariants.{Cuts};
    ghost use Rattle.lnet_views.specs.Follows.{answers_in, room_in};
    ghost use Rattle.lnet_cuts.specs.CutViews.{cut_spec, lists_in};

    ghost kind_of = { λ v. Cuts };

    ghost spec_of = { λ v. cut_spec v.rule };

    ghost kept = { λ v. lists_in (answers_in v.follow.kept) };

    ghost room = { λ v. room_in v.follow.kept };

    fn kind(&self) -> ViewKind {
        ViewKind::Cuts
    }

    fn spec(&self) -> Option<ViewSpec> {
        let _attached = self.follow.is_attached();
        match self.rule {
            Some(rule) => Some(ViewSpec::Cuts(rule)),
            None => None,
        }
    }

    fn attach(&mut self, store: &Store, spec: ViewSpec) -> Result<(), AllocError> {
        let _live_count = store.live_count();
        let rule = rule_of(spec);
        self.follow.attach(store, CutsByRule::new(rule))?;
        self.rule = Some(rule);
        Ok(())
    }

    fn detach(&mut self) {
        self.follow.detach();
        self.rule = None;
    }

    fn reserve(&mut self, numbers: u32) -> Result<(), AllocError> {
        self.follow.reserve(numbers)
    }

    fn after(&mut self, look: Look, event: &Event, visits: &mut Visits) {
        let _live_count = look.live_count();
        self.follow.after(look, event, visits);
    }

    fn level(&self, n: Node) -> Option<u32> {
        None
    }

    fn fanout_len(&self, n: Node) -> Option<u32> {
        None
    }

    fn fanout_at(&self, n: Node, i: u32) -> Option<(Node, u8)> {
        None
    }

    fn cut_len(&self, n: Node) -> Option<u8> {
        match self.follow.value(n) {
            Some(list) => Some(list.as_slice().len() as u8),
            None => None,
        }
    }

    fn cut_at(&self, n: Node, i: u8) -> Option<Cut> {
        match self.follow.value(n) {
            Some(list) => list.cut_at(i),
            None => None,
        }
    }
}
