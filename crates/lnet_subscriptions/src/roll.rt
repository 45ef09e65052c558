//! Attaching views from the shelf, and putting them back.

ghost use Rattle.std.specs.Prelude.{◌≡◌, ◌≢◌, ◌≤◌, ◌<◌, ◌+◌, ◌^◌, ◌↔◌, [], map, None, Some, Err, IfOk, IfSome, IsSome, IsSomeAnd, OnOk, OnErr, ◌++◌, ◌∷◌, ◌-◌, ℕ, length, option_map, slice_get, slice_index_or, vec_len, vec_capacity};
ghost use Rattle.std.specs.List.{count_by, remove, insert as inserted};
ghost use Rattle.lnet_model.specs.declared.view_spec.ViewSpec.{ViewSpec as SpecValue};
ghost use Rattle.lnet_model.specs.Answers.{IsSpec, kind_for};
ghost use Rattle.lnet_model.specs.Levels.{level};
ghost use Rattle.lnet_model.specs.Networks.{IsLive};
ghost use Rattle.lnet_model.specs.declared.view_spec.ViewSpec.TheVariants.{Depth};
ghost use Rattle.lnet_hashed.specs.Views.{OthersSame};
ghost use Rattle.lnet_any.specs.AnyNets.{core_in, network_in, views_in};
ghost use Rattle.lnet_subscriptions.specs.Rolls.{Attaches, Drops, all_shelved, place_of, place_among, same_kind, spec_under};
ghost use Rattle.lnet_subscriptions.specs.Kept.{AreDetached, Follow, InStepWith, Rest, roll_of};

use crate::kinds::{is_kind, kind_of_spec};
use lnet_any::AnyNet;
use lnet_gates::Node;
use lnet_model::{ViewKind, ViewSpec};
use lnet_network::ViewId;
use lnet_store::View;
use std::alloc::AllocError;

/// Why no view was attached. Nothing changed.
#[derive(Clone, Copy, Debug, PartialEq, Eq)]
pub enum AttachError {
    /// No view of the kind is on the shelf.
    ShelfEmpty,
    /// Memory ran out.
    NoMemory,
}

/// Why no view was dropped. Nothing changed.
#[derive(Clone, Copy, Debug, PartialEq, Eq)]
pub enum DropError {
    /// No live view has the number.
    NoView,
    /// Memory ran out.
    NoMemory,
}

/// Why a view did not answer.
#[derive(Clone, Copy, Debug, PartialEq, Eq)]
pub enum AskError {
    /// No live view of the kind has the number.
    NoView,
    /// The node isn't live.
    NoNode,
}

/// The kind of the view.
fn kind_of_view(view: &Box<dyn View>) -> ViewKind
    ensures { result ≡ kind_of view.now }
{
    view.kind()
}

/// Detaches the view with the id, and puts it to the end of the shelf, where there is memory for it.
fn move_to_shelf(shelf: &mut Vec<Box<dyn View>>, net: &mut AnyNet, id: ViewId)
    requires room { vec_len shelf.old < vec_capacity shelf.old }
    requires in_step { InStepWith spec_of kept room net.old }
    requires some { IsSome (slice_index_or (views_in net.old) id.0 None) }
    ensures kinds { Some (map kind_of shelf.new.items) ≡ option_map (λ b. map kind_of shelf.old.items ++ kind_of b ∷ []) (slice_index_or (views_in net.old) id.0 None) }
    ensures detached { AreDetached spec_of shelf.old.items → AreDetached spec_of shelf.new.items }
    ensures len { vec_len shelf.new ≡ vec_len shelf.old + 1 }
    ensures capacity { vec_capacity shelf.new ≡ vec_capacity shelf.old }
    ensures others { OthersSame (views_in net.old) (views_in net.new) id.0 }
    ensures core { core_in net.new ≡ core_in net.old }
    ensures in_step { InStepWith spec_of kept room net.new }
{
    if let Some(view) = net.unsubscribe(id) {
        shelf.push_reserved(view);
    }
}

/// The views of a session: those that are attached to its network, each under a number of the whole run and the network's id,
/// and those on the shelf.
#[derive(Drop)]
pub struct Subscriptions {
    /// The live views, each by its number and spec, ascending.
    pub live: Vec<(u32, ViewSpec)>,
    /// The network's ids of the live views, in the same order.
    pub ids: Vec<ViewId>,
    /// The number that the next view gets.
    pub next: u32,
    /// The views that are not live, detached.
    pub shelf: Vec<Box<dyn View>>,
}

impl Subscriptions {
    /// The live views, each by its number and spec, ascending. Constant time.
    pub fn live(&self) -> &[(u32, ViewSpec)]
        ensures { result.now ≡ (roll_of kind_of self.now).live }
    {
        &self.live
    }

    /// The number that the next view gets. Constant time.
    pub fn next(&self) -> u32
        ensures { result ≡ (roll_of kind_of self.now).next }
    {
        self.next
    }

    /// How many views of the kind are on the shelf. Linear in the shelf.
    pub fn shelf_len(&self, kind: ViewKind) -> usize
        ensures { result ≡ count_by (same_kind kind) (roll_of kind_of self.now).shelf }
    {
        let mut count = 0;
        for i in 0..self.shelf.len() {
            if is_kind(kind, kind_of_view(&self.shelf[i])) {
                count += 1;
            }
        }
        count
    }

    /// The place of the first view of the kind on the shelf. Linear in the shelf.
    fn place_of(&self, kind: ViewKind) -> Option<usize>
        ensures { result ≡ place_of kind (map kind_of self.now.shelf.items) }
    {
        for i in 0..self.shelf.len() {
            if is_kind(kind, kind_of_view(&self.shelf[i])) {
                return Some(i);
            }
        }
        None
    }

    /// The place of the live view with the number. Linear in the live views.
    fn place_among(&self, number: u32) -> Option<usize>
        ensures { result ≡ place_among number self.now.live.items }
    {
        self.live.iter().position(|pair| pair.0 == number)
    }

    /// Gets memory for one more live view. Whatever it answers, nothing else changes.
    fn reserve_live(&mut self) -> Result<(), AllocError>
        ensures live { self.new.live.items ≡ self.old.live.items }
        ensures ids { self.new.ids.items ≡ self.old.ids.items }
        ensures next { self.new.next ≡ self.old.next }
        ensures shelf { self.new.shelf ≡ self.old.shelf }
        ensures room { OnOk result (vec_len self.new.live < vec_capacity self.new.live) }
        ensures room_ids { OnOk result (vec_len self.new.ids < vec_capacity self.new.ids) }
    {
        self.live.reserve(1)?;
        self.ids.reserve(1)?;
        Ok(())
    }

    /// Puts a view that was taken off the shelf back to its place.
    fn put_back(&mut self, at: usize, view: Box<dyn View>)
        requires place { at ≤ length self.old.shelf.items }
        requires room { vec_len self.old.shelf < vec_capacity self.old.shelf }
        ensures live { self.new.live ≡ self.old.live }
        ensures ids { self.new.ids ≡ self.old.ids }
        ensures next { self.new.next ≡ self.old.next }
        ensures shelf { self.new.shelf.items ≡ inserted self.old.shelf.items at view }
    {
        if self.shelf.insert(at, view).is_err() {
            unreachable!();
        }
    }

    /// Enters an attached view as the next live one.
    fn enter(&mut self, id: ViewId, spec: ViewSpec) -> u32
        requires room { vec_len self.old.live < vec_capacity self.old.live }
        requires room_ids { vec_len self.old.ids < vec_capacity self.old.ids }
        requires next { self.old.next < 2 ^ 32 - 1 }
        ensures number { result ≡ self.old.next }
        ensures live { self.new.live.items ≡ self.old.live.items ++ (self.old.next, spec) ∷ [] }
        ensures ids { self.new.ids.items ≡ self.old.ids.items ++ id ∷ [] }
        ensures next { self.new.next ≡ self.old.next + 1 }
        ensures shelf { self.new.shelf ≡ self.old.shelf }
    {
        let number = self.next;
        self.live.push_reserved((number, spec));
        self.ids.push_reserved(id);
        self.next = number + 1;
        number
    }

    /// Attaches the first view of the spec's kind on the shelf to the network, and tells its number: the next one. Linear in the
    /// network and the views.
    ///
    /// # Errors
    /// `ShelfEmpty` exactly where no view of the kind is on the shelf; then `NoMemory` where memory runs out. Nothing changed.
    pub fn attach(&mut self, net: &mut AnyNet, spec: ViewSpec) -> Result<u32, AttachError>
        requires rule { IsSpec spec }
        requires next { self.old.next < 2 ^ 32 - 1 }
        requires in_step { InStepWith spec_of kept room net.old }
        requires follow { Follow kind_of spec_of net.old self.old }
        ensures number { IfOk result (λ v. v ≡ (roll_of kind_of self.old).next) }
        ensures attaches { OnOk result (Attaches (roll_of kind_of self.old) spec (roll_of kind_of self.new)) }
        ensures same { OnErr result (roll_of kind_of self.new ≡ roll_of kind_of self.old) }
        ensures empty { (result ≡ Err AttachError.ShelfEmpty) ↔ (place_of (kind_for spec) (roll_of kind_of self.old).shelf ≡ None) }
        ensures core { core_in net.new ≡ core_in net.old }
        ensures in_step { InStepWith spec_of kept room net.new }
        ensures follow { Follow kind_of spec_of net.new self.new }
    {
        let Some(at) = self.place_of(kind_of_spec(spec)) else {
            return Err(AttachError::ShelfEmpty);
        };
        if self.reserve_live().is_err() {
            return Err(AttachError::NoMemory);
        }
        let view = self.shelf.remove(at);
        match net.subscribe(view, spec) {
            Ok(id) => Ok(self.enter(id, spec)),
            Err((view, _)) => {
                self.put_back(at, view);
                Err(AttachError::NoMemory)
            }
        }
    }

    /// Detaches the live view at the place, and puts it to the end of the shelf, where there is memory for it.
    fn shelve(&mut self, net: &mut AnyNet, at: usize)
        requires place { at < length self.old.live.items }
        requires room { vec_len self.old.shelf < vec_capacity self.old.shelf }
        requires in_step { InStepWith spec_of kept room net.old }
        requires follow { Follow kind_of spec_of net.old self.old }
        ensures live { self.new.live.items ≡ remove self.old.live.items at }
        ensures next { self.new.next ≡ self.old.next }
        ensures shelf { (spec : SpecValue) (number : ℕ) → slice_get self.old.live.items at ≡ Some (number, spec) → map kind_of self.new.shelf.items ≡ map kind_of self.old.shelf.items ++ kind_for spec ∷ [] }
        ensures core { core_in net.new ≡ core_in net.old }
        ensures in_step { InStepWith spec_of kept room net.new }
        ensures follow { Follow kind_of spec_of net.new self.new }
    {
        self.live.remove(at);
        let id = self.ids.remove(at);
        if let Some(view) = net.unsubscribe(id) {
            self.shelf.push_reserved(view);
        }
    }

    /// Detaches the live view with the number, and puts it to the end of the shelf. Linear in the views.
    ///
    /// # Errors
    /// `NoView` exactly where no live view has the number; then `NoMemory` where memory runs out. Nothing changed.
    pub fn drop_view(&mut self, net: &mut AnyNet, number: u32) -> Result<(), DropError>
        requires in_step { InStepWith spec_of kept room net.old }
        requires follow { Follow kind_of spec_of net.old self.old }
        ensures drops { OnOk result (Drops (roll_of kind_of self.old) number (roll_of kind_of self.new)) }
        ensures same { OnErr result (roll_of kind_of self.new ≡ roll_of kind_of self.old) }
        ensures none { (result ≡ Err DropError.NoView) ↔ (place_among number (roll_of kind_of self.old).live ≡ None) }
        ensures core { core_in net.new ≡ core_in net.old }
        ensures in_step { InStepWith spec_of kept room net.new }
        ensures follow { Follow kind_of spec_of net.new self.new }
    {
        let Some(at) = self.place_among(number) else {
            return Err(DropError::NoView);
        };
        if self.shelf.reserve(1).is_err() {
            return Err(DropError::NoMemory);
        }
        self.shelve(net, at);
        Ok(())
    }

    /// Detaches all live views, and puts them to the end of the shelf in the order of their numbers. Linear in the views.
    ///
    /// # Errors
    /// `AllocError` where memory runs out. Nothing changed.
    pub fn shelve_all(&mut self, net: &mut AnyNet) -> Result<(), AllocError>
        requires in_step { InStepWith spec_of kept room net.old }
        requires follow { Follow kind_of spec_of net.old self.old }
        ensures shelved { OnOk result (roll_of kind_of self.new ≡ all_shelved (roll_of kind_of self.old)) }
        ensures rest { OnOk result (Rest spec_of self.new) }
        ensures same { OnErr result (roll_of kind_of self.new ≡ roll_of kind_of self.old) }
        ensures follow { OnErr result (Follow kind_of spec_of net.new self.new) }
        ensures core { core_in net.new ≡ core_in net.old }
        ensures in_step { InStepWith spec_of kept room net.new }
    {
        self.shelf.reserve(self.live.len())?;
        for i in 0..self.ids.len() {
            move_to_shelf(&mut self.shelf, net, self.ids[i]);
        }
        self.live.clear();
        self.ids.clear();
        Ok(())
    }

    /// The level that the live depth view with the number keeps for the node. Linear in the live views.
    ///
    /// # Errors
    /// `NoView` exactly where no live depth view has the number, else `NoNode` exactly where the node isn't live.
    pub fn level(&self, net: &AnyNet, number: u32, n: Node) -> Result<u32, AskError>
        requires in_step { InStepWith spec_of kept room net.now }
        requires follow { Follow kind_of spec_of net.now self.now }
        ensures level { IfOk result (λ l. (l ≡ level (network_in net.now) n.0) × IsLive (network_in net.now) n.0 × (spec_under number (roll_of kind_of self.now).live ≡ Some Depth)) }
        ensures no_view { (result ≡ Err AskError.NoView) ↔ (spec_under number (roll_of kind_of self.now).live ≢ Some Depth) }
        ensures no_node { result ≡ Err AskError.NoNode → IsLive (network_in net.now) n.0 → ⊥ }
    {
        let Some(id) = self.depth_id(net, number) else {
            return Err(AskError::NoView);
        };
        match net.level(id, n) {
            Some(level) => Ok(level),
            None => Err(AskError::NoNode),
        }
    }

    /// The network's id of the live depth view with the number.
    fn depth_id(&self, net: &AnyNet, number: u32) -> Option<ViewId>
        requires follow { Follow kind_of spec_of net.now self.now }
        ensures some { IsSome result ↔ (spec_under number self.now.live.items ≡ Some Depth) }
        ensures stands { IfSome result (λ id. IsSomeAnd (slice_index_or (views_in net.now) id.0 None) (λ b. spec_of b ≡ Some Depth)) }
    {
        let _net = net;
        let at = self.place_among(number)?;
        match self.live[at].1 {
            ViewSpec::Depth => Some(self.ids[at]),
            _ => None,
        }
    }
}
