//! Views: what follows a network event by event.

ghost use Rattle.std.specs.Prelude.{◌≡◌, ℕ, ◌+◌, ◌≤◌, OnOk, OnErr, IfSome, Option, None, Some, option_map, length};
ghost use Rattle.lnet_model.specs.Networks.{NetworkValue, live_count};
ghost use Rattle.lnet_model.specs.Changes.{was, IsEvent};
ghost use Rattle.lnet_model.specs.Dags.{IsDag, AreBelow, numbers_of};
ghost use Rattle.lnet_model.specs.Answers.{Answer, InStep, IsSpec, kind_for, level_in, parents_in, cuts_in, item_in, next_in, IsListed};
ghost use Rattle.lnet_model.specs.Visits.{visit_bound};
ghost use Rattle.lnet_model.specs.declared.view_spec.ViewKind.{ViewKind};
ghost use Rattle.lnet_model.specs.declared.view_spec.ViewSpec.{ViewSpec};

use crate::look::{Look, Visits};
use crate::store::Store;
use lnet_gates::Node;
use lnet_model::{Cut, Event, ViewKind, ViewSpec};
use std::alloc::AllocError;

/// What keeps an answer for each live node of a network, and is told each change of a node.
///
/// A view is detached, or attached for a spec of its kind. After each event its answers are those of the definitions on the
/// network as it stands: also where gates aren't in normal form, or two gates are equal.
pub trait View: Drop {
    /// Its kind.
    ghost kind_of: { Self → ViewKind };

    /// What it is attached for; none while it is detached.
    ghost spec_of: { Self → Option ViewSpec };

    /// The answer that it keeps for each number; none where it keeps none.
    ghost kept: { Self → ℕ → Option Answer };

    /// For how many numbers, from 0, it has memory.
    ghost room: { Self → ℕ };

    /// Its kind, which never changes. Constant time.
    fn kind(&self) -> ViewKind
        ensures { result ≡ kind_of self.now };

    /// What it is attached for; `None` exactly while it is detached, and then it keeps no answer. Constant time.
    fn spec(&self) -> Option<ViewSpec>
        ensures value { result ≡ spec_of self.now }
        ensures silent { spec_of self.now ≡ None → (n : ℕ) → kept self.now n ≡ None };

    /// Attaches the detached view to the store's network, for a spec of its kind; a cut rule has 3 to 8 leaves and a limit
    /// of 1 to 16. Refused for want of memory, it stays detached. Linear in the store's numbers and fanins for levels and
    /// fanouts.
    fn attach(&mut self, store: &Store, spec: ViewSpec) -> Result<(), AllocError>
        requires detached { spec_of self.old ≡ None }
        requires of_kind { kind_for spec ≡ kind_of self.old }
        requires rule { IsSpec spec }
        ensures kind { kind_of self.new ≡ kind_of self.old }
        ensures spec { OnOk result (spec_of self.new ≡ Some spec) }
        ensures in_step { OnOk result (InStep (spec_of self.new) (kept self.new) store.now.network) }
        ensures grows { room self.old ≤ room self.new }
        ensures room { OnOk result (numbers_of store.now.network ≤ room self.new) }
        ensures refused { OnErr result (spec_of self.new ≡ None) }
        ensures empty { OnErr result ((n : ℕ) → kept self.new n ≡ None) };

    /// Detaches the view, and drops its answers. It keeps its memory, and takes none.
    fn detach(&mut self)
        ensures kind { kind_of self.new ≡ kind_of self.old }
        ensures spec { spec_of self.new ≡ None }
        ensures empty { (n : ℕ) → kept self.new n ≡ None }
        ensures grows { room self.old ≤ room self.new };

    /// Gets memory for at least so many numbers. Whatever it answers, the view keeps its spec and its answers.
    fn reserve(&mut self, numbers: u32) -> Result<(), AllocError>
        ensures kind { kind_of self.new ≡ kind_of self.old }
        ensures spec { spec_of self.new ≡ spec_of self.old }
        ensures kept { (n : ℕ) → kept self.new n ≡ kept self.old n }
        ensures grows { room self.old ≤ room self.new }
        ensures room { OnOk result (numbers ≤ room self.new) };

    /// Brings the answers in step with the network after the event. The view is in step with the network before the event,
    /// and has memory for each number that is live before or after it. It takes no memory.
    ///
    /// The reads that it counts are at most one, and two for each place in the fanout of a node whose answer the event
    /// changes; of a fanout view one.
    fn after(&mut self, look: Look, event: &Event, visits: &mut Visits)
        requires before { IsDag (was event.now look.network) }
        requires in_step { InStep (spec_of self.old) (kept self.old) (was event.now look.network) }
        requires event { IsEvent event.now look.network }
        requires room { AreBelow look.network (room self.old) }
        requires room_before { AreBelow (was event.now look.network) (room self.old) }
        requires stamp { visits.old.stamp ≡ look.stamp }
        ensures kind { kind_of self.new ≡ kind_of self.old }
        ensures spec { spec_of self.new ≡ spec_of self.old }
        ensures in_step { InStep (spec_of self.new) (kept self.new) look.entry.network }
        ensures room { room self.old ≤ room self.new }
        ensures stamp { visits.new.stamp ≡ visits.old.stamp }
        ensures visits { visits.new.count ≤ visits.old.count + visit_bound event.now look.entry.network (spec_of self.old) };

    /// The level of the node; `None` exactly where the view is detached, keeps no levels, or the node isn't live. Constant
    /// time.
    fn level(&self, n: Node) -> Option<u32>
        ensures { result ≡ level_in (kept self.now n.0) };

    /// How many pairs of a parent and a slot the fanout of the node has; `None` exactly where the view is detached, keeps
    /// no fanouts, or the node isn't live. Constant time.
    fn fanout_len(&self, n: Node) -> Option<u32>
        ensures { result ≡ option_map length (parents_in (kept self.now n.0)) };

    /// Pair `i` of the node's fanout, ascending by parent, then by slot; `None` exactly where `fanout_len` is `None` or `i`
    /// isn't below it.
    fn fanout_at(&self, n: Node, i: u32) -> Option<(Node, u8)>
        ensures { option_map (λ p. (p.0.0, p.1)) result ≡ item_in (parents_in (kept self.now n.0)) i };

    /// The pair of the node's fanout after `last`, which is one of them, or the first pair where `last` is `None`; `None`
    /// exactly where there is none. A view that keeps fanouts answers in constant time; this body, which asks `fanout_at`
    /// for one pair after another, is linear in the fanout.
    fn fanout_next(&self, n: Node, last: Option<(Node, u8)>) -> Option<(Node, u8)>
        requires listed { IfSome last (λ p. IsListed (parents_in (kept self.now n.0)) (p.0.0, p.1)) }
        ensures { option_map (λ p. (p.0.0, p.1)) result ≡ next_in (parents_in (kept self.now n.0)) (option_map (λ p. (p.0.0, p.1)) last) }
    {
        let len = self.fanout_len(n)?;
        let mut is_next = last.is_none();
        for i in 0..len {
            let pair = self.fanout_at(n, i);
            if is_next {
                return pair;
            }
            is_next = pair == last;
        }
        None
    }

    /// How many cuts the node has; `None` exactly where the view is detached, keeps no cuts, or the node isn't live. Constant
    /// time.
    fn cut_len(&self, n: Node) -> Option<u8>
        ensures { result ≡ option_map length (cuts_in (kept self.now n.0)) };

    /// Cut `i` of the node, in the order of its list; `None` exactly where `cut_len` is `None` or `i` isn't below it.
    fn cut_at(&self, n: Node, i: u8) -> Option<Cut>
        ensures { result ≡ item_in (cuts_in (kept self.now n.0)) i };
}
