//! The depth of a network.

ghost use Rattle.std.specs.Prelude.{◌≡◌, IfOk, Some};
ghost use Rattle.lnet_model.specs.Answers.{InStep};
ghost use Rattle.lnet_model.specs.Levels.{level, depth as depth_of};
ghost use Rattle.lnet_model.specs.declared.view_spec.ViewSpec.TheVariants.{Depth};

use lnet_gates::Node;
use lnet_store::{Store, View, ViewSpec};
use lnet_views::DepthView;
use std::alloc::{AllocError, Global};

/// The level of the node, 0 where it isn't live. The view keeps the levels of the store's nodes. Constant time.
fn level_of(view: &DepthView, store: &Store, n: Node) -> u32
    requires spec { ⟦<DepthView as View>⟧.spec_of view.now ≡ Some Depth }
    requires in_step { InStep (⟦<DepthView as View>⟧.spec_of view.now) (⟦<DepthView as View>⟧.kept view.now) store.now.network }
    ensures { result ≡ level store.now.network n.0 }
{
    view.level(n).unwrap_or(0)
}

/// The greatest level of an output's node, 0 where there is no output. The view keeps the levels of the store's nodes. Linear in
/// the outputs.
fn greatest_level(view: &DepthView, store: &Store) -> u32
    requires spec { ⟦<DepthView as View>⟧.spec_of view.now ≡ Some Depth }
    requires in_step { InStep (⟦<DepthView as View>⟧.spec_of view.now) (⟦<DepthView as View>⟧.kept view.now) store.now.network }
    ensures { result ≡ depth_of store.now.network }
{
    let mut greatest = 0;
    for k in 0..store.output_count() {
        if let Some(signal) = store.output(k) {
            greatest = level_of(view, store, signal.node).max(greatest);
        }
    }
    greatest
}

/// The network's depth: the greatest level of an output's node, 0 where there is no output. It takes memory for the levels, and
/// gives it back; it is refused only where there is none. Linear in the network's nodes, fanins and outputs.
pub fn depth(store: &Store, alloc: Global) -> Result<u32, AllocError>
    ensures { IfOk result (λ d. d ≡ depth_of store.now.network) }
{
    let mut view = DepthView::new(alloc)?;
    view.attach(store, ViewSpec::Depth)?;
    Ok(greatest_level(&view, store))
}
