//! A network with a view, told each change.

ghost use Rattle.std.specs.Prelude.{◌≡◌};
ghost use Rattle.lnet_hashed.specs.Watches.{AreFitBy};

use crate::signals::coded;
use lnet_gates::{AigGates, Node};
use lnet_network::{Network, ViewId};
use lnet_store::{View, ViewKind, ViewSpec};
use lnet_views::DepthView;
use std::test::Fail;

/// Subscribes a detached depth view.
fn follow(network: &mut Network<AigGates>, view: Box<dyn View>) -> Result<ViewId, Fail>
    requires in_step { AreFitBy ⟦<dyn View as View>⟧ network.old.core.network network.old.core.room network.old.watch }
    ensures in_step { AreFitBy ⟦<dyn View as View>⟧ network.new.core.network network.new.core.room network.new.watch }
{
    if view.spec().is_some() {
        return Err("attached".into());
    }
    match view.kind() {
        ViewKind::Depth => match network.subscribe(view, ViewSpec::Depth) {
            Ok(id) => Ok(id),
            Err(_) => Err("refused".into()),
        },
        _ => Err("another kind".into()),
    }
}

#[test]
fn a_view_follows(rt: HostRuntime) -> Result<(), Fail> {
    let mut network: Network<AigGates> = Network::new(rt.alloc())?;
    let a = network.input().ok().ok_or("refused")?;
    let levels: Box<dyn View> = Box::new(rt.alloc(), DepthView::new(rt.alloc())?)?;
    let id = follow(&mut network, levels)?;
    assert!(rt; network.is_live(Node(0)) && network.is_live(Node(1)));
    let b = network.input().ok().ok_or("refused")?;
    assert!(rt; network.is_live(a.node) && network.is_live(b.node));
    let apart = network.xor(a, b).ok().ok_or("refused")?;
    assert_eq!(rt; network.level(id, apart.node), Some(2));
    assert_eq!(rt; network.visits(id), Some(1));
    assert!(rt; network.view(id).is_some() && network.unsubscribe(id).is_some());
    assert!(rt; network.view(id).is_none());
    Ok(())
}
