//! A view of the test's own that counts how often it is asked, in a run.

ghost use Rattle.std.specs.Prelude.{◌≡◌};

use crate::runs::{TWO, owned};
use lnet_edge::{MemoryFiles, MemorySink};
use lnet_gates::Node;
use lnet_model::{Cut, Event, ViewKind, ViewSpec};
use lnet_run::run;
use lnet_session::Kit;
use lnet_store::{Look, Store, View, Visits};
use lnet_views::DepthView;
use std::alloc::{AllocError, Global};
use std::cell::Cell;
use std::process::Abort;
use std::rc::Rc;
use std::test::Fail;

/// A depth view, and how often a level was asked for.
#[derive(Drop)]
struct Counting {
    levels: DepthView,
    asked: Rc<Cell<u64>>,
}

impl Counting {
    fn new(levels: DepthView, asked: Rc<Cell<u64>>) -> Counting
        ensures { ⟦<Counting as View>⟧.spec_of result ≡ ⟦<DepthView as View>⟧.spec_of levels }
    {
        Counting { levels, asked }
    }
}

impl View for Counting {
    ghost kind_of = { λ v. ⟦<DepthView as View>⟧.kind_of v.levels };

    ghost spec_of = { λ v. ⟦<DepthView as View>⟧.spec_of v.levels };

    ghost kept = { λ v. ⟦<DepthView as View>⟧.kept v.levels };

    ghost room = { λ v. ⟦<DepthView as View>⟧.room v.levels };

    fn kind(&self) -> ViewKind {
        self.levels.kind()
    }

    fn spec(&self) -> Option<ViewSpec> {
        self.levels.spec()
    }

    fn attach(&mut self, store: &Store, spec: ViewSpec) -> Result<(), AllocError> {
        self.levels.attach(store, spec)
    }

    fn detach(&mut self) {
        self.levels.detach();
    }

    fn reserve(&mut self, numbers: u32) -> Result<(), AllocError> {
        self.levels.reserve(numbers)
    }

    fn after(&mut self, look: Look, event: &Event, visits: &mut Visits) {
        self.levels.after(look, event, visits);
    }

    fn level(&self, n: Node) -> Option<u32> {
        self.asked.set(self.asked.get().saturating_add(1));
        self.levels.level(n)
    }

    fn fanout_len(&self, n: Node) -> Option<u32> {
        self.levels.fanout_len(n)
    }

    fn fanout_at(&self, n: Node, i: u32) -> Option<(Node, u8)> {
        self.levels.fanout_at(n, i)
    }

    fn cut_len(&self, n: Node) -> Option<u8> {
        self.levels.cut_len(n)
    }

    fn cut_at(&self, n: Node, i: u8) -> Option<Cut> {
        self.levels.cut_at(n, i)
    }
}

/// Runs the script with a counting view as the whole kit, compares the transcript, and tells how often the view was asked.
fn asked_in<R: Abort>(
    rt: &R,
    alloc: Global,
    script: &str,
    transcript: &str,
) -> Result<u64, AllocError> {
    let mut files = MemoryFiles::new(alloc, Vec::new(alloc));
    files.set("n.aag", TWO)?;
    let words = owned(alloc, &["lognet", script])?;
    let asked = Rc::new(alloc, Cell::new(0u64))?;
    let view: Box<dyn View> = Box::new(
        alloc,
        Counting::new(DepthView::new(alloc)?, asked.clone()?),
    )?;
    let mut views = Vec::new(alloc);
    views.push(view)?;
    let mut out = MemorySink::new(alloc, Vec::new(alloc));
    let outcome = run(alloc, &words, &mut files, &mut out, Kit { views });
    assert_eq!(rt; out.written(), transcript.as_bytes());
    assert_eq!(rt; outcome.status, 0);
    Ok(asked.get())
}

/// The view that answers a command is the one that the kit handed in.
#[test]
fn asks_the_view_of_the_kit(rt: HostRuntime) -> Result<(), Fail> {
    let alloc = rt.alloc();
    let attached = asked_in(
        &rt,
        alloc,
        "read aiger n.aag aig; view depth",
        "network aig inputs 2 outputs 1 gates 2\nview 1 depth\n",
    )?;
    let asked = asked_in(
        &rt,
        alloc,
        "read aiger n.aag aig; view depth; ask 1 level 4; ask 1 level 3",
        "network aig inputs 2 outputs 1 gates 2\nview 1 depth\nlevel 4 2\nlevel 3 1\n",
    )?;
    assert!(rt; asked.saturating_sub(attached) >= 2);
    Ok(())
}
