//! The views of a network.

use lnet_store::View;

/// The views of a network, each in the slot of its id, and how often each read the network at the last event.
pub struct Watch {
    /// By id the view; none where the id is free.
    pub views: Vec<Option<Box<dyn View>>>,
    /// By id how often the view read the network at the last event: 0 before the first, and where the id is free.
    pub visits: Vec<u64>,
}

impl Drop for Watch {
    /// Lets its fields go. Where a value ends this is called; a derived one would be written out there.
    fn drop(self) {
        let Self {
            views: _,
            visits: _,
        } = self;
    }
}
