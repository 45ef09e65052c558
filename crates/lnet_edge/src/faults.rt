//! The count of failed calls of files, and the last of them.

ghost use Rattle.std.specs.Prelude.{◌≡◌, None, Some};
ghost use Rattle.lnet_edge.specs.Outside.{call_of, one_more};
ghost use Rattle.lnet_edge.specs.Faults.{faults_value};

use crate::outside::{Direction, FailedCall};

/// How many calls failed, and the last of them.
#[derive(Drop)]
pub(crate) struct Faults {
    count: u64,
    last: Option<FailedCall>,
}

impl Faults {
    /// No call failed yet.
    pub(crate) fn none() -> Faults
        ensures { faults_value result ≡ record { count = 0; last = None } }
    {
        Faults {
            count: 0,
            last: None,
        }
    }

    /// Counts a failed call and keeps it as the last.
    pub(crate) fn add(&mut self, direction: Direction, name: &str)
        ensures count { (faults_value self.new).count ≡ one_more (faults_value self.old).count }
        ensures last { (faults_value self.new).last ≡ Some (call_of direction name.now) }
    {
        self.count = self.count.saturating_add(1);
        self.last = Some(FailedCall::new(direction, name));
    }
}
