//! The rule of cut lists.

ghost use Rattle.std.specs.Prelude.{◌≡◌, ◌≤◌};

use crate::choosing::chosen;
use crate::list::{CutList, StoredCut};
use arrayvec::ArrayVec;
use lnet_gates::{Gate, Node};
use lnet_model::CutRule;
use lnet_views::Rule;

/// The rule that gives each node of a network its cut list.
///
/// The constant has one cut, without leaves, and an input its trivial cut, the node itself. The candidates of a gate are the
/// unions of one cut per fanin, with the gate's function of the leaves; a gate with more than three fanins takes each fanin's
/// own cut alone. Its list are the best candidates, fewer leaves first, then lower ones, and the trivial cut last: none has
/// more leaves than the rule's size, none is put out by another candidate, whose leaves are fewer of the same or whose table is
/// lower on the same leaves, and beside the trivial cut there are no more than the rule's limit.
///
/// After Cong and Ding, "FlowMap", IEEE TCAD 1994 (cuts of at most k leaves), and Mishchenko, Chatterjee and Brayton,
/// "DAG-aware AIG rewriting", DAC 2006 (cuts from the fanins' cuts, without those that another dominates). Differs: (1) where
/// there are more cuts than the limit, the order says which stay, so that a list depends on the network alone; (2) one cut is
/// chosen after another, and a table is made only of a union that may be the next; (3) the lists are of fixed size, and take no
/// memory.
#[derive(Clone, Copy, Debug, PartialEq, Eq)]
pub struct CutsByRule {
    /// How many leaves a cut has at most, and how many cuts a node has at most beside the trivial one.
    pub rule: CutRule,
    ghost size: { rule.size ≤ 8 },
    ghost limit: { rule.limit ≤ 16 },
}

impl CutsByRule {
    /// The rule of cuts with at most `rule.size` leaves, and of lists with at most `rule.limit` cuts beside the trivial one.
    /// Constant time.
    pub fn new(rule: CutRule) -> CutsByRule
        requires size { rule.size ≤ 8 }
        requires limit { rule.limit ≤ 16 }
        ensures { result.rule ≡ rule }
    {
        CutsByRule { rule }
    }
}

impl Rule for CutsByRule {
    ghost use Rattle.lnet_model.specs.Networks.{IsGate};
    ghost use Rattle.lnet_model.specs.Cuts.{cut_step};
    ghost use Rattle.lnet_cuts.specs.Stored.{first_cuts};
    ghost use Rattle.lnet_cuts.specs.Agreeing.{gives-agree};

    type Value = CutList;

    ghost first_of = { λ r n. first_cuts n };

    ghost gives = { λ r n g rs. cut_step r.rule.size r.rule.limit n (IsGate g) rs };

    /// The constant's cut at node 0, and elsewhere the trivial cut. Constant time.
    fn first(&self, n: Node) -> CutList {
        let mut cuts = ArrayVec::new();
        cuts.push(StoredCut::own(n));
        CutList { cuts }
    }

    /// The best unions of the fanins' cuts, and the trivial cut. With k combinations of one cut per fanin, at most 4,913, it
    /// makes each union once, and again for each cut that is chosen, and a table of up to 256 rows for those that may be the
    /// next.
    fn of(&self, n: Node, gate: &Gate, values: &[CutList]) -> CutList {
        let mut cuts = chosen(
            self.rule.size as usize,
            self.rule.limit as usize,
            gate,
            values,
        );
        cuts.push(StoredCut::trivial(n));
        CutList { cuts }
    }

    ghost agrees = { λ r n g V W same. gives-agree r.rule.size r.rule.limit n g V W same };
}
