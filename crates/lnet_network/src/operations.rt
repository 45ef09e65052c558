//! Operations on signals, one call for each.

ghost use Rattle.std.specs.Prelude.{◌≡◌, ◌≤◌, ◌<◌, [], ◌∷◌, IfOk, OnErr, Err, length, min};
ghost use Rattle.lnet_gates.specs.declared.gate.Op.TheVariants.{And, Xor, Maj, Lut};
ghost use Rattle.lnet_model.specs.Along.{nodes_read};
ghost use Rattle.lnet_model.specs.Changes.{AreLive};
ghost use Rattle.lnet_model.specs.Dags.{NUMBERS};
ghost use Rattle.lnet_model.specs.Networks.{IsLive, live_count};
ghost use Rattle.lnet_hashed.specs.Laid.{made};
ghost use Rattle.lnet_hashed.specs.Watches.{AreFitBy, AreToldBy};
ghost use Rattle.lnet_network.specs.Uses.{IsMade};

use crate::network::Network;
use lnet_gates::{Gates, Op, Signal};
use lnet_store::{AddError, View};

impl<G: Gates> Network<G> {
    /// The signal that is true where both are. Its answers, and its cost, are those of `gate`.
    pub fn and(&mut self, a: Signal, b: Signal) -> Result<Signal, AddError>
        requires live_a { IsLive self.old.core.network a.node.0 }
        requires live_b { IsLive self.old.core.network b.node.0 }
        requires in_step { AreFitBy ⟦<dyn View as View>⟧ self.old.core.network self.old.core.room self.old.watch }
        ensures made { IfOk result (λ x. IsMade G.KIND self.old.core.network And (a ∷ b ∷ []) self.new.core.network x) }
        ensures refused { OnErr result (self.new.core.network ≡ self.old.core.network) }
        ensures grows { self.old.core.room ≤ self.new.core.room }
        ensures full { result ≡ Err AddError.Full → NUMBERS < live_count (made G.KIND self.old.core.network And (a ∷ b ∷ [])).network }
        ensures memory { result ≡ Err AddError.NoMemory → self.old.core.room < min NUMBERS (live_count (made G.KIND self.old.core.network And (a ∷ b ∷ [])).network) }
        ensures in_step { AreToldBy ⟦<dyn View as View>⟧ self.new.core.network self.new.core.room self.old.watch self.new.watch }
    {
        self.gate(Op::And, &[a, b])
    }

    /// The signal that is true where just one of the two is. Its answers, and its cost, are those of `gate`.
    pub fn xor(&mut self, a: Signal, b: Signal) -> Result<Signal, AddError>
        requires live_a { IsLive self.old.core.network a.node.0 }
        requires live_b { IsLive self.old.core.network b.node.0 }
        requires in_step { AreFitBy ⟦<dyn View as View>⟧ self.old.core.network self.old.core.room self.old.watch }
        ensures made { IfOk result (λ x. IsMade G.KIND self.old.core.network Xor (a ∷ b ∷ []) self.new.core.network x) }
        ensures refused { OnErr result (self.new.core.network ≡ self.old.core.network) }
        ensures grows { self.old.core.room ≤ self.new.core.room }
        ensures full { result ≡ Err AddError.Full → NUMBERS < live_count (made G.KIND self.old.core.network Xor (a ∷ b ∷ [])).network }
        ensures memory { result ≡ Err AddError.NoMemory → self.old.core.room < min NUMBERS (live_count (made G.KIND self.old.core.network Xor (a ∷ b ∷ [])).network) }
        ensures in_step { AreToldBy ⟦<dyn View as View>⟧ self.new.core.network self.new.core.room self.old.watch self.new.watch }
    {
        self.gate(Op::Xor, &[a, b])
    }

    /// The signal that is true where two or three of the three are. Its answers, and its cost, are those of `gate`.
    pub fn maj(&mut self, a: Signal, b: Signal, c: Signal) -> Result<Signal, AddError>
        requires live_a { IsLive self.old.core.network a.node.0 }
        requires live_b { IsLive self.old.core.network b.node.0 }
        requires live_c { IsLive self.old.core.network c.node.0 }
        requires in_step { AreFitBy ⟦<dyn View as View>⟧ self.old.core.network self.old.core.room self.old.watch }
        ensures made { IfOk result (λ x. IsMade G.KIND self.old.core.network Maj (a ∷ b ∷ c ∷ []) self.new.core.network x) }
        ensures refused { OnErr result (self.new.core.network ≡ self.old.core.network) }
        ensures grows { self.old.core.room ≤ self.new.core.room }
        ensures full { result ≡ Err AddError.Full → NUMBERS < live_count (made G.KIND self.old.core.network Maj (a ∷ b ∷ c ∷ [])).network }
        ensures memory { result ≡ Err AddError.NoMemory → self.old.core.room < min NUMBERS (live_count (made G.KIND self.old.core.network Maj (a ∷ b ∷ c ∷ [])).network) }
        ensures in_step { AreToldBy ⟦<dyn View as View>⟧ self.new.core.network self.new.core.room self.old.watch self.new.watch }
    {
        self.gate(Op::Maj, &[a, b, c])
    }

    /// The signal of a look-up table on at most six operands: bit `r` of the table is its value at the row `r`, whose bit `i` is
    /// operand `i`. Its answers, and its cost, are those of `gate`.
    pub fn lut(&mut self, table: u64, operands: &[Signal]) -> Result<Signal, AddError>
        requires arity { length operands.now ≤ 6 }
        requires live { AreLive self.old.core.network (nodes_read operands.now) }
        requires in_step { AreFitBy ⟦<dyn View as View>⟧ self.old.core.network self.old.core.room self.old.watch }
        ensures made { IfOk result (λ x. IsMade G.KIND self.old.core.network (Lut table) operands.now self.new.core.network x) }
        ensures refused { OnErr result (self.new.core.network ≡ self.old.core.network) }
        ensures grows { self.old.core.room ≤ self.new.core.room }
        ensures full { result ≡ Err AddError.Full → NUMBERS < live_count (made G.KIND self.old.core.network (Lut table) operands.now).network }
        ensures memory { result ≡ Err AddError.NoMemory → self.old.core.room < min NUMBERS (live_count (made G.KIND self.old.core.network (Lut table) operands.now).network) }
        ensures in_step { AreToldBy ⟦<dyn View as View>⟧ self.new.core.network self.new.core.room self.old.watch self.new.watch }
    {
        self.gate(Op::Lut(table), operands)
    }
}
