//! The laws of the order of building.

ghost use Rattle.std.specs.Prelude.{◌≡◌, [], ◌∷◌};
ghost use Rattle.lnet_edge.specs.Circuits.{CircuitValue};
ghost use Rattle.lnet_edge.specs.Wires.{IsCircuit, output_wires};
ghost use Rattle.lnet_order.specs.Orders.{order_of};
ghost use Rattle.lnet_order.specs.Sound.{AreDriven, IsBuildOrder};
ghost use Rattle.lnet_order.specs.Worked.{backwards};

/// In the order of a circuit each equation stands after those of its operands, and each output's equation is there.
pub fn operands_come_first()
    ensures operands { (c : CircuitValue) → IsCircuit c → IsBuildOrder c.equations [] (order_of c) }
    ensures outputs { (c : CircuitValue) → IsCircuit c → AreDriven c.equations (order_of c) (output_wires c.outputs) }
{}

/// The order of a worked circuit whose equations stand backwards, and of which one is needed by no output.
pub fn worked_row()
    ensures { order_of backwards ≡ 1 ∷ 3 ∷ 0 ∷ [] }
{}
