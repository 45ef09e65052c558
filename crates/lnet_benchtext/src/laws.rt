//! Laws of written texts.

ghost use Rattle.std.specs.Prelude.{◌≡◌, Ok, codes, false};
ghost use Rattle.lnet_edge.specs.Circuits.{CircuitValue};
ghost use Rattle.lnet_edge.specs.Plain.{IsPlain};
ghost use Rattle.lnet_edge.specs.Wires.{HasArities};
ghost use Rattle.lnet_bench.specs.Texts.{statements_of, drives};
ghost use Rattle.lnet_benchwriter.specs.Texts.{bench_text};
ghost use Rattle.lnet_benchtext.specs.Written.{HasNames, written_statements};

/// The text of a plain circuit is read as its statements: a statement for each line, and in their order.
pub fn written_text_is_read()
    ensures { (c : CircuitValue) → HasNames c → IsPlain c.equations → HasArities c.equations → statements_of (bench_text c) ≡ Ok (written_statements c) }
{}

/// No statement of a written text drives `gnd` or `vdd`, so as operands both are the constants.
pub fn constants_are_not_driven()
    ensures { (c : CircuitValue) → HasNames c → (drives (written_statements c) (codes "gnd") ≡ false) × (drives (written_statements c) (codes "vdd") ≡ false) }
{}
