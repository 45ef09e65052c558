//! What every run keeps, over the definitions that `Session::step` and `run` cite.

ghost use Rattle.std.specs.Prelude.{◌≡◌, ℕ, ◌+◌, Bool, false, List, ◌++◌, length, Some, None};
ghost use Rattle.lnet_edge.specs.Outside.{Contents};
ghost use Rattle.lnet_script.specs.declared.command.Command.{Command as CommandValue};
ghost use Rattle.lnet_script.specs.declared.command.Command.TheVariants.{Write};
ghost use Rattle.lnet_script.specs.declared.command.WriteFormat.{WriteFormat as FormatValue};
ghost use Rattle.lnet_run.specs.Runs.{Scene, Turn, Runs, SplitsAt, FollowsOrigin};
ghost use Rattle.lnet_session.specs.Formats.{reader_of};
ghost use Rattle.lnet_run.specs.Written.{HoldsOrigin};

/// Over each run that begins without a network, the network of each state has no cycle, and each of its outputs
/// computes the same function of the inputs as in the circuit that was last read or generated.
///
/// The clause `states` says it of the state at a run's end, and `fronts` that each state of a run is the end of a run
/// of its first commands.
pub fn runs_follow_their_origin()
    ensures states { (index : ℕ) (commands : List CommandValue) (old new : Scene) (text : List ℕ) (unmet : Bool)
        → old.state.held ≡ None → Runs index commands old new text unmet → FollowsOrigin new.state.held new.origin }
    ensures fronts { (index : ℕ) (front rest : List CommandValue) (old new : Scene) (text : List ℕ) (unmet : Bool)
        → Runs index (front ++ rest) old new text unmet → SplitsAt index front rest old new text }
{}

/// At the moment of a met write, the content that it left means, in the format's reading, a circuit whose outputs compute the functions of the
/// circuit last read or generated.
pub fn writes_mean_their_origin()
    ensures { (index : ℕ) (commands : List CommandValue) (old mid new : Scene) (text line : List ℕ) (unmet : Bool) (at : ℕ) (format : FormatValue) (name : List ℕ) (contents : Contents)
        → old.state.held ≡ None → Runs index commands old mid text unmet → Turn at (Write format name) mid new line false → new.contents ≡ Some contents → HoldsOrigin (reader_of format) contents name mid.origin }
{}
