//! Kinds of views.

ghost use Rattle.std.specs.Prelude.{◌≡◌};
ghost use Rattle.lnet_model.specs.Answers.{kind_for};
ghost use Rattle.lnet_subscriptions.specs.Rolls.{same_kind};

use lnet_model::{ViewKind, ViewSpec};

/// The kind of the views that a spec is for.
pub fn kind_of_spec(spec: ViewSpec) -> ViewKind
    ensures { result ≡ kind_for spec }
{
    match spec {
        ViewSpec::Depth => ViewKind::Depth,
        ViewSpec::Fanout => ViewKind::Fanout,
        ViewSpec::Cuts(_) => ViewKind::Cuts,
    }
}

/// Whether two kinds are one.
pub(crate) fn is_kind(a: ViewKind, b: ViewKind) -> bool
    ensures { result ≡ same_kind a b }
{
    match (a, b) {
        (ViewKind::Depth, ViewKind::Depth)
        | (ViewKind::Fanout, ViewKind::Fanout)
        | (ViewKind::Cuts, ViewKind::Cuts) => true,
        _ => false,
    }
}
