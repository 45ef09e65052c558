//! Why a piece of a script gave no command.

use std::alloc::AllocError;

/// Why a piece of a script gave no command.
#[derive(Clone, Copy)]
pub(crate) enum Refusal {
    /// Its words spell none.
    NoCommand,
    /// Memory ran out.
    NoMemory,
}

impl From<AllocError> for Refusal {
    ghost use Rattle.std.specs.Prelude.{◌≡◌};
    ghost use Rattle.lnet_script.specs.declared.refusal.Refusal.TheVariants.{NoMemory};

    ghost from_gives = { λ _ e. e ≡ NoMemory };

    fn from(_: AllocError) -> Refusal {
        Refusal::NoMemory
    }
}
