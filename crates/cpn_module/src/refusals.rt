//! Why the modules of a document make no hierarchy.

ghost use Rattle.std.specs.Prelude.{◌≡◌};
ghost use Rattle.cpn_module.specs.declared.refusals.ModuleError.TheVariants.{Memory};

use cpn_document::Pointer;
use std::alloc::AllocError;

/// Why the modules of a document make no hierarchy, with the place in the document. Each rule is looked at over the whole document
/// before the next one.
#[derive(Debug, Drop, thiserror::Error)]
pub enum ModuleError {
    /// Memory ran out.
    #[error("memory ran out")]
    Memory,
    /// No module has the name: of the top module, of a submodule, of a member's module.
    #[error("no module has the name")]
    UnknownModule(Pointer),
    /// No place has the name: of an arc's place, of a socket, of a member's place; no port of the submodule has it.
    #[error("no place has the name")]
    UnknownPlace(Pointer),
    /// No transition and no substitution transition has the name.
    #[error("no transition has the name")]
    UnknownTransition(Pointer),
    /// The module is part of itself: the first that is.
    #[error("a module is part of itself")]
    Cycle(Pointer),
    /// The socket of an assignment is of another type than its port, or no arc joins it to the substitution transition.
    #[error("the socket is of another type than its port")]
    SocketType(Pointer),
    /// The colour sets of a port and its socket differ, or those of a member of a fusion set and of its first.
    #[error("the colour sets differ")]
    ColourDiffers(Pointer),
    /// The port has a socket already.
    #[error("the port has a socket already")]
    PortTwice(Pointer),
    /// The member of a fusion set is a port.
    #[error("a member of a fusion set is a port")]
    PortInFusion(Pointer),
    /// The member is in another fusion set already.
    #[error("the place is in a fusion set already")]
    TwoFusions(Pointer),
}

impl From<AllocError> for ModuleError {
    ghost from_gives = { λ _ e. e ≡ Memory };

    fn from(_error: AllocError) -> ModuleError {
        ModuleError::Memory
    }
}
