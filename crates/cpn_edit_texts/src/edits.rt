//! Edits that are accepted.

ghost use Rattle.std.specs.Prelude.{◌≡◌, length};
ghost use Rattle.cpn_core.specs.Nets.{net_view};
ghost use Rattle.cpn_edit_texts.specs.Edits.{net_after, initial_after};
ghost use Rattle.cpn_edit_texts.specs.Ready.{IsThere};
ghost use Rattle.cpn_edit_texts.specs.Views.{edit_view};

use cpn_core::{Net, Transition};
use cpn_document::Start;
use cpn_tmset::{Marking, TMSet};

/// An edit that is accepted in a net.
///
/// Source: own choice.
#[derive(Drop)]
pub enum Edit {
    /// The transition of this number becomes this one: it has another guard, and the variables that it then has.
    Guard(u32, Transition),
    /// The place of this number has these tokens in the initial marking.
    Initial(u32, TMSet),
}

/// A phase whose edits are accepted.
#[derive(Drop)]
pub struct Phase {
    /// From where its run starts.
    pub start: Start,
    /// The edits that are made before, in their order.
    pub edits: Vec<Edit>,
}

impl Edit {
    /// Makes the edit of a net and its initial marking. It takes no memory.
    pub fn make(self, net: &mut Net, initial: &mut Marking)
        requires there { IsThere (length net.old.transitions.items) (length initial.old) (edit_view self) }
        ensures net { net_view net.new ≡ net_after (net_view net.old) (edit_view self) }
        ensures initial { initial.new ≡ initial_after initial.old (edit_view self) }
    {
        match self {
            Edit::Guard(number, transition) => net.transitions[number as usize] = transition,
            Edit::Initial(number, tokens) => initial.set(number, tokens),
        }
    }
}
