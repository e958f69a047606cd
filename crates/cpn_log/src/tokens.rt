//! Copies of tokens that were made, put into a marking.

ghost use Rattle.std.specs.Prelude.{◌≡◌, length, OnOk};
ghost use Rattle.cpn_definitions.specs.Marking.{add_token, on_place, token_at, tokens_at};
ghost use Rattle.cpn_definitions.specs.Occurrence.{add_made};
ghost use Rattle.cpn_core.specs.Views.{value_view};
ghost use Rattle.cpn_tmset.specs.Limits.{HasRoom, HaveRoomFor};

use cpn_core::{Made, Memory, Outputs};
use cpn_tmset::Marking;

/// Puts copies of the tokens in; one for a place past the last one is lost. After `Memory` some of them may stand in the
/// marking.
pub(crate) fn add_copies(marking: &mut Marking, outputs: &Outputs) -> Result<(), Memory>
    requires room { HaveRoomFor (length outputs.now) marking.old }
    ensures added { OnOk result (marking.new ≡ add_made outputs.now marking.old) }
{
    let tokens = outputs.tokens();
    for made in tokens {
        add_copy(marking, made, made.stamp)?;
    }
    Ok(())
}

/// Puts a copy of the token with a stamp on its place, if there is that place. After `Memory` the marking is as it was.
pub(crate) fn add_copy(marking: &mut Marking, made: &Made, stamp: u64) -> Result<(), Memory>
    requires room { HasRoom (tokens_at marking.old made.now.place) }
    ensures added { OnOk result (marking.new ≡ on_place made.now.place (add_token (token_at (value_view made.now.value) stamp)) marking.old) }
{
    if (made.place as usize) < marking.len() {
        marking.add(made.place, made.value.copy()?, stamp)?;
    }
    Ok(())
}
