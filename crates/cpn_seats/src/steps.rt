//! What each step on the table tells. These types are for the proofs alone.

ghost use Rattle.cpn_seats.specs.Turns.{Draws, Looks, Serves, ServesMore, Meets, Counts, left_of, right_of, both_of, no_view};

use crate::views::{Slot, View};
use atomic_table::{Join, Play, Split};

/// A turn is drawn.
pub(crate) struct Draw;

impl Play<Slot, View> for Draw {
    ghost then = { Draws };
}

/// It is looked whether the turn is served.
pub(crate) struct Look;

impl Play<Slot, View> for Look {
    ghost then = { Looks };
}

/// The next turn is served.
pub(crate) struct Serve;

impl Play<Slot, View> for Serve {
    ghost then = { Serves };
}

/// The next turn is served, with one seat number more.
pub(crate) struct ServeMore;

impl Play<Slot, View> for ServeMore {
    ghost then = { ServesMore };
}

/// What a joined seat has seen is found to be a part of the journal.
pub(crate) struct Meet;

impl Play<Slot, View> for Meet {
    ghost then = { Meets };
}

/// A word of which the rule says nothing counts.
pub(crate) struct Count;

impl Play<Slot, View> for Count {
    ghost then = { Counts };
}

/// A view is split: the new one has the last number.
pub(crate) struct LastNumber;

impl Split<View> for LastNumber {
    ghost left = { left_of };

    ghost right = { right_of };
}

/// Two views are joined.
pub(crate) struct Both;

impl Join<View> for Both {
    ghost both = { both_of };

    ghost spent = { no_view };
}
