//! The steps of a turn.

ghost use Rattle.std.specs.Prelude.{◌≡◌, ℕ, ◌<◌, ◌%◌, ◌^◌, [], ◌∷◌, true, false, length};
ghost use Rattle.cpn_seats.specs.Joins.{AreJoined};
ghost use Rattle.cpn_seats.specs.Turns.{with_turn, Looked, IsPutBack, ServedWith, more_numbers};

use crate::notes::Turn;
use crate::seats::SeatDesk;
use crate::steps::{Both, Draw, Look, Meet, Serve, ServeMore};
use crate::views::Token;
use std::sync::Wait;

impl SeatDesk {
    // Draws a turn.
    pub(crate) fn draw(&self, token: &mut Token) -> u64
        requires own { token.old.table_id ≡ self.now.table.shared.table_id }
        requires at_rest { (token.old.me.1 ≡ []) × (token.old.me.0.waits ≡ false) × (0 < length token.old.me.0.numbers) }
        ensures own { token.new.table_id ≡ token.old.table_id }
        ensures drawn { (turn : ℕ) × (result ≡ turn % 2 ^ 64) × (token.new.me ≡ (with_turn token.old.me.0 turn, [])) }
    {
        self.table.shared.fetch_add::<Draw>(token, 0, 1)
    }

    // Looks whether the turn is served, and then has the slot.
    pub(crate) fn look(&self, token: &mut Token, turn: u64) -> bool
        requires own { token.old.table_id ≡ self.now.table.shared.table_id }
        requires waits { (token.old.me.1 ≡ []) × (token.old.me.0.waits ≡ true) × (token.old.me.0.holds ≡ false) }
        requires turn { turn ≡ token.old.me.0.turn % 2 ^ 64 }
        ensures own { token.new.table_id ≡ token.old.table_id }
        ensures looked { Looked result token.old.me token.new.me }
    {
        self.table.shared.load::<Look>(token, 1) == turn
    }

    // Ends the turn of a seat that acts under a number, and serves the next: the slot goes home.
    pub(crate) fn serve(&self, token: &mut Token, number: u32)
        requires own { token.old.table_id ≡ self.now.table.shared.table_id }
        requires put_back { IsPutBack token.old.me number 0 }
        ensures own { token.new.table_id ≡ token.old.table_id }
        ensures served { ServedWith token.old.me.0 token.old.me.0.numbers token.old.me.1 token.new.me }
    {
        let _ = number;
        let served = self.table.shared.fetch_add::<Serve>(token, 1, 1);
        self.hand_over(token, served.wrapping_add(1));
    }

    // The same with one seat number more, which is then the seat's.
    pub(crate) fn serve_more(&self, token: &mut Token, number: u32)
        requires own { token.old.table_id ≡ self.now.table.shared.table_id }
        requires put_back { IsPutBack token.old.me number 1 }
        ensures own { token.new.table_id ≡ token.old.table_id }
        ensures served { ServedWith token.old.me.0 (more_numbers token.old.me.0) token.old.me.1 token.new.me }
    {
        let _ = number;
        let served = self.table.shared.fetch_add::<ServeMore>(token, 1, 1);
        self.hand_over(token, served.wrapping_add(1));
    }

    // Takes in the token of another seat, and finds that what both have seen is one journal.
    pub(crate) fn meet(&self, token: &mut Token, other: Token)
        requires own { token.old.table_id ≡ self.now.table.shared.table_id }
        requires other { other.table_id ≡ self.now.table.shared.table_id }
        requires at_rest { (token.old.me.1 ≡ []) × (token.old.me.0.waits ≡ false) × (other.me.1 ≡ []) × (other.me.0.waits ≡ false) }
        ensures own { token.new.table_id ≡ token.old.table_id }
        ensures empty { token.new.me.1 ≡ [] }
        ensures idle { token.new.me.0.waits ≡ false }
        ensures joined { AreJoined token.old.me.0 other.me.0 token.new.me.0 }
    {
        self.table.shared.join_seat::<Both>(token, other);
        self.table.shared.load::<Meet>(token, 1);
    }

    // Draws a turn and waits until it is served; then has the slot.
    pub(crate) fn take_turn<R: Wait>(&self, rt: &R, token: &mut Token) -> Turn
        requires own { token.old.table_id ≡ self.now.table.shared.table_id }
        requires at_rest { (token.old.me.1 ≡ []) × (token.old.me.0.waits ≡ false) × (0 < length token.old.me.0.numbers) }
        ensures own { token.new.table_id ≡ token.old.table_id }
        ensures held { (turn : ℕ) × Looked true (with_turn token.old.me.0 turn, []) token.new.me }
    {
        let served = self.table.shared.peek(1);
        let number = self.draw(token);
        for _ in rt.forever() {
            if self.look(token, number) {
                return Turn { number, served };
            }
            self.sleep_until(rt, token, number);
        }
        unreachable!()
    }
}
