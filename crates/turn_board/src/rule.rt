//! The rule of the table, and the names of its steps.
ghost use Rattle.turn_board.specs.Rule.{Ruled, first_view, seat_view, fresh};
ghost use Rattle.turn_board.specs.Plays.{drawn, looked, finished, opened, closed, polled, one_more};

use crate::kept::Kept;
use crate::slot::Slot;
use crate::view::View;
use atomic_table::{Play, Split, TableRule};
use std::marker::PhantomData;

/// Between any two steps of any threads the words and the views of a table are a good state of the board.
pub struct Rule<J, R, W> {
    marker: PhantomData<(J, R, W)>,
}

impl<J: Kept<W>, R: Kept<W>, W> TableRule<Slot<J, R>, View<W>, W> for Rule<J, R, W> {
    ghost holds = { Ruled J.made_for R.made_for };

    ghost first = { first_view };
}

pub struct Sit;

impl<W> Split<View<W>> for Sit {
    ghost left = { one_more };

    ghost right = { λ v. seat_view v.made_for fresh };
}

pub struct Draw;

impl<J, R, W> Play<Slot<J, R>, View<W>> for Draw {
    ghost then = { drawn };
}

pub struct SeeOpen;

impl<J: Kept<W>, R, W> Play<Slot<J, R>, View<W>> for SeeOpen {
    ghost then = { looked J.made_for };
}

pub struct Finish;

impl<J, R, W> Play<Slot<J, R>, View<W>> for Finish {
    ghost then = { finished };
}

pub struct Open;

impl<J, R, W> Play<Slot<J, R>, View<W>> for Open {
    ghost then = { opened };
}

pub struct Close;

impl<J, R, W> Play<Slot<J, R>, View<W>> for Close {
    ghost then = { closed };
}

pub struct SeeDone;

impl<J: Kept<W>, R: Kept<W>, W> Play<Slot<J, R>, View<W>> for SeeDone {
    ghost then = { polled J.made_for R.made_for };
}
