//! What the master does with the slots while it holds them all.
ghost use Rattle.std.specs.Prelude.{◌≡◌, ◌+◌, ◌*◌, ◌<◌, [], ◌∷◌, ℕ};
ghost use Rattle.atomic_table.specs.Table.{rest, turned};
ghost use Rattle.turn_board.specs.Slots.{IsFound};
ghost use Rattle.turn_board.specs.Shown.{refilled};
ghost use Rattle.turn_board.specs.Answers.{EachLane};
ghost use Rattle.turn_board.specs.Holding.{HoldsAll, filled};
ghost use Rattle.turn_board.specs.declared.slot.Slot.TheVariants.{Empty, Job, Found};

use crate::answers::Six;
use crate::kept::Kept;
use crate::slot::Slot;
use crate::steps::{Post, Words};

// What the lane's second slot has. The lane's slots are the first two of the list. They are left with `first` and
// nothing, and go behind the others.
fn refill<J: Kept<W> + Drop, R: Kept<W> + Drop, W>(
    words: &Words<J, R, W>,
    post: &mut Post<J, R, W>,
    lane: usize,
    first: Slot<J, R>,
) -> Slot<J, R>
    requires table { post.old.table_id ≡ words.now.table_id }
    requires lane { lane < 6 }
    requires job { ((x : _) × (post.old.me.1 ≡ (2 * lane, x) ∷ rest post.old.me.1)) }
    requires found { ((y : _) × (turned ((2 * lane, first) ∷ rest post.old.me.1)
        ≡ (2 * lane + 1, y) ∷ rest (turned ((2 * lane, first) ∷ rest post.old.me.1)))) }
    ensures table { post.new.table_id ≡ post.old.table_id }
    ensures value { turned ((2 * lane, first) ∷ rest post.old.me.1) ≡ (2 * lane + 1, result)
        ∷ rest (turned ((2 * lane, first) ∷ rest post.old.me.1)) }
    ensures in_hand { post.new.me ≡ (post.old.me.0, refilled lane first post.old.me.1) }
{
    drop(words.exchange(post, 2 * lane, first));
    post.turn();
    let second = words.exchange(post, 2 * lane + 1, Slot::Empty);
    post.turn();
    second
}

// Nothing for each lane.
pub fn nothing<J, R>() -> Six<Slot<J, R>>
    ensures { result ≡ record {
      l0 = Empty;
      l1 = Empty;
      l2 = Empty;
      l3 = Empty;
      l4 = Empty;
      l5 = Empty;
    } }
{
    Six {
        l0: Slot::Empty,
        l1: Slot::Empty,
        l2: Slot::Empty,
        l3: Slot::Empty,
        l4: Slot::Empty,
        l5: Slot::Empty,
    }
}

// What the first slots get for these jobs.
pub fn jobs_in<J, R>(jobs: Six<J>) -> Six<Slot<J, R>>
    ensures { result ≡ record {
      l0 = Job jobs.l0;
      l1 = Job jobs.l1;
      l2 = Job jobs.l2;
      l3 = Job jobs.l3;
      l4 = Job jobs.l4;
      l5 = Job jobs.l5;
    } }
{
    let Six {
        l0,
        l1,
        l2,
        l3,
        l4,
        l5,
    } = jobs;
    Six {
        l0: Slot::Job(l0),
        l1: Slot::Job(l1),
        l2: Slot::Job(l2),
        l3: Slot::Job(l3),
        l4: Slot::Job(l4),
        l5: Slot::Job(l5),
    }
}

// The result in a slot that has one.
fn result_in<J: Drop, R>(slot: Slot<J, R>) -> R
    requires { IsFound slot }
    ensures { slot ≡ Found result }
{
    match slot {
        Slot::Found(found) => found,
        Slot::Empty => unreachable!(),
        Slot::Job(_) => unreachable!(),
    }
}

// What the second slots have. The first ones are left with `firsts`, and the second ones with nothing.
pub fn refill_all<J: Kept<W> + Drop, R: Kept<W> + Drop, W>(
    words: &Words<J, R, W>,
    post: &mut Post<J, R, W>,
    firsts: Six<Slot<J, R>>,
) -> Six<Slot<J, R>>
    requires table { post.old.table_id ≡ words.now.table_id }
    requires in_hand { ((seconds : _) × HoldsAll post.old.me.1 seconds) }
    ensures table { post.new.table_id ≡ post.old.table_id }
    ensures values { HoldsAll post.old.me.1 result }
    ensures in_hand { post.new.me ≡ (post.old.me.0, filled firsts) }
{
    let Six {
        l0,
        l1,
        l2,
        l3,
        l4,
        l5,
    } = firsts;
    let l0 = refill(words, post, 0, l0);
    let l1 = refill(words, post, 1, l1);
    let l2 = refill(words, post, 2, l2);
    let l3 = refill(words, post, 3, l3);
    let l4 = refill(words, post, 4, l4);
    let l5 = refill(words, post, 5, l5);
    Six {
        l0,
        l1,
        l2,
        l3,
        l4,
        l5,
    }
}

// The results in slots that have one each.
pub fn results_in<J: Drop, R>(slots: Six<Slot<J, R>>) -> Six<R>
    requires { EachLane (λ _ slot. IsFound slot) slots }
    ensures { slots ≡ record {
      l0 = Found result.l0;
      l1 = Found result.l1;
      l2 = Found result.l2;
      l3 = Found result.l3;
      l4 = Found result.l4;
      l5 = Found result.l5;
    } }
{
    let Six {
        l0,
        l1,
        l2,
        l3,
        l4,
        l5,
    } = slots;
    Six {
        l0: result_in(l0),
        l1: result_in(l1),
        l2: result_in(l2),
        l3: result_in(l3),
        l4: result_in(l4),
        l5: result_in(l5),
    }
}
