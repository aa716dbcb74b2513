//! A session: where it stands, how it moves, and what it answers.

ghost use Rattle.std.specs.Prelude.{◌≡◌, ◌≤◌, ◌<◌, ◌+◌, ◌^◌, ◌||◌, nat_lt, max};
ghost use Rattle.reverse_debug.specs.Reply.{fewer};
ghost use Rattle.reverse_debug.specs.Session.{next_place};

use crate::advance::{advance, seek};
use crate::command::{Command, command_of, goes_on};
use crate::reply::{
    Reply, put_cycle, put_last, put_peek, put_pins, put_pio, put_registers, put_words,
};
use crate::search::nth_before;
use crate::watch::{Watched, ends_by, seen};
use arrayvec::ArrayVec;
use lane_look::{Device, Marks};
use rp_base::Why;
use rp_machine::{Machine, Steps, World};
use snap_ring::Ring;
use std::alloc::{AllocError, Global};
use std::marker::Model;
use std::sync::ledger::Ledger;
use trace_text::line::{push_text, stop_line};

/// A kept state is nearer to a target than the present one, or the present one is beyond the target.
fn is_nearer(target: u64, now: u64, kept: u64) -> bool
    ensures { result ≡ (nat_lt target now || nat_lt now kept) }
{
    target < now || now < kept
}

/// The next multiple of a ring's spacing from its origin after a cycle, at most a cycle.
fn place_after(ring: &Ring, at: u64, to: u64) -> u64
    requires some { 0 < ring.now.spacing }
    requires begun { ring.now.origin ≤ at }
    requires small { at + ring.now.spacing < 2 ^ 64 }
    requires ahead { at < to }
    ensures within { result ≤ to }
    ensures near { result ≤ next_place ring.now at }
    ensures ahead { at < result }
{
    let spacing = ring.spacing();
    let next = at - (at - ring.origin()) % spacing + spacing;
    if next < to { next } else { to }
}

/// The times that are left, where one of them was in this cycle or not.
fn fewer(was: bool, left: u64) -> u64
    requires { 0 < left }
    ensures { result ≡ fewer was left }
{
    if was { left - 1 } else { left }
}

/// A session of the debugger. It stands at one cycle of a run; states of the run that it has reached are kept in a ring, so that
/// it can go back, and closer together of the stretch to which it went back last. All memory is taken by `open`.
#[derive(Drop)]
pub struct Session {
    /// The machine at the present cycle.
    machine: Machine,
    /// Another one, which goes over the past.
    scout: Machine,
    /// The states that are kept of the run.
    ring: Ring,
    /// The states that are kept of one stretch of it.
    near: Ring,
    /// The cycle at which the run ends at the latest.
    limit: u64,
    /// The greatest cycle that was reached.
    reached: u64,
}

impl Model for Session {
    ghost use Rattle.reverse_debug.specs.Session.{Standing};

    ghost Value = { Standing };

    ghost view = { λ s. record {
      now = s.machine;
      ring = s.ring;
      near = s.near;
      limit = s.limit;
      reached = s.reached;
    } };
}

impl Session {
    ghost use Rattle.std.specs.Prelude.{◌≡◌, ◌≤◌, ◌<◌, ◌+◌, ◌&&◌, nat_lt, true, false, IfOk, IfNone, not, []};
    ghost use Rattle.outer_lane.specs.Setting.{Setting, setting};
    ghost use Rattle.rp_base.specs.Alias.{or_zero};
    ghost use Rattle.reverse_debug.specs.Reading.{meant, sought, Fits, IsThere};
    ghost use Rattle.reverse_debug.specs.Reply.{heard, answer, cost, command_cost, moved_to, moved_back, move_cost, search_cost, before_nth, behind_next, at_or_last, at_or_start};
    ghost use Rattle.reverse_debug.specs.Command.{command_of};
    ghost use Rattle.snap_ring.specs.Ring.{is_within};
    ghost use Rattle.reverse_debug.specs.Advance.{EndsAtLast};
    ghost use Rattle.reverse_debug.specs.Session.{first_of, next_place, StandsFor, Stands, OpensAt, StaysFor, GoesOn, Lands, ComesTo, Does, Moves, IsIn, FindsNear, IsNearBy};

    /// A session at the state of a machine before its first cycle, for runs up to a limit of at most 1,000,000,000 cycles. It takes
    /// the memory for twice 64 states that will be kept, and for a second machine.
    ///
    /// # Errors
    ///
    /// Want of memory.
    #[tactic(auto, using(crate::proofs::Sessions::low_at_first))]
    pub fn open(alloc: Global, machine: &Machine, limit: u64) -> Result<Session, AllocError>
        requires start { machine.now.cycle ≡ 0 }
        requires limit { limit ≤ 1000000000 }
        ensures { IfOk result (λ session. OpensAt machine.now limit session) }
    {
        let mut ring = Ring::new(alloc, machine, limit)?;
        let mut near = Ring::near(alloc, machine, ring.spacing())?;
        ring.keep(machine);
        near.keep(machine);
        Ok(Session {
            machine: machine.twin(alloc)?,
            scout: machine.twin(alloc)?,
            ring,
            near,
            limit,
            reached: 0,
        })
    }

    /// The cycle at which the session stands.
    fn cycle(&self) -> u64
        ensures { result ≡ self.now.now.cycle }
    {
        self.machine.number()
    }

    /// A cycle is below the present one, and of the near stretch.
    fn is_close(&self, target: u64) -> bool
        ensures { result
            ≡ (nat_lt target self.now.now.cycle && is_within self.now.near.spacing self.now.near.origin target) }
    {
        target < self.machine.number() && self.near.is_within(target)
    }

    /// Restores the nearest state that is kept of the near stretch.
    #[tactic(auto, using(crate::proofs::Sessions::part_none))]
    fn jump_near(&mut self, target: u64)
        requires close { (nat_lt target self.old.now.cycle
            && is_within self.old.near.spacing self.old.near.origin target) ≡ true }
        ensures { (w : Setting) → StandsFor w self.old → Lands w self.old target self.new }
    {
        match self.near.nearest(target) {
            None => return,
            Some(nearest) => {
                self.near.restore(nearest, &mut self.machine);
            }
        }
    }

    /// Restores the nearest state that is kept of the run, where the machine is beyond the target, or before that state. The near
    /// stretch begins there anew.
    #[tactic(auto, using(crate::proofs::Sessions::part_near, crate::proofs::Sessions::part_stayed))]
    fn jump_far(&mut self, target: u64)
        requires far { (nat_lt target self.old.now.cycle
            && is_within self.old.near.spacing self.old.near.origin target) ≡ false }
        ensures { (w : Setting) → StandsFor w self.old → Lands w self.old target self.new }
    {
        let now = self.machine.number();
        match self.ring.nearest(target) {
            None => return,
            Some(nearest) => {
                if !is_nearer(target, now, nearest) {
                    return;
                }
                self.ring.restore(nearest, &mut self.machine);
                self.near.restart(nearest);
                self.near.keep(&self.machine);
            }
        }
    }

    /// Restores the nearest kept state, where the machine is beyond the target, or before that state.
    fn jump(&mut self, target: u64)
        ensures { (w : Setting) → StandsFor w self.old → Lands w self.old target self.new }
    {
        if self.is_close(target) {
            self.jump_near(target);
        } else {
            self.jump_far(target);
        }
    }

    /// The next cycle whose state one of the rings may keep, at most a cycle.
    fn next_stop(&self, to: u64) -> u64
        requires stands { Stands self.now }
        requires ahead { self.now.now.cycle < to }
        ensures within { result ≤ to }
        ensures far { result ≤ next_place self.now.ring self.now.now.cycle }
        ensures near { result ≤ next_place self.now.near self.now.now.cycle }
        ensures ahead { self.now.now.cycle < result }
    {
        let at = self.machine.number();
        let far = place_after(&self.ring, at, to);
        place_after(&self.near, at, far)
    }

    /// Goes forward up to the next cycle whose state is to be kept, at most to a cycle, and keeps the state there.
    fn stretch<X: Device, L: Ledger>(
        &mut self,
        world: &World<'_, X>,
        to: u64,
        marks: &mut Marks,
        steps: &mut Steps<L>,
    ) -> Option<Why>
        requires stands { StandsFor (setting X.meaning world.now) self.old }
        requires ahead { self.old.now.cycle < to }
        ensures way { GoesOn (setting X.meaning world.now) self.old to self.new result steps.old steps.new }
        ensures nearer { IfNone result (self.old.now.cycle < self.new.now.cycle) }
    {
        let until = self.next_stop(to);
        let why = advance(&mut self.machine, world, until, marks, steps);
        self.reached = self.reached.max(self.machine.number());
        self.ring.keep(&self.machine);
        self.near.keep(&self.machine);
        why
    }

    /// Goes forward up to the next cycle whose state is to be kept, or up to the first behind which a move forward ends by what is
    /// watched, and keeps the state there.
    fn seek<X: Device, L: Ledger>(
        &mut self,
        world: &World<'_, X>,
        watched: Watched,
        marks: &mut Marks,
        steps: &mut Steps<L>,
    ) -> Option<Why>
        requires stands { StandsFor (setting X.meaning world.now) self.old }
        requires watched { IsThere watched }
        ensures way { GoesOn (setting X.meaning world.now) self.old (self.old.now.cycle + self.old.ring.spacing) self.new result steps.old steps.new }
        ensures ahead { IfNone result (self.old.now.cycle < self.new.now.cycle) }
        ensures none { EndsAtLast (setting X.meaning world.now) (sought watched) self.old.now self.new.now result }
    {
        let until = self.next_stop(u64::MAX);
        let why = seek(&mut self.machine, world, watched, until, marks, steps);
        self.reached = self.reached.max(self.machine.number());
        self.ring.keep(&self.machine);
        self.near.keep(&self.machine);
        why
    }

    /// Goes forward to a cycle. None where the session stands there; else the cause of the stop below it.
    #[tactic(auto, using(crate::proofs::Sessions::going_here, crate::proofs::Sessions::going_on))]
    fn forward<X: Device, L: Ledger>(
        &mut self,
        world: &World<'_, X>,
        to: u64,
        steps: &mut Steps<L>,
    ) -> Option<Why>
        requires stands { StandsFor (setting X.meaning world.now) self.old }
        requires ahead { self.old.now.cycle ≤ to }
        ensures way { GoesOn (setting X.meaning world.now) self.old to self.new result steps.old steps.new }
        ensures there { IfNone result (self.new.now.cycle ≡ to) }
    {
        let mut marks = Marks::new();
        'stretches: while self.machine.number() < to {
            match self.stretch(world, to, &mut marks, steps) {
                Some(why) => return Some(why),
                None => continue 'stretches,
            }
        }
        None
    }

    /// Moves to a cycle, or to the last one below it, and writes the reply.
    fn move_to<X: Device, L: Ledger>(
        &mut self,
        world: &World<'_, X>,
        target: u64,
        reply: &mut Reply,
        steps: &mut Steps<L>,
    )
        requires stands { StandsFor (setting X.meaning world.now) self.old }
        requires empty { reply.old.items ≡ [] }
        ensures { let w = setting X.meaning world.now in
            let what = moved_to w (first_of self.old) target in
            Moves w self.old what self.new reply.new.items steps.old steps.new }
    {
        self.jump(target);
        match self.forward(world, target, steps) {
            None => put_cycle(target, reply),
            Some(why) => stop_line(&why, self.cycle(), reply),
        }
    }

    /// Moves so many cycles back, or to the start, and writes the reply.
    fn move_back<X: Device, L: Ledger>(
        &mut self,
        world: &World<'_, X>,
        cycles: u64,
        reply: &mut Reply,
        steps: &mut Steps<L>,
    )
        requires stands { StandsFor (setting X.meaning world.now) self.old }
        requires empty { reply.old.items ≡ [] }
        ensures { let w = setting X.meaning world.now in
            let what = moved_back w (first_of self.old) self.old.now.cycle cycles in
            Moves w self.old what self.new reply.new.items steps.old steps.new }
    {
        let now = self.cycle();
        if now < cycles {
            self.jump(0);
            push_text(b"at start\n", reply);
        } else {
            self.move_to(world, now - cycles, reply, steps);
        }
    }

    /// Goes forward until it has ended so many times by what is watched. None where the session stands there; else the cause of the
    /// stop before it.
    fn until_nth<X: Device, L: Ledger>(
        &mut self,
        world: &World<'_, X>,
        watched: Watched,
        count: u64,
        steps: &mut Steps<L>,
    ) -> Option<Why>
        requires stands { StandsFor (setting X.meaning world.now) self.old }
        requires watched { IsThere watched }
        ensures { ComesTo (setting X.meaning world.now) (sought watched) count self.old self.new result steps.old steps.new }
    {
        let mut left = count;
        let mut marks = Marks::new();
        'cycles: while 0 < left {
            let before = seen(&self.machine, watched);
            match self.seek(world, watched, &mut marks, steps) {
                Some(why) => return Some(why),
                None => {
                    let ended = ends_by(watched, before, seen(&self.machine, watched));
                    left = fewer(ended, left);
                    continue 'cycles;
                }
            }
        }
        None
    }

    /// Moves forward to the n-th time of what is watched, or to the last cycle, and writes the reply.
    fn move_until<X: Device, L: Ledger>(
        &mut self,
        world: &World<'_, X>,
        watched: Watched,
        count: u64,
        reply: &mut Reply,
        steps: &mut Steps<L>,
    )
        requires stands { StandsFor (setting X.meaning world.now) self.old }
        requires watched { IsThere watched }
        requires empty { reply.old.items ≡ [] }
        ensures { let w = setting X.meaning world.now in
            let what = at_or_last w (first_of self.old)
            (behind_next w (first_of self.old) (sought watched) count self.old.now.cycle) in
            Moves w self.old what self.new reply.new.items steps.old steps.new }
    {
        match self.until_nth(world, watched, count, steps) {
            None => put_cycle(self.cycle(), reply),
            Some(why) => stop_line(&why, self.cycle(), reply),
        }
    }

    /// The n-th cycle below the present one in which what is watched happens. The session is as before.
    #[tactic(auto, using(crate::proofs::Befores::reaches, crate::proofs::Befores::same_before, crate::proofs::Befores::spent_same))]
    fn nth_before<X: Device, L: Ledger>(
        &mut self,
        world: &World<'_, X>,
        watched: Watched,
        count: u64,
        steps: &mut Steps<L>,
    ) -> Option<u64>
        requires stands { StandsFor (setting X.meaning world.now) self.old }
        requires watched { IsThere watched }
        ensures found { result ≡ before_nth (setting X.meaning world.now) (first_of self.old) (sought watched) count self.old.now.cycle }
        ensures same { self.new ≡ self.old }
        ensures forward { steps.old ≤ steps.new }
        ensures steps { steps.new ≤ steps.old
            + search_cost self.old.ring.spacing count self.old.now.cycle result }
        ensures near { FindsNear self.old.near count self.old.now.cycle (or_zero result)
            → steps.new ≤ steps.old
            + search_cost self.old.near.spacing count self.old.now.cycle result }
    {
        let now = self.cycle();
        nth_before(
            &self.ring,
            &self.near,
            &mut self.scout,
            world,
            watched,
            count,
            now,
            steps,
        )
    }

    /// Moves back to the n-th time of what is watched, or to the start, and writes the reply.
    #[tactic(auto, using(crate::proofs::Befores::went_to_start, crate::proofs::Befores::stands_same))]
    fn move_before<X: Device, L: Ledger>(
        &mut self,
        world: &World<'_, X>,
        watched: Watched,
        count: u64,
        reply: &mut Reply,
        steps: &mut Steps<L>,
    )
        requires stands { StandsFor (setting X.meaning world.now) self.old }
        requires watched { IsThere watched }
        requires empty { reply.old.items ≡ [] }
        ensures { let w = setting X.meaning world.now in
            let found = before_nth w (first_of self.old) (sought watched) count self.old.now.cycle in
            Does w self.old (at_or_start found)
            (FindsNear self.old.near count self.old.now.cycle (or_zero found))
            (λ d. search_cost d count self.old.now.cycle found
            + move_cost d self.old.now.cycle (at_or_start found).cycle)
            self.new reply.new.items steps.old steps.new }
    {
        match self.nth_before(world, watched, count, steps) {
            Some(cycle) => self.move_to(world, cycle, reply, steps),
            None => {
                self.jump(0);
                push_text(b"at start\n", reply);
            }
        }
    }

    /// Does what a line asks for, and writes the reply.
    fn obey<X: Device, L: Ledger>(
        &mut self,
        world: &World<'_, X>,
        command: Command,
        reply: &mut Reply,
        steps: &mut Steps<L>,
    )
        requires stands { StandsFor (setting X.meaning world.now) self.old }
        requires fits { Fits command }
        requires empty { reply.old.items ≡ [] }
        ensures { let w = setting X.meaning world.now in
            let what = answer w (first_of self.old) self.old.now.cycle (meant command) in
            Does w self.old what
            (IsNearBy w (first_of self.old) self.old.near self.old.now.cycle (meant command))
            (λ d. command_cost w (first_of self.old) d self.old.now.cycle (meant command))
            self.new reply.new.items steps.old steps.new }
    {
        let now = self.cycle();
        match command {
            Command::Step(cycles) => self.move_to(world, now + cycles, reply, steps),
            Command::Back(cycles) => self.move_back(world, cycles, reply, steps),
            Command::Goto(cycle) => self.move_to(world, cycle, reply, steps),
            Command::End => self.move_to(world, self.limit + 1, reply, steps),
            Command::Regs => put_registers(&self.machine, reply),
            Command::Mem { address, count } => put_words(&self.machine, address, count, reply),
            Command::Pins => put_pins(&self.machine, reply),
            Command::Pio { block, machine } => put_pio(&self.machine, block, machine, reply),
            Command::Peek(address) => put_peek(&self.machine, world, address, reply),
            Command::Until(watched, count) => {
                self.move_until(world, watched, count, reply, steps);
            }
            Command::Before(watched, count) => {
                self.move_before(world, watched, count, reply, steps);
            }
            Command::Last(watched) => {
                let last = self.nth_before(world, watched, 1, steps);
                put_last(watched, last, reply);
            }
            Command::Quit => {}
            Command::Bad => push_text(b"bad command\n", reply),
        }
    }

    /// Answers a line, without its LF and a CR before that, and leaves the lines of the reply with their LFs in `reply`. False
    /// exactly for `quit`, which has no reply. It takes no memory.
    ///
    /// The session has to stand for the world that is handed in, as it does after `open` for each world of its limit, and after a
    /// command for the same world.
    #[tactic(auto, using(crate::proofs::Moves::quits_as_heard, crate::proofs::Moves::near_as_heard), unfolding(crate::specs::Reply::heard, crate::specs::Reply::cost))]
    pub fn command<X: Device, L: Ledger>(
        &mut self,
        world: &World<'_, X>,
        line: &[u8],
        reply: &mut ArrayVec<u8, 1024>,
        steps: &mut Steps<L>,
    ) -> bool
        requires { StandsFor (setting X.meaning world.now) self.old }
        ensures stays { StaysFor (setting X.meaning world.now) self.old self.new }
        ensures cycle { self.new.now.cycle
            ≡ (heard (setting X.meaning world.now) (first_of self.old) self.old.now.cycle line.now).cycle }
        ensures reply { reply.new.items
            ≡ (heard (setting X.meaning world.now) (first_of self.old) self.old.now.cycle line.now).reply }
        ensures quit { result
            ≡ not (heard (setting X.meaning world.now) (first_of self.old) self.old.now.cycle line.now).quits }
        ensures forward { steps.old ≤ steps.new }
        ensures steps { steps.new ≤ steps.old
            + cost (setting X.meaning world.now) (first_of self.old) self.old.ring.spacing self.old.now.cycle line.now }
        ensures near { IsNearBy (setting X.meaning world.now) (first_of self.old) self.old.near
            self.old.now.cycle (command_of line.now) → steps.new ≤ steps.old
            + cost (setting X.meaning world.now) (first_of self.old) self.old.near.spacing self.old.now.cycle line.now }
        ensures back { self.new.now.cycle < self.old.now.cycle → IsIn self.new.near self.new.now.cycle }
        ensures same { self.new.now.cycle ≡ self.old.now.cycle → IsIn self.old.near self.old.now.cycle
            → IsIn self.new.near self.new.now.cycle }
    {
        let command = command_of(line);
        reply.clear();
        self.obey(world, command, reply, steps);
        goes_on(command)
    }
}
