//! Parts side by side, as one device.

ghost use Rattle.std.specs.Prelude.{◌≡◌, ◌+◌, ◌^◌, ◌<◌, ◌≤◌, true, length, map};
ghost use Rattle.lane_look.specs.Device.{joined};
ghost use Rattle.lane_look.specs.Quiet.{IsDeviceQuiet, device_after};
ghost use Rattle.board_parts.specs.Part.{are_pins};
ghost use Rattle.board_parts.specs.Parts.{placed_at, all_placed, words_of, first_of, wires_of, states_after, parts_device, wires_by};

use crate::part::{Drive, Part};
use lane_look::{Device, Wires};

/// Parts that are attached to pins, of at most 128 words together, in an order: the first words of the state are the first part's. Where
/// two drive one pin, it has the level of the earlier part.
#[derive(Drop)]
pub struct Row<P: Part> {
    list: Vec<P>,
    count: usize,
    ghost placed: { all_placed (map (λ p. placed_at (P.attached p) (P.meaning p)) list.items) ≡ true },
    ghost counted: { count ≡ words_of (map (λ p. placed_at (P.attached p) (P.meaning p)) list.items) },
    ghost room: { count ≤ 128 },
}

/// Boxed parts as one device.
pub type Parts = Row<Box<dyn Part + Sync>>;

/// A boxed part does what the part in the box does.
impl Part for Box<dyn Part + Sync> {
    ghost attached = { λ b. (Part-box b).attached b.value };

    ghost meaning = { λ b. (Part-box b).meaning b.value };

    fn pins(&self) -> usize {
        (**self).pins()
    }

    fn attach(&mut self, pins: &[u8]) {
        (**self).attach(pins);
    }

    fn words(&self) -> usize {
        (**self).words()
    }

    fn start(&self, state: &mut [u32]) {
        (**self).start(state);
    }

    #[inline(always)]
    fn step(&self, state: &mut [u32], cycle: u64, pads: u32) -> Drive {
        (**self).step(state, cycle, pads)
    }

    fn drives(&self, state: &[u32], cycle: u64, pads: u32) -> Drive {
        (**self).drives(state, cycle, pads)
    }

    fn quiet(&self, state: &[u32], cycle: u64, pads: u32) -> u64 {
        (**self).quiet(state, cycle, pads)
    }

    fn pass(&self, state: &mut [u32], first: u64, pads: u32, n: u64) {
        (**self).pass(state, first, pads, n);
    }
}

/// The words of all parts together, which are at most 128.
#[tactic(auto, using(crate::proofs::Viewing::viewed))]
fn count_words<P: Part>(list: &[P]) -> usize
    requires { words_of (map (λ p. placed_at (P.attached p) (P.meaning p)) list.now) ≤ 128 }
    ensures { result ≡ words_of (map (λ p. placed_at (P.attached p) (P.meaning p)) list.now) }
{
    match list {
        [] => 0,
        [first, rest @ ..] => first.words() + count_words(rest),
    }
}

impl<P: Part + Sync> Row<P> {
    /// These parts, in this order, as one device. Each is attached.
    pub fn new(list: Vec<P>) -> Row<P>
        requires placed { all_placed (map (λ p. placed_at (P.attached p) (P.meaning p))
            list.items) ≡ true }
        requires room { words_of (map (λ p. placed_at (P.attached p) (P.meaning p))
            list.items) ≤ 128 }
        ensures { ⟦<Row<P> as Device>⟧.meaning result
            ≡ parts_device (map (λ p. placed_at (P.attached p) (P.meaning p)) list.items) }
    {
        let count = count_words(&list);
        Row { list, count }
    }
}

impl<P: Part + Sync> Device for Row<P> {
    ghost meaning = { λ s. parts_device (map (λ p. placed_at (P.attached p) (P.meaning p)) s.list.items) };

    fn words(&self) -> usize {
        self.count
    }

    fn start(&self, state: &mut [u32]) {
        start_all(&self.list, state);
    }

    fn owns(&self, _address: u32) -> bool {
        false
    }

    fn read(&self, _state: &mut [u32], _address: u32) -> u32 {
        0
    }

    fn write(&self, _state: &mut [u32], _address: u32, _value: u32) {}

    #[inline(always)]
    fn step(&self, state: &mut [u32], cycle: u64, pads: u32) -> Wires {
        match self.list.as_slice() {
            [only] => wires(join(only.step(state, cycle, pads), Drive::default())),
            list => wires(step_all(list, state, cycle, pads)),
        }
    }

    fn drives(&self, state: &[u32], cycle: u64, pads: u32) -> Wires {
        match self.list.as_slice() {
            [only] => wires(join(only.drives(state, cycle, pads), Drive::default())),
            list => wires(drives_all(list, state, cycle, pads)),
        }
    }

    fn quiet(&self, state: &[u32], cycle: u64, pads: u32) -> u64 {
        match self.list.as_slice() {
            [only] => only.quiet(state, cycle, pads),
            list => quiet_all(list, state, cycle, pads),
        }
    }

    fn pass(&self, state: &mut [u32], first: u64, pads: u32, n: u64) {
        match self.list.as_slice() {
            [only] => only.pass(state, first, pads, n),
            list => pass_all(list, state, first, pads, n),
        }
    }
}

/// Starts parts, each over its own words.
fn start_all<P: Part>(list: &[P], state: &mut [u32])
    requires { length state.old ≡ words_of (map (λ p. placed_at (P.attached p) (P.meaning p)) list.now) }
    ensures { state.new ≡ first_of (map (λ p. placed_at (P.attached p) (P.meaning p)) list.now) }
{
    if let [first, rest @ ..] = list {
        let (own, others) = state.split_at_mut(first.words());
        first.start(own);
        start_all(rest, others);
    }
}

/// What a part drives together with later ones: the earlier one gives the level of a pin.
fn join(first: Drive, rest: Drive) -> Drive
    ensures { wires_by result ≡ joined (wires_by first) (wires_by rest) }
{
    Drive {
        mask: first.mask | rest.mask,
        level: first.level & first.mask | rest.level & !first.mask,
    }
}

/// What a device drives that drives these pins alone.
fn wires(drive: Drive) -> Wires
    ensures { result ≡ wires_by drive }
{
    Wires {
        mask: drive.mask,
        level: drive.level,
        pwm: 0,
        irq: 0,
    }
}

/// A cycle of parts, each over its own words.
#[inline(never)]
fn step_all<P: Part>(list: &[P], state: &mut [u32], cycle: u64, pads: u32) -> Drive
    requires state { length state.old ≡ words_of (map (λ p. placed_at (P.attached p) (P.meaning p)) list.now) }
    requires placed { all_placed (map (λ p. placed_at (P.attached p) (P.meaning p)) list.now) ≡ true }
    ensures wires { wires_by result ≡ wires_of (map (λ p. placed_at (P.attached p) (P.meaning p)) list.now)
        state.old cycle pads }
    ensures state { state.new ≡ states_after (map (λ p. placed_at (P.attached p) (P.meaning p)) list.now)
        state.old cycle pads }
{
    match list {
        [] => Drive::default(),
        [first, rest @ ..] => {
            let (words, others) = state.split_at_mut(first.words());
            let drive = first.step(words, cycle, pads);
            join(drive, step_all(rest, others, cycle, pads))
        }
    }
}

/// What parts drive in a cycle, each by its own words.
fn drives_all<P: Part>(list: &[P], state: &[u32], cycle: u64, pads: u32) -> Drive
    requires state { length state.now ≡ words_of (map (λ p. placed_at (P.attached p) (P.meaning p)) list.now) }
    requires room { length state.now ≤ 128 }
    requires placed { all_placed (map (λ p. placed_at (P.attached p) (P.meaning p)) list.now) ≡ true }
    ensures { wires_by result ≡ wires_of (map (λ p. placed_at (P.attached p) (P.meaning p)) list.now) state.now cycle pads }
{
    match list {
        [] => Drive::default(),
        [first, rest @ ..] => {
            let (own, others) = state.split_at(first.words());
            let drive = first.drives(own, cycle, pads);
            join(drive, drives_all(rest, others, cycle, pads))
        }
    }
}

/// For how many cycles each of these parts is quiet.
#[tactic(auto, using(crate::proofs::Quiet::no_parts_quiet))]
fn quiet_all<P: Part>(list: &[P], state: &[u32], cycle: u64, pads: u32) -> u64
    requires state { length state.now ≡ words_of (map (λ p. placed_at (P.attached p) (P.meaning p)) list.now) }
    requires placed { all_placed (map (λ p. placed_at (P.attached p) (P.meaning p)) list.now) ≡ true }
    ensures { IsDeviceQuiet (parts_device (map (λ p. placed_at (P.attached p) (P.meaning p)) list.now))
        state.now cycle pads result }
{
    match list {
        [] => u64::MAX,
        [first, rest @ ..] => {
            let (own, others) = state.split_at(first.words());
            let quiet = first.quiet(own, cycle, pads);
            quiet.min(quiet_all(rest, others, cycle, pads))
        }
    }
}

/// So many cycles of parts, each over its own words.
#[tactic(auto, using(crate::proofs::Quiet::no_parts_after))]
fn pass_all<P: Part>(list: &[P], state: &mut [u32], first: u64, pads: u32, n: u64)
    requires state { length state.old ≡ words_of (map (λ p. placed_at (P.attached p) (P.meaning p)) list.now) }
    requires placed { all_placed (map (λ p. placed_at (P.attached p) (P.meaning p)) list.now) ≡ true }
    requires number { first + n < 2 ^ 64 }
    ensures { state.new ≡ device_after (parts_device (map (λ p. placed_at (P.attached p) (P.meaning p)) list.now))
        pads first n state.old }
{
    if let [part, rest @ ..] = list {
        let (own, others) = state.split_at_mut(part.words());
        part.pass(own, first, pads, n);
        pass_all(rest, others, first, pads, n);
    }
}
