//! A lane, a look and a device that are small enough to follow by hand. They meet the contracts of their traits.

ghost use Rattle.std.specs.Prelude.{◌≡◌, ◌+◌, ◌%◌, ◌^◌, ◌==◌, ℕ, [], ◌∷◌, None, Some, slice_index, slice_set};
ghost use Rattle.std.proofs.Common.{refl, rules};
ghost use Rattle.lane_look.specs.Asking.{Asking, Runs};
ghost use Rattle.lane_look.specs.Asking.Asking.{Ready, Question};

use lane_look::{Ask, Device, Lane, Look, Marks, Turn, Want, Wires};
use rp_base::{Request, Size};

/// A lane that asks for the word at an address of its own, and wants to write it back.
#[derive(Drop)]
pub struct Copier {
    /// The address, a number of 32 bits.
    pub address: u32,
}

impl Lane<()> for Copier {
    ghost use Rattle.lane_look.specs.declared.lane.Ask.{Ask};
    ghost use Rattle.lane_look.specs.declared.lane.Want.{Want};
    ghost use Rattle.rp_base.specs.declared.Size.{Size};

    type Begun = u32;

    ghost asks = { λ _ s cycle. Question (Ask.Word s.address) (λ x. Ready (x % 2 ^ 32)) };

    ghost most = { 1 };

    ghost wanted = { λ word. Want.Ram (record { address = 0; size = Size.Word; write = Some word })
        ∷ Want.Nothing ∷ [] };

    ghost next = { λ _ s word turns. record { address = word } };

    ghost marked = { λ _ s word turns. None };

    fn begin<K: Look>(&self, _env: &(), _cycle: u64, look: &mut K) -> u32 {
        (look.ask(Ask::Word(self.address)) & 0xffff_ffff) as u32
    }

    fn wants(begun: &u32) -> [Want; 2] {
        let request = Request {
            address: 0,
            size: Size::Word,
            write: Some(*begun),
        };
        [Want::Ram(request), Want::Nothing]
    }

    fn finish(&mut self, _env: &(), begun: &u32, _turns: [Turn; 2], _marks: &mut Marks) {
        self.address = *begun;
    }

    fn copy_from(&mut self, other: &Copier) {
        self.address = other.address;
    }

    ghost few = { Prim.search rules };

    ghost asks_at_most = { λ env s cycle x. tt };

    ghost reads_no_word = { λ env s begun turns. refl };
}

/// A look that answers each question with one more than the one before.
#[derive(Drop)]
pub struct Count(
    /// The next answer.
    pub u32,
);

impl Look for Count {
    ghost answers = { λ old ask answer new. (answer ≡ old.0) × (new.0 ≡ (old.0 + 1) % 2 ^ 32) };

    fn ask(&mut self, _ask: Ask) -> u128 {
        let answer = self.0;
        self.0 = self.0.wrapping_add(1);
        u128::from(answer)
    }
}

/// One cycle of any lane that leaves no mark, each want done with 0.
pub fn step<E, S: Lane<E>, K: Look>(
    lane: &mut S,
    env: &E,
    cycle: u64,
    look: &mut K,
    marks: &mut Marks,
)
    requires { (b : S.Begun) → S.marked env.now lane.old b (Turn.Done 0 ∷ Turn.Done 0 ∷ []) ≡ None }
    ensures { (b : S.Begun) × Runs K.answers look.old (S.asks env.now lane.old cycle) b look.new
        × (lane.new ≡ S.next env.now lane.old b (Turn.Done 0 ∷ Turn.Done 0 ∷ [])) }
{
    let begun = lane.begin(env, cycle, look);
    lane.finish(env, &begun, [Turn::Done(0), Turn::Done(0)], marks);
}

/// A device of one word at one address: a read leaves 0, a write adds to the word, and each cycle adds one. The word is
/// the levels of the pads that it drives.
#[derive(Drop)]
pub struct Counter {
    /// The address.
    pub address: u32,
    /// The pads that it drives, pad 0 in bit 0.
    pub pads: u32,
}

impl Device for Counter {
    ghost meaning = { λ d. record {
      count = 1;
      first = λ state. slice_set state 0 d.pads;
      covers = λ address. address == d.address;
      value = λ state address. slice_index state 0;
      after_read = λ state address. slice_set state 0 0;
      after_write = λ state address value. slice_set state 0
          ((slice_index state 0 + value) % 2 ^ 32);
      wires = λ state cycle pads. record {
        mask = d.pads;
        level = slice_index state 0;
        pwm = pads;
        irq = cycle % 2;
      };
      after_step = λ state cycle pads. slice_set state 0 ((slice_index state 0 + 1) % 2 ^ 32);
    } };

    fn words(&self) -> usize {
        1
    }

    fn start(&self, state: &mut [u32]) {
        state[0] = self.pads;
    }

    fn owns(&self, address: u32) -> bool {
        address == self.address
    }

    fn read(&self, state: &mut [u32], _address: u32) -> u32 {
        let word = state[0];
        state[0] = 0;
        word
    }

    fn write(&self, state: &mut [u32], _address: u32, value: u32) {
        state[0] = state[0].wrapping_add(value);
    }

    fn step(&self, state: &mut [u32], cycle: u64, pads: u32) -> Wires {
        let wires = Wires {
            mask: self.pads,
            level: state[0],
            pwm: pads,
            irq: (cycle % 2) as u32,
        };
        state[0] = state[0].wrapping_add(1);
        wires
    }
}
