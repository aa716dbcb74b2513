//! What the lanes have begun in a cycle.

ghost use Rattle.std.specs.Prelude.{◌≡◌};
ghost use Rattle.lane_look.specs.Asking.{answered};
ghost use Rattle.dma_engine.specs.Asks as dma;
ghost use Rattle.m0_core.specs.Fetch.{asks};
ghost use Rattle.rp_machine.specs.Answers.{answer_of, lines_of};

use crate::look::MachineLook;
use crate::machine::Machine;
use dma_engine::BegunTransfer;
use lane_look::{Device, Lane};
use m0_core::{Act, Core, Doing};
use outer_lane::{SeenOutputs, World};
use pio_block::Inputs;

/// What the six lanes have begun in a cycle, once their questions are answered.
#[derive(Clone, Copy)]
pub struct Begun {
    /// What core 0 has begun.
    pub core0: Doing,
    /// What core 1 has begun.
    pub core1: Doing,
    /// What the DMA engine has begun.
    pub dma: BegunTransfer,
    /// What PIO block 0 has begun.
    pub pio0: Option<Inputs>,
    /// What PIO block 1 has begun.
    pub pio1: Option<Inputs>,
    /// What the peripherals have begun.
    pub outer: SeenOutputs,
}

/// What a lane of the machine, by its number, begins.
#[inline(always)]
pub(crate) fn begin_lane<E, S: Lane<E>>(
    machine: &Machine,
    number: u8,
    lane: &S,
    env: &E,
) -> S::Begun
    ensures { result ≡ answered (answer_of number machine.now)
        (S.asks env.now lane.now machine.now.cycle) }
{
    let mut look = MachineLook {
        lane: number,
        machine,
    };
    lane.begin(env, machine.at, &mut look)
}

/// What a core, by its number, begins, whose interrupt lines are these, in the place of what it began before.
#[inline(always)]
pub(crate) fn begin_core(machine: &Machine, number: u8, lines: u32, core: &Core, begun: &mut Doing)
    requires { lines ≡ lines_of number machine.now }
    ensures { begun.new ≡ answered (answer_of number machine.now)
        (asks core.now machine.now.cycle) }
{
    let mut look = MachineLook {
        lane: number,
        machine,
    };
    core.begin_told(machine.at, lines, &mut look, begun);
}

/// What the DMA engine begins, in the place of what it began before.
#[inline(always)]
pub(crate) fn begin_dma(machine: &Machine, begun: &mut BegunTransfer)
    ensures { begun.new ≡ answered (answer_of 2 machine.now) (dma.asks machine.now.dma.block) }
{
    let mut look = MachineLook { lane: 2, machine };
    machine.dma.block.begin_into(&mut look, begun);
}

impl Begun {
    ghost use Rattle.std.specs.Prelude.{◌≡◌, ◌∷◌, [], None};
    ghost use Rattle.dma_engine.specs.declared.begun.Access.TheVariants.{Nothing};
    ghost use Rattle.dma_engine.specs.Asks.{begun_with};
    ghost use Rattle.m0_core.specs.declared.doing.Act.TheVariants.{Asleep};
    ghost use Rattle.m0_core.specs.Fetch.{ends_with};

    /// What lanes that are asleep or quiet begin in cycle 0: room for what is begun.
    #[inline(always)]
    pub fn nothing() -> Begun
        ensures core0 { result.core0 ≡ ends_with 0 0 Asleep }
        ensures core1 { result.core1 ≡ ends_with 0 0 Asleep }
        ensures dma { result.dma ≡ begun_with 0 Nothing Nothing }
        ensures pio0 { result.pio0 ≡ None }
        ensures pio1 { result.pio1 ≡ None }
        ensures outer { result.outer ≡ record { cycle = 0; pio0 = 0 ∷ 0 ∷ []; pio1 = 0 ∷ 0 ∷ [] } }
    {
        Begun {
            core0: Doing::nothing(),
            core1: Doing::nothing(),
            dma: BegunTransfer::nothing(),
            pio0: None,
            pio1: None,
            outer: SeenOutputs {
                cycle: 0,
                pio0: [0, 0],
                pio1: [0, 0],
            },
        }
    }
}

impl Machine {
    ghost use Rattle.std.specs.Prelude.{◌≡◌, ◌^◌, ◌<◌};
    ghost use Rattle.rp_machine.specs.Answers.{shared_lines};
    ghost use Rattle.rp_machine.specs.Cycle.{begun};

    /// What the lanes begin, by the state at the start of the cycle, in the place of what they began before.
    #[inline(never)]
    #[tactic(auto, unfolding(crate::specs::Cycle::begun))]
    pub fn begin_into<X: Device>(&self, world: &World<'_, X>, lanes: &mut Begun)
        ensures { lanes.new ≡ begun self.now }
    {
        begin_dma(self, &mut lanes.dma);
        lanes.pio0 = begin_lane(self, 3, &self.pio0.block, &());
        lanes.pio1 = begin_lane(self, 4, &self.pio1.block, &());
        lanes.outer = begin_lane(self, 5, &self.outer, world);
        let shared = self.shared_lines();
        let lines = self.lines_beside(shared, 0);
        begin_core(self, 0, lines, &self.core0, &mut lanes.core0);
        self.begin_core1(shared, &mut lanes.core1);
    }

    /// What core 1 begins, in the place of what it began before, where these are the lines that both cores share. While it sleeps its own
    /// lines are not found.
    #[inline(always)]
    #[tactic(auto, unfolding(crate::specs::Cycle::begun, m0_core::specs::Fetch::asks))]
    fn begin_core1(&self, shared: u32, core1: &mut Doing)
        requires shared { shared ≡ shared_lines self.now }
        requires small { shared < 2 ^ 13 }
        ensures { core1.new ≡ (begun self.now).core1 }
    {
        if self.core1.is_asleep() {
            core1.act = Act::Asleep;
            core1.lines = 0;
            core1.cycle = self.at;
        } else {
            begin_core(self, 1, self.lines_beside(shared, 1), &self.core1, core1);
        }
    }

    /// What the lanes begin, by the state at the start of the cycle.
    #[inline(always)]
    pub fn begin<X: Device>(&self, world: &World<'_, X>) -> Begun
        ensures { result ≡ begun self.now }
    {
        let mut lanes = Begun::nothing();
        self.begin_into(world, &mut lanes);
        lanes
    }
}
