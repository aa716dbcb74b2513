//! The state of the machine without the words of SRAM, for whoever keeps SRAM in another way.

use crate::machine::{Machine, copy_lane};
use bus_fabric::Fabric;
use dma_engine::Dma;
use lane_look::{Lane, NoDevice};
use m0_core::Core;
use outer_lane::Outer;
use pio_block::PioBlock;
use rp_base::Resettable;
use sio_block::Sio;
use std::alloc::{AllocError, Global};
use std::marker::Model;

/// The state of a machine without the words of SRAM.
#[derive(Drop)]
pub struct Rest {
    at: u64,
    core0: Core,
    core1: Core,
    dma: Resettable<Dma>,
    pio0: Resettable<PioBlock>,
    pio1: Resettable<PioBlock>,
    outer: Outer,
    sio: Sio,
    fabric: Fabric,
    resets: [u32; 2],
}

impl Model for Rest {
    ghost use Rattle.std.specs.Prelude.{slice_index};
    ghost use Rattle.rp_machine.specs.Copies.{Agree};
    ghost use Rattle.rp_machine.specs.Rest.{RestState};

    ghost Value = { RestState };

    ghost view = { λ r. record {
      cycle = r.at;
      core0 = r.core0;
      core1 = r.core1;
      dma = r.dma;
      pio0 = r.pio0;
      pio1 = r.pio1;
      outer = r.outer;
      sio = r.sio;
      fabric = r.fabric;
      resets = r.resets;
    } };

    // as in the machine
    ghost invariant = { λ r. Agree (slice_index r.resets 0) r.core1 r.dma.held r.pio0.held r.pio1.held r.outer
        r.sio };
}

impl Rest {
    ghost use Rattle.std.specs.Prelude.{◌≡◌};

    /// The number of the cycle that is next.
    pub fn number(&self) -> u64
        ensures { result ≡ self.now.cycle }
    {
        self.at
    }
}

impl Machine {
    ghost use Rattle.std.specs.Prelude.{◌≡◌, IfOk};
    ghost use Rattle.rp_machine.specs.Rest.{rest_of, state_with};

    /// The state without the words of SRAM.
    ///
    /// # Errors
    ///
    /// Want of memory.
    pub fn rest(&self, _alloc: Global) -> Result<Rest, AllocError>
        ensures { IfOk result (λ rest. rest ≡ rest_of self.now) }
    {
        let mut rest = Rest {
            at: 0,
            core0: Core::new(0),
            core1: Core::new(1),
            dma: Resettable::new(Dma::new()),
            pio0: Resettable::new(PioBlock::new()),
            pio1: Resettable::new(PioBlock::new()),
            outer: Outer::new(&NoDevice),
            sio: Sio::new(),
            fabric: Fabric::new(),
            resets: [0; 2],
        };
        self.rest_into(&mut rest);
        Ok(rest)
    }

    /// Puts the state without the words of SRAM into `rest`. It takes no memory.
    pub fn rest_into(&self, rest: &mut Rest)
        ensures { rest.new ≡ rest_of self.now }
    {
        rest.at = self.at;
        Lane::<()>::copy_from(&mut rest.core0, &self.core0);
        Lane::<()>::copy_from(&mut rest.core1, &self.core1);
        copy_lane(&mut rest.dma, &self.dma);
        copy_lane(&mut rest.pio0, &self.pio0);
        copy_lane(&mut rest.pio1, &self.pio1);
        rest.outer.copy_from(&self.outer);
        rest.sio.copy_from(&self.sio);
        rest.fabric = self.fabric;
        rest.resets = self.resets;
    }

    /// Takes the state of `rest`, and keeps the words of SRAM. It takes no memory.
    pub fn rest_from(&mut self, rest: &Rest)
        ensures { self.new ≡ state_with self.old.sram rest.now }
    {
        self.at = rest.at;
        Lane::<()>::copy_from(&mut self.core0, &rest.core0);
        Lane::<()>::copy_from(&mut self.core1, &rest.core1);
        copy_lane(&mut self.dma, &rest.dma);
        copy_lane(&mut self.pio0, &rest.pio0);
        copy_lane(&mut self.pio1, &rest.pio1);
        self.outer.copy_from(&rest.outer);
        self.sio.copy_from(&rest.sio);
        self.fabric = rest.fabric;
        self.resets = rest.resets;
    }
}
