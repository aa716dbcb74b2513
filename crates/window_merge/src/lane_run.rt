//! The report of a lane of any kind, and what a lane is given for its run alone.

use crate::copies::Copies;
use dma_engine::Dma;
use lane_look::Report;
use m0_core::Core;
use outer_lane::Outer;
use pio_block::PioBlock;

/// A report of a lane, by the lane's kind.
#[derive(Drop)]
pub enum LaneRun {
    /// Of a core, lane 0 or 1.
    Core(Report<Core>),
    /// Of the DMA engine, lane 2.
    Dma(Report<Dma>),
    /// Of a PIO block, lane 3 or 4.
    Pio(Report<PioBlock>),
    /// Of the peripherals, lane 5.
    Outer(Report<Outer>),
}

/// What a lane is given for its run alone.
#[derive(Drop)]
pub struct LaneSet {
    /// Copies of all that it can ask.
    pub copies: Copies,
    /// The state of the lane, which is the `before` of a report, and room for the rest of that report. None where the report
    /// is somewhere else.
    pub room: Option<LaneRun>,
}
