//! What paces a channel.

ghost use Rattle.std.specs.Prelude.{◌≡◌};
ghost use Rattle.dma_engine.specs.Cycle.{uses_credits};
ghost use Rattle.dma_engine.specs.PaceMeant.{meant};
ghost use Rattle.dma_engine.specs.Requests.{pace_of};

/// What paces a channel, by its data request (RP2040 Datasheet, 2.5.3.1 and 2.5.7, TREQ_SEL).
#[derive(Clone, Copy)]
pub enum Pace {
    /// A transmitter's FIFO, whose count of free entries is at that index of the counts.
    Sender(u8),
    /// A receiver's FIFO, whose count of words is at that index of the counts.
    Receiver(u8),
    /// A pacing timer, 0 to 3.
    Timer(u8),
    /// Nothing: the channel is always ready.
    Always,
    /// A part that this machine does not have: the channel is never ready.
    Never,
}

/// What paces a channel of that data request.
pub(crate) fn pace_of(treq: u8) -> Pace
    ensures { meant result ≡ pace_of treq }
{
    match treq {
        0..=3 | 8..=11 => Pace::Sender(treq),
        4..=7 | 12..=15 => Pace::Receiver(treq),
        20 | 22 => Pace::Sender(treq - 4),
        21 | 23 => Pace::Receiver(treq - 4),
        0x3b..=0x3e => Pace::Timer(treq - 0x3b),
        0x3f => Pace::Always,
        _ => Pace::Never,
    }
}

/// The channel spends a credit for each transfer.
pub(crate) fn uses_credits(pace: Pace) -> bool
    ensures { result ≡ uses_credits (meant pace) }
{
    matches!(pace, Pace::Timer(_))
}
