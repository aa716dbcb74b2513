//! One transfer: its addresses and its data.

ghost use Rattle.std.specs.Prelude.{◌≡◌, ◌^◌, ◌<◌, ◌≤◌};
ghost use Rattle.dma_engine.specs.Transfer.{bytes_of, rounded, advanced, ring_of_read, ring_of_write, next_read, next_write, moved, swapped, data_of, read_of, write_after, request_of};

use crate::channel::Channel;
use crate::waiting::WaitingWrite;
use m0_alu::{ExtendKind, extend};
use rp_base::access::lanes;
use rp_base::{Request, Size};

/// How many bytes an access has.
fn bytes(size: Size) -> u32
    ensures value { result ≡ bytes_of size }
    ensures low { 0 < result }
    ensures high { result ≤ 4 }
{
    match size {
        Size::Byte => 1,
        Size::Half => 2,
        Size::Word => 4,
    }
}

/// An address rounded down to the size of an access.
fn rounded(size: Size, address: u32) -> u32
    ensures { result ≡ rounded size address }
{
    match size {
        Size::Byte => address,
        Size::Half => address / 2 * 2,
        Size::Word => address / 4 * 4,
    }
}

/// How many addresses a ring has.
fn span(ring: u32) -> u32
    requires { ring < 16 }
    ensures { result ≡ 2 ^ ring }
{
    1 << ring
}

/// The next address, in a ring of `ring` bits where that is not 0.
#[tactic(auto, using(crate::proofs::Ring::ring_laws))]
fn advanced(ring: u32, bytes: u32, address: u32) -> u32
    requires width { ring < 16 }
    requires step { bytes ≤ 4 }
    ensures { result ≡ advanced ring bytes address }
{
    if ring == 0 {
        return address.wrapping_add(bytes);
    }
    let span = span(ring);
    address / span * span + (address % span + bytes) % span
}

/// The bytes of a value in reverse order.
fn swapped(size: Size, value: u32) -> u32
    ensures { result ≡ swapped size value }
{
    match size {
        Size::Byte => value,
        Size::Half => extend(ExtendKind::Rev16, value),
        Size::Word => extend(ExtendKind::Rev, value),
    }
}

impl Channel {
    /// The address of the read after the next one.
    fn next_read(&self) -> u32
        ensures { result ≡ next_read self.now }
    {
        if !self.increments_read() {
            return self.read;
        }
        let ring = if self.rings_write() { 0 } else { self.ring() };
        advanced(ring, bytes(self.size()), self.read)
    }

    /// The address of the write after the next one.
    fn next_write(&self) -> u32
        ensures { result ≡ next_write self.now }
    {
        if !self.increments_write() {
            return self.write;
        }
        let ring = if self.rings_write() { self.ring() } else { 0 };
        advanced(ring, bytes(self.size()), self.write)
    }

    /// Both addresses advance.
    #[tactic(auto, unfolding(crate::specs::Transfer::moved))]
    pub(crate) fn advance(&mut self)
        ensures { self.new ≡ moved self.old }
    {
        let (read, write) = (self.next_read(), self.next_write());
        self.read = read;
        self.write = write;
    }

    /// The data of a read of that word.
    #[tactic(auto, unfolding(crate::specs::Transfer::data_of))]
    fn data(&self, word: u32) -> u32
        ensures { result ≡ data_of self.now word }
    {
        let value = lanes(self.size(), self.read, word);
        if self.swaps() {
            swapped(self.size(), value)
        } else {
            value
        }
    }

    /// The next read.
    #[tactic(auto, unfolding(crate::specs::Transfer::read_of))]
    pub(crate) fn next_request(&self) -> Request
        ensures { result ≡ read_of self.now }
    {
        Request {
            address: rounded(self.size(), self.read),
            size: self.size(),
            write: None,
        }
    }

    /// The write of what was read, where the channel has that number.
    #[tactic(auto, unfolding(crate::specs::Transfer::write_after))]
    pub(crate) fn write_after(&self, number: u8, word: u32) -> WaitingWrite
        ensures { result ≡ write_after number self.now word }
    {
        WaitingWrite {
            channel: number,
            address: rounded(self.size(), self.write),
            size: self.size(),
            value: self.data(word),
        }
    }
}

impl WaitingWrite {
    /// The access of the write.
    #[tactic(auto, unfolding(crate::specs::Transfer::request_of))]
    pub(crate) fn request(&self) -> Request
        ensures { result ≡ request_of self.now }
    {
        Request {
            address: self.address,
            size: self.size,
            write: Some(self.value),
        }
    }
}
