//! The kept blocks of a file, one after the other.

ghost use Rattle.std.specs.Prelude.{◌≡◌, ◌≢◌, ◌/◌, ◌≤◌, ◌<◌, ◌+◌, ◌||◌, ◌&&◌, ◌++◌, ◌∷◌, [], ℕ, false, ◌==◌, nat_lt, nat_le, length, slice_index_or, slice_range, IfOk, OnOk, IfErr, IfNone};
ghost use Rattle.std.specs.List.{filter, list_any};
ghost use Rattle.uf2_image.specs.Uf2.{any_address, block_fault, count_of, first_fault, first_kept, has_number, is_kept, is_loaded, kept, kept_fault};
ghost use Rattle.uf2_image.specs.Reading.{HasPayload, IsIndexed, LiesInSram};

use crate::blocks::{BLOCK_SIZE, LARGEST_PAYLOAD, SRAM_END, SRAM_START, Uf2Block};
use crate::fault::ImageFault;
use std::alloc::Global;
use std::collections::BTreeSet;

/// The kept blocks so far, with what it takes to judge the next one.
#[derive(Drop)]
pub struct KeptBlocks<'a> {
    /// The blocks in the order of the file.
    pub blocks: Vec<Uf2Block<'a>>,
    /// Their numbers.
    pub numbers: BTreeSet<u32>,
    /// Whether the byte at each offset of SRAM is loaded.
    pub loaded: Vec<bool>,
}

/// Flags that are all clear.
fn clear_flags(alloc: Global, len: usize) -> Result<Vec<bool>, ImageFault>
    ensures long { IfOk result (λ flags. length flags.items ≡ len) }
    ensures clear { IfOk result (λ flags. (k : ℕ) → slice_index_or flags.items k false ≡ false) }
    ensures memory { IfErr result (λ fault. fault ≡ ImageFault.Memory) }
{
    Ok(vec![in alloc; false; len]?)
}

/// Sets the flags from `start` to before `end`.
fn set_flags(flags: &mut [bool], start: usize, end: usize)
    requires order { start ≤ end }
    requires within { end ≤ length flags.old }
    ensures { (k : ℕ) → slice_index_or flags.new k false
        ≡ ((nat_le start k && nat_lt k end) || slice_index_or flags.old k false) }
{
    flags[start..end].fill(true);
}

/// Whether one of the flags from `start` to before `end` is set.
fn any_flag(flags: &[bool], start: usize, end: usize) -> bool
    requires order { start ≤ end }
    requires within { end ≤ length flags.now }
    ensures { result ≡ list_any (λ flag. flag) (slice_range flags.now start end) }
{
    flags[start..end].iter().any(|flag| *flag)
}

impl<'a> KeptBlocks<'a> {
    /// No blocks.
    #[tactic(auto, unfolding(crate::specs::Uf2::has_number, crate::specs::Uf2::is_loaded))]
    pub fn new(alloc: Global) -> Result<KeptBlocks<'a>, ImageFault>
        ensures index { IfOk result IsIndexed }
        ensures blocks { IfOk result (λ kept. kept.blocks.items ≡ []) }
        ensures memory { IfErr result (λ fault. fault ≡ ImageFault.Memory) }
    {
        Ok(KeptBlocks {
            blocks: Vec::new(alloc),
            numbers: BTreeSet::new(alloc),
            loaded: clear_flags(alloc, (SRAM_END - SRAM_START) as usize)?,
        })
    }

    /// Whether a kept block has this number.
    pub fn has_number(&self, number: u32) -> bool
        requires { IsIndexed self.now }
        ensures { result ≡ has_number self.now.blocks.items number }
    {
        self.numbers.contains(&number)
    }

    /// Whether a block's number of blocks is that of the first kept one.
    fn agrees_in_count(&self, block: &Uf2Block) -> bool
        ensures { result ≡ (count_of block.now
            == count_of (first_kept self.now.blocks.items block.now)) }
    {
        match self.blocks.first() {
            Some(first) => block.count() == first.count(),
            None => true,
        }
    }

    /// Whether a byte of a block is loaded already.
    #[tactic(auto, using(crate::proofs::Loading::overlap_flags))]
    fn overlaps(&self, block: &Uf2Block) -> bool
        requires index { IsIndexed self.now }
        requires payload { HasPayload block.now }
        requires sram { LiesInSram block.now }
        ensures { result ≡ any_address (is_loaded self.now.blocks.items) block.now }
    {
        let start = (block.target() - SRAM_START) as usize;
        let end = start + block.size() as usize;
        any_flag(&self.loaded, start, end)
    }

    /// The fault of a kept block that is number `index` of the file.
    #[tactic(auto, unfolding(crate::specs::Uf2::kept_fault))]
    fn fault(&self, index: u32, block: &Uf2Block) -> Option<ImageFault>
        requires { IsIndexed self.now }
        ensures fault { result ≡ kept_fault self.now.blocks.items index block.now }
        ensures payload { IfNone result (HasPayload block.now) }
        ensures sram { IfNone result (LiesInSram block.now) }
    {
        let size = block.size();
        if size == 0 || size > LARGEST_PAYLOAD {
            return Some(ImageFault::Payload(index, size));
        }
        if block.count() == 0 || !self.agrees_in_count(block) {
            return Some(ImageFault::Count(index));
        }
        if block.number() >= block.count() {
            return Some(ImageFault::Number(index));
        }
        if self.has_number(block.number()) {
            return Some(ImageFault::Repeat(index));
        }
        if block.is_in_flash() {
            return Some(ImageFault::Flash(index, block.target()));
        }
        if block.is_outside_sram() {
            return Some(ImageFault::Address(index, block.target()));
        }
        if self.overlaps(block) {
            return Some(ImageFault::Overlap(index));
        }
        None
    }

    /// Keeps a block that has no fault.
    fn keep(&mut self, block: Uf2Block<'a>) -> Result<(), ImageFault>
        requires index { IsIndexed self.old }
        requires payload { HasPayload block }
        requires sram { LiesInSram block }
        ensures blocks { OnOk result (self.new.blocks.items ≡ self.old.blocks.items ++ block.entry
            ∷ []) }
        ensures index { OnOk result (IsIndexed self.new) }
        ensures memory { IfErr result (λ fault. fault ≡ ImageFault.Memory) }
    {
        let start = (block.target() - SRAM_START) as usize;
        let end = start + block.size() as usize;
        self.numbers.insert(block.number())?;
        set_flags(&mut self.loaded, start, end);
        self.blocks.push(block)?;
        Ok(())
    }

    /// Reads a block that is number `index` of the file.
    #[tactic(auto, unfolding(crate::specs::Uf2::block_fault))]
    pub fn read(&mut self, index: u32, block: Uf2Block<'a>) -> Result<(), ImageFault>
        requires { IsIndexed self.old }
        ensures none { OnOk result (block_fault self.old.blocks.items index block.entry ≡ None) }
        ensures blocks { OnOk result (self.new.blocks.items ≡ self.old.blocks.items
            ++ filter is_kept (block.entry ∷ [])) }
        ensures index { OnOk result (IsIndexed self.new) }
        ensures fault { IfErr result (λ fault. fault ≢ ImageFault.Memory
            → block_fault self.old.blocks.items index block.entry ≡ Some fault) }
    {
        if !block.has_magic() {
            return Err(ImageFault::Magic(index));
        }
        if !block.is_kept() {
            return Ok(());
        }
        if let Some(fault) = self.fault(index, &block) {
            return Err(fault);
        }
        self.keep(block)
    }
}

/// The kept blocks of a file whose length is a multiple of the block size.
#[tactic(auto, using(crate::proofs::Files::kept_start, crate::proofs::Files::no_fault_start, crate::proofs::Files::read_kept, crate::proofs::Files::no_fault_more, crate::proofs::Files::read_fault))]
pub fn read_blocks<'a>(alloc: Global, bytes: &'a [u8]) -> Result<KeptBlocks<'a>, ImageFault>
    requires { length bytes.now ≤ 16777216 }
    ensures none { OnOk result (first_fault bytes.now (length bytes.now / 512) ≡ None) }
    ensures blocks { IfOk result (λ read. read.blocks.items
        ≡ kept bytes.now (length bytes.now / 512)) }
    ensures index { IfOk result IsIndexed }
    ensures fault { IfErr result (λ fault. fault ≢ ImageFault.Memory
        → first_fault bytes.now (length bytes.now / 512) ≡ Some fault) }
{
    let mut kept = KeptBlocks::new(alloc)?;
    for index in 0..bytes.len() / BLOCK_SIZE {
        let start = index * BLOCK_SIZE;
        let block = Uf2Block::new(&bytes[start..start + BLOCK_SIZE]);
        kept.read(index as u32, block)?;
    }
    Ok(kept)
}
