//! The image that kept blocks make.

ghost use Rattle.std.specs.Prelude.{◌≡◌, ◌≢◌, ◌<◌, length, map, min, IfOk, IfErr, MatchResult};
ghost use Rattle.std.specs.List.{fold};
ghost use Rattle.std.specs.BTreeMap.{values};
ghost use Rattle.uf2_image.specs.Uf2.{in_order, least_missing, part_of, target_of, whole, FitsSram};
ghost use Rattle.uf2_image.specs.Reading.{AreSpread, IsIndexed};

use crate::blocks::Uf2Block;
use crate::fault::ImageFault;
use crate::parts::{Image, Part, PartList};
use crate::reading::KeptBlocks;
use std::alloc::Global;
use std::collections::BTreeMap;

/// The least number below `count` that no kept block has.
fn least_missing(kept: &KeptBlocks, count: u32) -> Option<u32>
    requires { IsIndexed kept.now }
    ensures { result ≡ least_missing kept.now.blocks.items count }
{
    (0..count).find(|number| !kept.has_number(*number))
}

/// The least of the blocks' targets and of `first`.
fn lowest_target(blocks: &[Uf2Block], first: u32) -> u32
    ensures { result ≡ fold (λ low block. min low (target_of block)) first blocks.now }
{
    blocks
        .iter()
        .fold(first, |low, block| low.min(block.target()))
}

/// The values of a map in order of their keys.
fn values_in_order(alloc: Global, ordered: BTreeMap<u32, Part>) -> Result<Vec<Part>, ImageFault>
    ensures values { IfOk result (λ parts. parts.items ≡ values ordered) }
    ensures memory { IfErr result (λ fault. fault ≡ ImageFault.Memory) }
{
    Ok(ordered.into_values().collect(alloc)?)
}

/// The parts of blocks in order of address.
fn parts_in_order(alloc: Global, blocks: &[Uf2Block]) -> Result<PartList, ImageFault>
    requires { AreSpread blocks.now }
    ensures parts { IfOk result (λ parts. parts ≡ in_order (map part_of blocks.now)) }
    ensures memory { IfErr result (λ fault. fault ≡ ImageFault.Memory) }
{
    let mut ordered = BTreeMap::new(alloc);
    for block in blocks {
        let part = block.part(alloc)?;
        ordered.insert(part.address, part)?;
    }
    Ok(PartList::from_vec(values_in_order(alloc, ordered)?))
}

/// The image of the kept blocks, or what they lack.
#[tactic(auto, using(crate::proofs::Images::whole_empty, crate::proofs::Images::whole_missing, crate::proofs::Images::whole_image))]
pub fn image_of_blocks(alloc: Global, kept: &KeptBlocks) -> Result<Image, ImageFault>
    requires index { IsIndexed kept.now }
    requires spread { AreSpread kept.now.blocks.items }
    ensures image { MatchResult result (λ image. whole kept.now.blocks.items ≡ Ok image)
        (λ fault. fault ≢ ImageFault.Memory → whole kept.now.blocks.items ≡ Err fault) }
    ensures fits { IfOk result FitsSram }
{
    let Some(first) = kept.blocks.first() else {
        return Err(ImageFault::Nothing);
    };
    if let Some(number) = least_missing(kept, first.count()) {
        return Err(ImageFault::Missing(number));
    }
    let lowest = lowest_target(&kept.blocks, first.target());
    let parts = parts_in_order(alloc, &kept.blocks)?;
    Ok(Image {
        parts,
        entry: lowest - lowest % 2,
    })
}
