//! Which probes are aimed: those that targets name.

ghost use Rattle.std.specs.Prelude.{◌≡◌, ◌++◌, map, IfOk};
ghost use Rattle.board_parts.specs.Aiming.{pin_for, aim_where, aims_of};
ghost use Rattle.board_parts.specs.Hearing.{aim_of, seen};

use crate::aimed::Aimed;
use crate::probe::Probe;
use crate::target::Target;
use std::alloc::{AllocError, Global};

/// The pin that the targets name for the probe of an index.
fn pin_for(index: u64, targets: &[Target]) -> Option<u8>
    ensures { result ≡ pin_for index targets.now }
{
    for target in targets {
        if target.index == index {
            return Some(target.pin);
        }
    }
    None
}

/// Aims a probe where the targets name a pin for it, and adds it behind others; else drops it.
fn aim_next(
    index: u64,
    probe: Box<dyn Probe>,
    targets: &[Target],
    aimed: &mut Vec<Aimed>,
) -> Result<(), AllocError>
    ensures { IfOk result (λ done. seen aimed.new.items (λ a. aim_of a.index a.pin
        (⟦<dyn Probe as Probe>⟧ a.probe.vtable) a.probe.value)
        ≡ seen aimed.old.items (λ a. aim_of a.index a.pin
        (⟦<dyn Probe as Probe>⟧ a.probe.vtable) a.probe.value)
        ++ aim_where index (meaning probe) (pin_for index targets.now)) }
{
    if let Some(pin) = pin_for(index, targets) {
        aimed.push(Aimed::new(index, pin, probe))?;
    }
    Ok(())
}

/// Aims the probes that the targets name, each at its pin, in the order of the probes, and drops the others.
///
/// # Errors
///
/// `AllocError` where memory runs out.
#[tactic(auto, using(crate::proofs::AllAimed::all_aimed))]
pub fn aim_all(
    alloc: Global,
    probes: Vec<Box<dyn Probe>>,
    targets: &[Target],
) -> Result<Vec<Aimed>, AllocError>
    ensures { IfOk result (λ aimed. seen aimed.items (λ a. aim_of a.index a.pin
        (⟦<dyn Probe as Probe>⟧ a.probe.vtable) a.probe.value)
        ≡ aims_of (map (λ p. (⟦<dyn Probe as Probe>⟧ p.vtable).meaning p.value) probes.items)
        targets.now) }
{
    let mut aimed = Vec::new(alloc);
    let mut index = 0;
    for probe in probes {
        aim_next(index, probe, targets, &mut aimed)?;
        index += 1;
    }
    Ok(aimed)
}
