//! A cycle in which no master but core 0 may ask for an access: nobody is compared with another.

ghost use Rattle.rp_base.specs.declared.Master.TheVariants.{Core0};
ghost use Rattle.bus_fabric.specs.Alone.{at_most_core0};

use crate::{APB, Fabric, Hold, cycles_left, is_last, shortened};
use rp_base::Master;

impl Fabric {
    ghost use Rattle.std.specs.Prelude.{◌≡◌};
    ghost use Rattle.bus_fabric.specs.Masters.{HasPort};
    ghost use Rattle.bus_fabric.specs.Grant.{is_done, hold_after, after_grant};

    /// The hold after such a cycle.
    #[inline(always)]
    fn hold_of_core0(&self, asked: Option<(u8, bool)>) -> Option<Hold>
        ensures { result ≡ hold_after (at_most_core0 asked) self.now self.now.hold }
    {
        match (self.hold, asked) {
            (None, Some((APB, _))) => Some(Hold {
                holder: Some(Master::Core0),
                left: cycles_left(asked),
            }),
            (None, _) => None,
            (Some(hold), _) if is_last(&hold) => None,
            (Some(hold), _) => Some(shortened(&[asked, None, None, None], hold)),
        }
    }

    /// The same where an access lasts or begins to last.
    #[inline(never)]
    fn grant_lasting(&mut self, asked: Option<(u8, bool)>) -> bool
        requires { HasPort asked }
        ensures done { result ≡ is_done (at_most_core0 asked) self.old Core0 }
        ensures after { self.new ≡ after_grant (at_most_core0 asked) self.old }
    {
        let hold = self.hold_of_core0(asked);
        let Some((port, _)) = asked else {
            self.hold = hold;
            return false;
        };
        let free = self.is_free(port);
        let done = if port == APB {
            self.is_served(Master::Core0)
        } else {
            true
        };
        self.hold = hold;
        if free {
            self.last[port as usize] = Master::Core0;
        }
        done
    }

    /// One cycle in which core 0 asks for this port, 0 to 7, and whether it writes, or for nothing, and no other master asks:
    /// what `grant` does. Whether its access is done.
    #[inline(always)]
    pub fn grant_core0(&mut self, asked: Option<(u8, bool)>) -> bool
        requires { HasPort asked }
        ensures done { result ≡ is_done (at_most_core0 asked) self.old Core0 }
        ensures after { self.new ≡ after_grant (at_most_core0 asked) self.old }
    {
        match asked {
            Some((port, _)) if port != APB && self.hold.is_none() => {
                self.last[port as usize] = Master::Core0;
                true
            }
            _ => self.grant_lasting(asked),
        }
    }
}
