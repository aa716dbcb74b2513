//! An access beside the spot that its address names (RP2040 Datasheet, 2.2).

ghost use Rattle.std.specs.Prelude.{◌≡◌};
ghost use Rattle.rp_base.specs.Map.{place_of, IsWithin};

use rp_base::Request;
use rp_base::map::{Spot, place};
use std::marker::Model;

/// An access that a core names, seen as its request. Beside it stands the spot that its address names, which is found once.
#[derive(Clone, Copy)]
pub struct Placed {
    request: Request,
    spot: Spot,
}

impl Model for Placed {
    ghost use Rattle.std.specs.Prelude.{◌≡◌};
    ghost use Rattle.std.proofs.Common.{refl, sym};
    ghost use Rattle.rp_base.specs.declared.Request.{Request};
    ghost use Rattle.rp_base.specs.Map.{place_of, IsWithin};

    ghost Value = { Request };

    ghost view = { λ p. p.request };

    ghost inverse = { λ r. record { request = r; spot = place_of r.address } };

    ghost invariant = { λ p. (p.spot ≡ place_of p.request.address) × IsWithin p.spot };

    ghost inverse_ok = { λ p h. rw (sym h.0) refl };
}

impl Placed {
    /// The access of a request.
    #[inline(always)]
    pub fn new(request: Request) -> Placed
        ensures { result ≡ request }
    {
        let spot = place(request.address);
        Placed { request, spot }
    }

    /// The request.
    #[inline(always)]
    pub fn request(&self) -> &Request
        ensures { result.now ≡ self.now }
    {
        &self.request
    }

    /// The spot of its address.
    #[inline(always)]
    pub fn spot(&self) -> &Spot
        ensures value { result.now ≡ place_of self.now.address }
        ensures within { IsWithin result.now }
    {
        &self.spot
    }
}
