// A match request with the payload that its lists stand in, where they lie within it (document 01, refusal 3).
ghost use Rattle.std.specs.Prelude.{◌≡◌, true};
ghost use Rattle.zdo_matching.specs.Matching.{good_places};

use crate::descriptor::good_places;
use zdo_requests::descriptor::MatchDescReq;

// A request that was checked.
#[derive(Clone, Copy)]
pub struct Sought<'a> {
    pub request: MatchDescReq,
    pub payload: &'a [u8],
    pub ghost good: { good_places request payload.now ≡ true },
}

impl<'a> Sought<'a> {
    ghost use Rattle.std.specs.Option.{is_some, IfSome};

    // A request and its payload, or none where a list runs past the payload (document 01, refusal 3).
    pub fn checked(request: MatchDescReq, payload: &'a [u8]) -> Option<Self>
        ensures found { is_some result ≡ good_places request payload.now }
        ensures same { IfSome result (λ s. (s.request ≡ request) × (s.payload.now ≡ payload.now)) }
    {
        if !good_places(request, payload) {
            return None;
        }
        Some(Sought { request, payload })
    }
}
