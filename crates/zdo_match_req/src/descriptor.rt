// Match requests as they are parsed (000).
ghost use Rattle.std.specs.Prelude.{◌≡◌};
ghost use Rattle.zdo_requests.specs.Requests.{match_desc_req_in};
ghost use Rattle.zigbee_types.specs.Answers.{says};

use byte::Field;
use zdo_requests::descriptor::MatchDescReq;
use zigbee_types::{Refusal, ShortAddress};

// Parses a Match_Desc_req (2.4.3.1.7). Refused where the payload is truncated or a declared cluster count runs past its end.
pub fn parse_match_desc_req(asdu: &[u8]) -> Result<MatchDescReq, Refusal>
    ensures { says result ≡ match_desc_req_in asdu.now }
{
    if asdu.len() < 5 {
        return Err(Refusal::Malformed);
    }
    let seq = u8::read(asdu, 0);
    let nwk_addr_of_interest = u16::read(asdu, seq.next);
    let profile_id = u16::read(asdu, nwk_addr_of_interest.next);
    let lists = cluster_lists::try_read(asdu, profile_id.next)?;
    let input_clusters = lists.input_clusters;
    let output_clusters = lists.output_clusters;
    Ok(MatchDescReq {
        seq: seq.value,
        nwk_addr_of_interest: ShortAddress(nwk_addr_of_interest.value),
        profile_id: profile_id.value,
        input_clusters,
        output_clusters,
    })
}
