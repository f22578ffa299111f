// Leave requests as they are parsed (000).
ghost use Rattle.std.specs.Prelude.{◌≡◌};
ghost use Rattle.zdo_requests.specs.Requests.{option_ieee, mgmt_leave_req_in};
ghost use Rattle.zigbee_types.specs.Answers.{says};

use byte::Field;
use zdo_requests::descriptor::MgmtLeaveReq;
use zigbee_types::{IeeeAddress, Refusal};

// Mgmt_Leave_req options (2.4.3.3.5), as masks under the Rust's names.
const MGMT_LEAVE_REMOVE_CHILDREN: u8 = 0b0100_0000;

const MGMT_LEAVE_REJOIN: u8 = 0b1000_0000;

// Parses a Mgmt_Leave_req (2.4.3.3.5): seq, DeviceAddress(8), options.
pub fn parse_mgmt_leave_req(asdu: &[u8]) -> Result<MgmtLeaveReq, Refusal>
    ensures { says result ≡ mgmt_leave_req_in asdu.now }
{
    if asdu.len() < 10 {
        return Err(Refusal::Malformed);
    }
    let seq = u8::read(asdu, 0);
    let addr = u64::read(asdu, seq.next);
    let options = u8::read(asdu, addr.next);
    Ok(MgmtLeaveReq {
        seq: seq.value,
        device_address: device_address(addr.value),
        remove_children: options.value & MGMT_LEAVE_REMOVE_CHILDREN != 0,
        rejoin: options.value & MGMT_LEAVE_REJOIN != 0,
    })
}

// The device that an address names; zero names none.
#[tactic(auto, unfolding(zdo_requests::specs::Requests::option_ieee))]
fn device_address(addr: u64) -> Option<IeeeAddress>
    ensures { result ≡ option_ieee addr }
{
    (addr != 0).then_some(IeeeAddress(addr))
}
