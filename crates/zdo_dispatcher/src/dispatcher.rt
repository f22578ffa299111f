// What the device answers to a request. (Added by document 01, "Binding and dispatch".)
ghost use Rattle.std.specs.Prelude.{ℕ, ◌^◌, ◌<◌, ◌≤◌, ◌≡◌, true, length};
ghost use Rattle.zigbee_types.specs.Outcome.{answer, and_then, mapped, Wrote};
ghost use Rattle.zigbee_types.specs.Answers.{says};
ghost use Rattle.aps_binding_table.specs.Answers.{link_says};
ghost use Rattle.aps_binding_table.specs.Table.{good_table, on_good, Leaves};
ghost use Rattle.zdo_requests.specs.Clusters.{reply_cluster};
ghost use Rattle.zdo_requests.specs.Requests.{mgmt_leave_req_in};
ghost use Rattle.zigbee_types.specs.Statuses.{SUCCESS};
ghost use Rattle.zdo_replies.specs.Codes.{bind_code};
ghost use Rattle.zdo_replies.specs.Replies.{status_rsp};
ghost use Rattle.zdo_device.specs.Checked.{pools_of};
ghost use Rattle.zdo_discovery.specs.Host.{host_with, asking};
ghost use Rattle.zdo_discovery.specs.Hosted.{host_of};
ghost use Rattle.zdo_discovery.specs.Discovery.{discovered};
ghost use Rattle.zdo_dispatcher.specs.Answers.{reply, leaving, replied, response_says, step_of, source_status, link_answer, answered, Dispatched};
ghost use Rattle.zdo_dispatcher.specs.Taken.{link_with, answered_with, TakenTo};

use aps_binding::binding::Binding;
use aps_binding_table::binding::{
    BindingError, BindingTable, Linked, create_binding_link, good_sizes, remove_binding_link,
};
use zdo_bind_req::descriptor::parse_bind_req;
use zdo_device::descriptor::{DeviceDescriptorConfig, Pools};
use zdo_device::tables::Tables;
use zdo_discovery::discovery::discovery;
use zdo_discovery::host::Host;
use zdo_leave_req::descriptor::parse_mgmt_leave_req;
use zdo_replies::descriptor::{BindStatus, STATUS_SUCCESS, bind_rsp};
use zdo_requests::descriptor::{BIND_REQ, BindReq, MGMT_LEAVE_REQ, MgmtLeaveReq, UNBIND_REQ};
use zigbee_types::{IeeeAddress, Refusal, ShortAddress};

// What a request came to: a reply that was written, by its cluster and length; or a leave, which is handed to the host.
#[derive(Clone, Copy)]
pub enum Response {
    Reply { cluster: u16, length: usize },
    Leave(MgmtLeaveReq),
}

// The binding table after a request, and what the request came to, or why it was refused.
#[derive(Clone, Copy)]
pub struct Responded {
    pub table: BindingTable,
    pub response: Result<Response, Refusal>,
}

// A reply's cluster is the request's plus this (2.4.4): an offset of numbers that travel.
const REPLY: u16 = 0x8000;

// What is told of a reply to a request that came to `written`. (That the cluster is low is asked of one number here and in two functions
// below: a type for it would be unwrapped wherever it is compared.)
fn told(cluster: u16, written: Result<usize, Refusal>) -> Result<Response, Refusal>
    requires { (n : ℕ) → says written ≡ answer n → cluster < 2 ^ 15 }
    ensures { response_says result ≡ mapped (replied (reply_cluster cluster)) (says written) }
{
    let length = written?;
    Ok(Response::Reply {
        cluster: cluster + REPLY,
        length,
    })
}

// ---- bind and unbind

// What a request does with the entry that it names. (No closure: the step is known before the table is there, and a function that is
// handed on in `Taken` is one that the gate refuses.)
#[derive(Clone, Copy)]
enum Link {
    Bind,
    Unbind,
}

// Success where a request's source is ours, its address first and then its endpoint; or the status that says what is not.
fn source_status(tables: Tables, ieee_addr: IeeeAddress, request: BindReq) -> BindStatus
    ensures { bind_code result ≡ source_status tables.entry.device.now ieee_addr request }
{
    if request.src_address != ieee_addr {
        return BindStatus::NotSupported;
    }
    if !tables.supports_endpoint(request.src_endpoint) {
        return BindStatus::InvalidEndpoint;
    }
    BindStatus::Success
}

// Binds or unbinds an entry.
fn bind_or_unbind(link: Link, table: BindingTable, binding: Binding) -> Linked
    ensures { Leaves (on_good table (step_of link table binding)) table (link_says result.status) result.table }
{
    match link {
        Link::Bind => create_binding_link(table, binding),
        Link::Unbind => remove_binding_link(table, binding),
    }
}

// Builds the reply that tells what a bind or an unbind came to.
fn link_rsp(seq: u8, status: Result<(), BindingError>, out: &mut [u8]) -> Result<usize, Refusal>
    ensures { Wrote (and_then (link_says status) (status_rsp seq)) out.old (says result) out.new }
{
    match status {
        Ok(()) => bind_rsp(seq, BindStatus::Success, out),
        Err(error) => match error {
            BindingError::InvalidBinding => bind_rsp(seq, BindStatus::NoEntry, out),
            BindingError::TableFull => bind_rsp(seq, BindStatus::TableFull, out),
            BindingError::Refused(why) => Err(why),
        },
    }
}

// What a request comes to without the binding table: an answer, or an entry that is still to be bound or unbound. (Two results: neither
// is an error.)
#[derive(Clone, Copy)]
enum Taken {
    Answered(Response),
    Asks { link: Link, request: BindReq },
}

// Takes a bind or unbind request (2.4.3.2.2, 2.4.3.2.3) as far as it goes without the table. Too short a buffer is refused here, before
// anything is stored.
fn take_link(
    link: Link,
    tables: Tables,
    ieee_addr: IeeeAddress,
    cluster: u16,
    payload: &[u8],
    out: &mut [u8],
) -> Result<Taken, Refusal>
    requires { cluster < 2 ^ 15 }
    ensures { TakenTo (link_with link tables.entry.device.now ieee_addr (asking cluster payload.now out.old)) cluster result out.old out.new }
{
    let request = parse_bind_req(payload)?;
    if out.len() < 2 {
        return Err(Refusal::ShortBuffer);
    }
    let source = source_status(tables, ieee_addr, request);
    if source.code() != STATUS_SUCCESS {
        let response = told(cluster, bind_rsp(request.seq, source, out))?;
        return Ok(Taken::Answered(response));
    }
    Ok(Taken::Asks { link, request })
}

// Binds or unbinds the entry of a request whose source is ours, and replies.
fn link_answer(
    link: Link,
    table: BindingTable,
    request: BindReq,
    cluster: u16,
    out: &mut [u8],
) -> Responded
    requires table_value { good_table table ≡ true }
    requires cluster_bound { cluster < 2 ^ 15 }
    requires in_bounds { 2 ≤ length out.old }
    ensures { Dispatched (link_answer link SUCCESS table request cluster (length out.old)) table out.old (response_says result.response) result.table out.new }
{
    let linked = bind_or_unbind(link, table, request.binding());
    let status = linked.status;
    let table = linked.table;
    let written = link_rsp(request.seq, status, out);
    Responded {
        table,
        response: told(cluster, written),
    }
}

// ---- leave

// Answers a Mgmt_Leave_req (2.4.3.3.5): the request is handed to the host, and nothing is written.
fn on_leave(payload: &[u8]) -> Result<Response, Refusal>
    ensures { response_says result ≡ mapped leaving (mgmt_leave_req_in payload.now) }
{
    let request = parse_mgmt_leave_req(payload)?;
    Ok(Response::Leave(request))
}

// ---- discovery

// Answers a discovery request, and refuses a cluster that is none of the ten. No binding table comes into it.
fn on_discovery(
    host: Host,
    cluster: u16,
    payload: &[u8],
    out: &mut [u8],
) -> Result<Response, Refusal>
    ensures { (t : BindingTable) → Dispatched (mapped (λ bytes. reply (reply_cluster cluster) bytes t) (discovered (host_of host.entry) (asking cluster payload.now out.old))) t out.old (response_says result) t out.new }
{
    let written = discovery(host, cluster, payload, out);
    told(cluster, written)
}

// ---- any request

// Takes a request as far as it goes without the binding table.
fn take(host: Host, cluster: u16, payload: &[u8], out: &mut [u8]) -> Result<Taken, Refusal>
    ensures { TakenTo (answered_with (host_of host.entry) (asking cluster payload.now out.old)) cluster result out.old out.new }
{
    let tables = host.tables;
    let ieee_addr = host.ieee_addr;
    match cluster {
        BIND_REQ => take_link(Link::Bind, tables, ieee_addr, cluster, payload, out),
        UNBIND_REQ => take_link(Link::Unbind, tables, ieee_addr, cluster, payload, out),
        MGMT_LEAVE_REQ => {
            let response = on_leave(payload)?;
            Ok(Taken::Answered(response))
        }
        _ => {
            let response = on_discovery(host, cluster, payload, out)?;
            Ok(Taken::Answered(response))
        }
    }
}

// Answers a request: a reply in the buffer, or a leave for the host, with the table after it. Refused are bad tables, then a cluster
// that is none of the ten, then a payload that is malformed, then a descriptor of too many clusters, then too short a buffer; buffer
// and table are then as they were. (The table is handed on only where an entry is bound or unbound: each function that takes it copies
// it. The arm that hands it on returns by itself, since arms that meet cost a copy.)
pub fn dispatch(
    device: DeviceDescriptorConfig,
    ieee_addr: IeeeAddress,
    nwk_addr: ShortAddress,
    lent: Pools,
    table: BindingTable,
    cluster: u16,
    payload: &[u8],
    out: &mut [u8],
) -> Responded
    ensures { Dispatched (answered (host_with device ieee_addr nwk_addr (pools_of lent.entry)) table (asking cluster payload.now out.old)) table out.old (response_says result.response) result.table out.new }
{
    let refused = Err(Refusal::BadTables);
    let Some(tables) = Tables::checked(&device, lent) else {
        return Responded {
            table,
            response: refused,
        };
    };
    if !good_sizes(table.count, table.limit) {
        return Responded {
            table,
            response: refused,
        };
    }
    let host = Host {
        tables,
        ieee_addr,
        nwk_addr,
    };
    let read = take(host, cluster, payload, out);
    match read {
        Ok(taken) => match taken {
            Taken::Answered(response) => {
                let response = Ok(response);
                Responded { table, response }
            }
            Taken::Asks { link, request } => {
                return link_answer(link, table, request, cluster, out);
            }
        },
        Err(why) => {
            let response = Err(why);
            return Responded { table, response };
        }
    }
}
