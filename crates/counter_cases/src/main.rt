// The program of counter-cases: runs the library on inputs of document 01 and of docs/DIFFERENCES.md, and prints what it gives.
// Its file stdout has what document 01 says. K1 to K11 are there, of K10 first the request and the reply each by itself, and beside
// them the other requests and replies, the readers of replies, and more of the binding table, the device's records and matching. The
// dispatcher comes last, with K1, K5, K7, K8 and K10 whole and its other rules.
#![tactic(auto)]

mod bindings;
mod descriptors;
mod device;
mod discovery;
mod dispatcher;
mod fields;
mod matching;
mod print;
mod readers;
mod refusals;
mod replies;
mod requests;

use std::io;

// Runs the cases in their order.
fn main(rt: HostRuntime) -> io::Result<()> {
    descriptors::k1(&rt)?;
    replies::k1(&rt)?;
    descriptors::k2(&rt)?;
    readers::k2_mask(&rt)?;
    readers::k2_node(&rt)?;
    descriptors::k3(&rt)?;
    descriptors::k4(&rt)?;
    readers::k4(&rt)?;
    descriptors::k5(&rt)?;
    device::k5(&rt)?;
    readers::k5(&rt)?;
    descriptors::k6(&rt)?;
    device::k6(&rt)?;
    requests::k7_k8(&rt)?;
    matching::k7_k9(&rt)?;
    fields::k10(&rt)?;
    requests::k10(&rt)?;
    replies::k10(&rt)?;
    bindings::k11(&rt)?;
    requests::discovery(&rt)?;
    requests::leave(&rt)?;
    requests::numbers(&rt)?;
    replies::others(&rt)?;
    replies::many_matches(&rt)?;
    replies::codes(&rt)?;
    readers::others(&rt)?;
    device::others(&rt)?;
    matching::places(&rt)?;
    matching::sizes(&rt)?;
    matching::past_pools(&rt)?;
    dispatcher::k10(&rt)?;
    dispatcher::links(&rt)?;
    discovery::ours(&rt)?;
    discovery::addresses(&rt)?;
    discovery::about_another(&rt)?;
    dispatcher::leave(&rt)?;
    refusals::in_order(&rt)
}
