// What every layer shares: addresses, the places of lists, and refusals. (The Rust's crate of this name is not shown. Of what stands here its users write `IeeeAddress`; the other names are added.)
#![tactic(auto)]

ghost use Rattle.std.specs.Prelude.{◌≡◌};
ghost use Rattle.zigbee_types.specs.Refusals.{refusal_number};

// A 64-bit extended address.
#[derive(Clone, Copy, PartialEq, Eq, Debug)]
pub struct IeeeAddress(pub u64);

// A 16-bit network address.
#[derive(Clone, Copy, PartialEq, Eq, Debug)]
pub struct ShortAddress(pub u16);

// A 16-bit group address.
#[derive(Clone, Copy, PartialEq, Eq, Debug)]
pub struct GroupAddress(pub u16);

// Where a list stands in a payload: its first byte, and how many entries it has. (Document 01's form, "places in the payload": the bytes
// are the caller's.)
#[derive(Clone, Copy)]
pub struct Places {
    pub start: usize,
    pub count: usize,
}

// Two lists of clusters, the second behind the first, as places in the bytes that they stand in.
#[derive(Clone, Copy)]
pub struct ClusterLists {
    pub input_clusters: Places,
    pub output_clusters: Places,
}

// Why a call was refused (document 01, "Refusal numbers").
#[derive(Clone, Copy, PartialEq, Eq, Debug)]
pub enum Refusal {
    BadTables,
    UnknownCluster,
    Malformed,
    TooManyClusters,
    ShortBuffer,
}

// The number by which a refusal is told (document 01, "Refusal numbers").
impl From<Refusal> for u8 {
    ghost from_gives = { λ why n. n ≡ refusal_number why };

    fn from(why: Refusal) -> u8 {
        match why {
            Refusal::BadTables => 1,
            Refusal::UnknownCluster => 2,
            Refusal::Malformed => 3,
            Refusal::TooManyClusters => 4,
            Refusal::ShortBuffer => 5,
        }
    }
}
