//! Calls that take memory: of the codecs, of the relay, of streams and routes, and of values. Each is made by itself,
//! and compared with its result when there is enough memory, or, if it runs out of memory, with the promised state
//! after such a call. Tests that refuse requests for memory make these calls.
#![tactic(auto)]

mod fronts;
mod messages;
mod parcel;
mod parts;
mod routes;
mod runs;
mod streams;
mod trial;

pub use fronts::{Appends, Front, Nexts};
pub use messages::{Decodes, Encodes, EncodesInto, Recodes, RecodesInto};
pub use parcel::{Parcel, ParcelFields};
pub use parts::{Inserts, ReadsFields, WritesFields, WritesIdentifier};
pub use routes::Routes;
pub use runs::{Runs, STRING, two_strings, written};
pub use streams::Feeds;
pub use trial::{Outcome, Trial, is_ample, is_right_at_last};
