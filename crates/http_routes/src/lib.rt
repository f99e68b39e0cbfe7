//! What a request's target names: the route of its path with the methods of that route, and the ids and
//! names in the path. Queries and bodies are left to the callers.
#![tactic(auto)]

mod cut;
mod laws;
mod methods;
mod named;
mod path;
mod route;
mod table;

pub use crate::laws::routes_are_apart;
pub use crate::methods::Methods;
pub use crate::named::{read_named_id, read_named_object, read_named_request, read_named_tag};
pub use crate::path::{path_of, query_of};
pub use crate::route::{FlowPart, Route, SourcePart};
pub use crate::table::RouteTable;
