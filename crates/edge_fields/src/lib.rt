//! The values of the Rules language and their kinds, the fields of a request and its reply, and the names of fields
//! and functions. How a field is computed stands in `specs/Fields.antt`.
#![tactic(auto)]

mod arguments;
mod cuts;
mod field_id;
mod fields;
mod function_id;
mod headers;
mod kind;
mod scheme;
mod shared;
mod target;
mod text_map;
mod value;

pub use field_id::{FieldId, field_named};
pub use fields::{field, host_of, version_of};
pub use function_id::{FunctionId, function_named};
pub use headers::first_value;
pub use kind::{Basic, Kind};
pub use scheme::{ListKinds, Scheme, copy_lists};
pub use shared::may_be_shared;
pub use target::{UriParts, path_of, query_of, uri_of};
pub use text_map::TextMap;
pub use value::{Value, Values, copy_values};
