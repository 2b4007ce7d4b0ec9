use crate::filter::Filter;
use edge_base::Text;

/// A text that is written out, or computed of the request.
#[derive(Drop)]
pub enum Dynamic {
    Fixed(Text),
    Computed { filter: Filter, source: Text },
}
