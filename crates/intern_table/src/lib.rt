//! How a storage keeps its entries: in an index, and those of slices with one vector of all items.
#![tactic(auto)]

mod counted;
mod counts;
mod layout;
mod offered;
mod own_array;
mod pool;
mod slice;
mod slice_iter;
mod slice_table;
mod table;
mod text;

pub use counted::{Counted, Counts};
pub use indexmap::Equivalent;
pub use intern_index::Iter;
pub use layout::{Far, FarItems, Layout, Near, NearItems, OwnItems, SliceRow};
pub use offered::{FixedState, Offered};
pub use own_array::OwnArray;
pub use pool::SlicePayload;
pub use slice::{HeaderSlice, HeaderWithLength, SliceValue};
pub use slice_iter::SliceIter;
pub use slice_table::SliceTable;
pub use table::Table;
pub use text::Text;
