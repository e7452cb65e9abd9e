//! Values, rows, schemas, tags and what names a record: their types, their total order and their hashes; and what an evaluation comes to, a value or
//! an overflow.
//! Contracts see a text as its bytes, a collection as its list and a dynamic as its tree, with no allocator, capacity or pointer in sight, so that
//! two values which the order doesn't tell apart are equal.
#![tactic(auto)]

mod bytes;
mod content;
mod dyn_box;
mod dynamic;
mod fault;
mod hash;
mod items;
mod record;
mod record_id;
mod row;
mod schema;
mod tags;
mod text;
mod ty;
mod value;
mod zone;

pub use bytes::Bytes;
pub use dyn_box::DynBox;
pub use dynamic::{Dyn, DynBag, DynList, Member};
pub use fault::EvalFault;
pub use record::Record;
pub use record_id::RecordId;
pub use row::Row;
pub use schema::{Field, Schema};
pub use tags::Tags;
pub use text::Text;
pub use ty::Ty;
pub use value::{LAST_MOMENT, Value, is_moment};
pub use zone::ZoneOp;

/// Out of memory: an allocation was refused.
pub type Memory = std::alloc::AllocError;
