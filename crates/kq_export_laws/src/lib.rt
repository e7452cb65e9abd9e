//! Laws of the bodies of exports and of views, which hold of the definition of binding alone: where a query is bound to no body of an export, the
//! place at which it is refused is that of a name, a word or a call that no body has; and what a view's body is bound to reads its table alone and
//! asks for no moment. What is looked for in the text of a query is the first of its kind in the one list of the query's symbols. How bodies are
//! bound is left to `kq_export_binder` and `kq_view_body`.
#![tactic(auto)]

mod laws;
mod symbols;

pub use laws::{bodies_of_views_ask_for_no_moment, refused_bodies_have_their_places};
pub use symbols::{
    bodies_of_views_have_nothing_foreign, calls_of_the_moment_are_found, first_tokens_are_found,
    what_is_foreign_is_found, what_is_unsupported_is_found,
};
