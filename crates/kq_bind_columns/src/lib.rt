//! The binder of columns: the items of an operator become typed expressions under names of their own, those that are given and the default ones;
//! columns are laid over others, chosen by name, left out and renamed. What an expression is bound to is `kq_bind_expressions`'s; sources, operators,
//! plans, and that Unsupported is told before every other fault, are left to others.
#![tactic(auto)]

mod choosing;
mod defaults;
mod items;
mod laying;
mod naming;
mod places;
mod print;
mod renaming;

pub use choosing::{all_chosen, chosen, chosen_by_second, columns_at, place_in, without};
pub use defaults::{column_of, default_name};
pub use items::{
    Made, all_made, items_made, nothing_made, operand, unsupported_item, unsupported_items,
};
pub use kq_bind_expressions::{
    BindFault, Scope, bind_expression, first_named, literal_value, name_place, name_text, piece,
    taken, ty_of, unsupported, valueless,
};
pub use laying::{Laid, as_they_are, over};
pub use naming::{free_name, is_taken, numbered};
pub use places::first_token;
pub use print::printed;
pub use renaming::{names_given, renamed};
