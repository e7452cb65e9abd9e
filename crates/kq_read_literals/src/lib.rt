//! Literals: what the tokens of whole numbers and strings mean, and the raw text of a typed literal. Each function takes the bytes of one token.
//! Which bytes are a token is `kq_read_tokens`'s; what a typed literal's raw text says is left to the crates that read the forms of its type.
#![tactic(auto)]

mod ascii;
mod numbers;
mod raw;
mod strings;

pub use numbers::whole_number;
pub use raw::raw_text;
pub use strings::string_text;
