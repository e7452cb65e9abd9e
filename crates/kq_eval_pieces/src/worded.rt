// Columns of words.
use kq_value::Value;

// A column by its number: words, and a code for each cell.
#[derive(Clone, Copy)]
pub(crate) struct Worded<'a> {
    pub(crate) column: usize,
    pub(crate) words: &'a [Value],
    pub(crate) codes: &'a [u32],
}
