// A text read as a query.
ghost use Rattle.kq_policy_entries.specs.Answers.{ReadsQuery};

use crate::query_fault::PolicyFault;
use kq_read_control::{Statement, parse_statement};
use kq_read_grammar::Query;
use std::alloc::Global;

// The query that a text is.
pub(crate) fn read_query(alloc: Global, text: &str) -> Result<Query, PolicyFault>
    ensures { ReadsQuery text.now result }
{
    match parse_statement(alloc, text)? {
        Statement::Query(query) => Ok(Box::into_inner(query)),
        Statement::Control(_) => Err(PolicyFault::Query),
    }
}
