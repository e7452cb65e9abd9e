// Chains made of their parts.
ghost use Rattle.std.specs.Prelude.{◌≡◌, IfOk};
ghost use Rattle.kq_plan_expressions.specs.Terms.{term_of, linked as the_linked, link_of};

use crate::expr::{Expr, Link};
use std::alloc::{AllocError, Global};

/// The expression with a link more. A chain grows by it.
pub fn linked(alloc: Global, first: Expr, link: Link<Expr>) -> Result<Expr, AllocError>
    ensures { IfOk result (λ e. term_of e ≡ the_linked (term_of first) (link_of link)) }
{
    match first {
        Expr::Chain(first, mut links) => {
            links.push(link)?;
            Ok(Expr::Chain(first, links))
        }
        _ => {
            let mut links = Vec::new(alloc);
            links.push(link)?;
            Ok(Expr::Chain(Box::new(alloc, first)?, links))
        }
    }
}
