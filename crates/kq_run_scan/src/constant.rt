// Expressions that read no column, which give the same of each row.
ghost use Rattle.std.specs.Prelude.{◌≡◌, map};
ghost use Rattle.std.specs.List.{list_any};
ghost use Rattle.kq_plan_expressions.specs.Terms.{link_of, term_of, terms_of};
ghost use Rattle.kq_run_scan.specs.Constant as the;

use kq_plan_expressions::{Expr, Link};

// Whether the expression reads a column.
#[cycle(reads)]
#[tactic(auto, using(crate::proofs::Constants::chain_reads))]
pub(crate) fn reads(expr: &Expr) -> bool
    ensures { result ≡ the.reads (term_of expr.now) }
{
    match expr {
        Expr::Literal(_) => false,
        Expr::Column(_) => true,
        Expr::Cell(_) => false,
        Expr::Call(_, args) => some_reads(args),
        Expr::Chain(first, links) => reads(first) || some_link_reads(links),
    }
}

#[cycle(reads)]
fn some_reads(exprs: &Vec<Expr>) -> bool
    ensures { result ≡ the.some_reads (terms_of (map term_of exprs.now.items)) }
{
    for expr in exprs {
        if reads(expr) {
            return true;
        }
    }
    false
}

#[cycle(reads)]
fn some_link_reads(links: &Vec<Link<Expr>>) -> bool
    ensures { result ≡ list_any the.link_reads (map link_of links.now.items) }
{
    for link in links {
        if link_reads(link) {
            return true;
        }
    }
    false
}

#[cycle(reads)]
fn link_reads(link: &Link<Expr>) -> bool
    ensures { result ≡ the.link_reads (link_of link.now) }
{
    match link {
        Link::ToLong => false,
        Link::With(_, operand) => reads(operand),
    }
}
