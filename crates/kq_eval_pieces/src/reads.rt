// The columns that expressions read.
ghost use Rattle.std.specs.Prelude.{◌≡◌, ◌+◌, ◌++◌, ◌<◌, ◌≤◌, ◌^◌, IfOk, MatchOption, OnErr, OnOk, false, map};
ghost use Rattle.std.specs.List.{All, concat};
ghost use Rattle.kq_plan_expressions.specs.Terms.{column, mapped, term_of};
ghost use Rattle.kq_eval_pieces.specs.Pieces.{columns_copied, columns_read, is_column, reads_link};

use kq_plan_expressions::{Expr, Link};
use kq_value::Memory;
use std::alloc::{AllocError, Global};

// The numbers of all columns that the expressions read, as often as they do.
pub(crate) fn columns_of(alloc: Global, exprs: &[Expr]) -> Result<Vec<usize>, Memory>
    ensures { IfOk result (λ v. v.items ≡ concat (map columns_read exprs.now)) }
{
    let mut columns = Vec::new(alloc);
    for expr in exprs {
        push_columns(expr, &mut columns)?;
    }
    Ok(columns)
}

// The numbers of all columns that are copied for the expressions.
pub(crate) fn copied_of(alloc: Global, exprs: &[Expr]) -> Result<Vec<usize>, Memory>
    ensures { IfOk result (λ v. v.items ≡ concat (map columns_copied exprs.now)) }
{
    let mut columns = Vec::new(alloc);
    for expr in exprs {
        push_copied(expr, &mut columns)?;
    }
    Ok(columns)
}

fn push_copied(expr: &Expr, columns: &mut Vec<usize>) -> Result<(), Memory>
    ensures { OnOk result (columns.new.items ≡ columns.old.items ++ columns_copied expr.now) }
{
    match column_alone(expr) {
        Some(_) => Ok(()),
        None => push_columns(expr, columns),
    }
}

// Its number, where the expression is a column and nothing else.
#[tactic(auto, using(crate::proofs::Alone::column_is, crate::proofs::Chains::no_links, crate::proofs::Chains::some_links))]
pub(crate) fn column_alone(expr: &Expr) -> Option<usize>
    ensures { MatchOption result (is_column (term_of expr.now) ≡ false) (λ j. term_of expr.now ≡ column j) }
{
    match expr {
        Expr::Column(j) => Some(*j),
        Expr::Chain(first, links) => {
            if links.is_empty() {
                column_alone(first)
            } else {
                None
            }
        }
        Expr::Literal(_) | Expr::Cell(_) | Expr::Call(..) => None,
    }
}

#[cycle(reads)]
#[tactic(auto, using(crate::proofs::Chains::reads_of_chain))]
fn push_columns(expr: &Expr, columns: &mut Vec<usize>) -> Result<(), Memory>
    ensures { OnOk result (columns.new.items ≡ columns.old.items ++ columns_read expr.now) }
{
    match expr {
        Expr::Column(j) => columns.push(*j)?,
        Expr::Call(_, args) => push_all(args, columns)?,
        Expr::Chain(first, links) => {
            push_columns(first, columns)?;
            push_operands(links, columns)?;
        }
        Expr::Literal(_) | Expr::Cell(_) => {}
    }
    Ok(())
}

#[cycle(reads)]
fn push_all(exprs: &Vec<Expr>, columns: &mut Vec<usize>) -> Result<(), Memory>
    ensures { OnOk result (columns.new.items ≡ columns.old.items ++ concat (map columns_read exprs.now.items)) }
{
    for expr in exprs {
        push_columns(expr, columns)?;
    }
    Ok(())
}

#[cycle(reads)]
fn push_operands(links: &Vec<Link<Expr>>, columns: &mut Vec<usize>) -> Result<(), Memory>
    ensures { OnOk result (columns.new.items ≡ columns.old.items ++ concat (map reads_link (map (mapped columns_read) links.now.items))) }
{
    for link in links {
        push_operand(link, columns)?;
    }
    Ok(())
}

#[cycle(reads)]
fn push_operand(link: &Link<Expr>, columns: &mut Vec<usize>) -> Result<(), Memory>
    ensures { OnOk result (columns.new.items ≡ columns.old.items ++ reads_link (mapped columns_read link.now)) }
{
    match link {
        Link::ToLong => Ok(()),
        Link::With(_, operand) => push_columns(operand, columns),
    }
}

// How many columns there must be, so that those with these numbers are among them.
pub(crate) fn width_of(reads: &[usize]) -> Result<usize, Memory>
    ensures { IfOk result (λ width. All (λ j. j < width) reads.now) }
{
    let mut width = 0;
    for j in reads {
        if *j >= width {
            width = next(*j)?;
        }
    }
    Ok(width)
}

fn next(j: usize) -> Result<usize, Memory>
    ensures ok { IfOk result (λ k. j < k) }
    ensures err { OnErr result (2 ^ 64 ≤ j + 1) }
{
    match j.checked_add(1) {
        Some(k) => Ok(k),
        None => Err(AllocError),
    }
}
