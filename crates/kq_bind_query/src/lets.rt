// Lets, one after another.
ghost use Rattle.std.specs.Prelude.{◌≡◌, ◌||◌, Ok, IfOk, is_some, map};
ghost use Rattle.kq_bind_operators.specs.Scopes.{tabling_named};
ghost use Rattle.kq_bind_query.specs.Queries as the;
ghost use Rattle.kq_bind_query.specs.Seen.{letting_of};
ghost use Rattle.kq_bind_operators.specs.Seen.{flow_of, tabling_of};
ghost use Rattle.kq_bind_operators.specs.kq_bind_columns.Naming.{is_taken};
ghost use Rattle.kq_bind_expressions.specs.Verdicts.{AnswersVerdict};
ghost use Rattle.kq_plan_expressions.specs.Terms.{typed_of};
ghost use Rattle.kq_read_grammar.specs.TabularViews.{tabular_of, right_of, let_of};
ghost use Rattle.kq_read_grammar.specs.Views.{tree_of};

use crate::pipe::bind_tabular;
use kq_bind_expressions::{BindFault, bind_expression};
use kq_bind_operators::{
    Flow, Progress, Scope, TabularLet, following, is_taken as field_is_taken, name_place,
    name_text, tabular_let,
};
use kq_plan::{Names, Work};
use kq_plan_expressions::Typed;
use kq_read_grammar::{Expression, Let, LetRight, Name, Tabular};
use kq_value::{Field, Memory, Text};
use std::alloc::Global;

// The steps so far, and the lets of both kinds.
#[derive(Drop)]
pub(crate) struct Lets {
    pub progress: Progress,
    pub scalars: Vec<Field>,
    pub tables: Vec<TabularLet>,
}

pub(crate) fn no_lets(alloc: Global) -> Lets
    ensures { letting_of result ≡ the.nothing_let }
{
    Lets {
        progress: Progress {
            steps: Vec::new(alloc),
            stages: 0,
        },
        scalars: Vec::new(alloc),
        tables: Vec::new(alloc),
    }
}

fn is_let(scalars: &[Field], tables: &[TabularLet], name: &str) -> bool
    ensures { result ≡ (is_taken scalars.now name.now || is_some (tabling_named (map tabling_of tables.now) name.now)) }
{
    field_is_taken(scalars, name) || tabular_let(tables, name).is_some()
}

fn scalar_put(alloc: Global, lets: Lets, name: Text, one: Typed) -> Result<Lets, BindFault>
    ensures { AnswersVerdict letting_of (Ok (the.scalar_put (letting_of lets) name (typed_of one))) result }
{
    let Typed { expr, ty } = one;
    let mut columns = Vec::new(alloc);
    columns.push(Field {
        name: name.clone_in()?,
        ty,
    })?;
    let flow = following(lets.progress, Work::Scalar(expr), columns)?;
    let mut scalars = lets.scalars;
    scalars.push(Field { name, ty })?;
    Ok(Lets {
        progress: flow.progress,
        scalars,
        tables: lets.tables,
    })
}

// The rows of the flow under a name.
fn tabular_put(
    scalars: Vec<Field>,
    before: Vec<TabularLet>,
    name: Text,
    flow: Flow,
) -> Result<Lets, BindFault>
    ensures { AnswersVerdict letting_of (Ok (the.tabular_laid scalars.items (map tabling_of before.items) name (flow_of flow))) result }
{
    let mut tables = before;
    tables.push(TabularLet {
        name,
        input: flow.input,
    })?;
    Ok(Lets {
        progress: flow.progress,
        scalars,
        tables,
    })
}

// ---- one let: its right side, and then its name

fn scalar_let<N: Names>(
    alloc: Global,
    text: &str,
    names: &N,
    lets: Lets,
    name: Name,
    tree: &Expression,
) -> Result<Lets, BindFault>
    ensures { AnswersVerdict letting_of (the.scalar_let text.now (N.known names.now) (letting_of lets) name (tree_of tree.now)) result }
{
    let scope = kq_bind_expressions::Scope {
        text,
        lets: &lets.scalars,
    };
    let one = bind_expression(alloc, &scope, &[], tree)?;
    let said = name_text(alloc, text, name)?;
    if is_let(&lets.scalars, &lets.tables, said.as_str()) {
        Err(BindFault::Mistyped {
            at: name_place(name),
        })
    } else {
        scalar_put(alloc, lets, said, one)
    }
}

fn tabular_let_made<N: Names>(
    alloc: Global,
    text: &str,
    names: &N,
    lets: Lets,
    name: Name,
    tree: &Tabular,
) -> Result<Lets, BindFault>
    ensures { AnswersVerdict letting_of (the.tabular_let text.now (N.known names.now) (letting_of lets) name (tabular_of tree.now)) result }
{
    let Lets {
        progress,
        scalars,
        tables,
    } = lets;
    let scope = Scope {
        text,
        lets: &scalars,
        tables: &tables,
        names,
    };
    let flow = bind_tabular(alloc, &scope, progress, tree)?;
    let said = name_text(alloc, text, name)?;
    if is_let(&scalars, &tables, said.as_str()) {
        return Err(BindFault::Mistyped {
            at: name_place(name),
        });
    }
    tabular_put(scalars, tables, said, flow)
}

// ---- which of two readings a let has

fn bare_name(tree: &Expression) -> Option<Name>
    ensures { result ≡ the.bare_name (tree_of tree.now) }
{
    match tree {
        Expression::Name(name) => Some(*name),
        Expression::Group(_, inner) => bare_name(inner),
        _ => None,
    }
}

// Whether rows stand for a name: a scalar let hides those of the catalogue.
fn names_rows<N: Names>(lets: &Lets, names: &N, name: &Text) -> bool
    ensures { result ≡ the.names_rows (letting_of lets.now) (N.known names.now) name.now }
{
    let said = name.as_str();
    tabular_let(&lets.tables, said).is_some()
        || (!field_is_taken(&lets.scalars, said) && is_known(names, name))
}

fn is_known<N: Names>(names: &N, name: &Text) -> bool
    ensures { result ≡ is_some (N.known names.now name.now) }
{
    names.find(name).is_some()
}

// A name alone is tabular where rows stand for it; all else that has both readings is.
fn is_tabular<N: Names>(
    alloc: Global,
    text: &str,
    names: &N,
    lets: &Lets,
    tree: &Expression,
) -> Result<bool, Memory>
    ensures { IfOk result (λ b. b ≡ the.is_tabular text.now (N.known names.now) (letting_of lets.now) (the.bare_name (tree_of tree.now))) }
{
    match bare_name(tree) {
        None => Ok(true),
        Some(name) => {
            let said = name_text(alloc, text, name)?;
            Ok(names_rows(lets, names, &said))
        }
    }
}

fn let_made<N: Names>(
    alloc: Global,
    text: &str,
    names: &N,
    lets: Lets,
    one: &Let,
) -> Result<Lets, BindFault>
    ensures { AnswersVerdict letting_of (the.let_made text.now (N.known names.now) (letting_of lets) one.now.name (right_of one.now.right)) result }
{
    match &one.right {
        LetRight::Scalar(tree) => scalar_let(alloc, text, names, lets, one.name, tree),
        LetRight::Tabular(tree) => tabular_let_made(alloc, text, names, lets, one.name, tree),
        LetRight::Either(scalar, tabular) => {
            if is_tabular(alloc, text, names, &lets, scalar)? {
                tabular_let_made(alloc, text, names, lets, one.name, tabular)
            } else {
                scalar_let(alloc, text, names, lets, one.name, scalar)
            }
        }
    }
}

// These lets behind those, in their order.
pub(crate) fn lets_made<N: Names>(
    alloc: Global,
    text: &str,
    names: &N,
    before: Lets,
    more: &[Let],
) -> Result<Lets, BindFault>
    ensures { AnswersVerdict letting_of (the.lets_made text.now (N.known names.now) (letting_of before) (map let_of more.now)) result }
{
    let mut lets = before;
    for one in more {
        lets = let_made(alloc, text, names, lets, one)?;
    }
    Ok(lets)
}
