// Columns and cells.
ghost use Rattle.std.specs.Prelude.{◌≡◌};
ghost use Rattle.kq_read_clauses.specs.Reading as spec;
ghost use Rattle.kq_read_symbols.specs.Classes as k;
ghost use Rattle.kq_read_symbols.specs.Classes.{of};
ghost use Rattle.kq_read_symbols.specs.Forms.{expect, maybe, with_front};
ghost use Rattle.kq_read_symbols.specs.Outcomes.{IsOutcome};

use kq_read_expressions::{listed, read_name};
use kq_read_grammar::{Cell, Column};
use kq_read_symbols::{Class, Cursor, Part, Stop, Symbol};
use kq_read_tokens::{Operator, Punctuation};
use std::alloc::Global;

const COMMA: Class = Class::Sign(Punctuation::Comma);

// One column.
#[derive(Clone, Copy)]
struct AColumn;

impl Part for AColumn {
    type Value = Column;

    ghost use Rattle.kq_read_grammar.specs.declared.clause.Column.{Column as Shown};

    ghost Shape = { Shown };

    ghost view = { λ c. c };

    ghost reader = { λ _. spec.column };

    ghost callable = { λ _. Unit {0} };

    #[tactic(auto, unfolding(crate::specs::Reading::column))]
    fn read(&self, cursor: &mut Cursor<'_>) -> Result<Column, Stop> {
        let name = read_name(cursor)?;
        cursor.expect(Class::Sign(Punctuation::Colon))?;
        let ty = cursor.expect(Class::Word)?;
        Ok(Column { name, ty })
    }
}

/// One column or more, with commas between them. The budget is at least the number of symbols that are left.
#[tactic(auto, unfolding(crate::specs::Reading::columns))]
pub fn read_columns(
    alloc: Global,
    cursor: &mut Cursor<'_>,
    budget: usize,
) -> Result<(Column, Vec<Column>), Stop>
    ensures { IsOutcome (λ p. (p.0, p.1.items)) (spec.columns budget cursor.old) result cursor.new }
{
    listed(alloc, cursor, budget, &AColumn)
}

fn minus(cursor: &mut Cursor<'_>) -> Result<Option<Symbol>, Stop>
    ensures { IsOutcome (λ t. t) (maybe (of k.minus) (expect (of k.minus)) cursor.old) result cursor.new }
{
    if !cursor.sees(Class::Operator(Operator::Minus)) {
        return Ok(None);
    }
    Ok(Some(cursor.expect(Class::Operator(Operator::Minus))?))
}

#[tactic(auto, unfolding(crate::specs::Reading::cell))]
fn cell(cursor: &mut Cursor<'_>) -> Result<Cell, Stop>
    ensures { IsOutcome (λ c. c) (spec.cell cursor.old) result cursor.new }
{
    let minus = minus(cursor)?;
    let literal = cursor.expect(Class::Literal)?;
    Ok(Cell { minus, literal })
}

// The cells that follow, behind those that were found before.
fn more_cells(
    turns: usize,
    cursor: &mut Cursor<'_>,
    mut found: Vec<Cell>,
) -> Result<Vec<Cell>, Stop>
    ensures { IsOutcome (λ v. v.items) (with_front found.items (spec.more_cells turns cursor.old)) result cursor.new }
{
    for _turn in 0..turns {
        if !cursor.sees(COMMA) {
            return Ok(found);
        }
        cursor.expect(COMMA)?;
        if !cursor.sees(Class::CellStart) {
            return Ok(found);
        }
        found.push(cell(cursor)?)?;
    }
    Ok(found)
}

/// The cells of a datatable, of which there may be none, and behind which a comma may stand. The budget is at least the
/// number of symbols that are left.
#[tactic(auto, unfolding(crate::specs::Reading::cells))]
pub fn read_cells(alloc: Global, cursor: &mut Cursor<'_>, budget: usize) -> Result<Vec<Cell>, Stop>
    ensures { IsOutcome (λ v. v.items) (spec.cells budget cursor.old) result cursor.new }
{
    let mut found = Vec::new(alloc);
    if !cursor.sees(Class::CellStart) {
        return Ok(found);
    }
    found.push(cell(cursor)?)?;
    more_cells(budget, cursor, found)
}
