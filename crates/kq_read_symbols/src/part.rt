// Parts that stand in a row.
ghost use Rattle.std.specs.Prelude.{◌≡◌, List, Result, map};
ghost use Rattle.kq_read_symbols.specs.declared.kind.Symbol.{Symbol};
ghost use Rattle.kq_read_symbols.specs.Classes.{class_of, of};
ghost use Rattle.kq_read_symbols.specs.Forms.{skip, many, with_front};
ghost use Rattle.kq_read_symbols.specs.Outcomes.{IsOutcome};

use crate::class::Class;
use crate::cursor::{Cursor, Stop};

/// Something that is read.
pub trait Part {
    type Value: Drop;

    // what the grammar sees of a value
    ghost Shape: { Type 0 };

    ghost view: { Self.Value → Shape };

    ghost reader: { Self → List Symbol → Result (Shape × List Symbol) (List Symbol) };

    ghost callable: { Self → Type 0 };

    fn read(&self, cursor: &mut Cursor<'_>) -> Result<Self::Value, Stop>
        requires { callable self.now }
        ensures { IsOutcome view (reader self.now cursor.old) result cursor.new };
}

/// The parts that follow, each of which starts with a symbol of the class, behind those that were found before. `turns` is
/// at least their number.
pub fn more<P: Part>(
    turns: usize,
    class: Class,
    part: &P,
    cursor: &mut Cursor<'_>,
    mut found: Vec<P::Value>,
) -> Result<Vec<P::Value>, Stop>
    requires { P.callable part.now }
    ensures { IsOutcome (λ v. map P.view v.items) (with_front (map P.view found.items) (many (of (class_of class)) (P.reader part.now) turns cursor.old)) result cursor.new }
{
    for _turn in 0..turns {
        if !cursor.sees(class) {
            return Ok(found);
        }
        found.push(part.read(cursor)?)?;
    }
    Ok(found)
}

/// A part behind a symbol of the class.
#[derive(Drop)]
pub struct Behind<'a, P> {
    pub class: Class,
    pub part: &'a P,
}

impl<'a, P: Part> Part for Behind<'a, P> {
    type Value = P::Value;

    ghost Shape = { P.Shape };

    ghost view = { P.view };

    ghost reader = { λ b. skip (of (class_of b.class)) (P.reader b.part.now) };

    ghost callable = { λ b. P.callable b.part.now };

    fn read(&self, cursor: &mut Cursor<'_>) -> Result<P::Value, Stop> {
        cursor.expect(self.class)?;
        self.part.read(cursor)
    }
}
