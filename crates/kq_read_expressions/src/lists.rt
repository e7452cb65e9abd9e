// Parts with commas between them.
ghost use Rattle.std.specs.Prelude.{◌≡◌, map};
ghost use Rattle.kq_read_symbols.specs.Classes as k;
ghost use Rattle.kq_read_symbols.specs.Classes.{of};
ghost use Rattle.kq_read_symbols.specs.Forms.{separated};
ghost use Rattle.kq_read_symbols.specs.Outcomes.{IsOutcome};
ghost use Rattle.kq_read_symbols.specs.Several.{first_and_others};

use kq_read_symbols::{Behind, Class, Cursor, Part, Stop, more};
use kq_read_tokens::Punctuation;
use std::alloc::Global;

/// One part or more. The budget is at least the number of symbols that are left.
pub fn listed<P: Part>(
    alloc: Global,
    cursor: &mut Cursor<'_>,
    budget: usize,
    part: &P,
) -> Result<(P::Value, Vec<P::Value>), Stop>
    requires { P.callable part.now }
    ensures { IsOutcome (first_and_others P.view) (separated (of k.comma) (P.reader part.now) budget cursor.old) result cursor.new }
{
    let comma = Class::Sign(Punctuation::Comma);
    let first = part.read(cursor)?;
    let next = Behind { class: comma, part };
    let others = more(budget, comma, &next, cursor, Vec::new(alloc))?;
    Ok((first, others))
}
