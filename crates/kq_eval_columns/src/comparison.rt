// A test of one cell against another.
ghost use Rattle.std.specs.Prelude.{◌≡◌, IfSome};
ghost use Rattle.kq_value.specs.Computed.{Is};
ghost use Rattle.kq_value.specs.declared.value.Value.TheVariants.{Bool as Truth};
ghost use Rattle.kq_value_arithmetic.specs.Logic.{negation};
ghost use Rattle.kq_eval_row.specs.kq_value_string_functions.Texts.{found};
ghost use Rattle.kq_eval_columns.specs.Seen.{paired};

use kq_plan_functions::{FindKind, Function, find_text};
use kq_value::Value;
use kq_value_arithmetic::{at_least, at_most, equal, greater, less, unequal};

/// The truth that a function gives of a cell and a value, where it gives one and takes no memory for it.
pub fn test_of(function: Function, cell: &Value, value: &Value) -> Option<bool>
    ensures { IfSome result (λ b. paired function cell.now value.now ≡ Is (Truth b)) }
{
    match function {
        Function::Find(kind) => found_in(kind, cell, value),
        Function::FindNot(kind) => not_found_in(kind, cell, value),
        Function::Equal => truth_of(equal(cell, value)),
        Function::Unequal => truth_of(unequal(cell, value)),
        Function::Less => truth_of(less(cell, value)),
        Function::AtMost => truth_of(at_most(cell, value)),
        Function::Greater => truth_of(greater(cell, value)),
        Function::AtLeast => truth_of(at_least(cell, value)),
        _ => None,
    }
}

fn truth_of(value: Value) -> Option<bool>
    ensures { IfSome result (λ b. value ≡ Truth b) }
{
    match value {
        Value::Bool(truth) => Some(truth),
        _ => None,
    }
}

fn found_in(kind: FindKind, value: &Value, part: &Value) -> Option<bool>
    ensures { IfSome result (λ b. found kind value.now part.now ≡ Truth b) }
{
    match (value, part) {
        (Value::Text(text), Value::Text(part)) => Some(find_text(
            kind,
            text.as_str(),
            part.as_str(),
        )),
        _ => None,
    }
}

fn not_found_in(kind: FindKind, value: &Value, part: &Value) -> Option<bool>
    ensures { IfSome result (λ b. negation (found kind value.now part.now) ≡ Truth b) }
{
    match found_in(kind, value, part) {
        Some(found) => Some(!found),
        None => None,
    }
}
