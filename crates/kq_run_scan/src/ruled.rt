// Parts of which the first operator keeps no row, by the least and the greatest cell of a column.
ghost use Rattle.std.specs.Prelude.{◌≡◌, ◌∷◌, [], IfSome, false, map, true};
ghost use Rattle.kq_plan_expressions.specs.Terms.{call, chained, column as plain, link_of, literal, term_of, terms_of};
ghost use Rattle.kq_plan_functions.specs.declared.function.Function.TheVariants as f;
ghost use Rattle.kq_run_row_operators.specs.Pieces.{rows_in as piece_rows};
ghost use Rattle.kq_run_scan.specs.Lent.{extent_of, rows_of};
ghost use Rattle.kq_run_scan.specs.Ruled.{Answers, AreEnds, Compares, IsConjunct, IsJudged, IsPlain, IsRuledBy, KeepsNone, LiesOutside, MeetNone, MeetsNoneBetween, MissingIsNull};
ghost use Rattle.kq_run_scan.specs.Sources.{source_rows};

use crate::records::Records;
use crate::source::Source;
use kq_plan_expressions::{Expr, Link, Operation};
use kq_plan_functions::Function;
use kq_run_row_operators::Piece;
use kq_value::{Field, Ty, Value, ZoneOp};

// A comparison of the cells of a column with a value.
#[derive(Clone, Copy)]
pub(crate) struct Comparison<'a> {
    pub column: usize,
    pub op: ZoneOp,
    pub value: &'a Value,
}

// Whether the first condition keeps none of the rows of a part. No other operator is asked: one before the one that drops a row may
// overflow on it.
pub(crate) fn is_ruled_out(first: &Option<Expr>, part: &Piece<Source>) -> bool
    ensures { result ≡ true → IsRuledBy first.now (piece_rows source_rows part.now) }
{
    match first {
        Some(condition) => keeps_none_of(condition, part),
        None => false,
    }
}

fn keeps_none_of(condition: &Expr, part: &Piece<Source>) -> bool
    ensures { result ≡ true → KeepsNone (term_of condition.now) (piece_rows source_rows part.now) }
{
    match part {
        Piece::Part(source, _, _) => keeps_none_in(condition, source),
        Piece::Chosen(..) | Piece::Own(..) => false,
    }
}

fn keeps_none_in(condition: &Expr, source: &Source) -> bool
    ensures { result ≡ true → KeepsNone (term_of condition.now) (source_rows source.now) }
{
    match source {
        Source::Extent(records) => keeps_none(condition, records),
        Source::Rows(_) | Source::Frame(_) | Source::Beside(_) => false,
    }
}

// Whether the condition is true for no record, and overflows on none: a comparison, or an `and` of some of which one is false or null.
fn keeps_none(condition: &Expr, records: &Records) -> bool
    ensures { result ≡ true → KeepsNone (term_of condition.now) (rows_of (extent_of records.now)) }
{
    match condition {
        Expr::Chain(first, links) => all_keep_none(first, links.as_slice(), records),
        _ => match judged(condition, records) {
            Some(none) => none,
            None => false,
        },
    }
}

fn all_keep_none(first: &Expr, links: &[Link<Expr>], records: &Records) -> bool
    ensures { result ≡ true → KeepsNone (chained (term_of first.now) (map link_of links.now)) (rows_of (extent_of records.now)) }
{
    let Some(mut none) = judged(first, records) else {
        return false;
    };
    for link in links {
        match link_judged(link, records) {
            Some(more) => none = none || more,
            None => return false,
        }
    }
    none
}

fn link_judged(link: &Link<Expr>, records: &Records) -> Option<bool>
    ensures { IfSome result (IsConjunct (link_of link.now) (rows_of (extent_of records.now))) }
{
    match link {
        Link::With(Operation::And, operand) => judged(operand, records),
        _ => None,
    }
}

// Whether the condition is true for no record, where it is one that never overflows.
fn judged(condition: &Expr, records: &Records) -> Option<bool>
    ensures { IfSome result (IsJudged (term_of condition.now) (rows_of (extent_of records.now))) }
{
    match condition {
        Expr::Call(Function::Between, args) => between_judged(args.as_slice(), records),
        _ => comparison_judged(condition, records),
    }
}

// Of a column's cell between two literals.
fn between_judged(args: &[Expr], records: &Records) -> Option<bool>
    ensures { IfSome result (IsJudged (call f.Between (terms_of (map term_of args.now))) (rows_of (extent_of records.now))) }
{
    let (low, high) = ends_in(args)?;
    let none = meet_none(records, low);
    let more = meet_none(records, high);
    Some(none || more)
}

// The two comparisons that a `between` joins.
fn ends_in(args: &[Expr]) -> Option<(Comparison<'_>, Comparison<'_>)>
    ensures { IfSome result (λ c. AreEnds (map term_of args.now) c.0 c.1) }
{
    match args {
        [
            Expr::Column(column),
            Expr::Literal(low),
            Expr::Literal(high),
        ] => Some((
            Comparison {
                column: *column,
                op: ZoneOp::AtLeast,
                value: low,
            },
            Comparison {
                column: *column,
                op: ZoneOp::AtMost,
                value: high,
            },
        )),
        _ => None,
    }
}

fn comparison_judged(condition: &Expr, records: &Records) -> Option<bool>
    ensures { IfSome result (IsJudged (term_of condition.now) (rows_of (extent_of records.now))) }
{
    match comparison_in(condition) {
        Some(comparison) => Some(meet_none(records, comparison)),
        None => None,
    }
}

fn comparison_in(condition: &Expr) -> Option<Comparison<'_>>
    ensures { IfSome result (λ c. Compares (term_of condition.now) c) }
{
    match condition {
        Expr::Call(function, args) => match op_of(*function) {
            Some(op) => compared(op, args.as_slice()),
            None => None,
        },
        _ => None,
    }
}

fn op_of(function: Function) -> Option<ZoneOp>
    ensures { IfSome result (λ op. Answers function op) }
{
    match function {
        Function::Equal => Some(ZoneOp::Equal),
        Function::Less => Some(ZoneOp::Below),
        Function::AtMost => Some(ZoneOp::AtMost),
        Function::Greater => Some(ZoneOp::Above),
        Function::AtLeast => Some(ZoneOp::AtLeast),
        _ => None,
    }
}

// The comparison of a column and a literal.
fn compared(op: ZoneOp, args: &[Expr]) -> Option<Comparison<'_>>
    ensures { IfSome result (λ c. (c.op ≡ op) × (map term_of args.now ≡ plain c.column ∷ literal c.value.now ∷ [])) }
{
    match args {
        [Expr::Column(column), Expr::Literal(value)] => Some(Comparison {
            column: *column,
            op,
            value,
        }),
        _ => None,
    }
}

// Whether no record has a cell that stands so to the value.
fn meet_none(records: &Records, comparison: Comparison) -> bool
    ensures { result ≡ true → MeetNone comparison.entry (rows_of (extent_of records.now)) }
{
    if holds_texts(records.fields, comparison.column) {
        return false;
    }
    match records.extent.zone(comparison.column) {
        Some((least, greatest)) => meets_none_between(comparison, least, greatest),
        None => true,
    }
}

// Whether the column is one of texts, so that a record that lacks it has an empty one, and not a null.
fn holds_texts(fields: &[Field], column: usize) -> bool
    ensures { result ≡ false → MissingIsNull fields.now column }
{
    match fields.get(column) {
        Some(field) => field.ty.same(Ty::Text),
        None => false,
    }
}

// Whether no cell between these two stands so to the value.
fn meets_none_between(comparison: Comparison, least: &Value, greatest: &Value) -> bool
    ensures { result ≡ true → MeetsNoneBetween comparison.entry least.now greatest.now }
{
    let value = comparison.value;
    match comparison.op {
        ZoneOp::Equal => lies_outside(value, least, greatest),
        ZoneOp::Below => !least.cmp(value).is_lt(),
        ZoneOp::AtMost => !least.cmp(value).is_le(),
        ZoneOp::Above => !greatest.cmp(value).is_gt(),
        ZoneOp::AtLeast => !greatest.cmp(value).is_ge(),
    }
}

// Whether the value is none of those between, also where a dynamic holds it: dynamics stand behind all others.
fn lies_outside(value: &Value, least: &Value, greatest: &Value) -> bool
    ensures { result ≡ true → LiesOutside value.now least.now greatest.now }
{
    if is_dynamic(value) || is_dynamic(greatest) {
        return false;
    }
    value.cmp(least).is_lt() || greatest.cmp(value).is_lt()
}

fn is_dynamic(value: &Value) -> bool
    ensures { result ≡ false → IsPlain value.now }
{
    matches!(value, Value::Dynamic(_))
}
