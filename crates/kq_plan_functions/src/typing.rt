// How a call is typed.
ghost use Rattle.std.specs.Prelude.{◌≡◌, ◌&&◌, nat_le, length, map};
ghost use Rattle.std.specs.Option.{option_map};
ghost use Rattle.kq_value.specs.declared.ty.Ty.TheVariants.{Text, Bool, Dynamic};
ghost use Rattle.kq_value.specs.Ty.{same_ty};
ghost use Rattle.kq_plan_functions.specs.Table.{same_types, first_line, is_plain, is_comparable, all_comparable, is_text, all_texts, all_same, choice_fits};
ghost use Rattle.kq_plan_functions.specs.Table.{when, equal_type, text_type, choice_type, alike_type, given, widened, widens, chosen};
ghost use Rattle.kq_plan_functions.specs.Seen.{signature_of, rule_of, choice_of, seen};

use crate::function::Function;
use crate::rules::{Line, Rule, rule_for};
use kq_value::Ty;

/// How a call is typed.
#[derive(Clone, Copy)]
pub struct Choice {
    /// Whether each int among the arguments is to be made a long.
    pub widened: bool,
    /// The type of what the call gives.
    pub gives: Ty,
}

/// How a call with arguments of these types is typed; None where no line takes them. Takes no memory.
pub fn choose(function: Function, args: &[Ty]) -> Option<Choice>
    ensures { option_map choice_of result ≡ chosen function args.now }
{
    let rule = rule_for(function);
    if let Some(gives) = given(rule, args, false) {
        return Some(Choice {
            widened: false,
            gives,
        });
    }
    if !widens(rule) {
        return None;
    }
    let gives = given(rule, args, true)?;
    Some(Choice {
        widened: true,
        gives,
    })
}

fn widens(rule: Rule) -> bool
    ensures { result ≡ widens (rule_of rule) }
{
    matches!(rule, Rule::Lines(_) | Rule::Equals | Rule::EqualsOne)
}

fn widened(ty: Ty) -> Ty
    ensures { result ≡ widened ty }
{
    match ty {
        Ty::Int => Ty::Long,
        _ => ty,
    }
}

fn seen(ty: Ty, widen: bool) -> Ty
    ensures { result ≡ seen widen ty }
{
    if widen { widened(ty) } else { ty }
}

// What a rule gives of arguments of these types, each int among them widened where that is asked for.
fn given(rule: Rule, args: &[Ty], widen: bool) -> Option<Ty>
    ensures { result ≡ given (rule_of rule) (map (seen widen) args.now) }
{
    match rule {
        Rule::Lines(lines) => first_line(lines, args, widen),
        Rule::Any(least, most, gives) => {
            if least <= args.len() && args.len() <= most {
                Some(gives)
            } else {
                None
            }
        }
        Rule::Equals => {
            if args.len() == 2 {
                equal_type(args, widen)
            } else {
                None
            }
        }
        Rule::EqualsOne => equal_type(args, widen),
        Rule::Texts => {
            if args.len() == 2 {
                text_type(args, widen)
            } else {
                None
            }
        }
        Rule::TextsOne => text_type(args, widen),
        Rule::OneChoice => {
            if args.len() == 3 {
                choice_type(args, widen)
            } else {
                None
            }
        }
        Rule::Choices => choice_type(args, widen),
        Rule::Alike => alike_type(args, widen),
    }
}

fn first_line(lines: &[Line], args: &[Ty], widen: bool) -> Option<Ty>
    ensures { result ≡ first_line (map signature_of lines.now) (map (seen widen) args.now) }
{
    for line in lines {
        if same_types(line.takes, args, widen) {
            return Some(line.gives);
        }
    }
    None
}

fn same_types(takes: &[Ty], args: &[Ty], widen: bool) -> bool
    ensures { result ≡ same_types takes.now (map (seen widen) args.now) }
{
    if takes.len() != args.len() {
        return false;
    }
    for i in 0..takes.len() {
        if !takes[i].same(seen(args[i], widen)) {
            return false;
        }
    }
    true
}

fn is_plain(ty: Ty) -> bool
    ensures { result ≡ is_plain ty }
{
    matches!(ty, Ty::Long | Ty::Text | Ty::Bool)
}

fn is_dynamic(ty: Ty) -> bool
    ensures { result ≡ same_ty ty Dynamic }
{
    ty.same(Ty::Dynamic)
}

fn is_bool(ty: Ty) -> bool
    ensures { result ≡ same_ty ty Bool }
{
    ty.same(Ty::Bool)
}

fn is_text(ty: Ty) -> bool
    ensures { result ≡ is_text ty }
{
    ty.same(Ty::Text) || is_dynamic(ty)
}

fn is_comparable(first: Ty, second: Ty) -> bool
    ensures { result ≡ is_comparable first second }
{
    first.same(second)
        || (is_dynamic(first) && is_plain(second))
        || (is_plain(first) && is_dynamic(second))
}

fn equal_type(args: &[Ty], widen: bool) -> Option<Ty>
    ensures { result ≡ equal_type (map (seen widen) args.now) }
{
    match args {
        [first, second, others @ ..] => {
            let first = seen(*first, widen);
            if is_comparable(first, seen(*second, widen)) && all_comparable(first, others, widen) {
                Some(Ty::Bool)
            } else {
                None
            }
        }
        _ => None,
    }
}

fn all_comparable(first: Ty, others: &[Ty], widen: bool) -> bool
    ensures { result ≡ all_comparable first (map (seen widen) others.now) }
{
    for other in others {
        if !is_comparable(first, seen(*other, widen)) {
            return false;
        }
    }
    true
}

fn text_type(args: &[Ty], widen: bool) -> Option<Ty>
    ensures { result ≡ text_type (map (seen widen) args.now) }
{
    if 2 <= args.len() && all_texts(args, widen) {
        Some(Ty::Bool)
    } else {
        None
    }
}

fn all_texts(args: &[Ty], widen: bool) -> bool
    ensures { result ≡ all_texts (map (seen widen) args.now) }
{
    for arg in args {
        if !is_text(seen(*arg, widen)) {
            return false;
        }
    }
    true
}

fn alike_type(args: &[Ty], widen: bool) -> Option<Ty>
    ensures { result ≡ alike_type (map (seen widen) args.now) }
{
    match args {
        [first, second, others @ ..] => {
            let first = seen(*first, widen);
            if first.same(seen(*second, widen)) && all_same(first, others, widen) {
                Some(first)
            } else {
                None
            }
        }
        _ => None,
    }
}

fn all_same(first: Ty, others: &[Ty], widen: bool) -> bool
    ensures { result ≡ all_same first (map (seen widen) others.now) }
{
    for other in others {
        if !first.same(seen(*other, widen)) {
            return false;
        }
    }
    true
}

fn choice_type(args: &[Ty], widen: bool) -> Option<Ty>
    ensures { result ≡ choice_type (map (seen widen) args.now) }
{
    match args {
        [test, value, others @ ..] => {
            chosen_type(seen(*test, widen), seen(*value, widen), others, widen)
        }
        _ => None,
    }
}

// The type of what is chosen, behind the first test and value.
fn chosen_type(test: Ty, value: Ty, others: &[Ty], widen: bool) -> Option<Ty>
    ensures { result ≡ when (same_ty test Bool && choice_fits value (map (seen widen) others.now)) value }
{
    if is_bool(test) && choice_fits(value, others, widen) {
        Some(value)
    } else {
        None
    }
}

// Whether these are a bool and a value of the type, and so on, and such a value at the end.
fn choice_fits(value: Ty, args: &[Ty], widen: bool) -> bool
    ensures { result ≡ choice_fits value (map (seen widen) args.now) }
{
    let mut rest = args;
    while let [test, next, others @ ..] = rest {
        if !is_bool(seen(*test, widen)) || !value.same(seen(*next, widen)) {
            return false;
        }
        rest = others;
    }
    match rest {
        [last] => value.same(seen(*last, widen)),
        _ => false,
    }
}
