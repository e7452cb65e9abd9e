// Laws of definitions, which hold of these alone.
ghost use Rattle.std.specs.Prelude.{◌≡◌, ◌↔◌, ◌<◌, ◌≤◌, ℕ, ◌+◌, true, List, [], ◌∷◌, length, Some};
ghost use Rattle.std.specs.List.{Any};
ghost use Rattle.std.specs.List.Sorted.{IsPermutation};
ghost use Rattle.json.specs.Json.{Members as Given};
ghost use Rattle.serde_json.specs.Data.{Members, no_members};
ghost use Rattle.serde_json.specs.Read.{of_members};
ghost use Rattle.kq_value.specs.Computed.{Computed, Is, Overflow};
ghost use Rattle.kq_plan_expressions.specs.Terms.{Term};
ghost use Rattle.kq_run_groups.specs.Groups.{Grouping, rows_from};
ghost use Rattle.kq_run_gather.specs.Bodies.{MadeOf, StandsFor};
ghost use Rattle.kq_run_gather.specs.Grouping.{GroupsOf, Summarized};
ghost use Rattle.kq_run_gather.specs.kq_eval_pieces.Operators.{Row};
ghost use Rattle.kq_run_gather.specs.kq_eval_row.Val.{Surroundings};
ghost use Rattle.kq_run_sort.specs.Orders.{Sorted, Topped, keys_at};
ghost use Rattle.kq_plan.specs.Plans.{Aggregating, Planned, Sorting};
ghost use Rattle.kq_value.specs.Same.{Same};
ghost use Rattle.kq_value.specs.Tree.{Tree};
ghost use Rattle.kq_value.specs.declared.schema.Field.{Field};
ghost use Rattle.kq_value.specs.declared.ty.Ty.{Ty};
ghost use Rattle.kq_value.specs.declared.value.Value.{Value};
ghost use Rattle.kq_value_formats.specs.Civil.{Civil, is_date, days_to, days_of_year_0, date_of_day};
ghost use Rattle.kq_value_formats.specs.Members.{in_order};
ghost use Rattle.kq_value_formats.specs.Strings.{split};
ghost use Rattle.kq_run_laws.specs.Arrays.{IsInOrder};
ghost use Rattle.kq_run_laws.specs.Dates.{HasMonthAndDay, IsDateAfter, days_before};
ghost use Rattle.kq_run_laws.specs.Groups.{AreKeysOf, IsSummary, SomethingOverflows};
ghost use Rattle.kq_run_laws.specs.Objects.{KeepsLast};
ghost use Rattle.kq_run_laws.specs.Sorts.{IsFirst, IsInKeyOrder};
ghost use Rattle.kq_run_laws.specs.Splits.{IsSplitBy};

/// The date of a day is the one date of the calendar with as many days before it, counted by the lengths of years and months from 0001-01-01.
pub fn dates_are_counted_by_years_and_months()
    ensures valid { (c : Civil) → (is_date c ≡ true) ↔ HasMonthAndDay c }
    ensures days { (c : Civil) → 1 ≤ c.year → HasMonthAndDay c → days_to c ≡ days_of_year_0 + days_before c }
    ensures date { (n : ℕ) (c : Civil) → (c ≡ date_of_day n) ↔ IsDateAfter n c }
{}

/// The pieces of a split are the one way to cut a text at its separator, from the left, and always at the first place at which it stands. An empty
/// separator cuts nothing.
pub fn splits_are_leftmost()
    ensures pieces { (s t : List ℕ) (ps : List (List ℕ)) → 0 < length t → (ps ≡ split s t) ↔ IsSplitBy s t ps }
    ensures whole { (s : List ℕ) → split s [] ≡ s ∷ [] }
{}

/// An object of JSON has at each key the last value that the text gives it.
pub fn objects_keep_their_last_members()
    ensures { (ms : Given) (kept : Members) → of_members ms no_members ≡ Some kept → KeepsLast ms kept }
{}

/// An array that is sorted has the same items, none of them less than the one before it.
pub fn sorted_arrays_are_in_order()
    ensures { (ts : List Tree) → IsInOrder ts (in_order ts) }
{}

/// Lists that have each row equally often have the same rows, in whatever order.
pub fn same_rows_are_permuted()
    ensures { (a b : List (List Value)) → Same a b ↔ IsPermutation a b }
{}

/// A sort gives the same rows, none of them behind one that it goes before by the values of their keys, and top the first of them. They come to an
/// overflow exactly where a key overflows on some row.
pub fn sorts_are_in_order_of_their_keys()
    ensures sort { (ks : List Sorting) (s : Surroundings) (rows out : List Row) → Sorted ks s rows (Is out) ↔ IsInKeyOrder ks s rows out }
    ensures top { (n : ℕ) (k : Sorting) (s : Surroundings) (rows few : List Row) → Topped n k s rows (Is few) ↔ IsFirst n k s rows few }
    ensures overflow { (ks : List Sorting) (s : Surroundings) (rows : List Row) → Sorted ks s rows Overflow ↔ Any (λ r. keys_at ks s r ≡ Overflow) rows }
{}

/// A summarize gives one row for each different key of the rows: the key, and behind it cells that the aggregates may give over the rows with this
/// key. With no key terms there is one row, even over no rows.
pub fn summaries_have_a_row_for_each_key()
    ensures { (es : List Term) (gs : List Aggregating) (cs : List Field) (s : Surroundings) (rows made : List Row) → Summarized es gs cs s rows (Is made) ↔ IsSummary es gs cs s rows made }
{}

/// What comes of a summarize is an overflow exactly where a key or an argument overflows on some row, or the exact sum of the values that a sum takes
/// of the rows with some key is outside its type.
pub fn summaries_overflow_where_a_part_does()
    ensures { (es : List Term) (gs : List Aggregating) (cs : List Field) (s : Surroundings) (rows : List Row) (came : Computed (List Row)) →
        Summarized es gs cs s rows came → (came ≡ Overflow) ↔ SomethingOverflows es gs cs s rows }
{}

/// Groups of rows have the different keys of these rows, each once, and what they end with is what a summarize gives. The groups of a view are such
/// groups, over the rows that its operators leave.
pub fn groups_have_the_keys_of_their_rows()
    ensures keys { (es : List Term) (gs : List Aggregating) (ts : List Ty) (s : Surroundings) (rows : List Row) (g : Grouping) → GroupsOf es gs ts s rows g → AreKeysOf es s rows g.keys }
    ensures views { (body : Planned) (rows : List Row) (g : Grouping) → StandsFor body rows g → MadeOf body rows (rows_from g.states g.keys 0) }
{}
