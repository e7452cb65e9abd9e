// Laws of the bodies of exports and of views.
ghost use Rattle.std.specs.Prelude.{◌≡◌, ℕ, true, false, List, [], Option, Some, Ok};
ghost use Rattle.std.specs.List.{All};
ghost use Rattle.kq_export_binder.specs.Bodies.{is_export_body};
ghost use Rattle.kq_view_body.specs.Bodies.{is_body};
ghost use Rattle.kq_view_body.specs.Exports.{foreign_place, foreign_tabular};
ghost use Rattle.kq_view_body.specs.Parts.{query_parts};
ghost use Rattle.kq_bind_query.specs.Queries.{query_bound};
ghost use Rattle.kq_read_grammar.specs.Trees.{QueryTree};
ghost use Rattle.kq_policy_moments.specs.kq_catalog_journal.PolicyBodies.{asks_moment};
ghost use Rattle.kq_plan.specs.declared.names.NameKind.TheVariants as name;
ghost use Rattle.kq_plan.specs.Names.{Known};
ghost use Rattle.kq_plan.specs.Plans.{Planned};
ghost use Rattle.kq_value.specs.declared.schema.Field.{Field};

/// A query without lets that is bound, over names that know the table, to no body of an export has a name that isn't the table's, a word
/// `materialized_view`, or a call of `now` or `ago`; and the place at which it is refused is that of the leftmost.
pub fn refused_bodies_have_their_places()
    ensures { (text table : List ℕ) (known : List ℕ → Option Known) (cs : List Field) (q : QueryTree) (p : Planned) → known table ≡ Some (name.Table, cs) → q.lets ≡ [] → query_bound text known q ≡ Ok p → is_export_body table p ≡ false → foreign_tabular text table q.tabular ≡ Some (foreign_place text table q) }
{}

/// A query that has the form of a view's body over a table, and is bound over names that know the table, is bound to the body of an export over it:
/// its leaves are this table alone, and none of its steps calls `now` or `ago`.
pub fn bodies_of_views_ask_for_no_moment()
    ensures body { (text table : List ℕ) (known : List ℕ → Option Known) (cs : List Field) (q : QueryTree) (p : Planned) → known table ≡ Some (name.Table, cs) → is_body (query_parts text table q) ≡ true → query_bound text known q ≡ Ok p → is_export_body table p ≡ true }
    ensures timeless { (text table : List ℕ) (known : List ℕ → Option Known) (cs : List Field) (q : QueryTree) (p : Planned) → known table ≡ Some (name.Table, cs) → is_body (query_parts text table q) ≡ true → query_bound text known q ≡ Ok p → All (λ s. asks_moment s ≡ false) p.steps }
{}
