// Laws of what is looked for in the text of a query.
ghost use Rattle.std.specs.Prelude.{◌≡◌, ℕ, true, List, Option, Some, None};
ghost use Rattle.std.specs.Option.{option_or};
ghost use Rattle.kq_bind_columns.specs.Defaults.{first_token};
ghost use Rattle.kq_bind_supported.specs.Unsupported.{unsupported_query};
ghost use Rattle.kq_view_body.specs.Bodies.{is_body};
ghost use Rattle.kq_view_body.specs.Exports.{foreign_place, foreign_tabular};
ghost use Rattle.kq_view_body.specs.Moments.{moment_in};
ghost use Rattle.kq_view_body.specs.Parts.{query_parts};
ghost use Rattle.kq_read_grammar.specs.Trees.{Tree, TabularTree, QueryTree};
ghost use Rattle.kq_export_laws.specs.Searches.{found, is_any, is_unsupported, calls_moment, is_foreign};
ghost use Rattle.kq_export_laws.specs.Symbols.{tree_symbols, tabular_symbols, query_symbols};

/// What isn't supported in a query is the first of its symbols that is a literal without a value or a word that is no type's.
pub fn what_is_unsupported_is_found()
    ensures { (text : List ℕ) (q : QueryTree) → unsupported_query text q ≡ found (is_unsupported text) (query_symbols q) }
{}

/// The leftmost call of `now` or `ago` in an expression is the first of its symbols that is the name of one of them, called.
pub fn calls_of_the_moment_are_found()
    ensures { (text : List ℕ) (e : Tree) → moment_in text e ≡ found (calls_moment text) (tree_symbols e) }
{}

/// What a query has that the body of an export may not have is the first of its symbols that is a name of rows which isn't the table's, a word
/// `materialized_view`, or a call of `now` or `ago`. The place that is told is that of this symbol, or where there is none that of the first.
pub fn what_is_foreign_is_found()
    ensures leftmost { (text table : List ℕ) (t : TabularTree) → foreign_tabular text table t ≡ found (is_foreign text table) (tabular_symbols t) }
    ensures place { (text table : List ℕ) (q : QueryTree) → Some (foreign_place text table q) ≡ option_or (found (is_foreign text table) (tabular_symbols q.tabular)) (found is_any (tabular_symbols q.tabular)) }
{}

/// The body of a view has no symbol that the body of an export over its table may not have.
pub fn bodies_of_views_have_nothing_foreign()
    ensures { (text table : List ℕ) (q : QueryTree) → is_body (query_parts text table q) ≡ true → found (is_foreign text table) (query_symbols q) ≡ None }
{}

/// The first token of an expression is the first of its symbols.
pub fn first_tokens_are_found()
    ensures { (e : Tree) → Some (first_token e) ≡ found is_any (tree_symbols e) }
{}
