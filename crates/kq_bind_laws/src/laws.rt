// Laws of the columns that operators give, which hold of the definition of binding alone.
ghost use Rattle.std.specs.Prelude.{◌≡◌, ◌↔◌, ℕ, List, [], ◌∷◌, ◌++◌, Option, Some, Ok};
ghost use Rattle.kq_bind_query.specs.kq_bind_operators.Clauses.{grouping_items};
ghost use Rattle.kq_bind_query.specs.kq_bind_operators.Flows.{Progressing, Flowing, columns};
ghost use Rattle.kq_bind_query.specs.kq_bind_operators.Scopes.{Scoping};
ghost use Rattle.kq_bind_query.specs.kq_bind_supported.Unsupported.{unsupported_query};
ghost use Rattle.kq_bind_query.specs.Pipes.{from_word, operated};
ghost use Rattle.kq_bind_query.specs.Queries.{query_bound};
ghost use Rattle.kq_bind_columns.specs.Defaults.{default_name};
ghost use Rattle.kq_bind_expressions.specs.Bound.{bound};
ghost use Rattle.kq_bind_expressions.specs.Names.{Names};
ghost use Rattle.kq_bind_expressions.specs.Unsupported.{unsupported_in};
ghost use Rattle.kq_bind_query.specs.Different.{AreDifferent};
ghost use Rattle.kq_read_grammar.specs.declared.expression.Name.{Name};
ghost use Rattle.kq_read_grammar.specs.Expressions.{spells};
ghost use Rattle.kq_read_grammar.specs.Tabulars.{query_text};
ghost use Rattle.kq_read_grammar.specs.Trees.{Tree, AggregateTree, GroupingTree, ItemTree, KeyTree, QueryTree, print, extend, project, project_away, project_rename, sort, top, summarize, summarize_by, mv_expand};
ghost use Rattle.kq_plan.specs.Names.{Known};
ghost use Rattle.kq_read_symbols.specs.declared.kind.Symbol.{Symbol};
ghost use Rattle.kq_value.specs.declared.schema.Field.{Field};
ghost use Rattle.kq_bind_laws.specs.Columns.{IsMapped};
ghost use Rattle.kq_bind_laws.specs.Expanded.{IsExpanded};
ghost use Rattle.kq_bind_laws.specs.Extended.{IsExtended};
ghost use Rattle.kq_bind_laws.specs.Faults.{faults_in};
ghost use Rattle.kq_bind_laws.specs.Items.{AreFew, IsPrinted, IsProjected};
ghost use Rattle.kq_bind_laws.specs.Leftmost.{first_lacking};
ghost use Rattle.kq_bind_laws.specs.Owned.{OwnsName};
ghost use Rattle.kq_bind_laws.specs.Picked.{Renaming, left_of, HasRenamed};
ghost use Rattle.kq_bind_laws.specs.QueryFaults.{first_unsupported, query_faults};
ghost use Rattle.kq_bind_laws.specs.Sorted.{IsSorted, IsTopped};
ghost use Rattle.kq_bind_laws.specs.Summarized.{Summarizes};
ghost use Rattle.kq_bind_laws.specs.Told.{InText, TellsFirst};

/// The literal of an expression that isn't supported is the first of its symbols that is a number, a timespan or a typed literal and has no value.
pub fn literals_are_told_from_the_left()
    ensures { (text : List ℕ) (e : Tree) (symbols : List Symbol) → spells e symbols → unsupported_in text e ≡ first_lacking text symbols }
{}

/// Binding an expression tells the first of its faults, and these stand in the order of its text: so no earlier place faults.
pub fn expressions_tell_their_first_fault()
    ensures first { (s : Names) (cs : List Field) (e : Tree) → TellsFirst (bound s cs e) (faults_in s cs e) }
    ensures order { (s : Names) (cs : List Field) (e : Tree) (symbols : List Symbol) → spells e symbols → InText (faults_in s cs e) symbols }
{}

/// Binding a query tells the leftmost literal or word of a type that isn't supported, or else the first of the query's faults, and these stand in the
/// order of its text. Each part is looked at once what it depends on binds.
pub fn queries_tell_their_first_fault()
    ensures first { (text : List ℕ) (known : List ℕ → Option Known) (q : QueryTree) → TellsFirst (query_bound text known q) (first_unsupported (unsupported_query text q) ++ query_faults text known q) }
    ensures order { (text : List ℕ) (known : List ℕ → Option Known) (q : QueryTree) (symbols : List Symbol) → query_text q symbols → InText (query_faults text known q) symbols }
{}

/// A project and a print have just the columns of their items, in order: of the types and with the values of the expressions, and each under the name
/// that it is given, or else under its default name made free.
pub fn items_have_their_columns()
    ensures project { (s : Scoping) (w v : Flowing) (i : ItemTree) (is : List ItemTree) → AreFew (i ∷ is) [] → operated s w (project i is) ≡ Ok v → IsProjected s w v (i ∷ is) }
    ensures print { (s : Scoping) (p : Progressing) (t : Symbol) (v : Flowing) (i : ItemTree) (is : List ItemTree) → AreFew (i ∷ is) [] → from_word s p t (print i is) ≡ Ok v → IsPrinted s p v (i ∷ is) }
{}

/// An expression without a name has the name of its column, of its column and member, of the column that bin, floor or a function of starts is of, or
/// the name that the argument of a conversion alone would have; and no other expression has one of itself.
pub fn expressions_have_their_names()
    ensures { (text : List ℕ) (cs : List Field) (e : Tree) (said : List ℕ) → (default_name text cs e ≡ Some said) ↔ OwnsName text cs e said }
{}

/// An extend keeps each column that none of its items names, replaces in its place each that one names, and has the other items behind, in order.
pub fn extends_have_their_columns()
    ensures { (s : Scoping) (w v : Flowing) (i : ItemTree) (is : List ItemTree) → AreDifferent (columns w) → AreFew (i ∷ is) (columns w) → operated s w (extend i is) ≡ Ok v → IsExtended s w v (i ∷ is) }
{}

/// A project-away leaves the columns that it doesn't name, in order. A project-rename leaves all in their places, with their types and values, and
/// those that it names get their new names.
pub fn away_and_rename_have_their_columns()
    ensures away { (s : Scoping) (w v : Flowing) (n : Name) (ns : List Name) → AreDifferent (columns w) → operated s w (project_away n ns) ≡ Ok v → IsMapped w v (left_of s.text (n ∷ ns) (columns w)) }
    ensures rename { (s : Scoping) (w v : Flowing) (p : Renaming) (ps : List Renaming) → AreDifferent (columns w) → operated s w (project_rename p ps) ≡ Ok v → HasRenamed s.text w v (p ∷ ps) }
{}

/// A sort and a top descend, unless they are said not to, with nulls last where they descend and first where they ascend, unless it is said.
pub fn sorts_have_their_orders()
    ensures sort { (s : Scoping) (w v : Flowing) (k : KeyTree) (ks : List KeyTree) → operated s w (sort k ks) ≡ Ok v → IsSorted s w v (k ∷ ks) }
    ensures top { (s : Scoping) (w v : Flowing) (t : Symbol) (k : KeyTree) → operated s w (top t k) ≡ Ok v → IsTopped s w v t k }
{}

/// A summarize has its keys, and behind them the columns of its aggregates: each of its type, under the name that it is given or its default name
/// made free, and for `*` all columns of the input but the keys and the value's own.
pub fn summarizes_have_their_columns()
    ensures aggregates { (s : Scoping) (w : Flowing) (a : AggregateTree) (more : List AggregateTree) (g : Option GroupingTree) → Summarizes s w (summarize a more g) (a ∷ more) (grouping_items g) }
    ensures keys { (s : Scoping) (w : Flowing) (g : GroupingTree) → Summarizes s w (summarize_by g) [] (g.0 ∷ g.1) }
{}

/// An mv-expand has its parts in one column, of the type that is said or else dynamic, in the place of the column of its name or else last, and the
/// other columns as they are.
pub fn expansions_have_their_column()
    ensures { (s : Scoping) (w v : Flowing) (i : ItemTree) (t : Option Symbol) → AreDifferent (columns w) → operated s w (mv_expand i t) ≡ Ok v → IsExpanded s w v i t }
{}
