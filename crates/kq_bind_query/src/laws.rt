// Laws of the names and the columns that queries are bound to, which hold of the definitions alone.
ghost use Rattle.std.specs.Prelude.{◌≡◌, ◌↔◌, ℕ, Bool, true, false, List, [], ◌∷◌, length, take, Option, Some, None, Ok, slice_get};
ghost use Rattle.kq_bind_query.specs.kq_bind_operators.Clauses.{or_first_column, bind_mv_expand};
ghost use Rattle.kq_bind_query.specs.kq_bind_operators.Flows.{Flowing, columns};
ghost use Rattle.kq_bind_query.specs.kq_bind_operators.Scopes.{Scoping};
ghost use Rattle.kq_bind_clauses.specs.Joins.{join_columns};
ghost use Rattle.kq_bind_clauses.specs.Tables.{Tabled, tabled};
ghost use Rattle.kq_bind_clauses.specs.Unions.{union_sources};
ghost use Rattle.kq_bind_columns.specs.Defaults.{column_of, default_name};
ghost use Rattle.kq_bind_columns.specs.Naming.{free_name};
ghost use Rattle.kq_read_grammar.specs.declared.clause.Cell.{Cell};
ghost use Rattle.kq_read_grammar.specs.declared.clause.Column.{Column};
ghost use Rattle.kq_read_grammar.specs.Trees.{Tree, plain};
ghost use Rattle.kq_plan.specs.declared.work.JoinKind.{JoinKind};
ghost use Rattle.kq_read_symbols.specs.declared.kind.Symbol.{Symbol};
ghost use Rattle.kq_value.specs.declared.schema.Field.{Field};
ghost use Rattle.kq_bind_query.specs.Expanded.{ReplacesOwn, StandsLast};
ghost use Rattle.kq_bind_query.specs.Paired.{AllStandBehind, IsPaired};
ghost use Rattle.kq_bind_query.specs.Suffixes.{HaveRoom, IsMadeFree};
ghost use Rattle.kq_bind_query.specs.United.{AllFillOne, Has, IsOfAll, IsOfSome, StandsInUnion};
ghost use Rattle.kq_bind_query.specs.Written.{HoldsCells};

/// A column without a name of its own gets the least suffix that is free, where its default name isn't.
pub fn default_names_are_free()
    ensures { (given avoided : List Field) (base : List ℕ) → HaveRoom given avoided → IsMadeFree given avoided base (free_name given avoided base) }
{}

/// `mv-expand` of an item without a name replaces a column only where the item is that column. Any other item adds one, whose default name is made
/// free of all.
pub fn expansions_replace_their_own_column()
    ensures own { (s : Scoping) (w v : Flowing) (e : Tree) (t : Option Symbol) (name : List ℕ) →
        column_of s.text (columns w) e ≡ Some name → bind_mv_expand s w (plain e) t ≡ Ok v → ReplacesOwn name w v }
    ensures other { (s : Scoping) (w v : Flowing) (e : Tree) (t : Option Symbol) → HaveRoom (columns w) [] →
        column_of s.text (columns w) e ≡ None → bind_mv_expand s w (plain e) t ≡ Ok v → StandsLast (or_first_column (default_name s.text (columns w) e)) w v }
{}

/// A join that pairs rows has the left columns as they are, and behind them the right ones, whose names are made free.
pub fn joins_have_their_columns()
    ensures left { (k : JoinKind) (ls rs : List Field) → IsPaired k → take (length ls) (join_columns k ls rs) ≡ ls }
    ensures right { (k : JoinKind) (ls rs : List Field) → IsPaired k → HaveRoom ls rs → AllStandBehind (join_columns k ls rs) (length ls) rs }
{}

/// An outer union has the columns of any arm, an inner one those of every arm; each of an arm's that it has fills one of its columns, of its type.
pub fn unions_have_their_columns()
    ensures outer { (arms : List (List Field)) (f : Field) → Has (union_sources false arms) f ↔ IsOfSome arms f }
    ensures inner { (a : List Field) (arms : List (List Field)) (f : Field) → Has (union_sources true (a ∷ arms)) f ↔ IsOfAll (a ∷ arms) f }
    ensures filled { (inner : Bool) (arms : List (List Field)) → AllFillOne inner arms }
    ensures named { (sources : List Field) (place : ℕ) (f : Field) → slice_get sources place ≡ Some f → StandsInUnion sources place f }
{}

/// A datatable has its cells row by row, each as a value of its column.
pub fn tables_have_their_cells()
    ensures { (text : List ℕ) (at : ℕ) (columns : List Column) (cells : List Cell) (t : Tabled) → tabled text at columns cells ≡ Ok t → HoldsCells text cells t }
{}
