// Sources and operators that may have sources inside, and pipes. The readers take that of the sources inside as a value, so
// that each is proved by itself.
ghost use Rattle.std.specs.Prelude.{◌≡◌, ◌<◌, map};
ghost use Rattle.kq_read_grammar.specs.TabularViews.{arm_of, arms_of, body_of, from_of, join_of, operator_of, operators_of, source_of, tabular_of, union_of};
ghost use Rattle.kq_read_grammar.specs.Trees as tree;
ghost use Rattle.kq_read_queries.specs.Nests.{Nests};
ghost use Rattle.kq_read_queries.specs.Reading as spec;
ghost use Rattle.kq_read_symbols.specs.declared.kind.Symbol.{Symbol as Shown};
ghost use Rattle.kq_read_symbols.specs.Forms.{skip, many, with_front};
ghost use Rattle.kq_read_symbols.specs.Outcomes.{IsOutcome};
ghost use Rattle.kq_read_symbols.specs.Several.{first_and_others};

use crate::bodies::{
    counting, read_boxed_expression, read_boxed_items, read_boxed_keys, read_datatable,
    read_distinct, read_expanded, read_kind, read_range, read_summarize, read_table_name, read_top,
    read_view,
};
use crate::words::{expect_operator_word, expect_source_word, sees_source_word};
use kq_read_clauses::{read_join_keys, read_names, read_renamings};
use kq_read_expressions::read_name;
use kq_read_grammar::{
    Arm, Join, JoinKey, Name, Operator, OperatorBody, OperatorKey, Source, SourceBody, Tabular,
    Union,
};
use kq_read_symbols::{
    Behind, Class, ClauseWord, Cursor, Part, ReservedWord, SourceWord, Stop, Symbol, more,
};
use kq_read_tokens::{Operator as Sign, Punctuation};
use std::alloc::Global;

#[derive(Clone, Copy)]
pub struct Reader<F> {
    alloc: Global,
    // At least the number of symbols that are left.
    turns: usize,
    budget: usize,
    tabular: F,
}

impl<F: Fn(Global, &mut Cursor<'_>, usize) -> Result<Box<Tabular>, Stop>> Reader<F> {
    #[tactic(auto, unfolding(crate::specs::Reading::nesting))]
    fn nesting(&self, cursor: &mut Cursor<'_>) -> Result<(Symbol, Box<Tabular>), Stop>
        requires { Nests self.now.budget (F.pre self.now.tabular) (F.post self.now.tabular) }
        ensures { IsOutcome (λ p. (p.0, tabular_of p.1.value)) (spec.nesting (spec.tabular self.now.budget) self.now.turns cursor.old) result cursor.new }
    {
        let paren = cursor.expect(Class::Sign(Punctuation::OpenParenthesis))?;
        let inner = (self.tabular)(self.alloc, cursor, self.budget)?;
        cursor.expect(Class::Sign(Punctuation::CloseParenthesis))?;
        Ok((paren, inner))
    }

    #[tactic(auto, unfolding(crate::specs::Reading::arm))]
    fn arm(&self, cursor: &mut Cursor<'_>) -> Result<Arm, Stop>
        requires { Nests self.now.budget (F.pre self.now.tabular) (F.post self.now.tabular) }
        ensures { IsOutcome arm_of (spec.arm (spec.tabular self.now.budget) self.now.turns cursor.old) result cursor.new }
    {
        if cursor.sees(Class::Sign(Punctuation::OpenParenthesis)) {
            let (paren, inner) = self.nesting(cursor)?;
            return Ok(Arm::Grouped(paren, inner));
        }
        let name = read_name(cursor)?;
        Ok(Arm::Named(name))
    }

    #[tactic(auto, unfolding(crate::specs::Reading::more_arms))]
    fn more_arms(&self, cursor: &mut Cursor<'_>) -> Result<Vec<Arm>, Stop>
        requires { Nests self.now.budget (F.pre self.now.tabular) (F.post self.now.tabular) }
        ensures { IsOutcome (λ v. map arm_of v.items) (spec.more_arms (spec.tabular self.now.budget) self.now.turns cursor.old) result cursor.new }
    {
        let arm = AnArm(self);
        let next = Behind {
            class: Class::Sign(Punctuation::Comma),
            part: &arm,
        };
        more(
            self.turns,
            Class::Sign(Punctuation::Comma),
            &next,
            cursor,
            Vec::new(self.alloc),
        )
    }

    // One arm or more.
    fn arms(&self, cursor: &mut Cursor<'_>) -> Result<(Arm, Vec<Arm>), Stop>
        requires { Nests self.now.budget (F.pre self.now.tabular) (F.post self.now.tabular) }
        ensures { IsOutcome (first_and_others arm_of) (spec.all_arms (spec.tabular self.now.budget) self.now.turns cursor.old) result cursor.new }
    {
        let first = self.arm(cursor)?;
        let others = self.more_arms(cursor)?;
        Ok((first, others))
    }

    #[tactic(auto, unfolding(crate::specs::Reading::plain_union))]
    fn plain_union(&self, cursor: &mut Cursor<'_>) -> Result<Union, Stop>
        requires { Nests self.now.budget (F.pre self.now.tabular) (F.post self.now.tabular) }
        ensures { IsOutcome union_of (spec.plain_union (spec.tabular self.now.budget) self.now.turns cursor.old) result cursor.new }
    {
        let (first, others) = self.arms(cursor)?;
        Ok(Union {
            kind: None,
            first,
            others,
        })
    }

    // What stands behind the word `kind`, which may be the name of an arm.
    #[tactic(auto, unfolding(crate::specs::Reading::behind_kind))]
    fn behind_kind(&self, word: Symbol, cursor: &mut Cursor<'_>) -> Result<Union, Stop>
        requires { Nests self.now.budget (F.pre self.now.tabular) (F.post self.now.tabular) }
        ensures { IsOutcome union_of (spec.behind_kind (spec.tabular self.now.budget) self.now.turns word cursor.old) result cursor.new }
    {
        if !cursor.sees(Class::Operator(Sign::Assign)) {
            let others = self.more_arms(cursor)?;
            return Ok(Union {
                kind: None,
                first: Arm::Named(Name::Word(word)),
                others,
            });
        }
        cursor.expect(Class::Operator(Sign::Assign))?;
        let kind = cursor.expect(Class::UnionKind)?;
        let (first, others) = self.arms(cursor)?;
        Ok(Union {
            kind: Some(kind),
            first,
            others,
        })
    }

    #[tactic(auto, unfolding(crate::specs::Reading::union, crate::specs::Reading::kind_union))]
    fn union(&self, cursor: &mut Cursor<'_>) -> Result<Union, Stop>
        requires { Nests self.now.budget (F.pre self.now.tabular) (F.post self.now.tabular) }
        ensures { IsOutcome union_of (spec.union (spec.tabular self.now.budget) self.now.turns cursor.old) result cursor.new }
    {
        if !cursor.sees(Class::Clause(ClauseWord::Kind)) {
            return self.plain_union(cursor);
        }
        let word = cursor.expect(Class::Clause(ClauseWord::Kind))?;
        self.behind_kind(word, cursor)
    }

    // What stands behind the word of a source.
    fn from(&self, word: SourceWord, cursor: &mut Cursor<'_>) -> Result<SourceBody, Stop>
        requires { Nests self.now.budget (F.pre self.now.tabular) (F.post self.now.tabular) }
        ensures { IsOutcome from_of (spec.from (spec.tabular self.now.budget) self.now.turns word cursor.old) result cursor.new }
    {
        match word {
            SourceWord::MaterializedView => Ok(SourceBody::View(read_view(cursor)?)),
            SourceWord::Print => {
                let (first, others) = read_boxed_items(self.alloc, cursor, self.turns)?;
                Ok(SourceBody::Print(first, others))
            }
            SourceWord::Range => read_range(self.alloc, cursor, self.turns),
            SourceWord::Datatable => read_datatable(self.alloc, cursor, self.turns),
            SourceWord::Union => Ok(SourceBody::Union(self.union(cursor)?)),
        }
    }

    #[tactic(auto, unfolding(crate::specs::Reading::source))]
    fn source(&self, cursor: &mut Cursor<'_>) -> Result<Source, Stop>
        requires { Nests self.now.budget (F.pre self.now.tabular) (F.post self.now.tabular) }
        ensures { IsOutcome source_of (spec.source (spec.tabular self.now.budget) self.now.turns cursor.old) result cursor.new }
    {
        if cursor.sees(Class::Sign(Punctuation::OpenParenthesis)) {
            let (paren, inner) = self.nesting(cursor)?;
            return Ok(Source::Nested(paren, inner));
        }
        if sees_source_word(cursor) {
            let (symbol, word) = expect_source_word(cursor)?;
            let body = self.from(word, cursor)?;
            return Ok(Source::Worded(symbol, body));
        }
        Ok(Source::Table(read_table_name(cursor)?))
    }

    #[tactic(auto, unfolding(crate::specs::Reading::join))]
    fn join(&self, cursor: &mut Cursor<'_>) -> Result<Join, Stop>
        requires { Nests self.now.budget (F.pre self.now.tabular) (F.post self.now.tabular) }
        ensures { IsOutcome join_of (spec.join (spec.tabular self.now.budget) self.now.turns cursor.old) result cursor.new }
    {
        let kind = maybe_kind(cursor)?;
        let (_paren, right) = self.nesting(cursor)?;
        let (first, others) = keys_on(self.alloc, cursor, self.turns)?;
        Ok(Join {
            kind,
            right,
            first,
            others,
        })
    }

    // What stands behind the word of an operator that has rows inside or a list of parts.
    #[tactic(auto, unfolding(crate::specs::Reading::expansion))]
    fn body(&self, key: OperatorKey, cursor: &mut Cursor<'_>) -> Result<OperatorBody, Stop>
        requires { Nests self.now.budget (F.pre self.now.tabular) (F.post self.now.tabular) }
        ensures { IsOutcome body_of (spec.body (spec.tabular self.now.budget) self.now.turns key cursor.old) result cursor.new }
    {
        match key {
            OperatorKey::Where => {
                let condition = read_boxed_expression(self.alloc, cursor, self.turns)?;
                Ok(OperatorBody::Where(condition))
            }
            OperatorKey::Extend => {
                let (first, others) = read_boxed_items(self.alloc, cursor, self.turns)?;
                Ok(OperatorBody::Extend(first, others))
            }
            OperatorKey::Project => {
                let (first, others) = read_boxed_items(self.alloc, cursor, self.turns)?;
                Ok(OperatorBody::Project(first, others))
            }
            OperatorKey::ProjectAway => {
                let (first, others) = read_names(self.alloc, cursor, self.turns)?;
                Ok(OperatorBody::ProjectAway(first, others))
            }
            OperatorKey::ProjectRename => {
                let (first, others) = read_renamings(self.alloc, cursor, self.turns)?;
                Ok(OperatorBody::ProjectRename(first, others))
            }
            OperatorKey::Take => Ok(OperatorBody::Take(cursor.expect(Class::WholeNumber)?)),
            OperatorKey::Count => Ok(counting()),
            OperatorKey::Sort => {
                cursor.expect(Class::Reserved(ReservedWord::By))?;
                let (first, others) = read_boxed_keys(self.alloc, cursor, self.turns)?;
                Ok(OperatorBody::Sort(first, others))
            }
            OperatorKey::Top => read_top(self.alloc, cursor, self.turns),
            OperatorKey::Distinct => read_distinct(self.alloc, cursor, self.turns),
            OperatorKey::Summarize => read_summarize(self.alloc, cursor, self.turns),
            OperatorKey::Join => Ok(OperatorBody::Join(self.join(cursor)?)),
            OperatorKey::Union => Ok(OperatorBody::Unite(self.union(cursor)?)),
            OperatorKey::MvExpand => {
                let (item, word) = read_expanded(self.alloc, cursor, self.turns)?;
                Ok(OperatorBody::MvExpand(item, word))
            }
        }
    }

    fn operators(&self, cursor: &mut Cursor<'_>) -> Result<Vec<Operator>, Stop>
        requires { Nests self.now.budget (F.pre self.now.tabular) (F.post self.now.tabular) }
        ensures { IsOutcome (λ v. map operator_of v.items) (spec.operators (spec.tabular self.now.budget) self.now.turns cursor.old) result cursor.new }
    {
        let operator = AnOperator(self);
        let next = Behind {
            class: Class::Sign(Punctuation::Pipe),
            part: &operator,
        };
        more(
            self.turns,
            Class::Sign(Punctuation::Pipe),
            &next,
            cursor,
            Vec::new(self.alloc),
        )
    }

    #[tactic(auto, unfolding(crate::specs::Reading::pipeline))]
    fn pipeline(&self, cursor: &mut Cursor<'_>) -> Result<Box<Tabular>, Stop>
        requires { Nests self.now.budget (F.pre self.now.tabular) (F.post self.now.tabular) }
        ensures { IsOutcome (λ b. tabular_of b.value) (spec.pipeline (spec.tabular self.now.budget) self.now.turns cursor.old) result cursor.new }
    {
        let source = Box::new(self.alloc, self.source(cursor)?)?;
        let operators = self.operators(cursor)?;
        Ok(Box::new(self.alloc, Tabular { source, operators })?)
    }
}

// `on` and what a join matches on.
fn keys_on(
    alloc: Global,
    cursor: &mut Cursor<'_>,
    budget: usize,
) -> Result<(JoinKey, Vec<JoinKey>), Stop>
    ensures { IsOutcome (λ p. (p.0, p.1.items)) (spec.keys_on budget cursor.old) result cursor.new }
{
    cursor.expect(Class::Clause(ClauseWord::On))?;
    read_join_keys(alloc, cursor, budget)
}

// The kind of a join, where it is said.
#[tactic(auto, unfolding(crate::specs::Reading::maybe_kind))]
fn maybe_kind(cursor: &mut Cursor<'_>) -> Result<Option<Name>, Stop>
    ensures { IsOutcome (λ o. o) (spec.maybe_kind cursor.old) result cursor.new }
{
    if !cursor.sees(Class::Clause(ClauseWord::Kind)) {
        return Ok(None);
    }
    let kind = read_kind(cursor)?;
    Ok(Some(kind))
}

#[derive(Drop)]
pub struct AnArm<'a, F>(&'a Reader<F>);

impl<'a, F: Fn(Global, &mut Cursor<'_>, usize) -> Result<Box<Tabular>, Stop>> Part
    for AnArm<'a, F> {
    type Value = Arm;

    ghost Shape = { tree.ArmTree };

    ghost view = { arm_of };

    ghost reader = { λ a. spec.arm (spec.tabular a.0.now.budget) a.0.now.turns };

    ghost callable = { λ a. Nests a.0.now.budget (F.pre a.0.now.tabular) (F.post a.0.now.tabular) };

    fn read(&self, cursor: &mut Cursor<'_>) -> Result<Arm, Stop> {
        self.0.arm(cursor)
    }
}

#[derive(Drop)]
pub struct AnOperator<'a, F>(&'a Reader<F>);

impl<'a, F: Fn(Global, &mut Cursor<'_>, usize) -> Result<Box<Tabular>, Stop>> Part
    for AnOperator<'a, F> {
    type Value = Operator;

    ghost Shape = { Shown × tree.BodyTree };

    ghost view = { operator_of };

    ghost reader = { λ o. spec.operator (spec.tabular o.0.now.budget) o.0.now.turns };

    ghost callable = { λ o. Nests o.0.now.budget (F.pre o.0.now.tabular) (F.post o.0.now.tabular) };

    #[tactic(auto, unfolding(crate::specs::Reading::operator))]
    fn read(&self, cursor: &mut Cursor<'_>) -> Result<Operator, Stop> {
        let (word, key) = expect_operator_word(cursor)?;
        let body = self.0.body(key, cursor)?;
        Ok(Operator { word, body })
    }
}

/// The source that comes next with the operators behind it. The budget is at least the number of symbols that are left.
pub fn read_tabular(
    alloc: Global,
    cursor: &mut Cursor<'_>,
    budget: usize,
) -> Result<Box<Tabular>, Stop>
    ensures { IsOutcome (λ b. tabular_of b.value) (spec.tabular budget cursor.old) result cursor.new }
{
    if budget == 0 {
        return Err(Stop::Syntax);
    }
    Reader {
        alloc,
        turns: budget,
        budget: budget - 1,
        tabular: read_tabular,
    }
    .pipeline(cursor)
}
