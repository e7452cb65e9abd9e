// The first token of an expression.
ghost use Rattle.std.specs.Prelude.{◌≡◌};
ghost use Rattle.kq_bind_columns.specs.Defaults.{first_token as token_of};
ghost use Rattle.kq_read_grammar.specs.Views.{tree_of};

use kq_bind_expressions::name_place;
use kq_read_grammar::Expression;

/// Where an expression begins: the place of a fault that is the expression's as a whole.
pub fn first_token(tree: &Expression) -> usize
    ensures { result ≡ token_of (tree_of tree.now) }
{
    match tree {
        Expression::Name(name) => name_place(*name),
        Expression::Literal(symbol)
        | Expression::Group(symbol, _)
        | Expression::Call(symbol, _)
        | Expression::Signed(symbol, _) => symbol.from,
        Expression::Path(first, _, _) => first_token(first),
        Expression::Compare(first, _) => first_token(first),
        Expression::Within(first, _, _) => first_token(first),
        Expression::Between(first, _) => first_token(first),
        Expression::Chain(_, first, _, _) => first_token(first),
    }
}
