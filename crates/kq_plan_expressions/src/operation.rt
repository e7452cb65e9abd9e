// What stands between the operands of a chain.
ghost use Rattle.std.specs.Prelude.{◌≡◌};
ghost use Rattle.kq_plan_expressions.specs.Operations.{function_of};

use kq_plan_functions::Function;

/// A function of two arguments that looks at both of them.
#[derive(Clone, Copy)]
pub enum Operation {
    Or,
    And,
    Add,
    Subtract,
    Multiply,
    Divide,
    Remainder,
    Member,
}

impl Operation {
    pub fn function(self) -> Function
        ensures { result ≡ function_of self }
    {
        match self {
            Operation::Or => Function::Or,
            Operation::And => Function::And,
            Operation::Add => Function::Add,
            Operation::Subtract => Function::Subtract,
            Operation::Multiply => Function::Multiply,
            Operation::Divide => Function::Divide,
            Operation::Remainder => Function::Remainder,
            Operation::Member => Function::Member,
        }
    }
}
