// Why a text is no query of an entry.

use kq_bind_expressions::BindFault;
use kq_read_queries::ParseFault;

/// Why a text is no query of an entry of an update policy: the first of these that is so.
#[derive(Clone, Copy, PartialEq, Eq)]
pub enum PolicyFault {
    /// The text is no query, or it doesn't bind.
    Query,
    /// It names a view or the part of one, doesn't name the source, or calls `now` or `ago`.
    Body,
    /// The names and types of its columns aren't those of the target, in order.
    Schema,
    Memory,
}

impl From<ParseFault> for PolicyFault {
    ghost use Rattle.std.specs.Prelude.{◌≡◌};
    ghost use Rattle.kq_policy_entries.specs.Faults.{of_reader};

    ghost from_gives = { λ f e. e ≡ of_reader f };

    fn from(fault: ParseFault) -> PolicyFault {
        match fault {
            ParseFault::Syntax { .. } => PolicyFault::Query,
            ParseFault::Deep { .. } => PolicyFault::Query,
            ParseFault::Memory => PolicyFault::Memory,
        }
    }
}

impl From<BindFault> for PolicyFault {
    ghost use Rattle.std.specs.Prelude.{◌≡◌};
    ghost use Rattle.kq_policy_entries.specs.Faults.{of_binder};

    ghost from_gives = { λ f e. e ≡ of_binder f };

    fn from(fault: BindFault) -> PolicyFault {
        match fault {
            BindFault::Unsupported { .. } => PolicyFault::Query,
            BindFault::Unknown { .. } => PolicyFault::Query,
            BindFault::Mistyped { .. } => PolicyFault::Query,
            BindFault::Memory => PolicyFault::Memory,
        }
    }
}
