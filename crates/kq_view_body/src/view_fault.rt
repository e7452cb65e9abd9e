// Why a query is bound to no body of a view.

use crate::fault::BodyFault;
use kq_bind_expressions::BindFault;

/// Why a query is bound to no body of a view. A place is an offset in the query's text.
#[derive(Clone, Copy, PartialEq, Eq)]
pub enum ViewFault {
    /// A literal that the language has and this engine doesn't take.
    Unsupported { at: usize },
    /// A name that stands for nothing.
    Unknown { at: usize },
    /// A type that doesn't fit: the place is that of the operator, or of the called name.
    Mistyped { at: usize },
    /// The query binds, and leaves the form of a body here.
    BadView { at: usize },
    Memory,
}

impl From<BindFault> for ViewFault {
    ghost use Rattle.std.specs.Prelude.{◌≡◌};
    ghost use Rattle.kq_view_body.specs.ViewFaults.{of_binder};

    ghost from_gives = { λ f e. e ≡ of_binder f };

    fn from(fault: BindFault) -> ViewFault {
        match fault {
            BindFault::Unsupported { at } => ViewFault::Unsupported { at },
            BindFault::Unknown { at } => ViewFault::Unknown { at },
            BindFault::Mistyped { at } => ViewFault::Mistyped { at },
            BindFault::Memory => ViewFault::Memory,
        }
    }
}

impl From<BodyFault> for ViewFault {
    ghost use Rattle.std.specs.Prelude.{◌≡◌};
    ghost use Rattle.kq_view_body.specs.ViewFaults.{of_form};

    ghost from_gives = { λ f e. e ≡ of_form f };

    fn from(fault: BodyFault) -> ViewFault {
        match fault {
            BodyFault::BadView { at } => ViewFault::BadView { at },
        }
    }
}
