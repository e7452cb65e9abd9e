// Why a query is bound to no body of an export.

use kq_bind_expressions::BindFault;

/// Why a query is bound to no body of an export. A place is an offset in the query's text.
#[derive(Clone, Copy, Debug, PartialEq, Eq)]
pub enum ExportFault {
    /// A literal that the language has and this engine doesn't take.
    Unsupported { at: usize },
    /// A name that stands for nothing.
    Unknown { at: usize },
    /// A type that doesn't fit: the place is that of the operator, or of the called name.
    Mistyped { at: usize },
    /// The query binds, and here it reads something else than the table, or asks for the moment of a command.
    BadExport { at: usize },
    Memory,
}

impl From<BindFault> for ExportFault {
    ghost use Rattle.std.specs.Prelude.{◌≡◌};
    ghost use Rattle.kq_export_binder.specs.Faults.{of_binder};

    ghost from_gives = { λ f e. e ≡ of_binder f };

    fn from(fault: BindFault) -> ExportFault {
        match fault {
            BindFault::Unsupported { at } => ExportFault::Unsupported { at },
            BindFault::Unknown { at } => ExportFault::Unknown { at },
            BindFault::Mistyped { at } => ExportFault::Mistyped { at },
            BindFault::Memory => ExportFault::Memory,
        }
    }
}
