// The names of a catalogue.
ghost use Rattle.std.specs.Prelude.{◌≡◌, ℕ, List, Option};
ghost use Rattle.std.specs.Option.{option_map};
ghost use Rattle.kq_plan.specs.Names.{Known, known_of};

use kq_plan_expressions::{Schema, Text};

/// What a name of a catalogue stands for.
#[derive(Clone, Copy, PartialEq, Eq)]
pub enum NameKind {
    Table,
    View,
}

/// The names that a query is bound over: tables and views have different names.
pub trait Names {
    ghost known: { Self → List ℕ → Option Known };

    /// What a name stands for, and its columns.
    fn find(&self, name: &Text) -> Option<(NameKind, &Schema)>
        ensures { option_map known_of result ≡ known self.now name.now };
}
