// Commands.
ghost use Rattle.std.specs.Prelude.{◌≡◌};

use crate::columns::{Columns, Identifier};
use crate::definition::{NewExport, NewView};
use crate::ingestion::Ingestion;
use kq_read_grammar::Query as WrittenQuery;
use kq_read_queries::ParseFault;
use kq_value::Text;
use std::alloc::{AllocError, AllocFailed};

/// What a text asks for: of the engine, or of the exporter that a session has.
#[derive(Drop)]
pub enum Asked {
    Engine(Command),
    Exporter(Export),
}

/// What an exporter is asked for.
#[derive(Drop)]
pub enum Export {
    /// `#export NAME over NAME { QUERY }`
    Define(NewExport),
    /// `#export NAME`
    Run(Identifier),
}

/// What the engine is asked for.
#[derive(Drop)]
pub enum Command {
    /// A query of any form.
    Query(Query),
    /// What is told of the catalogue.
    Show(Show),
    /// What changes the catalogue by a commit.
    Change(Change),
    /// `#merge NAME`
    Merge(Identifier),
    /// `#fold NAME`
    Fold(Identifier),
}

/// A query: its text, and its tree, whose symbols are places in the text.
#[derive(Drop)]
pub struct Query {
    pub text: Text,
    pub tree: WrittenQuery,
}

/// What is told of the catalogue.
#[derive(Drop)]
pub enum Show {
    /// `.show materialized-view NAME`
    View(Identifier),
    /// `.show ingestion failures`
    Failures,
    /// `.show table NAME extents`
    Extents(Identifier),
    /// `.show journal`
    Journal,
}

/// What changes the catalogue by a commit.
#[derive(Drop)]
pub enum Change {
    /// `.create table NAME (COLUMN:TYPE, ..)`
    CreateTable { name: Identifier, columns: Columns },
    /// `.alter-merge table NAME (COLUMN:TYPE, ..)`
    AlterMerge { name: Identifier, columns: Columns },
    /// `.ingest inline into table NAME with (..) <|` and rows.
    Ingest(Ingestion),
    /// `.create materialized-view NAME on table NAME { QUERY }`
    CreateView(NewView),
    /// `.alter table NAME policy update 'JSON'`: the policy is what the string says, whether that is JSON or not.
    SetPolicy { target: Identifier, policy: Text },
}

/// Why a text is no command.
#[derive(Clone, Copy, Debug, PartialEq, Eq)]
pub enum CommandFault {
    /// The byte at this offset is the first that isn't UTF-8.
    NotText { at: usize },
    /// The text is no command: the token at this offset is the first with which the tokens begin none. Where all of them begin
    /// one it is the text's length, and where a text isn't all tokens the first byte where none starts.
    Syntax { at: usize },
    /// The bracket at this offset is the first with which more than 120 are open.
    Deep { at: usize },
    /// The text is a command, and the symbol at this offset is its first that isn't supported: a word that is no type's, a
    /// property's word, or a property's value.
    Unsupported { at: usize },
    /// Want of memory.
    Memory,
}

impl From<AllocError> for CommandFault {
    ghost use Rattle.kq_read_commands.specs.declared.command.CommandFault.TheVariants.{Memory};

    ghost from_gives = { λ e f. f ≡ Memory };

    fn from(_error: AllocError) -> CommandFault {
        CommandFault::Memory
    }
}

impl<T: Drop> From<AllocFailed<T>> for CommandFault {
    ghost use Rattle.kq_read_commands.specs.declared.command.CommandFault.TheVariants.{Memory};

    ghost from_gives = { λ e f. f ≡ Memory };

    fn from(_error: AllocFailed<T>) -> CommandFault {
        CommandFault::Memory
    }
}

impl From<ParseFault> for CommandFault {
    ghost use Rattle.std.specs.Prelude.{◌≡◌};
    ghost use Rattle.kq_read_commands.specs.Faults.{fault_of};

    ghost from_gives = { λ e f. f ≡ fault_of e };

    fn from(fault: ParseFault) -> CommandFault {
        match fault {
            ParseFault::Syntax { at } => CommandFault::Syntax { at },
            ParseFault::Deep { at } => CommandFault::Deep { at },
            ParseFault::Memory => CommandFault::Memory,
        }
    }
}
