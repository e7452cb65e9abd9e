// The symbols that are left.
ghost use Rattle.std.specs.Prelude.{◌≡◌, length, true};
ghost use Rattle.kq_read_symbols.specs.Forms.{starts, expect};
ghost use Rattle.kq_read_symbols.specs.Classes.{class_of, of};
ghost use Rattle.kq_read_symbols.specs.Outcomes.{IsOutcome, kind_ahead};

use crate::class::Class;
use crate::kind::{Kind, Symbol};
use std::alloc::{AllocError, AllocFailed};
use std::marker::Model;

/// Why a form was not read.
#[derive(Debug, Drop)]
pub enum Stop {
    /// The form can't go on with the symbol at which the cursor stands.
    Syntax,
    Memory,
}

impl From<AllocError> for Stop {
    ghost use Rattle.std.specs.Prelude.{◌≡◌};
    ghost use Rattle.kq_read_symbols.specs.declared.cursor.Stop.TheVariants.{Memory};

    ghost from_gives = { λ _ e. e ≡ Memory };

    fn from(_: AllocError) -> Stop {
        Stop::Memory
    }
}

impl<T: Drop> From<AllocFailed<T>> for Stop {
    ghost use Rattle.std.specs.Prelude.{◌≡◌};
    ghost use Rattle.kq_read_symbols.specs.declared.cursor.Stop.TheVariants.{Memory};

    ghost from_gives = { λ _ e. e ≡ Memory };

    fn from(_: AllocFailed<T>) -> Stop {
        Stop::Memory
    }
}

/// Goes along a list of symbols. Contracts see the symbols that are left.
#[derive(Drop)]
pub struct Cursor<'a> {
    rest: &'a [Symbol],
}

impl<'a> Model for Cursor<'a> {
    ghost use Rattle.std.specs.Prelude.{List};
    ghost use Rattle.std.specs.Coded.{coded_list};
    ghost use Rattle.kq_read_symbols.specs.declared.kind.Symbol.{Symbol};

    ghost Value = { List Symbol };

    ghost view = { λ c. c.rest.now };
}

impl<'a> Cursor<'a> {
    pub fn new(symbols: &'a [Symbol]) -> Cursor<'a>
        ensures { result ≡ symbols.now }
    {
        Cursor { rest: symbols }
    }

    /// The symbols that are left.
    pub fn rest(&self) -> &'a [Symbol]
        ensures { result.now ≡ self.now }
    {
        self.rest
    }

    /// Another cursor at the same place.
    pub fn fork(&self) -> Cursor<'a>
        ensures { result ≡ self.now }
    {
        Cursor { rest: self.rest }
    }

    /// How many symbols are left.
    pub fn left(&self) -> usize
        ensures { result ≡ length self.now }
    {
        self.rest.len()
    }

    /// The kind of the symbol that comes next.
    pub fn ahead(&self) -> Option<Kind>
        ensures { result ≡ kind_ahead self.now }
    {
        match self.rest {
            [] => None,
            [symbol, ..] => Some(symbol.kind),
        }
    }

    /// Whether a symbol of the class comes next.
    pub fn sees(&self, class: Class) -> bool
        ensures { result ≡ starts (of (class_of class)) self.now }
    {
        match self.rest {
            [] => false,
            [symbol, ..] => class.contains(symbol.kind),
        }
    }

    /// Takes the next symbol, where it is of the class.
    pub fn expect(&mut self, class: Class) -> Result<Symbol, Stop>
        ensures { IsOutcome (λ t. t) (expect (of (class_of class)) self.old) result self.new }
    {
        match self.rest {
            [symbol, rest @ ..] if class.contains(symbol.kind) => {
                self.rest = rest;
                Ok(*symbol)
            }
            _ => Err(Stop::Syntax),
        }
    }

    /// Takes the next symbol, whatever it is.
    pub fn take(&mut self) -> Result<Symbol, Stop>
        ensures { IsOutcome (λ t. t) (expect (λ _. true) self.old) result self.new }
    {
        match self.rest {
            [symbol, rest @ ..] => {
                self.rest = rest;
                Ok(*symbol)
            }
            [] => Err(Stop::Syntax),
        }
    }
}
