//! What a call turns down, with its number, its place and its layer.
ghost use Rattle.std.specs.Prelude.{◌≡◌, Some};
ghost use Rattle.service.specs.Faults.{fault_number, fault_place, fault_layer, layer_of, layer_name};
ghost use Rattle.service.specs.declared.fault.Fault.TheVariants as fault;

use book::BookFault;
use keys::RegisterFault;
use reader::ReaderFault;
use std::fmt;

/// Why a call is refused. The fault of a lower layer lies in it whole.
#[derive(Clone, Copy, PartialEq, Debug)]
pub enum Fault {
    /// The rule or goal is not read.
    Reader(ReaderFault),
    /// No number is left for a key.
    Register(RegisterFault),
    /// The book has no room, or no supposition to withdraw.
    Book(BookFault),
    /// The budget is not from 1 to 1,000,000.
    Budget,
    /// The tree or its buffer has over 16,384 bytes.
    TreeBytes,
    /// The chart has no such release.
    Release,
}

/// Who refuses.
#[derive(Clone, Copy, PartialEq, Debug)]
pub enum Layer {
    Reader,
    Register,
    Book,
    Service,
    Chart,
    Console,
}

impl fmt::Display for Layer {
    ghost output = { λ l. Some (layer_name l) };

    fn fmt<W: fmt::Write>(&self, f: &mut fmt::Formatter<W>) -> fmt::Result {
        f.write_str(match self {
            Layer::Reader => "reader",
            Layer::Register => "register",
            Layer::Book => "book",
            Layer::Service => "service",
            Layer::Chart => "chart",
            Layer::Console => "console",
        })
    }
}

// No trait of refusals, with number and place: nothing takes a refusal of any type.
impl Fault {
    /// The number of the refusal.
    pub fn number(self) -> u8
        ensures { result ≡ fault_number self }
    {
        match self {
            Fault::Reader(fault) => fault.number(),
            Fault::Register(fault) => fault.number(),
            Fault::Book(fault) => fault.number(),
            Fault::Budget => 32,
            Fault::TreeBytes => 33,
            Fault::Release => 34,
        }
    }

    /// The place of what is refused: where the reader or the register refuses, a place in the rule.
    pub fn place(self) -> usize
        ensures { result ≡ fault_place self }
    {
        match self {
            Fault::Reader(fault) => fault.place,
            Fault::Register(fault) => fault.place,
            Fault::Book(_) | Fault::Budget | Fault::TreeBytes | Fault::Release => 0,
        }
    }

    /// The layer that refuses.
    pub fn layer(self) -> Layer
        ensures of_case { result ≡ fault_layer self }
        ensures of_number { result ≡ layer_of (fault_number self) }
    {
        match self {
            Fault::Reader(_) => Layer::Reader,
            Fault::Register(_) => Layer::Register,
            Fault::Book(_) => Layer::Book,
            Fault::Budget | Fault::TreeBytes | Fault::Release => Layer::Service,
        }
    }
}

impl From<ReaderFault> for Fault {
    ghost from_gives = { λ e r. r ≡ fault.Reader e };

    fn from(e: ReaderFault) -> Fault {
        Fault::Reader(e)
    }
}

impl From<RegisterFault> for Fault {
    ghost from_gives = { λ e r. r ≡ fault.Register e };

    fn from(e: RegisterFault) -> Fault {
        Fault::Register(e)
    }
}

impl From<BookFault> for Fault {
    ghost from_gives = { λ e r. r ≡ fault.Book e };

    fn from(e: BookFault) -> Fault {
        Fault::Book(e)
    }
}
