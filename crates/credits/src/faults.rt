// Why a node has no price to settle at, and why a chain gets no credits.
ghost use Rattle.std.specs.Prelude.{◌≡◌};
ghost use Rattle.credits.specs.Faults.{credit_refusal, price_refusal};
ghost use Rattle.credits.specs.declared.faults.CreditFault.TheVariants.{Prices, Table};

use contracts::TableFault;
use refusals::{Layer, Refusal};

/// Why a node has no price, with the node's number: it has no record, or its record is out of bounds.
#[derive(Clone, Copy, PartialEq, Eq, Debug)]
pub enum PriceFault {
    NoRecord(usize),
    OutOfBounds(usize),
}

/// The number, layer and place under which a fault is reported.
impl From<PriceFault> for Refusal {
    ghost from_gives = { λ fault refusal. refusal ≡ price_refusal fault };

    fn from(fault: PriceFault) -> Refusal {
        let (number, place) = match fault {
            PriceFault::NoRecord(node) => (15, node),
            PriceFault::OutOfBounds(node) => (16, node),
        };
        Refusal {
            number,
            layer: Layer::Prices,
            place,
        }
    }
}

/// The quantities of a schedule.
#[derive(Clone, Copy, PartialEq, Eq, Debug)]
pub enum Scheduled {
    Demand,
    Supply,
    DayAhead,
}

/// Why a chain gets no credits: its head is no row of the table, a quantity of the schedule is over its limit, or a node on
/// the chain has no price.
#[derive(Clone, Copy, PartialEq, Eq, Debug)]
pub enum CreditFault {
    Table(TableFault),
    Quantity(Scheduled),
    Prices(PriceFault),
}

/// A fault of the table or of the prices keeps the refusal of its own.
impl From<CreditFault> for Refusal {
    ghost from_gives = { λ fault refusal. refusal ≡ credit_refusal fault };

    fn from(fault: CreditFault) -> Refusal {
        match fault {
            CreditFault::Table(fault) => fault.into(),
            CreditFault::Quantity(quantity) => Refusal {
                number: 14,
                layer: Layer::Book,
                place: match quantity {
                    Scheduled::Demand => 0,
                    Scheduled::Supply => 1,
                    Scheduled::DayAhead => 2,
                },
            },
            CreditFault::Prices(fault) => fault.into(),
        }
    }
}

// The two conversions that `?` makes are written out: the ones that `thiserror` derives have no `from_gives`, which the
// clauses of the functions that answer a `CreditFault` rest on, and a `map_err` would name the variant at each `?`.
impl From<TableFault> for CreditFault {
    ghost from_gives = { λ fault credit_fault. credit_fault ≡ Table fault };

    fn from(fault: TableFault) -> CreditFault {
        CreditFault::Table(fault)
    }
}

impl From<PriceFault> for CreditFault {
    ghost from_gives = { λ fault credit_fault. credit_fault ≡ Prices fault };

    fn from(fault: PriceFault) -> CreditFault {
        CreditFault::Prices(fault)
    }
}
