// The line of one row of a chain.
ghost use Rattle.contract_report.specs.Report.{row_words};
ghost use Rattle.std.specs.Prelude.{Some};

use contracts::ContractRow;
use std::fmt;

// A row of the chain that begins at row `head`, and the row's place in the table.
#[derive(Clone, Copy, Debug)]
pub(super) struct RowLine {
    pub(super) head: usize,
    pub(super) place: usize,
    pub(super) row: ContractRow,
}

impl fmt::Display for RowLine {
    ghost output = { λ x. Some (row_words x.head x.place x.row) };

    fn fmt<W: fmt::Write>(&self, f: &mut fmt::Formatter<W>) -> fmt::Result {
        let row = self.row;
        write!(
            f,
            "chain {}: row {} party {}",
            self.head, self.place, row.party
        )?;
        write!(f, " capacity {}", row.capacity)?;
        write!(f, " receipt {} delivery {}", row.receipt, row.delivery)
    }
}
