// The values of answers, each in the order in which C gets them.
ghost use Rattle.std.specs.Prelude.{ℕ, List, ◌≡◌};

use billing::Price;
use judging::Counts;
use standing::Reason;
use survey::{Figures, Row};
use whole_list::Extent;

// What an answer puts into a lent array.
pub trait Values<const N: usize> {
    ghost values: { Self → List ℕ };

    fn values(&self) -> [u64; N]
        ensures { result ≡ values self.now };
}

impl Values<3> for Counts {
    ghost use Rattle.judging.specs.Answers.{counts_in};
    ghost use Rattle.statuses.specs.Values.{counts};

    ghost values = { λ c. counts (counts_in c) };

    fn values(&self) -> [u64; 3] {
        [self.clouds as u64, self.blocks as u64, self.edges as u64]
    }
}

// A number of transfers, or of bytes.
impl Values<1> for usize {
    ghost use Rattle.statuses.specs.Values.{one};

    ghost values = { one };

    fn values(&self) -> [u64; 1] {
        [*self as u64]
    }
}

impl Values<4> for Price {
    ghost use Rattle.billing.specs.Answers.{price_of};
    ghost use Rattle.statuses.specs.Values.{price};

    ghost values = { λ p. price (price_of p) };

    fn values(&self) -> [u64; 4] {
        let bill = self.bill;
        [self.cost, bill.storage, bill.transfer, bill.cpu]
    }
}

impl Values<1> for Reason {
    ghost use Rattle.standing.specs.Answers.{reason_number};
    ghost use Rattle.statuses.specs.Values.{one};

    ghost values = { λ r. one (reason_number r) };

    fn values(&self) -> [u64; 1] {
        [u64::from(self.number())]
    }
}

impl Values<6> for Figures {
    ghost use Rattle.statuses.specs.Values.{figures};
    ghost use Rattle.survey.specs.Answers.{figures_of};

    ghost values = { λ c. figures (figures_of c) };

    fn values(&self) -> [u64; 6] {
        [
            self.candidates,
            self.breaking16,
            self.breaking17only,
            self.apartonly,
            self.secure,
            self.options,
        ]
    }
}

impl Values<5> for Option<Row> {
    ghost use Rattle.sequences.specs.Options.{given};
    ghost use Rattle.statuses.specs.Values.{row_or_none};

    ghost values = { λ found. row_or_none (given found) };

    fn values(&self) -> [u64; 5] {
        match self {
            Some(row) => {
                let bill = row.bill;
                [1, row.cost, bill.storage, bill.transfer, bill.cpu]
            }
            None => [0, 0, 0, 0, 0],
        }
    }
}

impl Values<2> for Extent {
    ghost use Rattle.statuses.specs.Values.{extent};

    ghost values = { λ e. extent (e.rows, e.blocks) };

    fn values(&self) -> [u64; 2] {
        [self.rows as u64, self.blocks as u64]
    }
}
