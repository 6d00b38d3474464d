ghost use Rattle.std.specs.Prelude.{◌≡◌, ℕ, ◌<◌, length, Some, None, MatchOption};
ghost use Rattle.contracts.specs.Chains.{Sound, row_at};
ghost use Rattle.contracts.specs.Walks.{left_of};
ghost use Rattle.std.specs.Iterator.{at_most};

use crate::rows::ContractRow;

/// A walk along a chain of a checked table: the rows in order, each with its place in the table. It needs no counter of
/// steps, since in such a table every chain ends.
// No `Model`: the clauses of `chain` and of `next` follow the rows and the place.
#[derive(Debug, Drop)]
pub struct ChainRows<'a> {
    pub(crate) rows: &'a [ContractRow],
    pub(crate) place: Option<usize>,
    // truncated as in the table
    ghost sound: { ∥ Sound rows.now ∥₁ },
    ghost inside: { (j : ℕ) → place ≡ Some j → j < length rows.now },
}

impl<'a> Iterator for ChainRows<'a> {
    type Item = (usize, ContractRow);

    ghost next_gives = { λ s r t. (t.rows.now ≡ s.rows.now) × MatchOption r ((s.place ≡ None) × (t.place ≡ None)) (λ x. (s.place ≡ Some x.0) × (x.1 ≡ row_at s.rows.now x.0) × (t.place ≡ x.1.next)) };

    ghost remaining = { λ s. at_most (left_of s.rows.now s.place) };

    #[tactic(auto, using(crate::proofs::Sounds::sound_of, crate::proofs::Sounds::sound_inside, crate::proofs::Sounds::sound_falls))]
    fn next(&mut self) -> Option<(usize, ContractRow)> {
        let place = self.place?;
        let row = self.rows[place];
        self.place = row.next;
        Some((place, row))
    }
}
