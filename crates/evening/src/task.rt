// An amount of cents, and the weights that it is shared over.
ghost use Rattle.std.specs.Prelude.{◌≡◌, sum};
ghost use Rattle.sharing.specs.Sharing.{Within};

// It lies inside the bounds of the sharing rules, so that every rule shares it.
#[derive(Debug, Drop)]
pub(super) struct Task {
    pub(super) amount: i64,
    pub(super) weights: Vec<u32>,
    pub(super) total: u64,
    ghost within: { Within amount weights.items },
    ghost all: { total ≡ sum weights.items },
}
