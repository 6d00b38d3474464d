// The numbers that words write. Both functions are a call of the one generic `parse`; their clauses say what it reads at
// each type, in the words of the program.
ghost use Rattle.std.specs.Option.{SomeIff};
ghost use Rattle.evening.specs.Words.{IsAmount, amount_of, IsWeight, weight_of};

// The amount of cents that a word writes, if it is a number.
pub(super) fn amount(word: &str) -> Option<i64>
    ensures { SomeIff result (IsAmount word.now) (amount_of word.now) }
{
    word.parse::<i64>().ok()
}

// The weight that a word writes, if it is a number.
pub(super) fn weight(word: &str) -> Option<u32>
    ensures { SomeIff result (IsWeight word.now) (weight_of word.now) }
{
    word.parse::<u32>().ok()
}
