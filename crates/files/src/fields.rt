// Fields at the front of bytes: each is ended by a byte, and what follows is handed on.
ghost use Rattle.std.specs.Prelude.{ℕ, ◌<◌, List, MatchOption};
ghost use Rattle.files.specs.Fields.{IsText, NoText, Lacks, FirstAt, Ended, ended, Front, NoFront};

// The byte between two fields.
pub(super) const COMMA: u8 = b',';
// The byte after a line.
pub(super) const NEWLINE: u8 = b'\n';

// Where the first such byte stands.
fn place_of(bytes: &[u8], end: u8) -> Option<usize>
    ensures { MatchOption result (Lacks end bytes.now) (FirstAt end bytes.now) }
{
    bytes.iter().position(|b| *b == end)
}

// What stands before the first such byte, and what stands after it.
fn split_at_byte(bytes: &[u8], end: u8) -> Option<(&[u8], &[u8])>
    ensures { MatchOption result (Lacks end bytes.now) (λ p. Ended end bytes.now p.0.now p.1.now) }
{
    let i = place_of(bytes, end)?;
    Some((&bytes[..i], &bytes[i + 1..]))
}

// A kind of value that fields hold. The bytes of its text are never below the minus, so a comma or a newline ends it.
pub(super) trait FieldText: Sized {
    // What is written for a value.
    ghost text: { Self → List ℕ };
    // The values that a file may hold.
    ghost fine: { Self → Type 0 };

    // The value that a field writes.
    fn read(field: &[u8]) -> Option<Self>
        ensures { MatchOption result (NoText text fine field.now) (IsText text fine field.now) };

    ghost clean: { (end : ℕ) (x : Self) → end < 45 → fine x → Lacks end (text x) };
}

// The value that stands before the byte `end`, and what stands after that.
pub(super) fn value_before<F: FieldText>(bytes: &[u8], end: u8) -> Option<(F, &[u8])>
    requires { end < 45 }
    ensures { MatchOption result (NoFront (ended end F.text) F.fine bytes.now) (λ p. Front (ended end F.text) F.fine bytes.now p.0 p.1.now) }
{
    let (field, rest) = split_at_byte(bytes, end)?;
    let x = F::read(field)?;
    Some((x, rest))
}
