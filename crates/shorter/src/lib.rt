// Gives the screen the shorter of two lent paths.
#![tactic(auto)]

ghost use Rattle.std.specs.Prelude.{◌≡◌, take};
ghost use Rattle.meaning.specs.Shorter.{shorter_of};

// Returns the path at the start of a list: its first `n` sections. A length above the list means the whole list.
// C has a list and a length, here and below.
pub fn path(list: &[u16], n: usize) -> &[u16]
    ensures { result.now ≡ take n list.now }
{
    &list[..n.min(list.len())]
}

// Returns the first `n` numbers of `first` or the first `m` of `second`, whichever is shorter; those of `first` where both have as many.
#[tactic(auto, unfolding(meaning::specs::Shorter::shorter_of))]
pub fn shorter<'a>(first: &'a [u16], n: usize, second: &'a [u16], m: usize) -> &'a [u16]
    ensures { result.now ≡ shorter_of (take n first.now) (take m second.now) }
{
    let a = path(first, n);
    let b = path(second, m);
    if b.len() < a.len() { b } else { a }
}
