// The numbers that pairs of labels have, and those of pairings in the widest shape.
ghost use Rattle.std.specs.Prelude.{◌≡◌, ◌<◌, ◌≤◌, IfSome, OnSome};
ghost use Rattle.draft.specs.Labels.{label_of, pairs_among, between, pair_of, widest, OnePair};

use crate::pairing::{Pairing, Side};
use crate::shape::{MAX_CHOICES, MAX_COURSES};

// The number of pairs among `n` labels.
pub(crate) fn pairs_among(n: usize) -> usize
    requires most { n ≤ 192 }
    ensures value { result ≡ pairs_among n }
    ensures bound { result ≤ 18336 }
{
    n * n.saturating_sub(1) / 2
}

// The pair number of the labels `u` and `v`.
pub(crate) fn between(u: usize, v: usize) -> usize
    requires first { u < 192 }
    requires second { v < 192 }
    ensures value { result ≡ between u v }
{
    if u < v {
        pairs_among(v) + u
    } else {
        pairs_among(u) + v
    }
}

// The label of a choice in the widest shape, where it has such a choice. It is worked out and not looked
// up, since each question to a what-if asks for two.
fn widest_label(side: Side) -> Option<usize>
    ensures value { result ≡ label_of widest side }
    ensures bound { IfSome result (λ u. u < 192) }
{
    let choices = usize::from(MAX_CHOICES);
    if side.course < MAX_COURSES && side.choice < choices {
        Some(side.course * choices + side.choice)
    } else {
        None
    }
}

// The pair number of a pairing in the widest shape, 24 courses of 8 choices, where it joins choices of
// two of its courses. It tells the pairings of any shape apart, and no shape need be known for it.
pub fn widest_pair(pairing: Pairing) -> Option<usize>
    ensures value { result ≡ pair_of widest pairing }
    ensures below { IfSome result (λ p. p < 18336) }
    ensures only { OnSome result (OnePair widest pairing) }
{
    if pairing.one.course == pairing.other.course {
        return None;
    }
    Some(between(widest_label(pairing.one)?, widest_label(pairing.other)?))
}
