// A whole listing from what stands in slices.
ghost use Rattle.std.specs.Prelude.{length};
ghost use Rattle.answers.specs.Lent.{held, left};
ghost use Rattle.text.specs.Printing.{Prints};
ghost use Rattle.listing.specs.InnerSections.{Ascend};
ghost use Rattle.listing.specs.InnerListing.{sections};

use super::sections::{put_answers, put_edges, put_headed, put_longer, put_lowered};

// All sections, one after another, from the front of a slice: how many lifetimes, used lifetimes, parameters and edges
// there are (`counts`); lowered words; longer lists by their ends; answers; edges. Nine parameters and no struct: see
// `list_method`.
pub(crate) fn put_listing(
    out: &mut [u8],
    counts: &[usize; 4],
    own: &[usize],
    given: &[usize],
    taken: &[usize],
    lists: &[usize],
    ends: &[usize],
    answers: &[usize],
    edges: &[usize],
) -> usize
    requires { Ascend 0 (length lists.now) ends.now }
    ensures { Prints
        (sections counts.now own.now given.now taken.now lists.now ends.now answers.now edges.now)
        0 (held out) result (left out) }
{
    let lowered = put_headed(out, 0, b"lifetimes used params edges\n", counts);
    let longer = put_lowered(out, lowered, own, given, taken);
    let answered = put_longer(out, longer, lists, ends);
    let edged = put_answers(out, answered, answers);
    put_edges(out, edged, edges)
}
