// Bounds made by hand, asked about by themselves, and printed: what the AST's environments and those of methods share.
ghost use Rattle.input.specs.Left.{TakesFront};

use super::print;
use super::questions::Questions;
use lifetimes::{Bound, Bounds, Lifetime};

// Kind 31: how many lifetimes there are, how many bounds are pushed, taken as it is, and the record of pairs longer,
// shorter. `Bounds::check`: the refusal's number or 0.
pub(crate) fn check(rt: &impl Print, questions: &mut Questions<'_>)
    ensures left { TakesFront questions.old.left.now questions.new.left.now }
{
    let lifetimes = questions.number();
    let bounds = made_by_hand(questions);
    print::verdict(rt, bounds.check(lifetimes));
}

// Bounds of which so many count as pushed, whatever their number is; their places hold the pairs of a record, longer
// and shorter, and 0 0 behind them.
pub(crate) fn made_by_hand(questions: &mut Questions<'_>) -> Bounds
    ensures left { TakesFront questions.old.left.now questions.new.left.now }
{
    let pushed = questions.number();
    let pairs = questions.record();
    let none = Bound {
        longer: 0,
        shorter: 0,
    };
    let mut list = [none; Bounds::MAX];
    for (bound, pair) in list.iter_mut().zip(pairs.chunks_exact(2)) {
        *bound = Bound::new(Lifetime::new(pair[0]), Lifetime::new(pair[1]));
    }
    Bounds { pushed, list }
}

// All bounds up to the last that is not 0 0, with their number in front. `print_drawn` cuts the end in the same way:
// with a closure for what is empty, and its contract, the two would be no plainer.
pub(crate) fn print_filled(rt: &impl Print, bounds: &Bounds) {
    let empty = bounds
        .list
        .iter()
        .rev()
        .take_while(|bound| bound.longer == 0 && bound.shorter == 0)
        .count();
    let filled = &bounds.list[..Bounds::MAX - empty];
    print::next(rt, filled.len());
    print_all(rt, filled);
}

// Some bounds.
pub(crate) fn print_all(rt: &impl Print, bounds: &[Bound]) {
    for bound in bounds {
        print::next(rt, usize::from(bound.longer));
        print::next(rt, usize::from(bound.shorter));
    }
}
