// What is left of the questions, whose numbers and records are taken off the front. A number that is missing is 0.
ghost use Rattle.input.specs.Left.{TakesFront};

#[derive(Clone, Copy)]
pub(crate) struct Questions<'a> {
    pub(crate) left: &'a [usize],
}

impl<'a> Questions<'a> {
    // A number.
    pub(crate) fn number(&mut self) -> usize
        ensures left { TakesFront self.old.left.now self.new.left.now }
    {
        self.left.split_off_first().copied().unwrap_or(0)
    }

    // A record, its length and its words; those that there are where words are missing.
    pub(crate) fn record(&mut self) -> &'a [usize]
        ensures left { TakesFront self.old.left.now self.new.left.now }
    {
        let count = self.number();
        let (taken, left) = self.left.split_at(count.min(self.left.len()));
        self.left = left;
        taken
    }
}
