// The stretch that may still go on, carried from page to page. Seconds are counted from the beginning of the
// column's first day.
ghost use Rattle.std.specs.Prelude.{◌≡◌};
ghost use Rattle.scan_stretches.specs.Going.{fresh, reaching, touching, stretching, losing};

// From its first second to before the one behind it.
#[derive(Clone, Copy)]
pub struct Stretch {
    pub first: usize,
    pub behind: usize,
    // may it have begun before, on a page that was not answered
    pub may_begin_earlier: bool,
}

#[derive(Clone, Copy)]
pub struct Going {
    // gaps of up to so many seconds are closed
    pub gap: usize,
    // the stretch that may go on, if there is one
    pub current: Option<Stretch>,
    // the first second behind the last page that was not answered, if there is one
    found: Option<usize>,
    // how many stretches have begun
    pub count: usize,
}

impl Going {
    pub fn new(gap: usize) -> Going
        ensures { result ≡ fresh gap }
    {
        Going {
            gap,
            current: None,
            found: None,
            count: 0,
        }
    }

    // Would a stretch that begins with a second be one with that which may go on.
    pub fn reaches(self, second: usize) -> bool
        ensures { result ≡ reaching second self }
    {
        match self.current {
            Some(stretch) => second.saturating_sub(stretch.behind) <= self.gap,
            None => false,
        }
    }

    // May a stretch that begins with a second have begun on a page that was not answered.
    fn touches_lost(self, second: usize) -> bool
        ensures { result ≡ touching second self }
    {
        match self.found {
            Some(found) => second.saturating_sub(found) <= self.gap,
            None => false,
        }
    }

    // The next stretch of selected seconds.
    pub fn stretch(self, first: usize, behind: usize) -> Going
        ensures { result ≡ stretching first behind self }
    {
        if let Some(stretch) = self.current
            && self.reaches(first)
        {
            return Going {
                current: Some(Stretch { behind, ..stretch }),
                ..self
            };
        }
        let begun = Stretch {
            first,
            behind,
            may_begin_earlier: self.touches_lost(first),
        };
        Going {
            current: Some(begun),
            count: self.count.saturating_add(1),
            ..self
        }
    }

    // Seconds before `end` that were not answered: nothing goes on over them.
    pub fn loses(mut self, end: usize) -> Going
        ensures { result ≡ losing end self }
    {
        self.current = None;
        self.found = Some(end);
        self
    }
}
