//! A judge of walks, written apart: it goes along a stem and a loop, and knows no sets and no rounds.
use engine::operator::Operator;
use model::interface::Model;
use scale::reading::Reading;

/// Where a row reaches a level, by its degrees.
#[derive(Clone, Copy)]
pub(crate) struct Reach<'a> {
    pub(crate) degrees: &'a [u8],
    pub(crate) level: u8,
}

impl Reach<'_> {
    fn at(self, s: u16) -> bool {
        match self.degrees.get(usize::from(s)) {
            Some(degree) => *degree >= self.level,
            None => false,
        }
    }
}

/// A walk: its stem and its loop once, and its loop alone.
#[derive(Clone, Copy)]
pub(crate) struct Replay<'a> {
    whole: &'a [u16],
    round: &'a [u16],
}

impl<'a> Replay<'a> {
    /// The walk of these counts at the front of a buffer, if all of it is there and its loop has a state.
    pub(crate) fn of(out: &'a [u16], (stem, round): (u16, u16)) -> Option<Replay<'a>> {
        let start = usize::from(stem);
        let end = start + usize::from(round);
        let whole = out.get(..end)?;
        let round = out.get(start..end)?;
        if round.is_empty() {
            return None;
        }
        Some(Replay { whole, round })
    }

    /// Does it start at the state, and go along steps of the model, from the loop's end to its beginning as well?
    pub(crate) fn goes<M: Model>(self, model: &M, from: u16) -> bool {
        let after = self.whole.iter().skip(1).chain(self.round.first());
        self.whole.first() == Some(&from)
            && self
                .whole
                .iter()
                .zip(after)
                .all(|(s, t)| model.least_step(*s, *t) == Some(*t))
    }

    /// Does it meet a level of this reading?
    pub(crate) fn meets(
        self,
        operator: Operator,
        reading: Reading,
        left: Reach<'_>,
        right: Reach<'_>,
    ) -> bool {
        match operator {
            Operator::Next => match self.whole.get(1).or(self.round.first()) {
                Some(s) => left.at(*s),
                None => false,
            },
            Operator::Finally => self.whole.iter().any(|s| left.at(*s)),
            Operator::Until => self.until(left, right),
            Operator::Globally => {
                let degrees = &[];
                self.weak(reading, left, Reach { degrees, ..left })
            }
            Operator::Weak => self.weak(reading, left, right),
        }
    }

    /// Is right reached at some position, and left at every position before?
    fn until(self, left: Reach<'_>, right: Reach<'_>) -> bool {
        for s in self.whole {
            if right.at(*s) {
                return true;
            }
            if !left.at(*s) {
                return false;
            }
        }
        false
    }

    /// Are positions good as often as the reading asks, where left is reached or right has been?
    fn weak(self, reading: Reading, left: Reach<'_>, right: Reach<'_>) -> bool {
        let mut seen = false;
        let mut some = false;
        let mut all = true;
        for s in self.whole {
            seen = seen || right.at(*s);
            let good = seen || left.at(*s);
            some = some || good;
            all = all && good;
        }
        // After the loop has been gone round once, right has been reached or never will be.
        match reading {
            Reading::Sometime => some,
            Reading::InfinitelyOften => seen || self.round.iter().any(|s| left.at(*s)),
            Reading::EventuallyAlways => seen || self.round.iter().all(|s| left.at(*s)),
            Reading::Always => all,
        }
    }
}
