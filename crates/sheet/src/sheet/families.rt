ghost use Rattle.std.specs.Prelude.{◌≡◌, ◌<◌, ◌≤◌, ◌^◌};
ghost use Rattle.account.specs.Families.{digits};

use answers::family::Family;

// A step of 2 ^ power columns.
#[derive(Clone, Copy)]
pub(crate) struct Step {
    power: usize,
    ghost few: { power ≤ 6 },
}

impl Step {
    fn columns(self) -> usize
        ensures { result ≡ 2 ^ self.power }
    {
        1 << self.power
    }
}

// A level of a family with its step, or with half its step at Brent-Kung.
#[derive(Clone, Copy)]
pub(crate) enum Level {
    Sklansky(Step),
    KoggeStone(Step),
    BrentKungUp(Step),
    BrentKungDown(Step),
    HanCarlsonFirst,
    HanCarlson(Step),
    HanCarlsonLast,
}

impl Level {
    ghost use Rattle.std.specs.Prelude.{MatchOption};
    ghost use Rattle.sheet.specs.Levels.{rule_of};

    // The column whose node is joined below that of column i, if any.
    pub(crate) fn partner(self, i: usize) -> Option<usize>
        requires { i < 64 }
        ensures partner { result ≡ rule_of self i }
        ensures near { MatchOption result (0 ≤ i) (λ j. j ≤ i) }
    {
        match self {
            Level::Sklansky(step) => {
                let step = step.columns();
                (i / step % 2 == 1).then_some((i - i % step).saturating_sub(1))
            }
            Level::KoggeStone(step) => i.checked_sub(step.columns()),
            Level::BrentKungUp(half) => {
                let half = half.columns();
                ((i + 1) % (2 * half) == 0).then_some(i.saturating_sub(half))
            }
            Level::BrentKungDown(half) => {
                let half = half.columns();
                let step = 2 * half;
                (i + 1 > step && (i + 1) % step == half).then_some(i.saturating_sub(half))
            }
            Level::HanCarlsonFirst => (i % 2 == 1).then_some(i.saturating_sub(1)),
            Level::HanCarlson(step) => {
                let step = step.columns();
                (i % 2 == 1 && i > step).then_some(i.saturating_sub(step))
            }
            Level::HanCarlsonLast => (i % 2 == 0 && i >= 2).then_some(i.saturating_sub(1)),
        }
    }
}

// The levels of a family from the one at `turn` on, where the last column's number has so many digits.
#[derive(Drop)]
pub(crate) struct Levels {
    family: Family,
    digits: usize,
    turn: usize,
    ghost few: { (digits ≤ 6) × (turn ≤ 11) },
}

impl Levels {
    ghost use Rattle.std.specs.Prelude.{MatchOption, length, slice_index_or};
    ghost use Rattle.account.specs.Families.{idle, levels};
    ghost use Rattle.answers.specs.FamilyNumbers.{number_of};
    ghost use Rattle.sheet.specs.Levels.{rest, rule_of, rules_of};

    // All levels of a family, up to that last column.
    #[tactic(auto, using(account::proofs::Digits::digits_counted, account::proofs::Digits::digits_few))]
    pub(crate) fn of(family: Family, last: usize) -> Levels
        requires { last < 64 }
        ensures { rest result ≡ levels (number_of family) (digits last) }
    {
        let digits = (usize::BITS - last.leading_zeros()) as usize;
        Levels {
            family,
            digits,
            turn: 0,
        }
    }

    // The level whose turn it is, if there is one.
    #[tactic(auto, using(account::proofs::Laying::turns))]
    fn level(&self) -> Option<Level>
        ensures { MatchOption result (length (rules_of self.now) ≤ self.now.turn) (λ l. (self.now.turn < length (rules_of self.now)) × (rule_of l ≡ slice_index_or (rules_of self.now) self.now.turn idle)) }
    {
        let (k, turn) = (self.digits, self.turn);
        match self.family {
            Family::Sklansky if turn < k => Some(Level::Sklansky(Step { power: turn })),
            Family::KoggeStone if turn < k => Some(Level::KoggeStone(Step { power: turn })),
            Family::BrentKung if turn < k => Some(Level::BrentKungUp(Step { power: turn })),
            Family::BrentKung if turn + 1 < 2 * k => {
                Some(Level::BrentKungDown(Step {
                    power: 2 * k - 2 - turn,
                }))
            }
            Family::HanCarlson if turn == 0 => Some(Level::HanCarlsonFirst),
            Family::HanCarlson if turn < k => Some(Level::HanCarlson(Step { power: turn })),
            Family::HanCarlson if turn == k.max(1) => Some(Level::HanCarlsonLast),
            _ => None,
        }
    }
}

impl Iterator for Levels {
    ghost use Rattle.std.specs.Iterator.{YieldsFirstBy, item_count};
    ghost use Rattle.sheet.specs.Levels.{rest, rule_of};

    type Item = Level;

    ghost next_gives = { YieldsFirstBy rule_of rest };

    ghost remaining = { item_count rest };

    #[tactic(auto, using(crate::proofs::Levels::levels_few))]
    fn next(&mut self) -> Option<Level> {
        let level = self.level()?;
        self.turn += 1;
        Some(level)
    }
}
