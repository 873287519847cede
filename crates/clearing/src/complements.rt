// The forms of a row and its complement.
ghost use Rattle.std.specs.Prelude.{◌≡◌, ◌+◌, ◌<◌, ◌≤◌, [], ◌∷◌};
ghost use Rattle.rules.specs.declared.row.Row.TheVariants.{OfType};
ghost use Rattle.rules.specs.Clear.{added as added_rows, turn as turned_rows, outside as outside_rows, below as below_lower, above as above_upper, under as under_lower, over as over_upper, around_range, around_bounds, adds as adds_rows, other_type};
ghost use Rattle.clearing.specs.Adding.{EndsBelow, Gives, nowhere, listed};

use crate::added::{Added, NewRows};
use crate::fixed::FALSE_ROW;
use rules::place::Place;
use rules::row::{Bounds, Range, Row, ValueType};

// The row of the k-th type, t left out.
fn other_type(t: ValueType, k: u16) -> u16
    requires { k < 5 }
    ensures { result ≡ other_type t k }
{
    if k < u16::from(t) { k } else { k + 1 }
}

// The counts below a lower end.
fn below(lower: u16) -> Option<Range>
    ensures { result ≡ below_lower lower }
{
    lower.checked_sub(1).map(|upper| Range {
        lower: 0,
        upper: Some(upper),
    })
}

// The counts above an upper end.
fn above(upper: Option<u16>) -> Option<Range>
    requires { EndsBelow upper }
    ensures { result ≡ above_upper upper }
{
    upper.map(|u| Range {
        lower: u + 1,
        upper: None,
    })
}

// The numbers below a lower bound.
fn under(lower: Option<u16>) -> Option<Bounds>
    ensures { result ≡ under_lower lower }
{
    lower.map(|i| Bounds {
        lower: None,
        upper: Some(i),
    })
}

// The numbers above an upper bound.
fn over(upper: Option<u16>) -> Option<Bounds>
    ensures { result ≡ over_upper upper }
{
    upper.map(|i| Bounds {
        lower: Some(i),
        upper: None,
    })
}

// The next free row of the cleared book, from which on rows are added. A book has at most 2048.
#[derive(Clone, Copy)]
pub(crate) struct FreeRow {
    pub(crate) number: u16,
    ghost few: { number ≤ 2048 },
}

impl FreeRow {
    // A row and its complement.
    pub(crate) fn pair(self, row: Row, complement: Row) -> Added
        ensures { listed result ≡ added_rows (row ∷ complement ∷ []) self.number (self.number + 1) }
    {
        let s = self.number;
        Added::new(NewRows::Two([row, complement]), s, s + 1)
    }

    // The row and, for values of its type, the turned row.
    pub(crate) fn turn(self, t: ValueType, row: Row, back: Row) -> Added
        ensures { listed result ≡ turned_rows t self.number row back }
    {
        let s = self.number;
        let typed = Row::And(u16::from(t), s + 1);
        Added::new(NewRows::Three([row, back, typed]), s, s + 2)
    }

    // A row on the row at this place and, for values of its type, the turned row on its complement.
    pub(crate) fn turn_on<F: FnOnce(u16) -> Row, G: FnOnce(u16) -> Row>(
        self,
        t: ValueType,
        place: Place,
        row: F,
        back: G,
    ) -> Added
        requires row { F.IsAlwaysCallable row }
        requires back { G.IsAlwaysCallable back }
        ensures { (x y : _) × F.post row place.positive x × G.post back place.negative y × (listed result ≡ turned_rows t self.number x y) }
    {
        self.turn(t, row(place.positive), back(place.negative))
    }

    // A row on the rows at two places, and the turned row on their complements.
    pub(crate) fn pair_on<F: FnOnce(u16, u16) -> Row, G: FnOnce(u16, u16) -> Row>(
        self,
        x: Place,
        y: Place,
        row: F,
        back: G,
    ) -> Added
        requires row { F.IsAlwaysCallable row }
        requires back { G.IsAlwaysCallable back }
        ensures { (a b : _) × F.post row x.positive y.positive a × G.post back x.negative y.negative b × (listed result ≡ added_rows (a ∷ b ∷ []) self.number (self.number + 1)) }
    {
        self.pair(row(x.positive, y.positive), back(x.negative, y.negative))
    }

    // The row and, for values of its type, the sides that it leaves out.
    fn outside(self, t: ValueType, row: Row, low: Option<Row>, high: Option<Row>) -> Added
        ensures { listed result ≡ outside_rows t self.number row low high }
    {
        let s = self.number;
        match (low, high) {
            (None, None) => Added::new(NewRows::One([row]), s, FALSE_ROW),
            (Some(side), None) | (None, Some(side)) => self.turn(t, row, side),
            (Some(low), Some(high)) => {
                let sides = Row::Or(s + 1, s + 2);
                let typed = Row::And(u16::from(t), s + 3);
                Added::new(NewRows::Five([row, low, high, sides, typed]), s, s + 4)
            }
        }
    }

    // A row on counts, and the counts that its range leaves out.
    pub(crate) fn around_range<F: Fn(Range) -> Row>(
        self,
        t: ValueType,
        row: F,
        range: Range,
    ) -> Added
        requires row { F.IsAlwaysCallable row }
        requires ends { EndsBelow range.upper }
        ensures { (f : _) → Gives (F.post row) f → listed result ≡ around_range t self.number f range }
    {
        let low = below(range.lower).map(&row);
        let high = above(range.upper).map(&row);
        self.outside(t, row(range), low, high)
    }

    // A row on numbers, and the numbers that its bounds leave out, by the turned row.
    // Beside the one on counts, since there the sides are asked by the row itself and here by another.
    pub(crate) fn around_bounds<F: FnOnce(Bounds) -> Row, G: Fn(Bounds) -> Row>(
        self,
        row: F,
        back: G,
        bounds: Bounds,
    ) -> Added
        requires row { F.IsAlwaysCallable row }
        requires back { G.IsAlwaysCallable back }
        ensures { (f g : _) → Gives (F.post row) f → Gives (G.post back) g → listed result ≡ around_bounds self.number f g bounds }
    {
        let low = under(bounds.lower).map(&back);
        let high = over(bounds.upper).map(&back);
        self.outside(ValueType::Number, row(bounds), low, high)
    }

    // A type, and the other five joined.
    pub(crate) fn of_type(self, t: ValueType) -> Added
        ensures { listed result ≡ adds_rows (λ _. nowhere) 0 self.number (OfType t) }
    {
        let s = self.number;
        let rows = [
            Row::Or(other_type(t, 0), other_type(t, 1)),
            Row::Or(s, other_type(t, 2)),
            Row::Or(s + 1, other_type(t, 3)),
            Row::Or(s + 2, other_type(t, 4)),
        ];
        Added::new(NewRows::Four(rows), u16::from(t), s + 3)
    }
}
