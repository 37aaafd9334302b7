//! The measures of a sale, and what sales come to.

ghost use Rattle.std.specs.Prelude.{◌≡◌, ◌+◌, ◌<◌, ◌≤◌, ◌↔◌, IsTrue, IfSome, IsSome};
ghost use Rattle.wh_report.specs.Sums.{nothing, with_line, plus, margin, IsUpTo, IsMeasured};

use std::marker::Model;

/// What one line of a ticket adds to a report: its quantity, and its amount and its cost in hundredths.
///
/// All three are additive: Kimball & Ross, *The Data Warehouse Toolkit*, 3rd edition, chapter 3, "Facts for Transaction
/// Schemas".
#[derive(Clone, Copy, Debug, PartialEq, Eq)]
pub struct Measures {
    quantity: i64,
    amount: i64,
    cost: i64,
}

impl Model for Measures {
    ghost use Rattle.wh_report.specs.Sums.{Measured, IsMeasured};

    ghost Value = { Measured };

    ghost view = { λ m. record { quantity = m.quantity; amount = m.amount; cost = m.cost } };

    ghost invariant = { λ m. IsMeasured (record { quantity = m.quantity; amount = m.amount; cost = m.cost }) };

    ghost inverse = { λ m. record { quantity = m.quantity; amount = m.amount; cost = m.cost } };
}

impl Measures {
    /// The measures, with the amount and the cost in hundredths, where they are within what a sale may have: a quantity up to 9,999, and an
    /// amount and a cost up to 999,999,999 hundredths, each with either sign.
    pub fn new(quantity: i64, amount: i64, cost: i64) -> Option<Measures>
        ensures some { IsSome result ↔ IsMeasured (record { quantity = quantity; amount = amount; cost = cost }) }
        ensures value { IfSome result (λ m. m ≡ record { quantity = quantity; amount = amount; cost = cost }) }
    {
        if is_quantity(quantity) && is_money(amount) && is_money(cost) {
            Some(Measures {
                quantity,
                amount,
                cost,
            })
        } else {
            None
        }
    }
}

fn is_quantity(quantity: i64) -> bool
    ensures { IsTrue result ↔ IsUpTo 9_999 quantity }
{
    -9_999 <= quantity && quantity <= 9_999
}

fn is_money(money: i64) -> bool
    ensures { IsTrue result ↔ IsUpTo 999_999_999 money }
{
    -999_999_999 <= money && money <= 999_999_999
}

/// How many lines of tickets there are, and what their measures come to. No figure overflows: so many lines as a `u32`
/// counts come to less than an `i64` holds, whatever their measures are. Amounts and costs are in hundredths.
#[derive(Clone, Copy, Debug, PartialEq, Eq)]
pub struct Totals {
    lines: u32,
    quantity: i64,
    amount: i64,
    cost: i64,
}

impl Model for Totals {
    ghost use Rattle.wh_report.specs.Sums.{Figures, AreFigures};

    ghost Value = { Figures };

    ghost view = { λ t. record { lines = t.lines; quantity = t.quantity; amount = t.amount; cost = t.cost } };

    ghost invariant = { λ t. AreFigures (record { lines = t.lines; quantity = t.quantity; amount = t.amount; cost = t.cost }) };

    ghost inverse = { λ f. record { lines = f.lines; quantity = f.quantity; amount = f.amount; cost = f.cost } };
}

impl Totals {
    /// The figures of no line.
    pub fn new() -> Totals
        ensures { result ≡ nothing }
    {
        Totals {
            lines: 0,
            quantity: 0,
            amount: 0,
            cost: 0,
        }
    }

    /// Whether no further line can be counted.
    pub fn is_full(&self) -> bool
        ensures { IsTrue result ↔ 4_294_967_295 ≤ self.now.lines }
    {
        self.lines == u32::MAX
    }

    /// Adds a line.
    pub fn add(&mut self, measures: Measures)
        requires { self.old.lines < 4_294_967_295 }
        ensures { self.new ≡ with_line measures self.old }
    {
        *self = self.with(measures);
    }

    fn with(self, measures: Measures) -> Totals
        requires { self.lines < 4_294_967_295 }
        ensures { result ≡ with_line measures self }
    {
        Totals {
            lines: self.lines + 1,
            quantity: self.quantity + measures.quantity,
            amount: self.amount + measures.amount,
            cost: self.cost + measures.cost,
        }
    }

    /// The figures of both, where so many lines can be counted.
    pub fn checked_add(self, other: Totals) -> Option<Totals>
        ensures some { IsSome result ↔ self.lines + other.lines ≤ 4_294_967_295 }
        ensures value { IfSome result (λ t. t ≡ plus self other) }
    {
        let lines = self.lines.checked_add(other.lines)?;
        Some(Totals {
            lines,
            quantity: self.quantity + other.quantity,
            amount: self.amount + other.amount,
            cost: self.cost + other.cost,
        })
    }

    /// How many lines of tickets there are.
    pub fn lines(self) -> u32
        ensures { result ≡ self.lines }
    {
        self.lines
    }

    /// What their quantities come to.
    pub fn quantity(self) -> i64
        ensures { result ≡ self.quantity }
    {
        self.quantity
    }

    /// What their amounts come to, in hundredths.
    pub fn amount(self) -> i64
        ensures { result ≡ self.amount }
    {
        self.amount
    }

    /// What their costs come to, in hundredths.
    pub fn cost(self) -> i64
        ensures { result ≡ self.cost }
    {
        self.cost
    }

    /// Amount less cost, in hundredths.
    pub fn margin(self) -> i64
        ensures { result ≡ margin self }
    {
        self.amount - self.cost
    }
}
