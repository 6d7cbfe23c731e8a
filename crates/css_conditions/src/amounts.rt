//! Amounts: numbers, lengths in pixels, and resolutions in thousandths of a dot for each pixel.
ghost use Rattle.std.specs.Prelude.{◌≡◌, ◌<◌, Some};
ghost use Rattle.css_conditions.specs.Amounts.{is_number as is_number_of, is_same as is_same_of};
ghost use Rattle.css_conditions.specs.Amounts.{cross as cross_of, fitted as fitted_of, negated as negated_of};
ghost use Rattle.css_conditions.specs.Amounts.{sum_of, product_in as product_in_of, product_of};
ghost use Rattle.css_conditions.specs.Amounts.{inverse as inverse_of, quotient_in as quotient_in_of, quotient_of};
ghost use Rattle.css_conditions.specs.Amounts.{by_step, floor_of, rounded as rounded_of};

/// What an amount measures.
#[derive(Clone, Copy)]
pub enum Kind {
    /// It is a number.
    Number,
    /// It is a length.
    Length,
    /// It is a resolution.
    Resolution,
}

impl Kind {
    /// Whether it is a number.
    pub fn is_number(self) -> bool
        ensures { result ≡ is_number_of self }
    {
        matches!(self, Kind::Number)
    }

    /// Whether the other is the same.
    fn is_same(self, other: Kind) -> bool
        ensures { result ≡ is_same_of self other }
    {
        match self {
            Kind::Number => matches!(other, Kind::Number),
            Kind::Length => matches!(other, Kind::Length),
            Kind::Resolution => matches!(other, Kind::Resolution),
        }
    }
}

/// An amount: the difference of two numbers over a third.
#[derive(Clone, Copy)]
pub struct Amount {
    /// What it measures.
    pub kind: Kind,
    /// What counts for it.
    pub plus: u128,
    /// What counts against it.
    pub minus: u128,
    /// What both are over.
    pub over: u128,
}

/// A step of a calculation.
#[derive(Clone, Copy)]
pub enum Step {
    /// `+`
    Add,
    /// `-`
    Subtract,
    /// `*`
    Multiply,
    /// `/`
    Divide,
}

/// Adds two products, if the sum fits.
pub fn cross(a: u128, b: u128, c: u128, d: u128) -> Option<u128>
    ensures { result ≡ cross_of a b c d }
{
    match (a.checked_mul(b), c.checked_mul(d)) {
        (Some(one), Some(other)) => one.checked_add(other),
        _ => None,
    }
}

/// Returns the amount, if its numbers fit.
pub fn fitted(
    kind: Kind,
    plus: Option<u128>,
    minus: Option<u128>,
    over: Option<u128>,
) -> Option<Amount>
    ensures { result ≡ fitted_of kind plus minus over }
{
    match (plus, minus, over) {
        (Some(plus), Some(minus), Some(over)) => Some(Amount {
            kind,
            plus,
            minus,
            over,
        }),
        _ => None,
    }
}

impl Amount {
    /// Returns the opposite.
    pub fn negated(self) -> Amount
        ensures { result ≡ negated_of self }
    {
        Amount {
            kind: self.kind,
            plus: self.minus,
            minus: self.plus,
            over: self.over,
        }
    }

    /// Adds another of the same kind.
    fn sum(self, other: Amount) -> Option<Amount>
        ensures { result ≡ sum_of self other }
    {
        if !self.kind.is_same(other.kind) {
            return None;
        }
        fitted(
            self.kind,
            cross(self.plus, other.over, other.plus, self.over),
            cross(self.minus, other.over, other.minus, self.over),
            cross(self.over, other.over, 0, 0),
        )
    }

    /// Multiplies by another, to an amount of this kind.
    fn product_in(self, kind: Kind, other: Amount) -> Option<Amount>
        ensures { result ≡ product_in_of kind self other }
    {
        fitted(
            kind,
            cross(self.plus, other.plus, self.minus, other.minus),
            cross(self.plus, other.minus, self.minus, other.plus),
            cross(self.over, other.over, 0, 0),
        )
    }

    /// Multiplies by another, if one of them is a number.
    fn product(self, other: Amount) -> Option<Amount>
        ensures { result ≡ product_of self other }
    {
        if self.kind.is_number() {
            return self.product_in(other.kind, other);
        }
        if other.kind.is_number() {
            return self.product_in(self.kind, other);
        }
        None
    }

    /// Returns one over it, if it is not zero.
    fn inverse(self) -> Option<Amount>
        ensures { result ≡ inverse_of self }
    {
        if self.minus < self.plus {
            return Some(Amount {
                kind: self.kind,
                plus: self.over,
                minus: 0,
                over: self.plus - self.minus,
            });
        }
        if self.plus < self.minus {
            return Some(Amount {
                kind: self.kind,
                plus: 0,
                minus: self.over,
                over: self.minus - self.plus,
            });
        }
        None
    }

    /// Divides by another, to an amount of this kind.
    fn quotient_in(self, kind: Kind, other: Amount) -> Option<Amount>
        ensures { result ≡ quotient_in_of kind self (inverse_of other) }
    {
        match other.inverse() {
            None => None,
            Some(inverse) => self.product_in(kind, inverse),
        }
    }

    /// Divides by a number, or by an amount of the same kind, which gives a number.
    fn quotient(self, other: Amount) -> Option<Amount>
        ensures { result ≡ quotient_of self other }
    {
        if other.kind.is_number() {
            return self.quotient_in(self.kind, other);
        }
        if self.kind.is_same(other.kind) {
            return self.quotient_in(Kind::Number, other);
        }
        None
    }

    /// Takes a step of a calculation with another.
    pub fn step(self, step: Step, other: Amount) -> Option<Amount>
        ensures { result ≡ by_step step self other }
    {
        match step {
            Step::Add => self.sum(other),
            Step::Subtract => self.sum(other.negated()),
            Step::Multiply => self.product(other),
            Step::Divide => self.quotient(other),
        }
    }

    /// Returns the nearest whole number, the greater one of two.
    pub fn rounded(self) -> Option<Amount>
        ensures { result ≡ rounded_of self }
    {
        let plus = cross(2, self.plus, 1, self.over);
        let minus = cross(2, self.minus, 0, 0);
        match (plus, minus, cross(2, self.over, 0, 0)) {
            (Some(plus), Some(minus), Some(over)) if over != 0 => Some(floor(plus, minus, over)),
            _ => None,
        }
    }
}

/// Divides a difference, and leaves the fraction out.
fn floor(plus: u128, minus: u128, over: u128) -> Amount
    requires { 0 < over }
    ensures { Some result ≡ floor_of (Some plus) (Some minus) (Some over) }
{
    if minus <= plus {
        Amount {
            kind: Kind::Number,
            plus: (plus - minus) / over,
            minus: 0,
            over: 1,
        }
    } else {
        Amount {
            kind: Kind::Number,
            plus: 0,
            minus: 1,
            over: 1,
        }
    }
}
