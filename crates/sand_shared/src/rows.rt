//! The rows of a grid that a pass holds.

ghost use Rattle.std.specs.Prelude.{◌≡◌, ◌≤◌, ◌+◌, ◌<◌, ◌^◌, ◌||◌};
ghost use Rattle.sand_shared.specs.Rows.{rows_between, count_of, upper_rows, lower_rows, rows_follow, rows_together};

/// Rows of a grid, from `first` up to `end`, which is one past the last. Both are 0 if there are none.
#[derive(Clone, Copy, Debug, PartialEq, Eq)]
pub(crate) struct Rows {
    pub(crate) first: u16,
    pub(crate) end: u16,
}

impl Rows {
    /// The rows from `first` up to `end`, or none.
    pub(crate) fn between(first: u16, end: u16) -> Rows
        ensures { result ≡ rows_between first end }
    {
        if first < end {
            Rows { first, end }
        } else {
            Rows { first: 0, end: 0 }
        }
    }

    pub(crate) fn count(self) -> u16
        requires { self.first ≤ self.end }
        ensures { result ≡ count_of self }
    {
        self.end - self.first
    }

    /// All but the last `count` rows, and those.
    pub(crate) fn cut(self, count: u16) -> (Rows, Rows)
        requires { self.first + count ≤ self.end }
        ensures upper { result.0 ≡ upper_rows self count }
        ensures lower { result.1 ≡ lower_rows self count }
    {
        let middle = self.end - count;
        (
            Rows::between(self.first, middle),
            Rows::between(middle, self.end),
        )
    }

    /// Whether `other` is empty or begins where these rows end.
    pub(crate) fn are_followed_by(self, other: Rows) -> bool
        ensures { result ≡ rows_follow self other }
    {
        other.first == other.end || other.first == self.end
    }

    /// Whether either is empty, or one begins where the other ends.
    pub(crate) fn touch(self, other: Rows) -> bool
        ensures { result ≡ (rows_follow self other || rows_follow other self) }
    {
        self.are_followed_by(other) || other.are_followed_by(self)
    }

    /// The rows of both, if they touch.
    pub(crate) fn together(self, other: Rows) -> Rows
        requires ordered { (self.first ≤ self.end) × (other.first ≤ other.end) }
        requires fits { self.end + other.end < 2 ^ 16 }
        ensures { result ≡ rows_together self other }
    {
        if self.are_followed_by(other) {
            Rows {
                first: self.first,
                end: self.end + other.count(),
            }
        } else {
            Rows {
                first: other.first,
                end: other.end + self.count(),
            }
        }
    }
}
