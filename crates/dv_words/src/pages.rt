//! Which pages are asked for.
ghost use Rattle.std.specs.Prelude.{◌≡◌};

use std::marker::Model;

/// The pages from the first one that has the first number to the next one that has the last.
#[derive(Clone, Copy, Debug, PartialEq, Eq)]
pub struct Window {
    pub first: i64,
    pub last: i64,
}

/// Windows, in the order in which they are asked for.
#[derive(Drop)]
pub struct WindowList(pub Vec<Window>);

impl Model for WindowList {
    ghost use Rattle.std.specs.Prelude.{List};
    ghost use Rattle.dv_words.specs.declared.pages.Window.{Window};

    ghost Value = { List Window };

    ghost view = { λ windows. windows.0.items };
}

impl WindowList {
    /// The windows.
    pub fn as_slice(&self) -> &[Window]
        ensures { result.now ≡ self.now }
    {
        &self.0
    }
}

/// The pages that are asked for, before parity and limit.
#[derive(Drop)]
pub enum Windows {
    /// All pages.
    All,
    /// The pages from the first number on, up to the last; physical numbers count the pages from 1, others are TeX's count 0.
    One {
        first: Option<i64>,
        last: Option<i64>,
        physical: bool,
    },
    /// The pages of several windows by count 0, each page once and in file order.
    Many(WindowList),
}

/// Which pages stay, by TeX's count 0.
#[derive(Clone, Copy, Debug, PartialEq, Eq)]
pub enum Parity {
    /// All pages.
    All,
    /// The pages with an odd number.
    Odd,
    /// The pages with an even number.
    Even,
}
