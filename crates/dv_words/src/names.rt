//! Lists of names.
ghost use Rattle.std.specs.Prelude.{◌≡◌, map};

use dv_base::FileName;
use std::marker::Model;

/// Names of files, in order.
#[derive(Drop)]
pub struct Names(pub Vec<FileName>);

impl Model for Names {
    ghost use Rattle.std.specs.Prelude.{ℕ, List, map};
    ghost use Rattle.dv_base.specs.FileName.{text_of};

    ghost Value = { List (List ℕ) };

    ghost view = { λ names. map text_of names.0.items };
}

impl Names {
    ghost use Rattle.dv_base.specs.FileName.{text_of};

    /// The names.
    pub fn as_slice(&self) -> &[FileName]
        ensures { map text_of result.now ≡ self.now }
    {
        &self.0
    }
}
