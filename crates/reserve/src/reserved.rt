//! A list with its memory taken once.
use std::marker::Model;

/// At most `MOST` values in order, with the memory for all of them taken when the list is made.
#[derive(Drop)]
pub struct Reserved<T, const MOST: usize> {
    pub(crate) values: Vec<T>,
}

impl<T, const MOST: usize> Model for Reserved<T, MOST> {
    ghost use Rattle.std.specs.Prelude.{◌≤◌, List, vec_len, vec_capacity};
    ghost use Rattle.std.specs.Coded.{coded_list};

    ghost Value = { List T };

    ghost coded = { coded_list T.code };

    ghost view = { λ r. r.values.items };

    ghost invariant = { λ r. (MOST ≤ vec_capacity r.values) × (vec_len r.values ≤ MOST) };
}
