//! What contracts see of the passes. No value of these types is made.

use std::marker::Model;

/// Which lock a pass is of.
#[derive(Drop)]
pub struct LockName {
    unmade: (),
}

impl Model for LockName {
    ghost use Rattle.atomic_table.specs.Seated.{TableId, table_id_coded};
    ghost use Rattle.book_seat.specs.Seated.{no_lock};

    ghost Value = { TableId };

    ghost coded = { table_id_coded };

    ghost view = { λ _. no_lock };
}

/// What no call of the desk's pass changes: its lock, and how many workers' passes are out.
#[derive(Drop)]
pub struct DeskPost {
    unmade: (),
}

impl Model for DeskPost {
    ghost use Rattle.book_seat.specs.Seated.{Post, no_lock};

    ghost Value = { Post };

    ghost view = { λ _. record { home = no_lock; out = 0 } };
}
