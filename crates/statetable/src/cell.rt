//! One cell: the word that stands in it, and the action that it is read as.
ghost use Rattle.std.specs.Prelude.{◌≡◌};
ghost use Rattle.statetable.specs.Cell.{decode};
ghost use Rattle.statetable.specs.Named.{action_of};

/// What the machine does at a cell: shift to a state, reduce by a production.
#[derive(Clone, Copy, Debug, PartialEq, Eq)]
pub enum Action {
    Error,
    Shift(u32),
    Reduce(u32),
    Accept,
}

/// Any word is read as a cell: its low two bits decide.
impl From<u32> for Action {
    ghost from_gives = { λ w a. action_of a ≡ decode w };

    #[tactic(auto, unfolding(crate::specs::Cell::decode))]
    fn from(w: u32) -> Self {
        let v = w / 4;
        match w % 4 {
            0 => Action::Error,
            1 => Action::Shift(v),
            2 => Action::Reduce(v),
            _ => Action::Accept,
        }
    }
}
