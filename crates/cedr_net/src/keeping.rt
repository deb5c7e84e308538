ghost use Rattle.std.specs.Prelude.{◌≡◌};
ghost use Rattle.cedr_net.specs.Keeping.{keeps_all, hands_on, is_next};

/// What a network keeps of the messages that its output gave.
#[derive(Clone, Copy)]
pub(crate) enum Keeping {
    /// The table of their changes.
    Rows,
    /// The table, and the changes.
    Changes,
    /// The messages from the one of this number on, from 0, and nothing else: those before it were taken.
    Messages(u64),
}

impl Keeping {
    pub(crate) fn keeps_changes(self) -> bool
        ensures { result ≡ keeps_all self }
    {
        match self {
            Keeping::Changes => true,
            Keeping::Rows | Keeping::Messages(_) => false,
        }
    }

    pub(crate) fn hands_on(self) -> bool
        ensures { result ≡ hands_on self }
    {
        match self {
            Keeping::Messages(_) => true,
            Keeping::Rows | Keeping::Changes => false,
        }
    }

    /// Whether messages are handed on, and the one of a number is the first that wasn't taken.
    pub(crate) fn is_next(self, number: u64) -> bool
        ensures { result ≡ is_next self number }
    {
        match self {
            Keeping::Messages(first) => first == number,
            Keeping::Rows | Keeping::Changes => false,
        }
    }
}
