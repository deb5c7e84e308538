ghost use Rattle.std.specs.Prelude.{◌≡◌};
ghost use Rattle.worker_outlets.specs.Outgoing.{last_message};

use cedr_base::Message;

/// The message that a list of messages ends with.
#[derive(Clone, Copy, PartialEq, Eq)]
pub enum Last {
    End,
    Broken,
}

impl Last {
    /// The message itself.
    pub fn message(self) -> Message
        ensures { result ≡ last_message self }
    {
        match self {
            Last::End => Message::End,
            Last::Broken => Message::Broken,
        }
    }
}
