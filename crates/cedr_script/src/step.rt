use cedr_base::Text;

/// What went over a wire at one time.
pub enum WireStep {
    /// These bytes were read: none where the script has ended.
    Came(Text),
    /// A read was refused.
    Refused,
    /// These bytes were written.
    Went(Text),
}

impl Drop for WireStep {
    fn drop(self) {
        match self {
            WireStep::Came(_) => {}
            WireStep::Refused => {}
            WireStep::Went(_) => {}
        }
    }
}
