ghost use Rattle.std.specs.Prelude.{◌≡◌};
ghost use Rattle.tap_host.specs.Status.{host_exit_code};

/// How the run of a node ended.
///
/// Rule: docs/NETWORK.md, "Exit statuses".
#[derive(Clone, Copy, Debug, PartialEq, Eq)]
pub enum HostStatus {
    /// The input ended after a whole line, or had none.
    Done,
    /// A read failed.
    ReadFault,
    /// The words are none of the program.
    Usage,
    /// A line is too long.
    TooLong,
    /// The input ended within a line.
    Cut,
    /// A write failed.
    WriteFault,
    /// The node has no room for one more step or no numbers for the frames of one, or 2^64 - 1 lines were taken.
    NoRoom,
    /// Memory was refused.
    NoMemory,
}

impl HostStatus {
    /// The exit status of a program that ends so.
    ///
    /// Rule: docs/NETWORK.md, "Exit statuses".
    pub fn exit_code(&self) -> u8
        ensures { result ≡ host_exit_code self.now }
    {
        match self {
            HostStatus::Done => 0,
            HostStatus::ReadFault => 1,
            HostStatus::Usage => 2,
            HostStatus::TooLong | HostStatus::Cut => 3,
            HostStatus::WriteFault => 4,
            HostStatus::NoRoom => 5,
            HostStatus::NoMemory => 6,
        }
    }
}
