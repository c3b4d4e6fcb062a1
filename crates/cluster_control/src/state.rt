//! The state of a cluster.
ghost use Rattle.std.specs.Prelude.{◌≡◌};
ghost use Rattle.cluster_control.specs.State.{state_of, words_of};

/// What the control file says that the server does, or did last (`catalog/pg_control.h`, `DBState`).
#[derive(Clone, Copy, Debug, PartialEq, Eq)]
pub enum ClusterState {
    StartingUp,
    /// The server was stopped, and wrote all that it had.
    ShutDown,
    /// A standby was stopped.
    ShutDownInRecovery,
    ShuttingDown,
    InCrashRecovery,
    InArchiveRecovery,
    InProduction,
    /// A number above 6, which stands for no state.
    Other(u32),
}

impl ClusterState {
    // The state that a number stands for.
    pub(crate) fn from_number(number: u32) -> ClusterState
        ensures { result ≡ state_of number }
    {
        match number {
            0 => ClusterState::StartingUp,
            1 => ClusterState::ShutDown,
            2 => ClusterState::ShutDownInRecovery,
            3 => ClusterState::ShuttingDown,
            4 => ClusterState::InCrashRecovery,
            5 => ClusterState::InArchiveRecovery,
            6 => ClusterState::InProduction,
            other => ClusterState::Other(other),
        }
    }

    /// The state in words, to stand behind 'the cluster is'.
    pub fn words(self) -> &'static str
        ensures { result.now ≡ words_of self }
    {
        match self {
            ClusterState::StartingUp => "starting up",
            ClusterState::ShutDown => "shut down",
            ClusterState::ShutDownInRecovery => "shut down in recovery",
            ClusterState::ShuttingDown => "shutting down",
            ClusterState::InCrashRecovery => "in crash recovery",
            ClusterState::InArchiveRecovery => "in archive recovery",
            ClusterState::InProduction => "in production",
            ClusterState::Other(_) => "in an unknown state",
        }
    }
}
