//! Sinks: what takes bytes.
ghost use Rattle.std.specs.Prelude.{◌≡◌, ◌≤◌, ℕ, List, Option, OnOk, IsErrOf};
ghost use Rattle.std.specs.Io.KnownBytes.{Appends};
ghost use Rattle.mre_outside.specs.Failures.{Rose};
ghost use Rattle.mre_outside.specs.Sinks.{AppendsPrefix};

use mre_base::NoMemory;

/// Why a sink didn't take all the bytes.
#[derive(Clone, Copy, Debug, PartialEq, Eq)]
pub enum SinkStop {
    /// Writing failed, or took nothing. A prefix of the bytes may be written.
    Failed,
    /// Memory ran out. The sink is as it was.
    NoMemory,
}

impl From<NoMemory> for SinkStop {
    ghost use Rattle.std.specs.Prelude.{◌≡◌};
    ghost use Rattle.mre_outside.specs.declared.sink.SinkStop.TheVariants.{NoMemory};

    ghost from_gives = { λ _ stop. stop ≡ NoMemory };

    fn from(_failure: NoMemory) -> SinkStop {
        SinkStop::NoMemory
    }
}

/// What takes bytes: a terminal, a file, a buffer.
pub trait Sink {
    /// The bytes that it holds, where they are known. Once known, they stay known.
    ghost written: { Self → Option (List ℕ) };

    /// How often it has failed. The count stops at the largest `u64`.
    ghost failures: { Self → ℕ };

    /// No write on it fails.
    ghost is_sound: { Self → Type 0 } = { λ _. ⊥ };

    /// Puts all the bytes at the end.
    fn write_all(&mut self, bytes: &[u8]) -> Result<(), SinkStop>
        ensures ok { OnOk result (Appends (written self.old) (written self.new) bytes.now) }
        ensures part { IsErrOf result SinkStop.Failed
            → AppendsPrefix (written self.old) (written self.new) bytes.now }
        ensures no_memory { IsErrOf result SinkStop.NoMemory → written self.new ≡ written self.old }

        // It answers `Failed` only where the count of failures rose, and that never falls.
        ensures failed { IsErrOf result SinkStop.Failed → Rose (failures self.old) (failures self.new) }
        ensures no_failure { IsErrOf result SinkStop.NoMemory → failures self.new ≡ failures self.old }
        ensures never_falls { failures self.old ≤ failures self.new }

        ensures sound { is_sound self.old → ¬ IsErrOf result SinkStop.Failed }
        ensures stays_sound { is_sound self.old → is_sound self.new };
}
