//! Devices: sources of bytes, and sinks for them.
ghost use Rattle.std.specs.Prelude.{◌≡◌, ◌<◌, ◌≤◌, ◌++◌, [], Bool, List, ℕ, false, length, IsTrue, IfSome, Some, is_none};
ghost use Rattle.hek_rules.specs.Devices.{bytes_given};

mod adaptor;
mod memory;
mod writing;

pub use adaptor::{FromRead, FromWrite};
pub use memory::{Ending, MemorySink, MemorySource};
pub use writing::{WriteFault, put_all};

/// A source of bytes. A take is one read of a device.
pub trait Source {
    // The bytes that later takes give, if `tells` holds.
    ghost left: { Self → List ℕ };

    // Whether the bytes of later takes are known. An endless source, or a reader without a model, does not have this.
    ghost tells: { Self → Bool };

    // Whether a take has answered None.
    ghost failed: { Self → Bool };

    /// Fills the front of the buffer and answers how many bytes that are: 0 only at the end, or if the buffer is empty.
    /// None if the device answered an error.
    fn take(&mut self, buffer: &mut [u8]) -> Option<usize>
        requires { failed self.old ≡ false }
        ensures within { IfSome result (λ n. n ≤ length buffer.new) }
        ensures bytes { IsTrue (tells self.old) → left self.old ≡ bytes_given result buffer.new ++ left self.new }
        ensures end { IsTrue (tells self.old) → result ≡ Some 0 → 0 < length buffer.new → left self.new ≡ [] }
        ensures tells { IsTrue (tells self.old) → IsTrue (tells self.new) }
        ensures fails { failed self.new ≡ is_none result };
}

/// A sink for bytes. A put is one write of a device.
pub trait Sink {
    // The bytes that were put, if `tells` holds.
    ghost holds: { Self → List ℕ };

    // Whether the bytes that were put are known. A writer without a model does not have this.
    ghost tells: { Self → Bool };

    // Whether a put has answered None.
    ghost failed: { Self → Bool };

    /// Writes a front of the bytes and answers how many bytes that are, at least one if there are any. None if the
    /// device answered an error, or took no byte of some.
    fn put(&mut self, bytes: &[u8]) -> Option<usize>
        requires { failed self.old ≡ false }
        ensures within { IfSome result (λ n. n ≤ length bytes.now) }
        ensures moves { IfSome result (λ n. 0 < length bytes.now → 0 < n) }
        ensures bytes { IsTrue (tells self.old) → holds self.new ≡ holds self.old ++ bytes_given result bytes.now }
        ensures tells { IsTrue (tells self.old) → IsTrue (tells self.new) }
        ensures fails { failed self.new ≡ is_none result };
}
