//! Writing to a sink.
ghost use Rattle.std.specs.Prelude.{◌≡◌, ◌++◌, false, IsTrue, OnOk, is_err};

use super::Sink;
use thiserror::Error;

/// The fault of a write: the sink has failed.
#[derive(Clone, Copy, Debug, PartialEq, Eq, Error)]
pub enum WriteFault {
    #[error("cannot write")]
    Write,
}

/// Writes all the bytes. After a fault, any number of them may have been written.
pub fn put_all<S: Sink>(sink: &mut S, bytes: &[u8]) -> Result<(), WriteFault>
    requires { S.failed sink.old ≡ false }
    ensures ok { OnOk result (IsTrue (S.tells sink.old) → S.holds sink.new ≡ S.holds sink.old ++ bytes.now) }
    ensures tells { IsTrue (S.tells sink.old) → IsTrue (S.tells sink.new) }
    ensures fails { S.failed sink.new ≡ is_err result }
{
    let mut rest = bytes;
    while !rest.is_empty() {
        match sink.put(rest) {
            Some(count) => rest = rest.split_at(count).1,
            None => return Err(WriteFault::Write),
        }
    }
    Ok(())
}
