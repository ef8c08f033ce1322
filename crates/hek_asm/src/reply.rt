//! Replies as texts.
ghost use Rattle.std.specs.Prelude.{◌≡◌, ◌++◌, false, IsTrue, OnOk, is_err};
ghost use Rattle.hek_rules.specs.Lines.{joined_words};
ghost use Rattle.hek_asm.specs.Trace.{reply_words};

use crate::piece::reply_pieces;
use crate::writing::{put_pieces, write_pieces};
use hek_rules::{NoMemory, Reply, Sink, WriteFault};

/// Writes a reply as a trace has it. After a fault it is unknown how many bytes went out.
pub fn write_reply<S: Sink>(reply: &Reply, sink: &mut S) -> Result<(), WriteFault>
    requires { S.failed sink.old ≡ false }
    ensures ok { OnOk result (IsTrue (S.tells sink.old) → S.holds sink.new ≡ S.holds sink.old ++ joined_words (reply_words reply.now)) }
    ensures tells { IsTrue (S.tells sink.old) → IsTrue (S.tells sink.new) }
    ensures fails { S.failed sink.new ≡ is_err result }
{
    write_pieces(reply_pieces(reply).as_slice(), sink)
}

/// Appends a reply as a trace has it. After NoMemory a part of it may have been appended.
pub fn put_reply(reply: &Reply, out: &mut Vec<u8>) -> Result<(), NoMemory>
    ensures { OnOk result (out.new.items ≡ out.old.items ++ joined_words (reply_words reply.now)) }
{
    put_pieces(reply_pieces(reply).as_slice(), out)
}
