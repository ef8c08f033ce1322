//! Lines that go out part by part, to any sink: a list of bytes is one.
ghost use Rattle.std.specs.Prelude.{◌≡◌, ◌++◌, ◌∷◌, [], false, codes, map, IsOk, IsTrue, OnOk, is_err};
ghost use Rattle.std.specs.Fmt.{decimal};
ghost use Rattle.std.specs.List.{flat_map};
ghost use Rattle.hek_rules.specs.Lines.{spaced};
ghost use Rattle.hek_asm.specs.Pieces.{piece_bytes, pieces_bytes};
ghost use Rattle.hek_asm.specs.Trace.{pair_word};

use crate::piece::Piece;
use hek_rules::{FromWrite, NoMemory, Sink, TxnId, WriteFault, put_all};
use itoa::Buffer;
use std::mem;

fn write_texts<S: Sink>(texts: &[&str], sink: &mut S) -> Result<(), WriteFault>
    requires { S.failed sink.old ≡ false }
    ensures ok { OnOk result (IsTrue (S.tells sink.old) → S.holds sink.new ≡ S.holds sink.old ++ flat_map (λ text. text.now) texts.now) }
    ensures tells { IsTrue (S.tells sink.old) → IsTrue (S.tells sink.new) }
    ensures fails { S.failed sink.new ≡ is_err result }
{
    for text in texts {
        put_all(sink, text.as_bytes())?;
    }
    Ok(())
}

// A text, and a number behind it.
fn write_number<S: Sink>(front: &str, number: u64, sink: &mut S) -> Result<(), WriteFault>
    requires { S.failed sink.old ≡ false }
    ensures ok { OnOk result (IsTrue (S.tells sink.old) → S.holds sink.new ≡ S.holds sink.old ++ (front.now ++ decimal number)) }
    ensures tells { IsTrue (S.tells sink.old) → IsTrue (S.tells sink.new) }
    ensures fails { S.failed sink.new ≡ is_err result }
{
    let mut digits = Buffer::new();
    write_texts([front, digits.format(number)].as_slice(), sink)
}

fn write_pair<S: Sink>(pair: (u64, u64), sink: &mut S) -> Result<(), WriteFault>
    requires { S.failed sink.old ≡ false }
    ensures ok { OnOk result (IsTrue (S.tells sink.old) → S.holds sink.new ≡ S.holds sink.old ++ spaced (pair_word pair ∷ [])) }
    ensures tells { IsTrue (S.tells sink.old) → IsTrue (S.tells sink.new) }
    ensures fails { S.failed sink.new ≡ is_err result }
{
    let (key, value) = pair;
    let mut key_digits = Buffer::new();
    let mut value_digits = Buffer::new();
    write_texts(
        [" ", key_digits.format(key), "=", value_digits.format(value)].as_slice(),
        sink,
    )
}

fn write_pairs<S: Sink>(pairs: &[(u64, u64)], sink: &mut S) -> Result<(), WriteFault>
    requires { S.failed sink.old ≡ false }
    ensures ok { OnOk result (IsTrue (S.tells sink.old) → S.holds sink.new ≡ S.holds sink.old ++ spaced (map pair_word pairs.now)) }
    ensures tells { IsTrue (S.tells sink.old) → IsTrue (S.tells sink.new) }
    ensures fails { S.failed sink.new ≡ is_err result }
{
    for pair in pairs {
        write_pair(*pair, sink)?;
    }
    Ok(())
}

// The word `cycle` and the transactions.
fn write_cycle<S: Sink>(members: &[TxnId], sink: &mut S) -> Result<(), WriteFault>
    requires { S.failed sink.old ≡ false }
    ensures ok { OnOk result (IsTrue (S.tells sink.old) → S.holds sink.new ≡ S.holds sink.old ++ spaced (codes "cycle" ∷ map decimal members.now)) }
    ensures tells { IsTrue (S.tells sink.old) → IsTrue (S.tells sink.new) }
    ensures fails { S.failed sink.new ≡ is_err result }
{
    put_all(sink, b" cycle".as_slice())?;
    for member in members {
        write_number(" ", member.number(), sink)?;
    }
    Ok(())
}

fn write_piece<S: Sink>(piece: Piece<'_>, sink: &mut S) -> Result<(), WriteFault>
    requires { S.failed sink.old ≡ false }
    ensures ok { OnOk result (IsTrue (S.tells sink.old) → S.holds sink.new ≡ S.holds sink.old ++ piece_bytes piece.entry) }
    ensures tells { IsTrue (S.tells sink.old) → IsTrue (S.tells sink.new) }
    ensures fails { S.failed sink.new ≡ is_err result }
{
    match piece {
        Piece::Nothing => Ok(()),
        Piece::Text(text) => put_all(sink, text.as_bytes()),
        Piece::Word(word) => write_texts([" ", word].as_slice(), sink),
        Piece::Name(name) => write_texts([name, " "].as_slice(), sink),
        Piece::Number(number) => write_number("", number, sink),
        Piece::Item(number) => write_number(" ", number, sink),
        Piece::Writer(number) => write_number(" writer ", number, sink),
        Piece::Pairs(pairs) => write_pairs(pairs, sink),
        Piece::Cycle(members) => write_cycle(members, sink),
    }
}

/// Writes the parts of a line. After a fault it is unknown how many bytes went out.
pub(crate) fn write_pieces<S: Sink>(pieces: &[Piece<'_>], sink: &mut S) -> Result<(), WriteFault>
    requires { S.failed sink.old ≡ false }
    ensures ok { OnOk result (IsTrue (S.tells sink.old) → S.holds sink.new ≡ S.holds sink.old ++ pieces_bytes pieces.now) }
    ensures tells { IsTrue (S.tells sink.old) → IsTrue (S.tells sink.new) }
    ensures fails { S.failed sink.new ≡ is_err result }
{
    for piece in pieces {
        write_piece(*piece, sink)?;
    }
    Ok(())
}

/// Takes the bytes out of a list, as a sink that appends to them. It fails only where memory is refused.
pub(crate) fn appending(out: &mut Vec<u8>) -> FromWrite<Vec<u8>>
    ensures { result ≡ record { inner = out.old; failed = false } }
{
    let alloc = *out.allocator();
    FromWrite::new(mem::replace(out, Vec::new(alloc)))
}

/// Puts the bytes back that a sink has, and answers what came of the writing.
pub(crate) fn put_back(
    sink: FromWrite<Vec<u8>>,
    written: Result<(), WriteFault>,
    out: &mut Vec<u8>,
) -> Result<(), NoMemory>
    ensures written { OnOk result (IsOk written) }
    ensures bytes { out.new.items ≡ sink.inner.items }
{
    *out = sink.into_inner();
    match written {
        Ok(()) => Ok(()),
        Err(_) => Err(NoMemory),
    }
}

/// Appends the parts of a line. After NoMemory some of them may have been appended.
pub(crate) fn put_pieces(pieces: &[Piece<'_>], out: &mut Vec<u8>) -> Result<(), NoMemory>
    ensures { OnOk result (out.new.items ≡ out.old.items ++ pieces_bytes pieces.now) }
{
    let mut sink = appending(out);
    let written = write_pieces(pieces, &mut sink);
    put_back(sink, written, out)
}
