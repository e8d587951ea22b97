ghost use Rattle.std.specs.Prelude.{◌≡◌, ◌<◌, length, vec_len, IfOk, MatchResult};
ghost use Rattle.strarr.specs.Endings.{ReadsWhole, StopsBehind, OutputWritten};
ghost use Rattle.strarr.specs.Pieces.{PieceRead};

use crate::status::Status;
use sa_base::{Got, Sink, Source, Took};
use std::alloc::{AllocError, Global};

/// One byte more than a script may have.
const LIMIT: usize = 4_194_305;

/// The most bytes that one read asks for.
const PIECE: usize = 65_536;

/// A buffer for a piece, of this many bytes.
fn buffer(alloc: Global, count: usize) -> Result<Vec<u8>, AllocError>
    ensures { IfOk result (λ bytes. vec_len bytes ≡ count) }
{
    vec![in alloc; 0u8; count]
}

/// Reads one piece, appends it to the text, and answers its length, which is 0 at the end alone.
fn read_piece<S: Source>(
    source: &mut S,
    piece: &mut [u8],
    text: &mut Vec<u8>,
) -> Result<usize, Status>
    requires some { 0 < length piece.old }
    requires within { vec_len text.old < 4194305 }
    ensures { PieceRead (S.stream source.old) (S.stream source.new) text.old.items text.new.items result }
{
    let asked = piece.len().min(LIMIT - text.len());
    let count = match source.read(&mut piece[..asked]) {
        Got::Bytes(count) => count,
        Got::End => return Ok(0),
        Got::Failed => return Err(Status::ReadFault),
    };
    if text.len() + count == LIMIT {
        return Err(Status::LongScript);
    }
    match text.extend_from_slice(&piece[..count]) {
        Ok(()) => Ok(count),
        Err(_) => Err(Status::NoMemory),
    }
}

/// Reads the input to its end, or to its first failed read, or until it is longer than a script may
/// be. The error is the status that says why it stopped.
pub fn read_all<S: Source>(alloc: Global, source: &mut S) -> Result<Vec<u8>, Status>
    ensures { MatchResult result
        (λ text. ReadsWhole (S.stream source.old) (S.stream source.new) text.items)
        (StopsBehind 0 (S.stream source.old) (S.stream source.new)) }
{
    let Ok(mut piece) = buffer(alloc, PIECE) else {
        return Err(Status::NoMemory);
    };
    let mut text = Vec::new(alloc);
    'pieces: for _ in 0..LIMIT {
        match read_piece(source, &mut piece, &mut text) {
            Ok(0) => return Ok(text),
            Ok(_) => {}
            Err(status) => return Err(status),
        }
    }
    unreachable!()
}

/// Writes the bytes, up to the first write that fails.
pub fn write_all<K: Sink>(sink: &mut K, bytes: &[u8]) -> Result<(), Status>
    ensures { OutputWritten (K.stream sink.old) (K.stream sink.new) bytes.now result }
{
    let mut done = 0usize;
    'pieces: for _ in 0..bytes.len() {
        if done == bytes.len() {
            return Ok(());
        }
        match sink.write(&bytes[done..]) {
            Took::Bytes(count) => done += count,
            Took::Failed => return Err(Status::WriteFault),
        }
    }
    Ok(())
}
