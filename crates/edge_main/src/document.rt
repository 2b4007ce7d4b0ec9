ghost use Rattle.std.specs.Prelude.{◌≡◌, ◌≢◌, ◌≤◌, ◌<◌, Err, length, take, vec_len, IfOk, OnOk, OnErr};
ghost use Rattle.std.specs.Io.KnownBytes.{Keeps, IsAtEnd};
ghost use Rattle.edge_outside.specs.Faults.{Rose};
ghost use Rattle.edge_outside.specs.Told.{Gave};
ghost use Rattle.edge_main.specs.Document.{KeepsWhole, TookDocument, reading_status};

use crate::kept::Kept;
use crate::statuses::Status;
use edge_base::Memory;
use edge_outside::{Failed, Source};
use std::alloc::{AllocError, Global};

/// The most bytes that are taken.
const INPUT_MAX: u64 = 1 << 40;

/// How many bytes are read at a time, at most.
const PIECE: usize = 1 << 16;

/// What ends the reading of a document before its end.
#[derive(Clone, Copy, Debug, PartialEq, Eq)]
pub enum ReadingFault {
    Read,
    Memory,
    /// 2^40 bytes were taken.
    LongInput,
}

impl ReadingFault {
    /// How a run ends that this has ended.
    pub fn status(self) -> Status
        ensures { result ≡ reading_status self }
    {
        match self {
            ReadingFault::Read => Status::ReadFault,
            ReadingFault::Memory => Status::Memory,
            ReadingFault::LongInput => Status::LongInput,
        }
    }
}

impl From<Memory> for ReadingFault {
    ghost use Rattle.edge_main.specs.declared.document.ReadingFault.TheVariants as fault;

    ghost from_gives = { λ _ given. given ≡ fault.Memory };

    fn from(_refused: Memory) -> ReadingFault {
        ReadingFault::Memory
    }
}

impl From<AllocError> for ReadingFault {
    ghost use Rattle.edge_main.specs.declared.document.ReadingFault.TheVariants as fault;

    ghost from_gives = { λ _ given. given ≡ fault.Memory };

    fn from(_refused: AllocError) -> ReadingFault {
        ReadingFault::Memory
    }
}

/// Room for what is read at a time.
fn room_of(alloc: Global) -> Result<Vec<u8>, AllocError>
    ensures { IfOk result (λ room. 0 < vec_len room) }
{
    Vec::from_elem(alloc, 0, PIECE)
}

/// Reads at most `most` bytes to the front of a piece.
fn read_piece<S: Source>(source: &mut S, piece: &mut [u8], most: usize) -> Result<usize, Failed>
    requires some { 0 < most }
    requires room { 0 < length piece.old }
    ensures size { length piece.new ≡ length piece.old }
    ensures bound { IfOk result (λ count. count ≤ length piece.old) }
    ensures most { IfOk result (λ count. count ≤ most) }
    ensures gave { IfOk result (λ count. Gave S.left S.taken source.old source.new (take count piece.new)) }
    ensures end { IfOk result (λ count. count ≡ 0 → IsAtEnd (S.left source.new)) }
    ensures err { OnErr result (Keeps (S.left source.old) (S.left source.new)) }
    ensures err_told { OnErr result (Keeps (S.taken source.old) (S.taken source.new)) }
    ensures kept { OnOk result (S.faults source.new ≡ S.faults source.old) }
    ensures failed { OnErr result (Rose (S.faults source.old) (S.faults source.new)) }
    ensures later { S.faults source.old ≤ S.faults source.new }
{
    let end = most.min(piece.len());
    source.read(&mut piece[..end])
}

/// Reads the input to its end, a piece at a time, and keeps it as far as a document may reach.
fn read_whole<S: Source>(
    alloc: Global,
    input: &mut S,
    piece: &mut [u8],
) -> Result<Kept, ReadingFault>
    requires room { 0 < length piece.old }
    ensures kept { IfOk result (KeepsWhole (S.left input.old) (S.left input.new)) }
    ensures took { TookDocument (S.left input.old) (S.left input.new) (S.taken input.old) (S.taken input.new) result }
    ensures read { result ≡ Err ReadingFault.Read → Rose (S.faults input.old) (S.faults input.new) }
    ensures input_kept { result ≢ Err ReadingFault.Read → S.faults input.new ≡ S.faults input.old }
{
    let mut kept = Kept::new(alloc);
    let mut taken = 0;
    'reading: loop {
        let most = INPUT_MAX - taken;
        if most == 0 {
            return Err(ReadingFault::LongInput);
        }
        match read_piece(input, piece, most as usize) {
            Err(Failed) => return Err(ReadingFault::Read),
            Ok(0) => return Ok(kept),
            Ok(count) => {
                taken += count as u64;
                kept.add(&piece[..count])?;
            }
        }
    }
}

/// Reads the input to its end, and keeps it as far as a document may reach.
pub fn document_of<S: Source>(alloc: Global, input: &mut S) -> Result<Kept, ReadingFault>
    ensures kept { IfOk result (KeepsWhole (S.left input.old) (S.left input.new)) }
    ensures took { TookDocument (S.left input.old) (S.left input.new) (S.taken input.old) (S.taken input.new) result }
    ensures read { result ≡ Err ReadingFault.Read → Rose (S.faults input.old) (S.faults input.new) }
    ensures input_kept { result ≢ Err ReadingFault.Read → S.faults input.new ≡ S.faults input.old }
{
    let mut room = room_of(alloc)?;
    read_whole(alloc, input, &mut room)
}
