// Flushing: the oldest bytes first, to a stream whose answers are handed in.
ghost use Rattle.std.specs.Prelude.{◌≡◌, ◌+◌, ◌≤◌, length};
ghost use Rattle.defs.specs.Answer.{told, answer_of};
ghost use Rattle.defs.specs.Limits.{max_ring};
ghost use Rattle.txbuf.specs.Flush.{first_piece, second_piece, advanced, finish_of, FlushIn, flushed_or, flush_seen, FlushSays};

use crate::record::TxBuf;
use defs::{Refusal, StreamAnswer, StreamAnswers};

// What a flush took: how many bytes, and the ring without them.
#[derive(Clone, Copy, Debug, PartialEq, Eq)]
pub struct Flushed {
    pub count: usize,
    pub ring: TxBuf,
}

impl TxBuf {
    // The piece that a flush would offer first, as a part of the storage: from the tail to the
    // storage's end or the head, whichever is nearer.
    pub fn first_piece(self, storage: &[u8]) -> &[u8]
        ensures { result.now ≡ first_piece self storage.now }
    {
        if !self.is_sound_over(storage.len()) {
            return &storage[..0];
        }
        let at = (self.tail % self.size) as usize;
        let end = at + (storage.len() - at).min(self.used() as usize);
        &storage[at..end]
    }

    // The piece that a flush would offer next, were the first taken whole.
    pub fn second_piece(self, storage: &[u8]) -> &[u8]
        ensures { result.now ≡ second_piece self storage.now }
    {
        let first = self.first_piece(storage).len();
        self.advanced(first).first_piece(storage)
    }

    // Flushes the ring. A piece that is taken whole is followed by a flush of what is left, whose
    // bytes go behind it; nothing is written before that has answered too.
    pub fn flush_to(
        self,
        storage: &[u8],
        answers: StreamAnswers,
        out: &mut [u8],
    ) -> Result<Flushed, Refusal>
        ensures { FlushSays (record { ring = self; store = storage.now; answers = answers; out = out.old }) (flush_seen self result out.new) }
    {
        if !self.is_sound_over(storage.len()) {
            return Err(Refusal::BadRecord);
        }
        let nothing = Flushed {
            count: 0,
            ring: self,
        };
        let piece = self.first_piece(storage);
        if piece.is_empty() {
            return Ok(nothing);
        }
        let StreamAnswer::Count(count) = answers.first else {
            return answers.first.stopped_by().and(Ok(nothing));
        };
        if piece.len() < count {
            return Err(Refusal::BadAnswer);
        }
        if count < piece.len() {
            return self.finish(&piece[..count], Ok(nothing), out);
        }
        let behind = count.min(out.len());
        let left = StreamAnswers {
            first: answers.second,
            second: StreamAnswer::WouldBlock,
        };
        let rest = self
            .advanced(count)
            .flush_to(storage, left, &mut out[behind..]);
        self.finish(piece, rest, out)
    }

    // The ring with so many bytes taken from its tail.
    fn advanced(self, count: usize) -> TxBuf
        requires { count ≤ max_ring }
        ensures { result ≡ advanced self count }
    {
        let tail = self.tail.wrapping_add(count as u32);
        TxBuf { tail, ..self }
    }

    // A piece was taken, and `rest` tells of the flush of what was left, which wrote behind its
    // place: the piece goes to the front, unless the rest or the room forbids the whole flush.
    fn finish(
        self,
        piece: &[u8],
        rest: Result<Flushed, Refusal>,
        out: &mut [u8],
    ) -> Result<Flushed, Refusal>
        requires { length piece.now + (flushed_or self rest).count ≤ max_ring }
        ensures { flush_seen self result out.new ≡ finish_of self piece.now (told (answer_of rest)).number (flushed_or self rest).count out.old }
    {
        let more = match rest {
            Ok(flushed) => flushed.count,
            Err(refusal) => match refusal {
                Refusal::BadAnswer | Refusal::NoRoom => return Err(refusal),
                _ => 0,
            },
        };
        if out.len() < piece.len() {
            return Err(Refusal::NoRoom);
        }
        defs::copy(out, piece);
        let count = piece.len() + more;
        Ok(Flushed {
            count,
            ring: self.advanced(count),
        })
    }
}
