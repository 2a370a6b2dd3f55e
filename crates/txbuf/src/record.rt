// The ring's record: what is sound, and how much it holds.
ghost use Rattle.std.specs.Prelude.{◌≡◌};
ghost use Rattle.defs.specs.Answer.{told};
ghost use Rattle.defs.specs.Look.{flag_seen, FlagSays, len_seen, LenSays};
ghost use Rattle.txbuf.specs.Record.{used_of, sound_record, sound_of, is_empty, look_answer, NewLeft, NewSays};

use defs::{Answer, Refusal, limits};

// Offsets into the storage are head and tail modulo the size; both only rise, and wrap at 2^32.
#[repr(C)]
#[derive(Clone, Copy, Debug, Default, PartialEq, Eq)]
pub struct TxBuf {
    pub size: u32,
    pub head: u32,
    pub tail: u32,
}

// No Result: a refused opening gives a record too, the all-zero one.
#[derive(Clone, Copy, Debug, PartialEq, Eq)]
pub struct Opened {
    pub answer: Answer,
    pub ring: TxBuf,
}

impl TxBuf {
    // An empty ring of a given size; the all-zero record where no ring has that size.
    pub fn new(size: u32) -> Opened
        ensures { NewSays size (record { answer = told result.answer; ring = result.ring }) }
    {
        let answer = defs::record_answer(limits::is_ring_size(size));
        let zero = TxBuf::default();
        let ring = if answer.is_ok() {
            TxBuf { size, ..zero }
        } else {
            zero
        };
        Opened { answer, ring }
    }

    // How many bytes a sound ring holds.
    pub fn used(self) -> u32
        ensures { result ≡ used_of self }
    {
        self.head.wrapping_sub(self.tail)
    }

    // Whether the record is sound, no storage being lent.
    #[tactic(auto, unfolding(crate::specs::Record::sound_record))]
    pub fn is_sound(self) -> bool
        ensures { result ≡ sound_record self }
    {
        limits::is_ring_size(self.size) & (self.used() <= self.size)
    }

    // Whether it is sound over a storage of so many bytes.
    #[tactic(auto, unfolding(crate::specs::Record::sound_of))]
    pub fn is_sound_over(self, storage: usize) -> bool
        ensures { result ≡ sound_of self storage }
    {
        self.is_sound() & (storage == self.size as usize)
    }

    pub fn len(self) -> Result<usize, Refusal>
        ensures { LenSays (look_answer self) (used_of self) (len_seen result) }
    {
        defs::record_answer(self.is_sound()).and(Ok(self.used() as usize))
    }

    pub fn is_empty(self) -> Result<bool, Refusal>
        ensures { FlagSays (look_answer self) (is_empty self) (flag_seen result) }
    {
        defs::record_answer(self.is_sound()).and(Ok(self.used() == 0))
    }
}
