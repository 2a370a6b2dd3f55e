// The record of both queues, and what they do alike with its places.
ghost use Rattle.std.specs.Prelude.{◌≡◌, ◌≤◌, ◌<◌, true, [], ◌∷◌, ◌++◌, length, take, drop};
ghost use Rattle.defs.specs.Answer.{told};
ghost use Rattle.defs.specs.Ladder.{record_answer};
ghost use Rattle.defs.specs.Look.{flag_seen, len_seen};
ghost use Rattle.queue.specs.Queued.{NewSays, PushBackSays};
ghost use Rattle.queue.specs.Look.{SyncedSays, LengthSays, EmptySays, FullSays, PeekSays, peek_seen, front_of};
ghost use Rattle.queue.specs.Pop.{PopFrontSays, pop_seen};
ghost use Rattle.queue.specs.Queue.{clear_q, sound_q, items, empty_of, holding, front_gone};
ghost use Rattle.queue.specs.Arrays.{arrays, is_limit};
ghost use Rattle.queue.specs.Fill.{TakeInSays};

use crate::has_room;
use crate::item::Item;
use defs::{Answer, Refusal};

// The front is at place 0, and the places from `len` on hold the zero item. `N` is the largest limit.
#[derive(Clone, Copy)]
pub struct Queue<T, const N: usize> {
    pub q: [T; N],
    pub len: usize,
    pub limit: usize,
    pub synced: bool,
}

// A queue that a call makes or changes, and its answer. No Result: a refused build gives a queue
// too, an empty one, and a push that is turned down loses sync.
#[derive(Clone, Copy)]
pub struct Queued<T, const N: usize> {
    pub answer: Answer,
    pub queue: Queue<T, N>,
}

// What a pop gives of the front item, where one goes, and the queue that it leaves.
#[derive(Clone, Copy)]
pub struct Popped<G, T, const N: usize> {
    pub given: Result<Option<G>, Refusal>,
    pub queue: Queue<T, N>,
}

impl<T: Item, const N: usize> Queue<T, N> {
    // An empty, synced queue of a given limit; of limit 0 where no queue has that limit.
    pub fn new(limit: usize) -> Queued<T, N>
        ensures { NewSays (arrays N T.zero_item T.is_zero) limit (record { answer = told result.answer; queue = result.queue }) }
    {
        let answer = defs::record_answer(Self::is_limit(limit));
        let limit = if answer.is_ok() { limit } else { 0 };
        Queued {
            answer,
            queue: Self::empty(limit),
        }
    }

    // Whether a queue may have this limit.
    fn is_limit(limit: usize) -> bool
        ensures { result ≡ is_limit N limit }
    {
        (1..=N).contains(&limit)
    }

    // Its limit in range, its length within the limit, and the zero item in every place past that.
    pub fn is_sound(&self) -> bool
        ensures { result ≡ sound_q (arrays N T.zero_item T.is_zero) self.now }
    {
        Self::is_limit(self.limit) && self.len <= self.limit && self.is_clear()
    }

    // Whether every place past the length holds the zero item.
    fn is_clear(&self) -> bool
        ensures { result ≡ clear_q (arrays N T.zero_item T.is_zero) self.now }
    {
        self.q.iter().skip(self.len).all(|item| item.is_zero())
    }

    // 1 where it is not sound, and else done.
    pub fn answer(&self) -> Answer
        ensures { result ≡ record_answer (sound_q (arrays N T.zero_item T.is_zero) self.now) }
    {
        defs::record_answer(self.is_sound())
    }

    pub fn is_synced(self) -> Result<bool, Refusal>
        ensures { SyncedSays (arrays N T.zero_item T.is_zero) self (flag_seen result) }
    {
        self.answer().and(Ok(self.synced))
    }

    pub fn len(self) -> Result<usize, Refusal>
        ensures { LengthSays (arrays N T.zero_item T.is_zero) self (len_seen result) }
    {
        self.answer().and(Ok(self.len))
    }

    pub fn is_empty(self) -> Result<bool, Refusal>
        ensures { EmptySays (arrays N T.zero_item T.is_zero) self (flag_seen result) }
    {
        self.answer().and(Ok(self.len == 0))
    }

    pub fn is_full(self) -> Result<bool, Refusal>
        ensures { FullSays (arrays N T.zero_item T.is_zero) self (flag_seen result) }
    {
        self.answer().and(Ok(self.len == self.limit))
    }

    // The front item, if there is one.
    pub fn peek(self) -> Result<Option<T>, Refusal>
        ensures { PeekSays (arrays N T.zero_item T.is_zero) self (peek_seen T.zero_item result) }
    {
        self.answer().and(Ok(self.front()))
    }

    // The same of a queue that is known to be sound.
    pub fn front(&self) -> Option<T>
        ensures { result ≡ front_of (items (arrays N T.zero_item T.is_zero) self.now) }
    {
        if self.len == 0 {
            return None;
        }
        self.q.first().copied()
    }

    // An empty, synced queue.
    pub fn empty(limit: usize) -> Self
        ensures { result ≡ empty_of (arrays N T.zero_item T.is_zero) limit }
    {
        Queue {
            q: [T::default(); N],
            len: 0,
            limit,
            synced: true,
        }
    }

    // Behind the others where there is room; else it is turned down, and sync is lost.
    pub fn push_back(mut self, item: T) -> Queued<T, N>
        ensures { PushBackSays (arrays N T.zero_item T.is_zero) item self (record { answer = told result.answer; queue = result.queue }) }
    {
        let answer = self.answer();
        let Ok(()) = answer else {
            return Queued {
                answer,
                queue: self,
            };
        };
        if has_room(self.synced, self.len, self.limit) {
            self.q[self.len] = item;
            self.len += 1;
            return Queued {
                answer,
                queue: self,
            };
        }
        self.synced = false;
        Queued {
            answer: Err(Refusal::NotQueued),
            queue: self,
        }
    }

    // The front item, if there is one: the others move up, and the place that becomes free gets the
    // zero item. Sync is as it was, also where the queue has room again: only a build restores it.
    pub fn pop_front(mut self) -> Popped<T, T, N>
        ensures { PopFrontSays (arrays N T.zero_item T.is_zero) self (pop_seen T.zero_item result.given result.queue) }
    {
        let given = self.peek();
        match given {
            Ok(Some(_)) => {
                move_up(&mut self.q, self.len, T::default());
                self.len -= 1;
            }
            Ok(None) => {}
            Err(_) => {}
        }
        Popped { given, queue: self }
    }

    // One of the items that a queue is built from, front first, of which it holds as many as its limit
    // goes: it goes behind the others, or is one too many, and sync is lost. Nothing else is looked at.
    pub fn take_in(&mut self, item: T)
        ensures { TakeInSays (arrays N T.zero_item T.is_zero) item self.old self.new }
    {
        if self.len < self.limit && self.len < N {
            self.q[self.len] = item;
            self.len += 1;
        } else {
            self.synced = false;
        }
    }
}

// Of the first `n` places each takes what stood behind it, the last one `last`.
fn move_up<T: Copy>(places: &mut [T], n: usize, last: T)
    requires { (0 < n) × (n ≤ length places.old) }
    ensures { places.new ≡ drop 1 (take n places.old) ++ last ∷ drop n places.old }
{
    places[..n].rotate_left(1);
    places[n - 1] = last;
}
