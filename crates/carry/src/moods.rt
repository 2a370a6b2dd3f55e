// The script of the stream's moods: a character for each write that is due, over and over.

// How the stream takes a write: as it comes, not at all (it blocks), or at most so many bytes.
#[derive(Clone, Copy, PartialEq, Eq)]
pub enum Mood {
    Any,
    Pause,
    Most(u8),
}

impl Mood {
    fn of(character: u8) -> Option<Mood> {
        match character {
            b'.' => Some(Mood::Any),
            b'p' => Some(Mood::Pause),
            b'1'..=b'9' => Some(Mood::Most(character - b'0')),
            _ => None,
        }
    }
}

#[derive(Clone, Copy)]
pub struct Moods<'a>(&'a [u8]);

impl<'a> Moods<'a> {
    // Each character is a mood, and not all of them are pauses: else nothing would ever be taken.
    pub fn new(script: &'a [u8]) -> Option<Moods<'a>> {
        let good = script.iter().all(|c| Mood::of(*c).is_some());
        let takes = script.is_empty() || script.iter().any(|c| Mood::of(*c) != Some(Mood::Pause));
        (good && takes).then_some(Moods(script))
    }

    // The mood at a place of the script; without a script the stream is as it comes.
    pub fn at(self, place: usize) -> Mood {
        self.0
            .get(place)
            .and_then(|c| Mood::of(*c))
            .unwrap_or(Mood::Any)
    }

    // The place after a write: the first again after the last.
    pub fn after(self, place: usize) -> usize {
        if place < self.0.len().saturating_sub(1) {
            place + 1
        } else {
            0
        }
    }
}
